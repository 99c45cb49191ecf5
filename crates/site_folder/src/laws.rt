//! What the names of files and the texts of worlds tell, as contracts of functions that do nothing.

ghost use Rattle.std.specs.Prelude.{◌≡◌, ◌≢◌, ◌++◌, ℕ, List};
ghost use Rattle.site_folder.specs.Identity.{IdentityValue, IsIdentity, world_text, log_name, sealed_log_name, trace_name, HaveOneName, AreOneWorld};

/// Bytes that begin with the names of two logs are of one site: of one number, in worlds of one
/// name (`apart`). So the log of another site, put in the place of a site's own, doesn't begin with
/// its name. So too of logs of version 2 (`sealed`), and of traces (`traces`). No bytes begin with the
/// names of logs of both versions (`versions`), or with the name of a log of either and with that of a
/// trace (`kinds`, `sealed_kinds`).
pub fn names_tell_sites_apart()
    ensures apart { (v w : IdentityValue) (rest more : List ℕ) → IsIdentity v → IsIdentity w
        → log_name v ++ rest ≡ log_name w ++ more → HaveOneName v w }
    ensures sealed { (v w : IdentityValue) (rest more : List ℕ) → IsIdentity v → IsIdentity w
        → sealed_log_name v ++ rest ≡ sealed_log_name w ++ more → HaveOneName v w }
    ensures traces { (v w : IdentityValue) (rest more : List ℕ) → IsIdentity v → IsIdentity w
        → trace_name v ++ rest ≡ trace_name w ++ more → HaveOneName v w }
    ensures kinds { (v w : IdentityValue) (rest more : List ℕ)
        → log_name v ++ rest ≢ trace_name w ++ more }
    ensures sealed_kinds { (v w : IdentityValue) (rest more : List ℕ)
        → sealed_log_name v ++ rest ≢ trace_name w ++ more }
    ensures versions { (v w : IdentityValue) (rest more : List ℕ)
        → log_name v ++ rest ≢ sealed_log_name w ++ more }
{}

/// Worlds whose texts are alike have the same name of their own, or both none, and the same header. So
/// a world with a name is told from all worlds of its header that have another one or none. The name
/// of a world is the SHA-256 of its text: nothing is said of two texts with one SHA-256.
pub fn worlds_have_texts_of_their_own()
    ensures { (v w : IdentityValue) → IsIdentity v → IsIdentity w
        → world_text v.name v.header ≡ world_text w.name w.header → AreOneWorld v w }
{}
