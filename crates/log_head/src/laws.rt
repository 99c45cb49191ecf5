//! What heads and horizons tell, as contracts of functions that do nothing.

ghost use Rattle.std.specs.Prelude.{◌≡◌, ◌≢◌, ◌++◌, ◌||◌, ℕ, Bool, List};
ghost use Rattle.field_bounds.specs.declared.id.TxnId.{TxnId as Txn};
ghost use Rattle.site_folder.specs.Identity.{IdentityValue, IsIdentity, HaveOneName, log_name, sealed_log_name, trace_name};
ghost use Rattle.log_head.specs.declared.gone.Gone.{Gone as GoneValue};
ghost use Rattle.log_head.specs.Heads.{IsGone, shortened_name};
ghost use Rattle.log_head.specs.Horizons.{HorizonValue, IsHorizonOf, IsRight, ReachesFurther, answer_of};

/// Bytes that begin with the heads of two shortened logs are of one site: of one number, in worlds of
/// one name (`apart`). So the log of another site, put in the place of a site's own, doesn't begin with
/// a head of it. No bytes begin with the head of a shortened log and with the name of one that isn't
/// (`plain`, `sealed`), or of a trace (`kinds`).
pub fn heads_tell_sites_apart()
    ensures apart { (v w : IdentityValue) (gone other : GoneValue) (rest more : List ℕ)
        → IsIdentity v → IsIdentity w
        → shortened_name v gone ++ rest ≡ shortened_name w other ++ more → HaveOneName v w }
    ensures plain { (v w : IdentityValue) (gone : GoneValue) (rest more : List ℕ)
        → shortened_name v gone ++ rest ≢ log_name w ++ more }
    ensures sealed { (v w : IdentityValue) (gone : GoneValue) (rest more : List ℕ)
        → shortened_name v gone ++ rest ≢ sealed_log_name w ++ more }
    ensures kinds { (v w : IdentityValue) (gone : GoneValue) (rest more : List ℕ)
        → shortened_name v gone ++ rest ≢ trace_name w ++ more }
{}

/// The bytes of a site's log tell one thing to be gone, and one rest.
pub fn one_head_tells_one_thing()
    ensures { (v : IdentityValue) (gone other : GoneValue) (rest more : List ℕ) → IsGone gone
        → IsGone other → shortened_name v gone ++ rest ≡ shortened_name v other ++ more
        → (gone ≡ other) × (rest ≡ more) }
{}

/// What is answered of a commit is right of all records, those that are gone included, if the horizon
/// is true of these.
pub fn kept_answers_are_right()
    ensures right { (horizon : HorizonValue) (txn : Txn) (gone held : Txn → Bool)
        → IsHorizonOf horizon gone
        → IsRight (answer_of horizon txn (held txn)) (gone txn || held txn) }
{}

/// A horizon that reaches further is true where more records are gone, if the one before was true of
/// those that were gone then.
pub fn horizons_reach_further()
    ensures further { (old new : HorizonValue) (gone more : Txn → Bool) → IsHorizonOf old gone
        → ReachesFurther old new more → IsHorizonOf new (λ txn. gone txn || more txn) }
{}
