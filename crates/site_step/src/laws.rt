//! Laws of what the calls of a site do, each as the contract of a function that does nothing.

ghost use Rattle.std.specs.Prelude.{◌≡◌, ◌≢◌, ◌≤◌, ◌⊎◌, ◌++◌, ℕ, List, [], Some};
ghost use Rattle.std.specs.List.{flat_map};
ghost use Rattle.field_bounds.specs.declared.entry.Command.{Command};
ghost use Rattle.field_bounds.specs.declared.entry.Command.TheVariants.{Restart};
ghost use Rattle.field_bounds.specs.declared.entry.Reply.{Reply};
ghost use Rattle.field_bounds.specs.declared.entry.Reply.TheVariants.{Refused, StillDown};
ghost use Rattle.field_bounds.specs.declared.entry.Refusal.{Refusal};
ghost use Rattle.field_bounds.specs.Owed.{max_epoch};
ghost use Rattle.kept_records.specs.declared.medium.Mishap.{Mishap};
ghost use Rattle.kept_records.specs.declared.medium.Mishap.TheVariants.{Never, Cut, Read};
ghost use Rattle.kept_records.specs.declared.record.Record.{Record};
ghost use Rattle.kept_records.specs.Logs.{IsLog};
ghost use Rattle.kept_records.specs.Text.{text};
ghost use Rattle.kept_records.specs.Stands.{greatest};
ghost use Rattle.site_step.specs.Site.{SiteValue, Holds, owed_under, Applies, HoldsLog};
ghost use Rattle.site_step.specs.Calls.{Call, Leads, IsSure, AreSure};

/// Over a medium that is known not to fail, as one in memory, no answer of a site is in doubt and
/// no restart of it fails, and it is known still that the medium won't fail: of one call (`call`,
/// `stays`), and of any number of calls one after another (`calls`, `lasts`). That the site's
/// medium holds a log is what `Site::history` tells.
pub fn nothing_in_doubt()
    ensures call { (before later : SiteValue) (command : Command) (reply : Reply)
        → HoldsLog before →
        before.foretold ≡ Some Never → Applies before command reply later → IsSure reply }
    ensures stays { (before later : SiteValue) (command : Command) (reply : Reply) →
        before.foretold ≡ Some Never → Applies before command reply later
        → later.foretold ≡ Some Never }
    ensures calls { (before later : SiteValue) (calls : List Call) → HoldsLog before →
        before.foretold ≡ Some Never → Leads before calls later → AreSure calls }
    ensures lasts { (before later : SiteValue) (calls : List Call) →
        before.foretold ≡ Some Never → Leads before calls later → later.foretold ≡ Some Never }
{}

/// No call drops a whole line. What a call leaves on the medium begins with the lines that stood
/// there (`lines`), whatever the command, its reply and the mishap; and over a log with no torn end
/// it begins with all that stood there, so that a call only appends (`all`). That the site's medium
/// holds such lines is what `Site::history` tells.
pub fn no_line_is_dropped()
    ensures lines { (before later : SiteValue) (rs : List Record) (rest : List ℕ)
        (command : Command) (reply : Reply) → IsLog before.bytes rs rest →
        Applies before command reply later →
        (added : List ℕ) × (later.bytes ≡ flat_map text rs ++ added) }
    ensures all { (before later : SiteValue) (rs : List Record) (command : Command)
        (reply : Reply) → IsLog before.bytes rs [] → Applies before command reply later →
        (added : List ℕ) × (later.bytes ≡ before.bytes ++ added) }
{}

/// What the contract of a call leaves no room for, whatever the body, which can't see what mishap
/// is foretold:
///
/// - A refusal leaves the medium's bytes and the mishap that is foretold for it as they were
///   (`refused`).
/// - A restart cuts nothing where the last epoch is kept, so that it is refused before anything is
///   cut: under a mishap for cuts it doesn't fail (`full`).
/// - Nor does it cut where no bytes stand behind the last line feed (`whole`).
/// - A restart reads first, at the last epoch too: under a mishap for reads it fails, and the
/// mishap
///   is used up (`read`).
/// - No other command cuts or reads: under a mishap for one of these its reply is the one that it
/// has
///   where none strikes, and the mishap is still to come (`others`).
pub fn no_needless_cut_or_failure()
    ensures refused { (before later : SiteValue) (command : Command) (refusal : Refusal) →
        Applies before command (Refused refusal) later →
        (later.bytes ≡ before.bytes) × (later.foretold ≡ before.foretold) }
    ensures full { (before later : SiteValue) (rs : List Record) (rest : List ℕ) (reply : Reply) →
        Holds before.schema before.site.0 before.bytes rs rest → before.foretold ≡ Some Cut
        → max_epoch ≤ greatest rs →
        Applies before Restart reply later → reply ≢ StillDown }
    ensures whole { (before later : SiteValue) (rs : List Record) (reply : Reply) →
        Holds before.schema before.site.0 before.bytes rs [] → before.foretold ≡ Some Cut →
        Applies before Restart reply later → reply ≢ StillDown }
    ensures read { (before later : SiteValue) (rs : List Record) (rest : List ℕ) (reply : Reply) →
        Holds before.schema before.site.0 before.bytes rs rest → before.foretold ≡ Some Read →
        Applies before Restart reply later →
        (reply ≡ StillDown) × (later.foretold ≡ Some Never) }
    ensures others { (before later : SiteValue) (rs : List Record) (rest : List ℕ) (mishap : Mishap)
        (command : Command) (reply : Reply) →
        Holds before.schema before.site.0 before.bytes rs rest → before.foretold ≡ Some mishap →
        ((mishap ≡ Cut) ⊎ (mishap ≡ Read)) → command ≢ Restart
        → Applies before command reply later →
        (reply ≡ owed_under before rs rest command Never) × (later.foretold ≡ before.foretold) }
{}
