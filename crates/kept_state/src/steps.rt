//! Laws of one more entry: what its reply leaves on the medium, where the record in doubt stands
//! then, and that the record may be written. Each is the contract of a function that does nothing.

ghost use Rattle.std.specs.Prelude.{◌≡◌, ◌≢◌, ℕ, ◌+◌, ◌<◌, ◌≤◌, if◌then◌else◌, List, [], ◌∷◌, ◌++◌, length, Bool, true, false, Option, Some, None};
ghost use Rattle.std.specs.List.{AllByRecursion};
ghost use Rattle.field_bounds.specs.declared.id.SiteNo.{SiteNo};
ghost use Rattle.field_bounds.specs.declared.entry.Last.{Last};
ghost use Rattle.field_bounds.specs.declared.entry.Last.TheVariants.{Kept, Lost};
ghost use Rattle.field_bounds.specs.declared.entry.Entry.{Entry};
ghost use Rattle.field_bounds.specs.declared.entry.Command.TheVariants.{Restart};
ghost use Rattle.field_bounds.specs.declared.entry.Command.{Command};
ghost use Rattle.field_bounds.specs.declared.entry.Reply.{Reply};
ghost use Rattle.field_bounds.specs.declared.entry.Reply.TheVariants.{Restarted, Unsure, StillDown, Refused};
ghost use Rattle.field_bounds.specs.declared.entry.Refusal.{Refusal};
ghost use Rattle.field_bounds.specs.Schema.{SchemaValue};
ghost use Rattle.field_bounds.specs.Limits.{IsSchema};
ghost use Rattle.field_bounds.specs.Effects.{Base};
ghost use Rattle.field_bounds.specs.Owed.{Place, place, first, refusals, answer, writes, is_up, epoch_of, is_unsure, max_epoch, TellsDoubt, IsRun};
ghost use Rattle.kept_records.specs.declared.record.Record.{Record};
ghost use Rattle.kept_records.specs.declared.record.Record.TheVariants as records;
ghost use Rattle.kept_records.specs.Text.{IsRecord};
ghost use Rattle.kept_records.specs.Stands.{greatest, may_follow, Lawful};
ghost use Rattle.kept_state.specs.Keeps.{IsCutWithin, record_left, adds, entry_at, Keeps, IsBase};
ghost use Rattle.kept_state.specs.Doubt.{found_of, IsDoubt};

/// What each reply leaves behind the records `rs` that a site's entries `o` have left. An answer
/// leaves the record of its command, if it writes one (`answered`), and a refusal leaves nothing
/// (`refused`). A reply in doubt leaves the record or not (`unsure`), and so does a restart that
/// failed (`still_down`): `stood` tells which. A restart leaves its record, in the greatest epoch
/// and one more, and tells what it found by the place of the record in doubt (`restarted`).
pub fn replies_leave()
    ensures answered { (schema : SchemaValue) (s : ℕ) (base : Base) (bs : List Record) (kept : Bool)
        (o : List Entry) (rs : List Record) (site : SiteNo) (command : Command) →
        Keeps schema s base bs kept o rs → command ≢ Restart →
        Keeps schema s base bs kept (entry_at site command (answer (place schema s base o) command)
        ∷ o)
        (rs ++ record_left (place schema s base o) command) }
    ensures refused { (schema : SchemaValue) (s : ℕ) (base : Base) (bs : List Record) (kept : Bool)
        (o : List Entry) (rs : List Record) (site : SiteNo) (command : Command)
        (refusal : Refusal) →
        Keeps schema s base bs kept o rs →
        Keeps schema s base bs kept (entry_at site command (Refused refusal) ∷ o) rs }
    ensures unsure { (schema : SchemaValue) (s : ℕ) (base : Base) (bs : List Record) (kept : Bool)
        (o : List Entry) (rs : List Record) (site : SiteNo) (command : Command) (stood : Bool) →
        Keeps schema s base bs kept o rs → is_up base o ≡ true →
        Keeps schema s base bs stood (entry_at site command Unsure ∷ o)
        (rs ++ adds (place schema s base o) command Unsure stood rs) }
    ensures still_down { (schema : SchemaValue) (s : ℕ) (base : Base) (bs : List Record)
        (kept : Bool)
        (o : List Entry) (rs : List Record) (site : SiteNo) (command : Command) (stood : Bool) →
        Keeps schema s base bs kept o rs →
        Keeps schema s base bs kept (entry_at site command StillDown ∷ o)
        (rs ++ adds (place schema s base o) command StillDown stood rs) }
    ensures restarted { (schema : SchemaValue) (s : ℕ) (base : Base) (bs : List Record)
        (kept later : Bool) (o : List Entry) (rs : List Record) (site : SiteNo) (command : Command)
        (doubt : Option ℕ) → Keeps schema s base bs kept o rs → IsDoubt kept o rs doubt →
        Keeps schema s base bs later
        (entry_at site command (Restarted (greatest rs + 1) (found_of doubt rs)) ∷ o)
        (rs ++ records.Restart (greatest rs + 1) ∷ []) }
{}

/// Where the record in doubt stands after one more reply. A reply in doubt puts its record behind
/// all those before it (`unsure`); a restart that failed (`still_down`) and a refusal (`refused`)
/// leave it where it is. Where nothing is in doubt, any other reply leaves nothing in doubt
/// (`sure`), and so does a restart (`restarted`).
///
/// A restart tells of a record in doubt exactly where there is one (`tells`), and that it is kept
/// exactly where it is (`finds`).
pub fn doubt_is_settled()
    ensures unsure { (at : Place) (site : SiteNo) (command : Command) (o : List Entry)
        (rs : List Record) (stood : Bool) → writes at command ≡ true →
        IsDoubt stood (entry_at site command Unsure ∷ o) (rs ++ adds at command Unsure stood rs)
        (Some (length rs)) }
    ensures still_down { (at : Place) (site : SiteNo) (command : Command) (kept : Bool)
        (o : List Entry) (rs : List Record) (stood : Bool) (doubt : Option ℕ) →
        IsDoubt kept o rs doubt →
        IsDoubt kept (entry_at site command StillDown ∷ o)
        (rs ++ adds at command StillDown stood rs) doubt }
    ensures refused { (site : SiteNo) (command : Command) (refusal : Refusal) (kept : Bool)
        (o : List Entry) (rs : List Record) (doubt : Option ℕ) → IsDoubt kept o rs doubt →
        IsDoubt kept (entry_at site command (Refused refusal) ∷ o) rs doubt }
    ensures sure { (site : SiteNo) (command : Command) (reply : Reply) (kept later : Bool)
        (o : List Entry) (rs more : List Record) → is_unsure reply ≡ false
        → IsDoubt kept o rs None →
        IsDoubt later (entry_at site command reply ∷ o) more None }
    ensures restarted { (site : SiteNo) (command : Command) (epoch : ℕ) (found : Last) (kept : Bool)
        (o : List Entry) (rs : List Record) →
        IsDoubt kept (entry_at site command (Restarted epoch found) ∷ o) rs None }
    ensures tells { (schema : SchemaValue) (s : ℕ) (base : Base) (kept : Bool) (o : List Entry)
        (rs : List Record) (doubt : Option ℕ) → IsDoubt kept o rs doubt →
        TellsDoubt (place schema s base o) (found_of doubt rs) }
    ensures finds { (kept : Bool) (o : List Entry) (rs : List Record) (n : ℕ) →
        IsDoubt kept o rs (Some n) → found_of (Some n) rs ≡ (if kept then Kept else Lost) }
{}

/// A command leaves one record exactly where it writes one (`written`). The record of a command
/// that isn't refused may be written: it may stand behind the records that the site's entries have
/// left (`lawful`), and its numbers lie in the ranges of its text (`in_range`), as the site's epoch
/// does (`epoch`), if its base's does. Of a tightening that asks that what it comes to in all lies
/// in range, as it does over lawful records (`cut`).
pub fn records_may_be_written()
    ensures written { (at : Place) (command : Command) →
        length (record_left at command) ≡ (if writes at command then 1 else 0) }
    ensures lawful { (schema : SchemaValue) (s : ℕ) (base : Base) (bs : List Record) (kept : Bool)
        (o : List Entry) (rs : List Record) (command : Command) →
        IsBase schema s base bs → IsRun schema s base o → Keeps schema s base bs kept o rs →
        first (refusals (place schema s base o) command) ≡ None →
        AllByRecursion (λ r. may_follow schema s rs r ≡ true)
        (record_left (place schema s base o) command) }
    ensures in_range { (schema : SchemaValue) (s : ℕ) (base : Base) (o : List Entry)
        (command : Command) → IsSchema schema → IsRun schema s base o → base.epoch ≤ max_epoch →
        IsCutWithin (place schema s base o) command →
        first (refusals (place schema s base o) command) ≡ None →
        AllByRecursion IsRecord (record_left (place schema s base o) command) }
    ensures cut { (schema : SchemaValue) (s : ℕ) (base : Base) (bs : List Record) (kept : Bool)
        (o : List Entry) (rs : List Record) (command : Command) →
        IsSchema schema → s < schema.sites → IsBase schema s base bs → Lawful schema s bs →
        IsRun schema s base o → Keeps schema s base bs kept o rs →
        first (refusals (place schema s base o) command) ≡ None →
        IsCutWithin (place schema s base o) command }
    ensures epoch { (schema : SchemaValue) (s : ℕ) (base : Base) (o : List Entry) →
        IsRun schema s base o → base.epoch ≤ max_epoch → epoch_of base o ≤ max_epoch }
{}
