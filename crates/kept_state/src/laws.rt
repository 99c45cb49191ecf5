//! Laws of records and of luck, each as the contract of a function that does nothing.

ghost use Rattle.std.specs.Prelude.{◌≡◌, ℕ, ◌+◌, ◌<◌, ◌≤◌, ◌⊎◌, List, [], ◌∷◌, length, Bool, true};
ghost use Rattle.field_bounds.specs.declared.kind.Kind.{Kind};
ghost use Rattle.field_bounds.specs.declared.entry.Last.{Last};
ghost use Rattle.field_bounds.specs.declared.entry.Last.TheVariants.{Nothing};
ghost use Rattle.field_bounds.specs.declared.entry.Entry.{Entry};
ghost use Rattle.field_bounds.specs.declared.entry.Command.{Command};
ghost use Rattle.field_bounds.specs.declared.entry.Command.TheVariants.{Restart};
ghost use Rattle.field_bounds.specs.declared.entry.Reply.TheVariants.{Restarted, Refused};
ghost use Rattle.field_bounds.specs.declared.entry.Refusal.TheVariants.{NumbersFull};
ghost use Rattle.field_bounds.specs.Schema.{SchemaValue};
ghost use Rattle.field_bounds.specs.Effects.{Base, fresh, effects, share, held_rights, own_rights, total_given, cut, total_accepted};
ghost use Rattle.field_bounds.specs.Owed.{place, is_up, epoch_of, count_since, is_unsure, max_epoch, Fits, RestartFits, IsRun};
ghost use Rattle.kept_records.specs.declared.record.Record.{Record};
ghost use Rattle.kept_records.specs.Stands.{greatest, given_in, cut_in, accepted_in, own_in, base_stood_for, Lawful};
ghost use Rattle.kept_state.specs.declared.luck.Luck.{Luck};
ghost use Rattle.kept_state.specs.Keeps.{Keeps, IsBase};
ghost use Rattle.kept_records.specs.Keeping.{is_record_behind};
ghost use Rattle.kept_state.specs.Doubt.{InDoubt};
ghost use Rattle.kept_state.specs.Luck.{Lucky, entries, lucky_reply};

/// What a site's records stand for is what its entries come to. The site stands on a base, which is
/// what the records `bs` stand for, and has lived through the entries `o`, the newest first, each
/// of whose replies it owed; these left the records `rs`, the oldest first. `kept` tells whether a
/// record that is in doubt is kept.
///
/// At every time, not only after a restart, its own rights (`owned`) and the totals of what it gave
/// (`gives`), gave up (`cuts`) and accepted (`accepts`) are those of its records, in rights. After
/// a restart its share is what the records own, and nothing is held (`restarts`). While it is up
/// its epoch is the greatest that is kept (`epoch`), and no reply is in doubt (`counts`).
///
/// Each record that it adds may stand behind those before it (`lawful`). A record that is in doubt
/// stands behind some of the records, if it is kept, and only records of restarts behind it
/// (`doubts`): so a restart finds by its place whether it is kept (`found`). The greatest epoch
/// kept and 1 more is one that a restart may answer (`fits`), up to the last, at which it may be
/// refused (`refused`).
///
/// A site may stand on what any lawful records stand for (`stands`), and on a fresh base where
/// there are none (`fresh`). An entry leaves at most one record (`length`).
///
/// Source: Balegas and others 2015 for rights as totals that only grow, this project for the law.
pub fn records_stand()
    ensures owned { (schema : SchemaValue) (s : ℕ) (base : Base) (bs : List Record) (kept : Bool)
        (o : List Entry) (rs : List Record) →
        IsBase schema s base bs → IsRun schema s base o → Keeps schema s base bs kept o rs →
        (f : ℕ) (k : Kind) → own_rights base f k (effects base kept o) ≡ own_in schema s rs f k }
    ensures gives { (schema : SchemaValue) (s : ℕ) (base : Base) (bs : List Record) (kept : Bool)
        (o : List Entry) (rs : List Record) →
        IsBase schema s base bs → IsRun schema s base o → Keeps schema s base bs kept o rs →
        (to f : ℕ) (k : Kind) → total_given base to f k (effects base kept o) ≡ given_in rs to f k }
    ensures cuts { (schema : SchemaValue) (s : ℕ) (base : Base) (bs : List Record) (kept : Bool)
        (o : List Entry) (rs : List Record) →
        IsBase schema s base bs → IsRun schema s base o → Keeps schema s base bs kept o rs →
        (f : ℕ) (k : Kind) → cut base f k (effects base kept o) ≡ cut_in rs f k }
    ensures accepts { (schema : SchemaValue) (s : ℕ) (base : Base) (bs : List Record) (kept : Bool)
        (o : List Entry) (rs : List Record) →
        IsBase schema s base bs → IsRun schema s base o → Keeps schema s base bs kept o rs →
        (from f : ℕ) (k : Kind) →
        total_accepted base from f k (effects base kept o) ≡ accepted_in rs from f k }
    ensures restarts { (schema : SchemaValue) (s : ℕ) (base : Base) (bs : List Record) (kept : Bool)
        (e : Entry) (o : List Entry) (rs : List Record) (epoch : ℕ) (found : Last) →
        IsBase schema s base bs → IsRun schema s base (e ∷ o)
        → Keeps schema s base bs kept (e ∷ o) rs →
        e.command ≡ Restart → e.reply ≡ Restarted epoch found → (f : ℕ) (k : Kind) →
        (share base f k (effects base kept (e ∷ o)) ≡ own_in schema s rs f k)
        × (held_rights f k (effects base kept (e ∷ o)) ≡ 0) }
    ensures epoch { (schema : SchemaValue) (s : ℕ) (base : Base) (bs : List Record) (kept : Bool)
        (o : List Entry) (rs : List Record) →
        IsBase schema s base bs → Keeps schema s base bs kept o rs → is_up base o ≡ true →
        epoch_of base o ≡ greatest rs }
    ensures counts { (base : Base) (o : List Entry) →
        is_up base o ≡ true → count_since is_unsure o ≡ 0 }
    ensures lawful { (schema : SchemaValue) (s : ℕ) (base : Base) (bs : List Record) (kept : Bool)
        (o : List Entry) (rs : List Record) →
        IsBase schema s base bs → IsRun schema s base o → Keeps schema s base bs kept o rs →
        Lawful schema s bs → Lawful schema s rs }
    ensures doubts { (schema : SchemaValue) (s : ℕ) (base : Base) (bs : List Record) (kept : Bool)
        (o : List Entry) (rs : List Record) →
        IsRun schema s base o → Keeps schema s base bs kept o rs →
        (count_since is_unsure o ≡ 0)
        ⊎ ((before : List Record) × (note : Record) × InDoubt kept before note rs) }
    ensures found { (kept : Bool) (before : List Record) (note : Record) (rs : List Record) →
        InDoubt kept before note rs → is_record_behind (length before) rs ≡ kept }
    ensures fits { (schema : SchemaValue) (s : ℕ) (base : Base) (bs : List Record) (kept : Bool)
        (o : List Entry) (rs : List Record) (found : Last) →
        IsBase schema s base bs → Keeps schema s base bs kept o rs → greatest rs < max_epoch →
        (count_since is_unsure o ≡ 0 → found ≡ Nothing) →
        (found ≡ Nothing → count_since is_unsure o ≡ 0) →
        RestartFits (place schema s base o) (Restarted (greatest rs + 1) found) }
    ensures refused { (schema : SchemaValue) (s : ℕ) (base : Base) (bs : List Record) (kept : Bool)
        (o : List Entry) (rs : List Record) →
        IsBase schema s base bs → Keeps schema s base bs kept o rs → max_epoch ≤ greatest rs →
        RestartFits (place schema s base o) (Refused NumbersFull) }
    ensures stands { (schema : SchemaValue) (s : ℕ) (up : Bool) (rs : List Record) →
        Lawful schema s rs → IsBase schema s (base_stood_for schema s up rs) rs }
    ensures fresh { (schema : SchemaValue) (s : ℕ) → IsBase schema s (fresh schema s) [] }
    ensures length { (schema : SchemaValue) (s : ℕ) (base : Base) (bs : List Record) (kept : Bool)
        (o : List Entry) (rs : List Record) →
        Keeps schema s base bs kept o rs → length rs ≤ length bs + length o }
{}

/// The one reply that luck leaves is owed: whatever a site has lived through, and however the
/// append of its next step goes, the reply that this gives is one that it owes there.
pub fn lucky_replies_are_owed()
    ensures owed { (schema : SchemaValue) (s : ℕ) (base : Base) (xs : List Lucky)
        (command : Command) (luck : Luck) →
        Fits (place schema s base (entries xs)) command
        (lucky_reply schema s base xs command luck) }
{}
