//! Why answers may wait for one sync, as the contract of a function that does nothing.

ghost use Rattle.std.specs.Prelude.{◌≡◌, ◌≤◌, ◌++◌, ℕ, Bool, List, length};
ghost use Rattle.field_bounds.specs.Schema.{SchemaValue};
ghost use Rattle.field_bounds.specs.Effects.{Base};
ghost use Rattle.field_bounds.specs.declared.entry.Entry.{Entry};
ghost use Rattle.kept_records.specs.declared.record.Record.{Record};
ghost use Rattle.kept_records.specs.Logs.{IsLog};
ghost use Rattle.kept_records.specs.Stands.{plain};
ghost use Rattle.kept_state.specs.Keeps.{Keeps};
ghost use Rattle.site_step.specs.Site.{SiteValue, base_of, HoldsLog};
ghost use Rattle.site_service.specs.Stops.{KeepsFront};

/// A stop may leave any front of what a batch left, as long as it has what was safe. Each such
/// front is what a front of the history leaves: of the records (`front`), and of the bytes, of
/// which the whole lines count (`lines`). So the site is as if it had been stopped there, and had
/// been asked nothing after it. No answer to what came after was let out, since what is let out is
/// safe. That a site's medium holds the records of its history is what `Site::history` tells.
pub fn stop_leaves_a_front()
    ensures front { (schema : SchemaValue) (s : ℕ) (base : Base) (bs : List Record) (kept : Bool)
        (history : List Entry) (rs front back : List Record)
        → Keeps schema s base bs kept history rs → rs ≡ front ++ back
        → length bs ≤ length front → KeepsFront schema s base bs history front }
    ensures lines { (v : SiteValue) (left back : List ℕ) (front : List Record) (rest : List ℕ)
        → HoldsLog v → v.bytes ≡ left ++ back → IsLog left front rest
        → length (plain v.based) ≤ length (plain front)
        → KeepsFront v.schema v.site.0 (base_of v) (plain v.based) v.history (plain front) }
{}
