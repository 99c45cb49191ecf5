//! A law of weaving, as the contract of a function that does nothing.

ghost use Rattle.std.specs.Prelude.{◌≡◌, List};
ghost use Rattle.field_bounds.specs.declared.entry.Entry.{Entry};
ghost use Rattle.trace_weave.specs.Weave.{WeavesLowest};

/// Histories have one trace that weaves them by the lowest turns: so the verdict that is told of them
/// is that on the trace of `weave`, and on the entries that the order of `weave_order` takes. The call
/// does nothing; its contract is the law.
pub fn woven_trace_is_one()
    ensures only { (hs : List (List Entry)) (t u : List Entry) → WeavesLowest hs t →
        WeavesLowest hs u → t ≡ u }
{}
