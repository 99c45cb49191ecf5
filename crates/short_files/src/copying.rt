//! A copy of what is gone.

ghost use Rattle.std.specs.Prelude.{◌≡◌, IfSome};

use log_head::{Gone, Horizon};
use std::alloc::Global;

// A copy of a horizon, or None where memory is wanting.
fn copy_horizon(alloc: Global, horizon: &Horizon) -> Option<Horizon>
    ensures { IfSome result (λ copy. copy ≡ horizon.now) }
{
    let open_then = Vec::from_slice(alloc, horizon.open_then()).ok()?;
    Horizon::new(horizon.epoch(), horizon.number(), open_then)
}

/// A copy of what is gone, or None where memory is wanting.
pub(crate) fn copy_gone(alloc: Global, gone: &Gone) -> Option<Gone>
    ensures { IfSome result (λ copy. copy ≡ gone.now) }
{
    Some(Gone {
        bytes: gone.bytes,
        records: gone.records,
        horizon: copy_horizon(alloc, &gone.horizon)?,
    })
}
