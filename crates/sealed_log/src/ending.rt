//! The end of several logs.

ghost use Rattle.std.specs.Prelude.{OnOk, All};

/// What can be ended, as the log of a site, or its folder. Source: this project.
pub trait Ends<E> {
    /// It was ended: nothing takes it up again.
    ghost is_ended: { Self → Type 0 };

    /// Ends it, unless it was ended before. Where that fails it may be ended later.
    fn end(&mut self) -> Result<(), E>
        ensures ended { OnOk result (is_ended self.new) };
}

/// Ends them all, in their order: where that goes well none is left that isn't. At the first fault
/// those behind it are left as they are. Costs no memory.
pub fn end_all<E: Drop, T: Ends<E>>(all: &mut [T]) -> Result<(), E>
    ensures ended { OnOk result (All T.is_ended all.new) }
{
    for at in 0..all.len() {
        all[at].end()?;
    }
    Ok(())
}
