//! What a call of a desk meets inside the lock, and tells after it.

ghost use Rattle.std.specs.Prelude.{◌≡◌, ℕ, true, false};
ghost use Rattle.field_bounds.specs.declared.id.SiteNo.{SiteNo};

use field_bounds::SiteNo;

/// A gate that a call passes under the desk's lock.
pub trait Gate: Sync {
    /// Whether it may turn a call of this number away at this site: any, where a gate doesn't tell.
    ghost turns: { Self → SiteNo → ℕ → Type 0 } = { λ _ _ _. Unit {0} };

    /// Whether the call, counted from 1 for each pass, may be served at this site. Asked with the
    /// lock held, before the command is applied.
    fn inside(&self, site: SiteNo, call: u64) -> bool
        ensures turned { result ≡ false → Self.turns self.now site call };

    /// Told once the call was served, and the lock let go.
    fn answered(&self, site: SiteNo, call: u64);
}

/// The gate that lets every call in.
#[derive(Clone, Copy, Debug)]
pub struct FreeGate;

impl Gate for FreeGate {
    ghost turns = { λ gate site call. ⊥ };

    fn inside(&self, _site: SiteNo, _call: u64) -> bool
        ensures value { result ≡ true }
    {
        true
    }

    fn answered(&self, _site: SiteNo, _call: u64) {}
}
