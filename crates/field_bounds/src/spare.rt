//! What a site spares of its rights.

ghost use Rattle.std.specs.Prelude.{◌≡◌};
ghost use Rattle.field_bounds.specs.Effects.{spare_amount};

/// What a site with a share spares where so much is wanted: all of it, and at most half of the
/// share, rounded up. Costs no memory.
pub fn spared_amount(share: u128, want: u64) -> u64
    ensures value { result ≡ spare_amount share want }
{
    let half = share / 2 + share % 2;
    if u128::from(want) < half {
        want
    } else {
        half as u64
    }
}
