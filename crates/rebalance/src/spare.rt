//! What one site can spare for another.

ghost use Rattle.std.specs.Prelude.{◌≡◌, ◌+◌, ◌/◌, ◌^◌, ◌<◌, ◌-◌, min};

/// What a site spares of its share where another wants some, in rights: all that is wanted, and at
/// most half of the share, rounded up. So a site that has any spares some. The share is below the
/// greatest `u64`. Costs no memory.
pub fn spare_amount(share: u64, want: u64) -> u64
    requires share { share < 2 ^ 64 - 1 }
    ensures half { result ≡ min want ((share + 1) / 2) }
{
    want.min((share + 1) / 2)
}
