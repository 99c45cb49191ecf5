//! Bounds that rights move.

ghost use Rattle.std.specs.Prelude.{◌≡◌, ◌≤◌, pos, neg_ℤ, ◌+ℤ◌, ◌-ℤ◌, ◌≤ℤ◌};
ghost use Rattle.field_bounds.specs.Limits.{max_quantity};
ghost use Rattle.field_bounds.specs.Owed.{max_change};

/// A floor raised by rights, in units of its field. Costs no memory.
pub fn raise_by(floor: i64, by: u64) -> i64
    requires high { floor ≤ℤ pos max_quantity }
    requires small { by ≤ max_change }
    ensures value { result ≡ floor +ℤ pos by }
{
    floor + by as i64
}

/// A ceiling lowered by rights, in units of its field. Costs no memory.
pub fn lower_by(ceiling: i64, by: u64) -> i64
    requires low { neg_ℤ (pos max_quantity) ≤ℤ ceiling }
    requires small { by ≤ max_change }
    ensures value { result ≡ ceiling -ℤ pos by }
{
    ceiling - by as i64
}
