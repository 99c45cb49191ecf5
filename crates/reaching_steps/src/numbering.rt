//! The number of a statement.

ghost use Rattle.std.specs.Prelude.{◌≡◌, reverse};
ghost use Rattle.reaching_steps.specs.Reach.{same_statement, number_of};

use field_bounds::Statement;

/// Whether two statements are the same.
fn same_statement(one: &Statement, other: &Statement) -> bool
    ensures value { result ≡ same_statement one.now other.now }
{
    *one == *other
}

/// The number of the first such statement, counted from 1 over statements that have the oldest
/// first, and 0 where there is none.
pub(crate) fn number_of(told: &[Statement], statement: &Statement) -> u64
    ensures value { result ≡ number_of statement.now (reverse told.now) }
{
    for i in 0..told.len() {
        if same_statement(&told[i], statement) {
            return i as u64 + 1;
        }
    }
    0
}
