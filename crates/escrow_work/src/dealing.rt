//! The scripts of the sites, dealt line by line.

ghost use Rattle.std.specs.Prelude.{◌≡◌, ℕ, List, ◌∷◌, ◌++◌, [], IfOk, Ok, true, false};
ghost use Rattle.field_bounds.specs.Header.{schema_of};
ghost use Rattle.escrow_work.specs.Scripts.{IsBadLine};
ghost use Rattle.escrow_work.specs.Reading.{Holds};

use crate::scripts::{Scripts, deal, empty_rows, read_plain};
use field_bounds::Schema;
use std::alloc::{AllocError, Global};

impl Scripts {
    /// Begins with a header line and its schema.
    pub(crate) fn start(alloc: Global, schema: Schema, line: &[u8]) -> Result<Scripts, AllocError>
        requires told { schema_of line.now ≡ Ok schema }
        ensures holds { IfOk result (λ scripts. Holds scripts (line.now ∷ [])) }
    {
        let header = Vec::from_slice(alloc, line)?;
        let rows = empty_rows(alloc, schema.sites())?;
        Ok(Scripts {
            schema,
            header,
            rows,
        })
    }

    /// Takes in a line behind the header, and tells whether it is a plain command.
    pub(crate) fn take_in(&mut self, line: &[u8]) -> Result<bool, AllocError>
        ensures good { IfOk result (λ good. good ≡ true → (lines : List (List ℕ))
            → Holds self.old lines → Holds self.new (lines ++ line.now ∷ [])) }
        ensures bad { IfOk result (λ good. good ≡ false → IsBadLine self.old.schema line.now) }
    {
        let Some((site, command)) = read_plain(&self.schema, line) else {
            return Ok(false);
        };
        deal(&mut self.rows, site, command)?;
        Ok(true)
    }
}
