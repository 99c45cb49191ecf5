//! The post between the sites: it loses, repeats and reorders what it carries.

use field_bounds::Statement;
use std::alloc::{AllocError, Global};

/// A post that draws lots, the same in each run: each lot is twice the one before, modulo 13.
#[derive(Drop)]
pub struct Post {
    lot: usize,
}

impl Post {
    /// A post whose lots begin behind the seed.
    pub fn new(seed: usize) -> Post {
        Post { lot: seed }
    }

    fn draw(&mut self) -> usize {
        self.lot = self.lot % 13 * 2 % 13;
        self.lot
    }

    /// Draws one of the statements, as often as there are statements. So some arrive twice, some
    /// never, and in any order.
    pub fn carry(
        &mut self,
        alloc: Global,
        sent: &[Statement],
    ) -> Result<Vec<Statement>, AllocError> {
        let mut arrived = Vec::new(alloc);
        for _turn in 0..sent.len() {
            let place = self.draw() % sent.len();
            arrived.push(sent[place])?;
        }
        Ok(arrived)
    }
}
