//! A medium in memory that never fails.

ghost use Rattle.std.specs.Prelude.{◌≡◌, Some};
ghost use Rattle.kept_records.specs.declared.medium.Mishap.TheVariants.{Never};

use crate::medium::{Device, End, Medium, MediumFault, end_of};
use std::alloc::{AllocError, Global};
use std::marker::Model;

/// Bytes in memory that never fail: the errors of its calls are want of memory alone.
#[derive(Drop)]
pub struct MemoryMedium {
    held: Vec<u8>,
}

impl Model for MemoryMedium {
    ghost use Rattle.std.specs.Prelude.{◌-◌, vec_capacity, vec_len};
    ghost use Rattle.kept_records.specs.Media.{Memory};

    ghost Value = { Memory };

    ghost view = { λ m. record {
      bytes = m.held.items;
      room =
          vec_capacity m.held - vec_len m.held;
    } };
}

impl MemoryMedium {
    /// A medium that holds these bytes. Takes no memory.
    pub fn new(held: Vec<u8>) -> MemoryMedium
        ensures bytes { result.bytes ≡ held.items }
    {
        MemoryMedium { held }
    }

    /// The bytes that it holds. Costs no memory.
    pub fn bytes(&self) -> &[u8]
        ensures bytes { result.now ≡ self.now.bytes }
    {
        &self.held
    }
}

impl Medium for MemoryMedium {
    ghost bytes = { λ m. m.bytes };

    ghost room = { λ m. m.room };

    ghost failed = { λ m. 0 };

    ghost foretold = { λ m. Some Never };

    fn read_all(&mut self, alloc: Global) -> Result<Vec<u8>, MediumFault> {
        Vec::from_slice(alloc, &self.held).map_err(|_| MediumFault::NoMemory)
    }

    fn read_end(&mut self, alloc: Global, most: usize) -> Result<End, MediumFault> {
        end_of(alloc, &self.held, most).map_err(|_| MediumFault::NoMemory)
    }

    fn reserve(&mut self, additional: usize) -> Result<(), AllocError> {
        self.held.reserve(additional)
    }

    fn append(&mut self, piece: &[u8]) -> Result<(), Device> {
        self.held.extend_from_slice(piece).unwrap();
        Ok(())
    }

    fn cut(&mut self, kept: usize) -> Result<(), Device> {
        self.held.truncate(kept);
        Ok(())
    }

    fn failures(&self) -> u64 {
        0
    }
}
