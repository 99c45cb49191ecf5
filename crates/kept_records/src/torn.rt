//! A medium in memory that fails by one mishap at a time.

ghost use Rattle.std.specs.Prelude.{◌≡◌, ◌<◌, ◌-◌, ◌+◌, ◌^◌};
ghost use Rattle.kept_records.specs.declared.medium.Mishap.TheVariants.{Never};

use crate::medium::{Device, End, Medium, MediumFault, Mishap, end_of};
use std::alloc::{AllocError, Global};
use std::marker::Model;

/// Bytes in memory, and the mishap that strikes the next call of its kind. Once it has struck, it
/// is Never. Where the count of failures is at the greatest `u64`, no mishap strikes.
#[derive(Drop)]
pub struct TornMedium {
    held: Vec<u8>,
    mishap: Mishap,
    failures: u64,
}

impl Model for TornMedium {
    ghost use Rattle.std.specs.Prelude.{◌-◌, vec_capacity, vec_len};
    ghost use Rattle.kept_records.specs.Media.{Torn};

    ghost Value = { Torn };

    ghost view = { λ m. record {
      bytes = m.held.items;
      room = vec_capacity m.held - vec_len m.held;
      mishap = m.mishap;
      failures = m.failures;
    } };
}

impl TornMedium {
    /// A medium that holds these bytes, hasn't failed, and won't: its mishap is Never. Takes no
    /// memory.
    pub fn new(held: Vec<u8>) -> TornMedium
        ensures bytes { result.bytes ≡ held.items }
        ensures mishap { result.mishap ≡ Never }
        ensures failures { result.failures ≡ 0 }
    {
        TornMedium {
            held,
            mishap: Mishap::Never,
            failures: 0,
        }
    }

    /// Sets the mishap that strikes next, in place of the one before, and changes nothing else.
    pub fn arm(&mut self, mishap: Mishap)
        ensures mishap { self.new.mishap ≡ mishap }
        ensures bytes { self.new.bytes ≡ self.old.bytes }
        ensures room { self.new.room ≡ self.old.room }
        ensures failures { self.new.failures ≡ self.old.failures }
    {
        self.mishap = mishap;
    }

    // Notes that the mishap struck.
    fn strike(&mut self)
        requires { self.old.failures < 2 ^ 64 - 1 }
        ensures mishap { self.new.mishap ≡ Never }
        ensures bytes { self.new.bytes ≡ self.old.bytes }
        ensures room { self.new.room ≡ self.old.room }
        ensures failures { self.new.failures ≡ self.old.failures + 1 }
    {
        self.mishap = Mishap::Never;
        self.failures += 1;
    }
}

impl Medium for TornMedium {
    ghost use Rattle.kept_records.specs.Media.{mishap_next};

    ghost bytes = { λ m. m.bytes };

    ghost room = { λ m. m.room };

    ghost failed = { λ m. m.failures };

    ghost foretold = { mishap_next };

    fn read_all(&mut self, alloc: Global) -> Result<Vec<u8>, MediumFault> {
        if let Mishap::Read = self.mishap
            && self.failures < u64::MAX
        {
            self.strike();
            return Err(MediumFault::Device);
        }
        Vec::from_slice(alloc, &self.held).map_err(|_| MediumFault::NoMemory)
    }

    fn read_end(&mut self, alloc: Global, most: usize) -> Result<End, MediumFault> {
        if let Mishap::Read = self.mishap
            && self.failures < u64::MAX
        {
            self.strike();
            return Err(MediumFault::Device);
        }
        end_of(alloc, &self.held, most).map_err(|_| MediumFault::NoMemory)
    }

    fn reserve(&mut self, additional: usize) -> Result<(), AllocError> {
        self.held.reserve(additional)
    }

    fn append(&mut self, piece: &[u8]) -> Result<(), Device> {
        if let Mishap::Append(most) = self.mishap
            && self.failures < u64::MAX
        {
            self.strike();
            let kept = if most < piece.len() as u64 {
                most as usize
            } else {
                piece.len()
            };
            self.held.extend_from_slice(&piece[..kept]).unwrap();
            Err(Device)
        } else {
            self.held.extend_from_slice(piece).unwrap();
            Ok(())
        }
    }

    fn cut(&mut self, kept: usize) -> Result<(), Device> {
        if let Mishap::Cut = self.mishap
            && self.failures < u64::MAX
        {
            self.strike();
            return Err(Device);
        }
        self.held.truncate(kept);
        Ok(())
    }

    fn failures(&self) -> u64 {
        self.failures
    }
}
