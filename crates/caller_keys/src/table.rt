//! The last transaction of each key.

ghost use Rattle.std.specs.Prelude.{◌≡◌, ◌+◌, ◌≤◌, ◌<◌, ◌++◌, ◌∷◌, [], List, ℕ, None, Some, length, slice_get, option_map, IfSome, OnOk, if◌then◌else◌, bytes_eq};
ghost use Rattle.caller_keys.specs.Keys.{KeyNote, note_of, last_txn};
ghost use Rattle.caller_keys.specs.Tables.{stored_of, last_in, Tells};

use crate::key::{Key, read_key};
use field_bounds::TxnId;
use indexmap::IndexMap;
use std::alloc::{AllocError, Global};
use std::marker::Model;

// A key as the table stores it: its length, and its bytes with zeros behind them.
type StoredKey = [u8; 65];

fn stored(key: Key<'_>) -> StoredKey
    ensures { result ≡ stored_of key.entry.bytes.now }
{
    let length = key.bytes.len();
    let mut stored = [0; 65];
    stored[0] = length as u8;
    stored[1..length + 1].copy_from_slice(key.bytes);
    stored
}

/// Of each key the transaction that was noted last. Contracts see what the table tells of each key, and
/// how many keys more can be noted without memory.
#[derive(Drop)]
pub struct KeyTable {
    last: IndexMap<StoredKey, TxnId>,
}

impl Model for KeyTable {
    ghost use Rattle.indexmap.specs.IndexMap.{spare};
    ghost use Rattle.caller_keys.specs.Tables.{KeyTableValue};

    ghost Value = { KeyTableValue };

    ghost view = { λ t. record {
      rows = t.last.entries;
      room = spare t.last;
    } };
}

impl KeyTable {
    /// A table in which no key was noted. Costs no memory.
    pub fn new(alloc: Global) -> KeyTable
        ensures tells { Tells result [] }
    {
        KeyTable {
            last: IndexMap::new(alloc),
        }
    }

    /// Gets the memory for one key more. The error is want of it; what the table tells stays either way.
    pub fn reserve(&mut self) -> Result<(), AllocError>
        ensures room { OnOk result (0 < self.new.room) }
        ensures kept { self.old.room ≤ self.new.room }
        ensures same { self.new.rows ≡ self.old.rows }
    {
        self.last.reserve(1)
    }

    /// Notes a transaction as the last one of a key. Costs no memory beyond what was reserved.
    pub fn note(&mut self, key: Key<'_>, txn: TxnId)
        requires room { 0 < self.old.room }
        ensures noted { (notes : List KeyNote) → Tells self.old notes
            → Tells self.new (notes ++ note_of key.entry.bytes.now txn ∷ []) }
        ensures last { (other : List ℕ) → last_in self.new other
            ≡ (if bytes_eq key.entry.bytes.now other then Some txn else last_in self.old other) }
        ensures room { self.old.room ≤ self.new.room + 1 }
    {
        let _ = self.last.insert(stored(key), txn);
    }

    /// How many keys were noted. Costs no memory.
    pub fn count(&self) -> usize
        ensures value { result ≡ length self.now.rows }
    {
        self.last.len()
    }

    /// The key that n others were noted before, where more than n were. Costs no memory.
    pub fn key_at(&self, n: usize) -> Option<Key<'_>>
        ensures row { IfSome result (λ key. option_map (λ row. row.0) (slice_get self.now.rows n)
            ≡ Some (stored_of key.bytes.now)) }
    {
        let (row, _) = self.last.get_index(n)?;
        let end = usize::from(row[0]).saturating_add(1);
        let key = read_key(row.get(1..end)?)?;
        if stored(key) != *row {
            return None;
        }
        Some(key)
    }

    /// The transaction that was noted last with a key, or None where none was. Costs a look-up, and no
    /// memory.
    pub fn last(&self, key: Key<'_>) -> Option<TxnId>
        ensures value { result ≡ last_in self.now key.entry.bytes.now }
        ensures last { (notes : List KeyNote) → Tells self.now notes
            → result ≡ last_txn key.entry.bytes.now notes }
    {
        self.last.get(&stored(key)).copied()
    }
}
