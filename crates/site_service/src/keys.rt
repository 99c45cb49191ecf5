//! Keys that were noted, and the lines of notes that a log hasn't got.

ghost use Rattle.std.specs.Prelude.{◌≡◌, ◌<◌, ◌++◌, ℕ, true, List, [], take, length, slice_get, option_map, None, Some, IfSome, OnOk, OnErr};
ghost use Rattle.caller_keys.specs.Tables.{stored_of};
ghost use Rattle.caller_keys.specs.Keys.{IsNote, note_of, note_line};
ghost use Rattle.site_service.specs.Kept.{last_of, noted};

use caller_keys::{Key, KeyTable, push_note};
use field_bounds::TxnId;
use std::alloc::{AllocError, Global};
use std::marker::Model;

/// Of each key the transaction that was noted last, and the lines of the notes that are not in the
/// log yet. Contracts see the transaction of each key, the lines, and how many keys more can be noted
/// without memory.
#[derive(Drop)]
pub(crate) struct NotedKeys {
    table: KeyTable,
    unlogged: Vec<u8>,
}

impl Model for NotedKeys {
    ghost use Rattle.site_service.specs.Kept.{NotedValue};

    ghost Value = { NotedValue };

    ghost view = { λ s. record {
      last = s.table.rows;
      lines = s.unlogged.items;
      room = s.table.room;
    } };
}

impl NotedKeys {
    /// Those of a table, whose notes are all in the log. Takes no memory.
    pub(crate) fn of_table(alloc: Global, table: KeyTable) -> NotedKeys
        ensures last { result.last ≡ table.rows }
        ensures none { result.lines ≡ [] }
    {
        NotedKeys {
            table,
            unlogged: Vec::new(alloc),
        }
    }

    /// None. Takes no memory.
    pub(crate) fn new(alloc: Global) -> NotedKeys
        ensures last { (key : List ℕ) → last_of result.last key ≡ None }
        ensures none { result.lines ≡ [] }
    {
        NotedKeys::of_table(alloc, KeyTable::new(alloc))
    }

    /// How many keys were noted. Takes no memory.
    pub(crate) fn count(&self) -> usize
        ensures value { result ≡ length self.now.last }
    {
        self.table.count()
    }

    /// The key that n others were noted before, where more than n were. Takes no memory.
    pub(crate) fn key_at(&self, n: usize) -> Option<Key<'_>>
        ensures row { IfSome result (λ key. option_map (λ row. row.0) (slice_get self.now.last n)
            ≡ Some (stored_of key.bytes.now)) }
    {
        self.table.key_at(n)
    }

    /// The transaction that was noted last with a key. Takes no memory.
    pub(crate) fn last(&self, key: Key<'_>) -> Option<TxnId>
        ensures value { result ≡ last_of self.now.last key.entry.bytes.now }
    {
        self.table.last(key)
    }

    /// The lines of the notes that the log hasn't got. Costs no memory.
    pub(crate) fn lines(&self) -> &[u8]
        ensures value { result.now ≡ self.now.lines }
    {
        self.unlogged.as_slice()
    }

    /// Whether the log has all notes. Costs no memory.
    pub(crate) fn is_logged(&self) -> bool
        ensures none { result ≡ true → self.now.lines ≡ [] }
    {
        self.unlogged.is_empty()
    }

    /// Gets the room for one note more, and writes its line: at Ok the note is to be kept or dropped.
    /// The error is want of memory, and changes nothing.
    pub(crate) fn draft(&mut self, key: Key<'_>, txn: TxnId) -> Result<(), AllocError>
        ensures room { OnOk result (0 < self.new.room) }
        ensures line { OnOk result (self.new.lines
            ≡ self.old.lines ++ note_line (note_of key.entry.bytes.now txn)) }
        ensures is_note { OnOk result (IsNote (note_of key.entry.bytes.now txn)) }
        ensures err { OnErr result (self.new.lines ≡ self.old.lines) }
        ensures last { self.new.last ≡ self.old.last }
    {
        self.table.reserve()?;
        push_note(&mut self.unlogged, key, txn)
    }

    /// Keeps the note that was drafted. Costs no memory.
    pub(crate) fn keep_draft(&mut self, key: Key<'_>, txn: TxnId)
        requires room { 0 < self.old.room }
        ensures lines { self.new.lines ≡ self.old.lines }
        ensures last { (other : List ℕ) → last_of self.new.last other
            ≡ noted self.old.last key.entry.bytes.now txn other }
    {
        self.table.note(key, txn);
    }

    /// Drops the note that was drafted behind so many bytes of lines. Costs no memory.
    pub(crate) fn drop_draft(&mut self, before: usize)
        ensures lines { self.new.lines ≡ take before self.old.lines }
        ensures last { self.new.last ≡ self.old.last }
    {
        self.unlogged.truncate(before);
    }

    /// Drops the lines, which the log has got. Costs no memory.
    pub(crate) fn clear_lines(&mut self)
        ensures none { self.new.lines ≡ [] }
        ensures last { self.new.last ≡ self.old.last }
    {
        self.unlogged.clear();
    }
}
