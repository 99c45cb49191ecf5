//! Rows of statements, each of one channel, that are found without a search.

ghost use Rattle.std.specs.Prelude.{◌≡◌, ◌↔◌, ◌+◌, ◌*◌, ◌<◌, ◌≤◌, ℕ, [], IsTrue, IfOk, OnOk, OnErr, IfSome, IfNone, Contains, length};
ghost use Rattle.std.specs.Bool.{OnTrue, OnFalse};
ghost use Rattle.statement_set.specs.Rows.{channel_of, slot_of, rows_told, IsFiled, IsOfNone, IsRowOf, IsTaken, IsPutAmong, TakesLittle};

use crate::row::{Channel, Row};
use field_bounds::Statement;
use std::alloc::{AllocError, Global};

/// How many slots there are at first.
const SLOTS: usize = 16;

/// What a slot holds at first: a row that there will hardly be, and if there is, then not of the
/// slot's channel.
const VACANT: u32 = u32::MAX;

/// A row is made for each so many statements that are in none, so that rows take no more memory
/// than those do.
const IN_NO_ROW: usize = 4;

/// Rows of statements. The slot of a row's channel tells which row it is; what any other slot tells
/// is of no account, since a row tells its channel. So a row is found without a search. Where the
/// channels of two rows would have one slot, the second has to do without a row.
///
/// Source: Briggs and Torczon 1993 for sets that need not be cleared, this project for the rows.
#[derive(Drop)]
pub struct Rows {
    pub slots: Vec<u32>,
    pub rows: Vec<Row>,
}

impl Rows {
    /// No rows. Takes no memory.
    pub fn new(alloc: Global) -> Rows
        ensures filed { IsFiled result }
        ensures none { rows_told result.rows.items ≡ [] }
        ensures little { TakesLittle result 0 }
    {
        Rows {
            slots: Vec::new(alloc),
            rows: Vec::new(alloc),
        }
    }

    /// Which row is a channel's, if one is.
    #[inline(always)]
    fn row_of(&self, channel: Channel) -> Option<usize>
        requires filed { IsFiled self.now }
        ensures found { IfSome result (IsRowOf self.now.rows.items channel) }
        ensures none { IfNone result (IsOfNone self.now.rows.items channel) }
    {
        if self.slots.is_empty() {
            return None;
        }
        let spot = self.slots[channel.slot(self.slots.len())] as usize;
        match self.rows.get(spot) {
            Some(row) if row.channel.is(channel) => Some(spot),
            _ => None,
        }
    }

    /// Whether a row has the statement.
    #[inline(always)]
    pub fn has(&self, statement: Statement) -> bool
        requires filed { IsFiled self.now }
        ensures { IsTrue result ↔ Contains (rows_told self.now.rows.items) statement }
    {
        match self.row_of(Channel::of(statement)) {
            Some(row) => self.rows[row].has(statement.total),
            None => false,
        }
    }

    /// Puts a statement into the row of its channel if its total is greater than those in it, and
    /// tells whether the row has it then.
    #[inline(always)]
    pub fn put(&mut self, row: usize, statement: Statement) -> Result<bool, AllocError>
        requires its { IsRowOf self.old.rows.items (channel_of statement) row }
        requires filed { IsFiled self.old }
        ensures filed { IsFiled self.new }
        ensures there { IfOk result (λ there. OnTrue there (IsPutAmong
            (rows_told self.old.rows.items) (rows_told self.new.rows.items) statement)) }
        ensures not { IfOk result (λ there. OnFalse there
            (rows_told self.new.rows.items ≡ rows_told self.old.rows.items)) }
        ensures err { OnErr result (rows_told self.new.rows.items ≡ rows_told self.old.rows.items) }
        ensures little { (n : ℕ) → TakesLittle self.old n → TakesLittle self.new n }
    {
        self.rows[row].put(statement.total)
    }

    /// Whether a slot is the one of a row's channel.
    fn is_taken(&self, slot: usize) -> bool
        requires inside { slot < length self.now.slots.items }
        requires filed { IsFiled self.now }
        ensures { IsTrue result
            ↔ IsTaken self.now.rows.items (length self.now.slots.items) slot }
    {
        match self.rows.get(self.slots[slot] as usize) {
            Some(row) => row.channel.slot(self.slots.len()) == slot,
            None => false,
        }
    }

    /// Makes the row of a channel whose slot is no row's, with no statement in it. Tells which row it
    /// is, or None if no slot could tell it.
    fn add(&mut self, channel: Channel, slot: usize) -> Result<Option<usize>, AllocError>
        requires inside { slot < length self.old.slots.items }
        requires its { slot ≡ slot_of channel (length self.old.slots.items) }
        requires free { IsTaken self.old.rows.items (length self.old.slots.items) slot → ⊥ }
        requires filed { IsFiled self.old }
        ensures filed { IsFiled self.new }
        ensures told { rows_told self.new.rows.items ≡ rows_told self.old.rows.items }
        ensures made { IfOk result (λ made. IfSome made (IsRowOf self.new.rows.items channel)) }
        ensures slots { length self.new.slots.items ≡ length self.old.slots.items }
        ensures rows { length self.new.rows.items ≤ length self.old.rows.items + 1 }
    {
        let row = self.rows.len();
        let Ok(spot) = u32::try_from(row) else {
            return Ok(None);
        };
        let alloc = *self.rows.allocator();
        self.rows.push(Row::new(alloc, channel))?;
        self.slots[slot] = spot;
        Ok(Some(row))
    }

    /// The first slots.
    fn open(&mut self) -> Result<(), AllocError>
        requires filed { IsFiled self.old }
        ensures filed { IsFiled self.new }
        ensures some { OnOk result (0 < length self.new.slots.items) }
        ensures same { self.new.rows ≡ self.old.rows }
        ensures little { (n : ℕ) → TakesLittle self.old n → TakesLittle self.new n }
    {
        if self.slots.is_empty() {
            let alloc = *self.rows.allocator();
            self.slots = Vec::from_elem(alloc, VACANT, SLOTS)?;
        }
        Ok(())
    }

    /// Doubles the number of slots. A row's slot is then the one that it was, or the one so many
    /// behind it: both tell the row.
    fn widen(&mut self) -> Result<(), AllocError>
        requires filed { IsFiled self.old }
        ensures filed { IsFiled self.new }
        ensures same { self.new.rows ≡ self.old.rows }
        ensures twice { length self.new.slots.items ≤ 2 * length self.old.slots.items }
    {
        let Some(slots) = self.slots.len().checked_mul(2) else {
            return Ok(());
        };
        let alloc = *self.rows.allocator();
        let mut wider = Vec::with_capacity(alloc, slots)?;
        wider.extend_from_slice(&self.slots)?;
        wider.extend_from_slice(&self.slots)?;
        self.slots = wider;
        Ok(())
    }

    /// Makes a row for a channel that has none, and tells which, if so many statements in no row are
    /// enough for one row more and its slot is no other row's. If it is, the slots are doubled, unless
    /// they are more than those statements.
    #[inline(never)]
    fn made_for(&mut self, channel: Channel, in_no_row: usize) -> Result<Option<usize>, AllocError>
        requires filed { IsFiled self.old }
        requires little { TakesLittle self.old in_no_row }
        ensures filed { IsFiled self.new }
        ensures little { TakesLittle self.new in_no_row }
        ensures told { rows_told self.new.rows.items ≡ rows_told self.old.rows.items }
        ensures made { IfOk result (λ made. IfSome made (IsRowOf self.new.rows.items channel)) }
    {
        if in_no_row / IN_NO_ROW <= self.rows.len() {
            return Ok(None);
        }
        self.open()?;
        let slot = channel.slot(self.slots.len());
        if !self.is_taken(slot) {
            return self.add(channel, slot);
        }
        if self.slots.len() <= in_no_row {
            self.widen()?;
        }
        Ok(None)
    }

    /// Which row is a channel's. If none is, one may be made, as there are so many statements in no
    /// row.
    #[inline(always)]
    pub fn row_for(
        &mut self,
        channel: Channel,
        in_no_row: usize,
    ) -> Result<Option<usize>, AllocError>
        requires filed { IsFiled self.old }
        requires little { TakesLittle self.old in_no_row }
        ensures filed { IsFiled self.new }
        ensures little { TakesLittle self.new in_no_row }
        ensures told { rows_told self.new.rows.items ≡ rows_told self.old.rows.items }
        ensures made { IfOk result (λ made. IfSome made (IsRowOf self.new.rows.items channel)) }
    {
        match self.row_of(channel) {
            Some(row) => Ok(Some(row)),
            None => self.made_for(channel, in_no_row),
        }
    }
}
