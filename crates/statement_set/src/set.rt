//! A set of statements: those of a channel that come in rising order in a row, and the rest in an
//! order in which mostly the totals alone are compared.

ghost use Rattle.std.specs.Prelude.{◌≡◌, ◌↔◌, ◌⊎◌, ◌≤◌, [], Some, IsTrue, IfOk, OnOk, OnErr, Contains, length};
ghost use Rattle.std.specs.Bool.{OnTrue, OnFalse};
ghost use Rattle.field_bounds.specs.declared.entry.Statement.{Statement};
ghost use Rattle.field_bounds.specs.Statements.{statement_of};
ghost use Rattle.statement_set.specs.Keys.{key_of, statements_of};
ghost use Rattle.statement_set.specs.Rows.{IsPutAmong};

use crate::row::Channel;
use crate::rows::Rows;
use field_bounds::{Entry, FieldNo, Kind, SiteNo, Statement, statement_of};
use std::alloc::{AllocError, Global};
use std::collections::BTreeSet;
use std::marker::Model;

/// A statement, as it is looked up: by its total, which mostly tells it from others, and then by
/// the rest.
#[derive(Clone, Copy, PartialEq, Eq, PartialOrd, Ord)]
struct StatementKey {
    total: u64,
    from: SiteNo,
    to: SiteNo,
    field: FieldNo,
    kind: Kind,
}

fn key_of(statement: Statement) -> StatementKey
    ensures { result ≡ key_of statement }
{
    StatementKey {
        total: statement.total,
        from: statement.from,
        to: statement.to,
        field: statement.field,
        kind: statement.kind,
    }
}

// These two are calls, so that what is done at a row, which is the common case, keeps its numbers in
// registers.

/// Whether a statement is among those in order.
#[inline(never)]
fn is_among(rest: &BTreeSet<StatementKey>, statement: Statement) -> bool
    ensures { IsTrue result ↔ Contains (statements_of rest.now.keys) statement }
{
    rest.contains(&key_of(statement))
}

/// Puts a statement among those in order, unless it is there.
#[inline(never)]
fn put_among(rest: &mut BTreeSet<StatementKey>, statement: Statement) -> Result<(), AllocError>
    ensures ok { OnOk result
        (IsPutAmong (statements_of rest.old.keys) (statements_of rest.new.keys) statement) }
    ensures err { OnErr result (rest.new.keys ≡ rest.old.keys) }
    ensures no_fewer { length rest.old.keys ≤ length rest.new.keys }
{
    rest.insert(key_of(statement))?;
    Ok(())
}

/// A set of statements. Contracts see it as a list, in which it says which statements are there,
/// and nothing of their order.
///
/// The totals of a channel, of a kind on a field from one site to another, rise in a lawful trace. So
/// a channel that comes often gets a row: there a total that is greater than those before is put at
/// their end, and the last one is found by a look. The other statements are kept in order.
///
/// A look-up costs a step for each doubling of the number of statements, whatever they are: no choice
/// of totals or channels makes it slower.
///
/// A statement takes 8 to 16 bytes in a row, and 20 to 45 out of one. A row takes 30 to 110 bytes more.
/// There are no more rows than one for each four statements that are in none, and no more slots, of
/// 4 bytes, than two for each of those or the first 16, so that the set takes no more than about
/// twice what it would without rows.
///
/// Source: Balegas and others 2015 for the statements, this project for the set.
#[derive(Drop)]
pub struct StatementSet {
    rows: Rows,
    rest: BTreeSet<StatementKey>,
}

impl Model for StatementSet {
    ghost use Rattle.std.specs.Prelude.{List, ◌++◌, length};
    ghost use Rattle.field_bounds.specs.declared.entry.Statement.{Statement};
    ghost use Rattle.statement_set.specs.Keys.{statements_of};
    ghost use Rattle.statement_set.specs.Rows.{rows_told, IsFiled, TakesLittle};

    ghost Value = { List Statement };

    ghost view = { λ set. rows_told set.rows.rows.items ++ statements_of set.rest.keys };

    ghost invariant = { λ set. IsFiled set.rows × TakesLittle set.rows (length set.rest.keys) };
}

impl StatementSet {
    /// The empty set. Costs no memory.
    pub fn new(alloc: Global) -> StatementSet
        ensures none { result ≡ [] }
    {
        StatementSet {
            rows: Rows::new(alloc),
            rest: BTreeSet::new(alloc),
        }
    }

    /// Whether the statement is in the set. Costs a look at one row if its total is the last that was
    /// put there; if not, a look-up in that row, and one among the statements in no row. Costs no
    /// memory.
    pub fn has(&self, statement: Statement) -> bool
        ensures value { IsTrue result ↔ Contains self.now statement }
    {
        self.rows.has(statement) || is_among(&self.rest, statement)
    }

    /// Puts a statement into the row of its channel, which is made where that pays, if its total is
    /// greater than those in it. Tells whether a row has it then.
    #[inline(always)]
    fn put_in_row(&mut self, statement: Statement) -> Result<bool, AllocError>
        ensures there { IfOk result (λ there. OnTrue there
            (IsPutAmong self.old self.new statement)) }
        ensures not { IfOk result (λ there. OnFalse there (self.new ≡ self.old)) }
        ensures err { OnErr result (self.new ≡ self.old) }
    {
        match self.rows.row_for(Channel::of(statement), self.rest.len())? {
            Some(row) => self.rows.put(row, statement),
            None => Ok(false),
        }
    }

    /// Puts a statement into the set. Costs a push if its channel has a row, of totals that are all
    /// less; if not, one look-up in the row, and one among the statements in no row. Takes memory for
    /// the statement, and where a row is made, for that; the error is want of it, and leaves the set as
    /// it was.
    ///
    /// When the memory of a row or of the list of rows is full, or two channels want one slot of those
    /// by which rows are found, it is doubled, which costs a step for each statement, row or slot in
    /// it: over many calls, a few steps a call.
    pub fn insert(&mut self, statement: Statement) -> Result<(), AllocError>
        ensures ok { OnOk result ((other : Statement) →
            Contains self.new other ↔ ((statement ≡ other) ⊎ Contains self.old other)) }
        ensures err { OnErr result (self.new ≡ self.old) }
    {
        if self.put_in_row(statement)? {
            return Ok(());
        }
        put_among(&mut self.rest, statement)
    }

    /// Puts the statement that the entry issues, if it issues one, into the set. Costs at most what
    /// `insert` costs; the error is want of memory, and leaves the set as it was.
    pub fn insert_issued(&mut self, entry: &Entry) -> Result<(), AllocError>
        ensures ok { OnOk result ((other : Statement) →
            Contains self.new other ↔ ((statement_of entry.now ≡ Some other)
            ⊎ Contains self.old other)) }
        ensures err { OnErr result (self.new ≡ self.old) }
    {
        if let Some(statement) = statement_of(entry) {
            self.insert(statement)?;
        }
        Ok(())
    }
}
