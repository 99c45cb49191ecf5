//! What records tell, as plain lists that can be compared.

ghost use Rattle.kept_records.specs.Keeping.{IsKept};

use field_bounds::{FieldNo, Kind};
use kept_records::*;
use std::alloc::{AllocError, Global};

/// What records tell: their letters, how many escrows each commit has, these escrows one behind the
/// other, and the other numbers of each record; of a summary its epoch alone.
#[derive(Drop)]
pub(crate) struct Told {
    pub(crate) letters: Vec<u8>,
    pub(crate) sizes: Vec<usize>,
    pub(crate) fields: Vec<u16>,
    pub(crate) changes: Vec<i64>,
    pub(crate) numbers: Vec<u64>,
}

impl Told {
    pub(crate) fn new(alloc: Global) -> Told {
        Told {
            letters: Vec::new(alloc),
            sizes: Vec::new(alloc),
            fields: Vec::new(alloc),
            changes: Vec::new(alloc),
            numbers: Vec::new(alloc),
        }
    }

    fn tell_escrows(&mut self, escrows: &Escrows) -> Result<(), AllocError> {
        self.sizes.push(escrows.as_slice().len())?;
        for escrow in escrows.as_slice() {
            self.fields.push(escrow.field.0)?;
            self.changes.push(escrow.change)?;
        }
        Ok(())
    }

    /// The kind is told as its letter, l or r.
    fn tell_total(
        &mut self,
        site: u16,
        field: &FieldNo,
        kind: &Kind,
        total: &u64,
    ) -> Result<(), AllocError> {
        let letter = match kind {
            Kind::Lower => b'l',
            Kind::Raise => b'r',
        };
        self.numbers.push(u64::from(site))?;
        self.numbers.push(u64::from(field.0))?;
        self.numbers.push(u64::from(letter))?;
        self.numbers.push(*total)?;
        Ok(())
    }

    pub(crate) fn tell(&mut self, kept: &Record) -> Result<(), AllocError> {
        let letter = match kept {
            Record::Commit { txn, escrows } => {
                self.numbers.push(u64::from(txn.epoch))?;
                self.numbers.push(u64::from(txn.number))?;
                self.tell_escrows(escrows)?;
                b'C'
            }
            Record::Gift {
                to,
                field,
                kind,
                total,
            } => {
                self.tell_total(to.0, field, kind, total)?;
                b'G'
            }
            Record::Accept {
                from,
                field,
                kind,
                total,
            } => {
                self.tell_total(from.0, field, kind, total)?;
                b'A'
            }
            Record::Tighten { field, kind, total } => {
                self.tell_total(0, field, kind, total)?;
                b'T'
            }
            Record::Restart { epoch } => {
                self.numbers.push(u64::from(*epoch))?;
                b'R'
            }
            Record::Summary { epoch, .. } => {
                self.numbers.push(u64::from(*epoch))?;
                b'S'
            }
        };
        self.letters.push(letter)?;
        Ok(())
    }

    pub(crate) fn is(&self, other: &Told) -> bool {
        self.letters.as_slice() == other.letters.as_slice()
            && self.sizes.as_slice() == other.sizes.as_slice()
            && self.fields.as_slice() == other.fields.as_slice()
            && self.changes.as_slice() == other.changes.as_slice()
            && self.numbers.as_slice() == other.numbers.as_slice()
    }
}

/// What the records of a log tell, each read word by word.
pub(crate) fn by_words(alloc: Global, log: &[u8]) -> Option<Told>
    requires { IsKept log.now }
{
    let mut told = Told::new(alloc);
    let mut records = Cursor::new(alloc, log);
    while let Some(kept) = records.next(alloc).ok()? {
        told.tell(&kept).ok()?;
    }
    Some(told)
}
