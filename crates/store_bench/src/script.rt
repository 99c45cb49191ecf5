//! A script that grows line by line, with the ids that its sites give out.

use itoa::Buffer;
use std::alloc::{AllocError, Global};

/// How a world begins: so many sites, and fields whose names are `stock1`, `stock2` and so on, each
/// with the same bounds and value. `epoch` is the one in which the sites begin.
#[derive(Clone, Copy)]
pub struct Shape {
    pub sites: u16,
    pub fields: u16,
    pub floor: i64,
    pub ceiling: i64,
    pub value: i64,
    pub epoch: u32,
}

/// The number of the last transaction of a site, and its epoch.
#[derive(Clone, Copy, Drop)]
struct Last {
    epoch: u32,
    number: u32,
}

/// The text of a script, and what its sites have answered so far, as far as lines have to name it.
#[derive(Drop)]
pub struct Script {
    bytes: Vec<u8>,
    lasts: Vec<Last>,
    issued: u64,
    lines: u64,
}

impl Script {
    /// The script that has its header line alone.
    pub fn new(alloc: Global, shape: Shape) -> Result<Script, AllocError> {
        let mut lasts = Vec::new(alloc);
        for _site in 0..shape.sites {
            lasts.push(Last {
                epoch: shape.epoch,
                number: 0,
            })?;
        }
        let mut script = Script {
            bytes: Vec::new(alloc),
            lasts,
            issued: 0,
            lines: 1,
        };
        script.header(shape)?;
        Ok(script)
    }

    pub fn bytes(&self) -> &[u8] {
        self.bytes.as_slice()
    }

    pub fn lines(&self) -> u64 {
        self.lines
    }

    /// The number of the last statement that was issued, where each gift was granted.
    pub fn issued(&self) -> u64 {
        self.issued
    }

    fn put(&mut self, text: &str) -> Result<(), AllocError> {
        self.bytes.extend_from_slice(text.as_bytes())?;
        Ok(())
    }

    fn number(&mut self, number: u64) -> Result<(), AllocError> {
        self.put(Buffer::new().format(number))
    }

    fn signed(&mut self, number: i64) -> Result<(), AllocError> {
        self.put(Buffer::new().format(number))
    }

    fn end(&mut self) -> Result<(), AllocError> {
        self.lines = self.lines.wrapping_add(1);
        self.put("\n")
    }

    fn field(&mut self, field: u16) -> Result<(), AllocError> {
        self.put("stock")?;
        self.number(u64::from(field) + 1)
    }

    fn field_in_header(&mut self, shape: Shape, field: u16) -> Result<(), AllocError> {
        self.put(if field == 0 {
            "{\"name\":\""
        } else {
            ",{\"name\":\""
        })?;
        self.field(field)?;
        self.put("\",\"floor\":")?;
        self.signed(shape.floor)?;
        self.put(",\"ceiling\":")?;
        self.signed(shape.ceiling)?;
        self.put(",\"value\":")?;
        self.signed(shape.value)?;
        self.put("}")
    }

    fn header(&mut self, shape: Shape) -> Result<(), AllocError> {
        self.put("{\"sites\":")?;
        self.number(u64::from(shape.sites))?;
        self.put(",\"fields\":[")?;
        for field in 0..shape.fields {
            self.field_in_header(shape, field)?;
        }
        self.put("]}\n")
    }

    /// The site, and a word behind it.
    fn at(&mut self, site: u16, word: &str) -> Result<(), AllocError> {
        self.number(u64::from(site))?;
        self.put(word)
    }

    fn last(&self, site: u16) -> Last {
        match self.lasts.get(usize::from(site)) {
            Some(last) => *last,
            None => Last {
                epoch: 0,
                number: 0,
            },
        }
    }

    fn set_last(&mut self, site: u16, last: Last) {
        if let Some(place) = self.lasts.get_mut(usize::from(site)) {
            *place = last;
        }
    }

    fn id(&mut self, site: u16, number: u32) -> Result<(), AllocError> {
        let epoch = self.last(site).epoch;
        self.number(u64::from(epoch))?;
        self.put(".")?;
        self.number(u64::from(number))
    }

    /// A begin, and the number of the transaction.
    pub fn begin(&mut self, site: u16) -> Result<u32, AllocError> {
        let last = self.last(site);
        let number = last.number.wrapping_add(1);
        self.set_last(site, Last { number, ..last });
        self.at(site, " begin")?;
        self.end()?;
        Ok(number)
    }

    pub fn escrow(
        &mut self,
        site: u16,
        number: u32,
        field: u16,
        change: i64,
    ) -> Result<(), AllocError> {
        self.at(site, " escrow ")?;
        self.id(site, number)?;
        self.put(" ")?;
        self.field(field)?;
        self.put(" ")?;
        self.signed(change)?;
        self.end()
    }

    pub fn commit(&mut self, site: u16, number: u32) -> Result<(), AllocError> {
        self.at(site, " commit ")?;
        self.id(site, number)?;
        self.end()
    }

    pub fn abort(&mut self, site: u16, number: u32) -> Result<(), AllocError> {
        self.at(site, " abort ")?;
        self.id(site, number)?;
        self.end()
    }

    /// A commit whose record is torn after so many bytes.
    pub fn torn_commit(&mut self, site: u16, number: u32, kept: u64) -> Result<(), AllocError> {
        self.at(site, " commit ")?;
        self.id(site, number)?;
        self.put(" torn ")?;
        self.number(kept)?;
        self.end()
    }

    pub fn restart(&mut self, site: u16) -> Result<(), AllocError> {
        let epoch = self.last(site).epoch.wrapping_add(1);
        self.set_last(site, Last { epoch, number: 0 });
        self.at(site, " restart")?;
        self.end()
    }

    pub fn read(&mut self, site: u16, field: u16) -> Result<(), AllocError> {
        self.at(site, " read ")?;
        self.field(field)?;
        self.end()
    }

    pub fn share(&mut self, site: u16, field: u16) -> Result<(), AllocError> {
        self.at(site, " share ")?;
        self.field(field)?;
        self.end()
    }

    /// A gift of rights to lower.
    pub fn give(&mut self, site: u16, to: u16, field: u16, amount: u64) -> Result<(), AllocError> {
        self.issued = self.issued.wrapping_add(1);
        self.at(site, " give ")?;
        self.number(u64::from(to))?;
        self.put(" ")?;
        self.field(field)?;
        self.put(" lower ")?;
        self.number(amount)?;
        self.end()
    }

    /// A spare of at most so many rights to lower, whose record is torn after so many bytes: no
    /// statement of it is issued.
    pub fn torn_spare(
        &mut self,
        site: u16,
        to: u16,
        field: u16,
        want: u64,
        kept: u64,
    ) -> Result<(), AllocError> {
        self.at(site, " spare ")?;
        self.number(u64::from(to))?;
        self.put(" ")?;
        self.field(field)?;
        self.put(" lower ")?;
        self.number(want)?;
        self.put(" torn ")?;
        self.number(kept)?;
        self.end()
    }

    /// So many rights to raise are given up for good.
    pub fn tighten(&mut self, site: u16, field: u16, amount: u64) -> Result<(), AllocError> {
        self.at(site, " tighten ")?;
        self.field(field)?;
        self.put(" raise ")?;
        self.number(amount)?;
        self.end()
    }

    pub fn deliver(&mut self, statement: u64) -> Result<(), AllocError> {
        self.put("deliver ")?;
        self.number(statement)?;
        self.end()
    }

    /// The rights to lower of all sites are made even. How many statements that issues isn't known
    /// here, so nothing is delivered behind it.
    pub fn level(&mut self, field: u16) -> Result<(), AllocError> {
        self.put("level ")?;
        self.field(field)?;
        self.put(" lower")?;
        self.end()
    }

    pub fn reach(&mut self, site: u16, field: u16, target: i64) -> Result<(), AllocError> {
        self.put("reach ")?;
        self.number(u64::from(site))?;
        self.put(" ")?;
        self.field(field)?;
        self.put(" ")?;
        self.signed(target)?;
        self.end()
    }
}
