//! A site over a log that a host keeps.

ghost use Rattle.std.specs.Prelude.{◌≡◌, ◌≢◌, ◌<◌, ◌++◌, [], Ok, codes, IfOk, IfErr, OnOk, OnErr};
ghost use Rattle.field_bounds.specs.Header.{schema_of};
ghost use Rattle.entry_text.specs.Spelling.{reply_text};
ghost use Rattle.script_input.specs.Lines.{last_part};
ghost use Rattle.site_step.specs.Site.{Opens};
ghost use Rattle.request_lines.specs.Requests.{Asks};
ghost use Rattle.site_handle.specs.Lines.{IsUnasked};
ghost use Rattle.site_handle.specs.Session.{IsOpenOver, IsWhyClosed, TellsNoSchema, TellsBadLine, Answers, Does, Tells, Leaves};

use crate::fault::{CallFault, OpeningFault};
use crate::lines::{command_in, whole_lines};
use entry_text::{MAX_LINE, append_reply};
use field_bounds::{Command, Entry, Reply, Schema, SchemaFault, SiteNo};
use history::GhostHistory;
use kept_records::MemoryMedium;
use site_step::{OpenFault, Site};
use std::alloc::{AllocError, Global};
use std::marker::Model;

/// A site that is held for a host. Its medium is the log in memory, which never fails: no answer is
/// in doubt, and no restart fails. It keeps no history, so it grows by its log alone. Contracts see the site. At all times the log is whole
/// lines.
///
/// Source: this project.
#[derive(Drop)]
pub struct Session {
    site: Site<MemoryMedium, GhostHistory<Entry>>,
}

impl Model for Session {
    ghost use Rattle.site_step.specs.Site.{SiteValue};
    ghost use Rattle.site_handle.specs.Session.{IsSoundSession};

    ghost Value = { SiteValue };

    ghost view = { λ s. s.site };

    ghost invariant = { λ s. IsSoundSession s.site };
}

/// A session, and how many bytes of the log it stands on.
#[derive(Drop)]
pub struct Opened {
    pub session: Session,
    pub kept: usize,
}

// The schema that a header tells.
fn schema_in(alloc: Global, header: &[u8]) -> Result<Schema, OpeningFault>
    ensures ok { IfOk result (λ schema. schema_of header.now ≡ Ok schema) }
    ensures err { IfErr result (TellsNoSchema header.now) }
{
    match Schema::from_header(alloc, header) {
        Ok(schema) => Ok(schema),
        Err(SchemaFault::NoMemory) => Err(OpeningFault::NoMemory),
        Err(_) => Err(OpeningFault::NoSchema),
    }
}

// The session of a schema over the whole lines of a log.
fn open_lines(
    alloc: Global,
    schema: Schema,
    number: SiteNo,
    lines: &[u8],
) -> Result<Session, OpeningFault>
    requires in_schema { number.0 < schema.sites }
    requires whole { last_part lines.now ≡ [] }
    ensures ok { IfOk result (Opens schema number lines.now 0) }
    ensures err { IfErr result (TellsBadLine schema number.0 lines.now) }
{
    let medium = MemoryMedium::new(Vec::from_slice(alloc, lines)?);
    match Site::open_with(alloc, schema, number, medium) {
        Ok(site) => Ok(Session { site }),
        Err((OpenFault::Line(line), _)) => Err(OpeningFault::Line(line)),
        Err((_, _)) => Err(OpeningFault::NoMemory),
    }
}

// Adds an arrow and a reply behind the line that asked it: so the text of the entry is made, since
// the line is that of its command.
fn add_told(text: &mut Vec<u8>, line: &[u8], reply: Reply) -> Result<(), AllocError>
    ensures ok { OnOk result (text.new.items
        ≡ text.old.items ++ (line.now ++ (codes " -> " ++ reply_text reply))) }
{
    text.extend_from_slice(line)?;
    text.extend_from_slice(b" -> ")?;
    append_reply(text, reply)
}

impl Session {
    /// Opens the site of this number over what a host kept of its log. What stands behind the last
    /// line feed was torn off, and doesn't count. Over an empty log the site is up, and over any
    /// other down until it is asked to restart.
    ///
    /// Costs memory for the bytes of the log, twice until the site is open.
    pub fn open(
        alloc: Global,
        header: &[u8],
        number: u16,
        log: &[u8],
    ) -> Result<Opened, OpeningFault>
        ensures ok { IfOk result (λ opened. IsOpenOver header.now number log.now
            opened.kept opened.session) }
        ensures err { IfErr result (IsWhyClosed header.now number log.now) }
    {
        let schema = schema_in(alloc, header)?;
        if number >= schema.sites() {
            return Err(OpeningFault::NoSite);
        }
        let kept = whole_lines(log);
        let session = open_lines(alloc, schema, SiteNo(number), &log[..kept])?;
        Ok(Opened { session, kept })
    }

    /// The site, to be looked at. Costs no memory.
    pub fn site(&self) -> &Site<MemoryMedium, GhostHistory<Entry>>
        ensures value { result.now ≡ self.now }
    {
        &self.site
    }

    /// The bytes of the log. Costs no memory.
    pub fn log(&self) -> &[u8]
        ensures value { result.now ≡ self.now.bytes }
    {
        self.site.medium().bytes()
    }

    /// Answers a command, by one step of the site. The error is want of memory.
    pub fn ask(&mut self, alloc: Global, command: Command) -> Result<Reply, AllocError>
        ensures ok { IfOk result (λ reply. Answers self.old command reply self.new) }
        ensures err { OnErr result (self.new ≡ self.old) }
    {
        let reply = self.site.apply(alloc, command)?;
        Ok(reply)
    }

    // The command that a line asks of the site.
    fn command_of(&self, line: &[u8]) -> Result<Command, CallFault>
        ensures ok { IfOk result (Asks self.now.schema self.now.site line.now) }
        ensures err { IfErr result (IsUnasked self.now.schema self.now.site line.now) }
    {
        command_in(self.site.schema(), self.site.site(), line)
    }

    /// Carries out the command that a line asks, without its LF. At a fault the site is as it was.
    pub fn carry_out(&mut self, alloc: Global, line: &[u8]) -> Result<Reply, CallFault>
        ensures ok { IfOk result (λ reply. Does self.old line.now reply self.new) }
        ensures err { IfErr result (Leaves self.old line.now self.new) }
        ensures told { IfErr result (λ fault. fault ≢ CallFault.Untold) }
    {
        let command = self.command_of(line)?;
        Ok(self.ask(alloc, command)?)
    }

    /// Carries out the command that a line asks, without its LF, and answers the text of the entry,
    /// without an LF. Memory for it, 256 bytes, is taken first.
    pub fn tell(&mut self, alloc: Global, line: &[u8]) -> Result<Vec<u8>, CallFault>
        ensures ok { IfOk result (λ text. Tells self.old line.now text.items self.new) }
        ensures err { IfErr result (Leaves self.old line.now self.new) }
    {
        let mut text = Vec::with_capacity(alloc, MAX_LINE)?;
        let command = self.command_of(line)?;
        let reply = self.ask(alloc, command)?;
        match add_told(&mut text, line, reply) {
            Ok(()) => Ok(text),
            Err(_) => Err(CallFault::Untold),
        }
    }
}
