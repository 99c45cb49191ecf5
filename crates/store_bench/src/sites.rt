//! The jobs of one site: it starts on its log, and is served.

use crate::dice::Dice;
use crate::digest::Digest;
use crate::jobs::Part;
use crate::kinds::{Kind, Plan, script_of};
use crate::script::Script;
use field_bounds::{Command, FieldNo, Kind as Side, Reply, Schema, SiteNo, Statement, TxnId};
use file_medium::{LogFile, MemoryFile};
use line_serving::serve;
use log_stand::stand_of;
use site_handle::Session;
use site_service::{CommitAnswer, NoTrace, Service, Watched};
use std::alloc::{AllocError, Global};
use std::io;
use std::io::Read;

/// The logs that a site starts on: of so many transactions in hundredths.
const STARTS: [Part; 3] = [
    Part {
        kind: Kind::Sales,
        sites: 1,
        fields: 1,
        percent: 50,
    },
    Part {
        kind: Kind::Sales,
        sites: 4,
        fields: 8,
        percent: 30,
    },
    Part {
        kind: Kind::Mixed,
        sites: 16,
        fields: 64,
        percent: 20,
    },
];

/// What a site is asked, and how many bytes come at once: of some 64 lines, and of some 1,000.
const SERVED: [(Part, usize); 3] = [
    (
        Part {
            kind: Kind::Sales,
            sites: 1,
            fields: 1,
            percent: 40,
        },
        1_200,
    ),
    (
        Part {
            kind: Kind::Sales,
            sites: 1,
            fields: 8,
            percent: 30,
        },
        20_000,
    ),
    (
        Part {
            kind: Kind::Mixed,
            sites: 1,
            fields: 64,
            percent: 30,
        },
        20_000,
    ),
];

/// A reader that gives at most so many bytes at once, as a pipe does.
#[derive(Drop)]
struct Batches<'a> {
    left: &'a [u8],
    at_once: usize,
}

impl Read for Batches<'_> {
    fn read(&mut self, buf: &mut [u8]) -> io::Result<usize> {
        let count = buf.len().min(self.at_once);
        self.left.read(&mut buf[..count])
    }
}

/// Why a job came to nothing: want of memory, or a call of the store was refused, which none is.
#[derive(Drop)]
pub struct Stopped;

impl From<AllocError> for Stopped {
    fn from(_refused: AllocError) -> Stopped {
        Stopped
    }
}

/// The first site of a plan, over an empty log.
fn fresh(alloc: Global, plan: Plan) -> Result<Session, Stopped> {
    let script = Script::new(alloc, plan.shape())?;
    match Session::open(alloc, script.bytes(), 0, &[]) {
        Ok(opened) => Ok(opened.session),
        Err(_) => Err(Stopped),
    }
}

fn escrow(
    session: &mut Session,
    alloc: Global,
    dice: &mut Dice,
    plan: Plan,
    txn: TxnId,
) -> Result<(), AllocError> {
    let field = FieldNo(dice.below(plan.fields));
    let change = dice.change();
    session.ask(alloc, Command::Escrow { txn, field, change })?;
    Ok(())
}

/// A transaction of one to four escrows.
fn sell(
    session: &mut Session,
    alloc: Global,
    dice: &mut Dice,
    plan: Plan,
) -> Result<(), AllocError> {
    let Reply::Begun(txn) = session.ask(alloc, Command::Begin)? else {
        return Ok(());
    };
    escrow(session, alloc, dice, plan, txn)?;
    if plan.fields > 1 {
        for _more in 0..dice.below(4) {
            escrow(session, alloc, dice, plan, txn)?;
        }
    }
    session.ask(alloc, Command::Commit { txn })?;
    Ok(())
}

/// A gift to another site, and what another site has given so far arrives.
fn exchange(
    session: &mut Session,
    alloc: Global,
    dice: &mut Dice,
    plan: Plan,
    total: u64,
) -> Result<(), AllocError> {
    let give = Command::Give {
        to: SiteNo(dice.below(plan.sites)),
        field: FieldNo(dice.below(plan.fields)),
        kind: Side::Lower,
        amount: 3,
    };
    session.ask(alloc, give)?;
    let told = Statement {
        from: SiteNo(dice.below(plan.sites)),
        to: SiteNo(0),
        field: FieldNo(dice.below(plan.fields)),
        kind: Side::Raise,
        total,
    };
    session.ask(alloc, Command::Accept(told))?;
    Ok(())
}

/// The log of a site that was asked so many transactions and stopped at some of 100,000.
fn log_of(alloc: Global, dice: &mut Dice, plan: Plan, count: u64) -> Result<Session, Stopped> {
    let mut session = fresh(alloc, plan)?;
    session.ask(alloc, Command::Restart)?;
    for number in 0..count {
        sell(&mut session, alloc, dice, plan)?;
        if let Kind::Mixed = plan.kind {
            exchange(&mut session, alloc, dice, plan, number + 1)?;
        }
        if number % 16_384 == 16_383 {
            session.ask(alloc, Command::Restart)?;
        }
    }
    Ok(session)
}

fn schema_of(alloc: Global, plan: Plan) -> Result<Schema, Stopped> {
    let script = Script::new(alloc, plan.shape())?;
    match Schema::from_header(alloc, script.bytes()) {
        Ok(schema) => Ok(schema),
        Err(_) => Err(Stopped),
    }
}

/// Takes in what a service's site knows of the first fields, and its log.
fn take_in<F: LogFile>(digest: &mut Digest, service: &Service<F>) {
    for field in 0..16 {
        if let Some((lower, raise)) = service.site().share(FieldNo(field)) {
            digest.take_number(lower);
            digest.take_number(raise);
        }
    }
    digest.take_all(service.site().medium().bytes());
}

/// A site starts on a log: how far it has come, the service, and the first questions.
fn start(alloc: Global, digest: &mut Digest, plan: Plan, log: &[u8]) -> Result<(), Stopped> {
    let stand = stand_of(alloc, log)?;
    digest.take_number(stand.epoch);
    digest.take_number(stand.length);
    let file = MemoryFile::new(alloc, Vec::from_slice(alloc, log)?);
    let schema = schema_of(alloc, plan)?;
    let Ok(mut service) = Service::open(alloc, schema, SiteNo(0), file, &mut NoTrace) else {
        return Err(Stopped);
    };
    for number in [1, 1_000, 1_000_000_000] {
        let kept = service.has_kept(alloc, TxnId { epoch: 1, number })?;
        digest.take_number(u64::from(kept == CommitAnswer::Yes));
    }
    take_in(digest, &service);
    Ok(())
}

/// A site starts on the log that it left; and on a copy of it whose end is torn.
pub fn starts(alloc: Global, dice: &mut Dice, lines: u32) -> Result<Digest, Stopped> {
    let mut digest = Digest::new();
    for part in STARTS {
        let plan = part.plan(0);
        let session = log_of(alloc, dice, plan, part.lines(lines))?;
        let log = session.log();
        start(alloc, &mut digest, plan, log)?;
        start(alloc, &mut digest, plan, &log[..log.len() - log.len() / 8])?;
    }
    Ok(digest)
}

/// Serves a script, and takes in what the site answers and keeps.
fn serve_script(
    alloc: Global,
    plan: Plan,
    script: &Script,
    at_once: usize,
    digest: Digest,
) -> Result<Digest, Stopped> {
    let schema = schema_of(alloc, plan)?;
    let opened = Service::open(alloc, schema, SiteNo(0), NoTrace, &mut NoTrace);
    let Ok(mut service) = opened else {
        return Err(Stopped);
    };
    let mut writer = Watched::new(digest);
    let mut reader = Watched::new(Batches {
        left: script.bytes(),
        at_once,
    });
    let ended = serve(alloc, &mut service, &mut NoTrace, &mut reader, &mut writer);
    let mut digest = writer.into_inner();
    digest.take_number(u64::from(ended.is_ok()));
    take_in(&mut digest, &service);
    Ok(digest)
}

/// A site is served with many commands under way.
pub fn serves(alloc: Global, dice: &mut Dice, lines: u32) -> Result<Digest, Stopped> {
    let mut digest = Digest::new();
    for (part, at_once) in SERVED {
        let plan = part.plan(1);
        let script = script_of(alloc, dice, plan, part.lines(lines))?;
        digest = serve_script(alloc, plan, &script, at_once, digest)?;
    }
    Ok(digest)
}
