//! What the calls of C do to a session.

ghost use Rattle.std.specs.Prelude.{◌≡◌, ◌≢◌, ◌<◌, ◌≤◌, length, take, Some, IfOk, IfErr};
ghost use Rattle.field_bounds.specs.Owed.{interval_of, shares_of};
ghost use Rattle.site_step.specs.Site.{here};
ghost use Rattle.site_handle.specs.Session.{IsOpenOver, IsWhyClosed, Tells};
ghost use Rattle.escrow_c.specs.Status.{done, no_memory, untold, past_end};
ghost use Rattle.escrow_c.specs.Asking.{line_of, AnswersBy, DoesBy, FailsBy, CopiesFrom, IsUntold};

use crate::answer::{Answer, answer_of};
use crate::status::{DONE, DOWN, NO_FIELD, NO_MEMORY, PAST_END, UNTOLD, call_status};
use field_bounds::{Command, FieldNo};
use site_handle::{OpeningFault, Session};
use std::alloc::Global;

/// A session on the heap, and how many bytes of the log it stands on.
#[derive(Drop)]
pub(crate) struct Boxed {
    pub session: Box<Session>,
    pub kept: usize,
}

/// Opens a session on the heap.
pub(crate) fn open_boxed(
    alloc: Global,
    header: &[u8],
    number: u16,
    log: &[u8],
) -> Result<Boxed, OpeningFault>
    ensures ok { IfOk result (λ opened. IsOpenOver header.now number log.now
        opened.kept opened.session.value) }
    ensures err { IfErr result (IsWhyClosed header.now number log.now) }
{
    let opened = Session::open(alloc, header, number, log)?;
    match Box::new(alloc, opened.session) {
        Ok(session) => Ok(Boxed {
            session,
            kept: opened.kept,
        }),
        Err(_) => Err(OpeningFault::NoMemory),
    }
}

/// The line that a fault names, or 0.
pub(crate) fn bad_line(fault: OpeningFault) -> u64
    ensures { result ≡ line_of fault }
{
    match fault {
        OpeningFault::NoMemory => 0,
        OpeningFault::NoSchema => 0,
        OpeningFault::NoSite => 0,
        OpeningFault::Line(line) => line,
    }
}

/// Asks a command, and answers in numbers.
pub(crate) fn ask_session(
    alloc: Global,
    session: &mut Session,
    command: Command,
    answer: &mut Answer,
) -> u32
    ensures done { result ≡ done → AnswersBy session.old command answer.new session.new }
    ensures fails { result ≢ done → result ≡ no_memory }
    ensures same { result ≢ done → session.new ≡ session.old }
    ensures untouched { result ≢ done → answer.new ≡ answer.old }
{
    match session.ask(alloc, command) {
        Ok(reply) => {
            *answer = answer_of(reply);
            DONE
        }
        Err(_) => NO_MEMORY,
    }
}

/// Carries out a line, and answers in numbers.
pub(crate) fn do_line(alloc: Global, session: &mut Session, line: &[u8], answer: &mut Answer) -> u32
    ensures done { result ≡ done → DoesBy session.old line.now answer.new session.new }
    ensures fails { result ≢ done → FailsBy session.old line.now result session.new }
    ensures same { result ≢ done → session.new ≡ session.old }
    ensures untouched { result ≢ done → answer.new ≡ answer.old }
{
    match session.carry_out(alloc, line) {
        Ok(reply) => {
            *answer = answer_of(reply);
            DONE
        }
        Err(fault) => call_status(fault),
    }
}

// Writes a text to the front of the room, where it has room.
fn say(text: &[u8], room: &mut [u8], told: &mut usize) -> u32
    ensures done { result ≡ done → take told.new room.new ≡ text.now }
    ensures within { result ≡ done → told.new ≤ length room.new }
    ensures fails { result ≢ done → result ≡ untold }
    ensures none { result ≢ done → told.new ≡ told.old }
{
    if room.len() < text.len() {
        return UNTOLD;
    }
    room[..text.len()].copy_from_slice(text);
    *told = text.len();
    DONE
}

/// Carries out a line, and answers by the text of its entry.
pub(crate) fn tell_line(
    alloc: Global,
    session: &mut Session,
    line: &[u8],
    room: &mut [u8],
    told: &mut usize,
) -> u32
    ensures done { result ≡ done
        → Tells session.old line.now (take told.new room.new) session.new }
    ensures within { result ≡ done → told.new ≤ length room.new }
    ensures fails { result ≢ done → FailsBy session.old line.now result session.new }
    ensures none { result ≢ done → told.new ≡ told.old }
{
    match session.tell(alloc, line) {
        Ok(text) => say(text.as_slice(), room, told),
        Err(fault) => call_status(fault),
    }
}

// Copies bytes from a place on to the front of the room.
fn copy_from(log: &[u8], from: usize, room: &mut [u8]) -> usize
    requires within { from ≤ length log.now }
    ensures copied { CopiesFrom log.now from result room.old room.new }
{
    let rest = &log[from..];
    let count = rest.len().min(room.len());
    room[..count].copy_from_slice(&rest[..count]);
    count
}

/// Copies the log from a place on.
pub(crate) fn copy_log(session: &Session, from: usize, room: &mut [u8], copied: &mut usize) -> u32
    ensures done { result ≡ done
        → CopiesFrom session.now.bytes from copied.new room.old room.new }
    ensures fails { result ≢ done → (result ≡ past_end) × (length session.now.bytes < from) }
    ensures none { result ≢ done → copied.new ≡ copied.old }
    ensures untouched { result ≢ done → room.new ≡ room.old }
{
    let log = session.log();
    if from > log.len() {
        return PAST_END;
    }
    *copied = copy_from(log, from, room);
    DONE
}

/// Looks between which values a field lies.
pub(crate) fn look_between(session: &Session, field: u16, low: &mut i64, high: &mut i64) -> u32
    ensures done { result ≡ done
        → interval_of (here session.now) (record { 0 = field }) ≡ Some (low.new, high.new) }
    ensures fails { result ≢ done
        → IsUntold session.now (interval_of (here session.now) (record { 0 = field })) result }
    ensures untouched { result ≢ done → (low.new ≡ low.old) × (high.new ≡ high.old) }
{
    let site = session.site();
    if !site.is_up() {
        return DOWN;
    }
    let Some((lo, hi)) = site.interval(FieldNo(field)) else {
        return NO_FIELD;
    };
    *low = lo;
    *high = hi;
    DONE
}

/// Looks what rights on a field are free.
pub(crate) fn look_share(session: &Session, field: u16, lower: &mut u64, raise: &mut u64) -> u32
    ensures done { result ≡ done
        → shares_of (here session.now) (record { 0 = field }) ≡ Some (lower.new, raise.new) }
    ensures fails { result ≢ done
        → IsUntold session.now (shares_of (here session.now) (record { 0 = field })) result }
    ensures untouched { result ≢ done → (lower.new ≡ lower.old) × (raise.new ≡ raise.old) }
{
    let site = session.site();
    if !site.is_up() {
        return DOWN;
    }
    let Some((down, up)) = site.share(FieldNo(field)) else {
        return NO_FIELD;
    };
    *lower = down;
    *raise = up;
    DONE
}
