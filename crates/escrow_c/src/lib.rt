//! What C calls: a site that is held by a pointer, over a log that the caller keeps.
//! `include/escrow.h` declares it, and `docs/EMBEDDING.md` tells what a caller has to keep.
#![tactic(auto)]

ghost use Rattle.std.specs.Prelude.{◌≡◌, ◌≢◌, ◌<◌, ◌≤◌, ◌↔◌, length, take, None};
ghost use Rattle.entry_text.specs.Lines.{max_line};
ghost use Rattle.escrow_c.specs.Status.{done, closed, no_room};
ghost use Rattle.escrow_c.specs.Numbers.{command_of};
ghost use Rattle.escrow_c.specs.Asking.{IsOpened, FailsToOpen, Asks, FailsToAsk, DoesLine, TellsLine, FailsAt, Copies, FailsToCopy, HasLength, LiesBetween, HasNoInterval, HasShare, HasNoShare};
ghost use Rattle.escrow_c.specs.Texts.{AnswersScript, NeedsRoom, IsUnanswered, Judges};

mod answer;
mod ask;
mod calls;
mod judging;
mod laws;
mod script;
mod status;
mod trace;

use answer::Answer;
use ask::{Ask, command_of};
use calls::{
    ask_session, bad_line, copy_log, do_line, look_between, look_share, open_boxed, tell_line,
};
use entry_text::MAX_LINE;
use judging::judge_trace;
pub use laws::{commands_have_numbers, numbers_tell_replies};
use script::{answers_to, fill, script_status};
use site_handle::Handle;
use status::{CLOSED, DONE, IS_OPEN, NO_COMMAND, NO_ROOM, opening_status};
use std::alloc::Global;

/// Opens the site of this number, of the schema that the header tells, over what the caller kept of
/// its log. `kept` is how many of the log's bytes count, those up to and with the last line feed:
/// the caller cuts its log there before it adds to it. At `BAD_LOG`, `line` is the first line that
/// is no record or breaks a rule of a kept log, counted from 1. Else both are 0.
#[unsafe(no_mangle)]
pub extern "C" fn escrow_site_open(
    alloc: Global,
    handle: &mut Handle,
    header: &[u8],
    site: u16,
    log: &[u8],
    kept: &mut usize,
    line: &mut u64,
) -> u32
    ensures done { result ≡ done
        → IsOpened header.now site log.now kept.new handle.new.value }
    ensures fresh { result ≡ done → handle.old.value ≡ None }
    ensures line { result ≡ done → line.new ≡ 0 }
    ensures fails { result ≢ done
        → FailsToOpen handle.old.value header.now site log.now line.new result }
    ensures same { result ≢ done → handle.new.value ≡ handle.old.value }
    ensures none { result ≢ done → kept.new ≡ 0 }
{
    *kept = 0;
    *line = 0;
    if let Some(held) = handle.take(alloc) {
        handle.put(alloc, held);
        return IS_OPEN;
    }
    match open_boxed(alloc, header, site, log) {
        Ok(opened) => {
            *kept = opened.kept;
            handle.put(alloc, opened.session);
            DONE
        }
        Err(fault) => {
            *line = bad_line(fault);
            opening_status(fault)
        }
    }
}

/// Closes the site, and frees its memory. The log is the caller's.
#[unsafe(no_mangle)]
pub extern "C" fn escrow_site_close(alloc: Global, handle: &mut Handle) -> u32
    ensures none { handle.new.value ≡ None }
    ensures closed { (result ≡ closed) ↔ (handle.old.value ≡ None) }
    ensures done { (result ≡ done) ↔ (handle.old.value ≢ None) }
{
    match handle.take(alloc) {
        Some(held) => {
            drop(held);
            DONE
        }
        None => CLOSED,
    }
}

/// Asks the site a command that is spelled in numbers, and answers in numbers.
#[unsafe(no_mangle)]
pub extern "C" fn escrow_site_ask(
    alloc: Global,
    handle: &mut Handle,
    ask: &Ask,
    answer: &mut Answer,
) -> u32
    ensures done { result ≡ done
        → Asks handle.old.value (command_of ask.now) answer.new handle.new.value }
    ensures fails { result ≢ done → FailsToAsk handle.old.value (command_of ask.now) result }
    ensures same { result ≢ done → handle.new.value ≡ handle.old.value }
    ensures untouched { result ≢ done → answer.new ≡ answer.old }
{
    let Some(held) = handle.take(alloc) else {
        return CLOSED;
    };
    let mut held = held;
    let status = match command_of(ask) {
        Some(command) => ask_session(alloc, &mut held, command, answer),
        None => NO_COMMAND,
    };
    handle.put(alloc, held);
    status
}

/// Asks the site a command that is spelled by a line without its line feed, as `0 escrow 0.1 stock
/// -20`, and answers in numbers.
#[unsafe(no_mangle)]
pub extern "C" fn escrow_site_do(
    alloc: Global,
    handle: &mut Handle,
    line: &[u8],
    answer: &mut Answer,
) -> u32
    ensures done { result ≡ done
        → DoesLine handle.old.value line.now answer.new handle.new.value }
    ensures fails { result ≢ done
        → FailsAt handle.old.value line.now result handle.new.value }
    ensures same { result ≢ done → handle.new.value ≡ handle.old.value }
    ensures untouched { result ≢ done → answer.new ≡ answer.old }
{
    let Some(held) = handle.take(alloc) else {
        return CLOSED;
    };
    let mut held = held;
    let status = do_line(alloc, &mut held, line, answer);
    handle.put(alloc, held);
    status
}

/// Asks the site a command that is spelled by a line without its line feed, and answers the text of
/// the entry, as `0 escrow 0.1 stock -20 -> granted`, also without one. `text` has room for 256
/// bytes at least, and `told` is how many of them the text has, or 0: never more than there are.
#[unsafe(no_mangle)]
pub extern "C" fn escrow_site_tell(
    alloc: Global,
    handle: &mut Handle,
    line: &[u8],
    text: &mut [u8],
    told: &mut usize,
) -> u32
    ensures done { result ≡ done
        → TellsLine handle.old.value line.now (take told.new text.new) handle.new.value }
    ensures within { told.new ≤ length text.new }
    ensures fails { result ≢ done → result ≢ no_room
        → FailsAt handle.old.value line.now result handle.new.value }
    ensures room { (result ≡ no_room) ↔ (length text.old < max_line) }
    ensures same { result ≡ no_room → handle.new.value ≡ handle.old.value }
    ensures none { result ≢ done → told.new ≡ 0 }
{
    *told = 0;
    if text.len() < MAX_LINE {
        return NO_ROOM;
    }
    let Some(held) = handle.take(alloc) else {
        return CLOSED;
    };
    let mut held = held;
    let status = tell_line(alloc, &mut held, line, text, told);
    handle.put(alloc, held);
    status
}

/// How many bytes the log has.
#[unsafe(no_mangle)]
pub extern "C" fn escrow_site_log_length(
    alloc: Global,
    handle: &mut Handle,
    length: &mut usize,
) -> u32
    ensures done { result ≡ done → HasLength handle.old.value length.new }
    ensures closed { result ≢ done → (result ≡ closed) × (handle.old.value ≡ None) }
    ensures same { handle.new.value ≡ handle.old.value }
    ensures none { result ≢ done → length.new ≡ 0 }
{
    *length = 0;
    let Some(held) = handle.take(alloc) else {
        return CLOSED;
    };
    *length = held.log().len();
    handle.put(alloc, held);
    DONE
}

/// Copies the log's bytes from a place on, as many as there are or as there is room for, and tells
/// how many.
#[unsafe(no_mangle)]
pub extern "C" fn escrow_site_log(
    alloc: Global,
    handle: &mut Handle,
    from: usize,
    out: &mut [u8],
    copied: &mut usize,
) -> u32
    ensures done { result ≡ done → Copies handle.old.value from copied.new out.old out.new }
    ensures fails { result ≢ done → FailsToCopy handle.old.value from result }
    ensures same { handle.new.value ≡ handle.old.value }
    ensures none { result ≢ done → copied.new ≡ 0 }
    ensures untouched { result ≢ done → out.new ≡ out.old }
{
    *copied = 0;
    let Some(held) = handle.take(alloc) else {
        return CLOSED;
    };
    let status = copy_log(&held, from, out, copied);
    handle.put(alloc, held);
    status
}

/// Between which values the field's committed value lies, both included, as far as the site knows:
/// what a read answers, in quantities.
#[unsafe(no_mangle)]
pub extern "C" fn escrow_site_interval(
    alloc: Global,
    handle: &mut Handle,
    field: u16,
    low: &mut i64,
    high: &mut i64,
) -> u32
    ensures done { result ≡ done
        → LiesBetween handle.old.value (record { 0 = field }) low.new high.new }
    ensures fails { result ≢ done → HasNoInterval handle.old.value (record { 0 = field }) result }
    ensures same { handle.new.value ≡ handle.old.value }
    ensures untouched { result ≢ done → (low.new ≡ low.old) × (high.new ≡ high.old) }
{
    let Some(held) = handle.take(alloc) else {
        return CLOSED;
    };
    let status = look_between(&held, field, low, high);
    handle.put(alloc, held);
    status
}

/// The free rights of the site on the field, to lower and to raise it: what a share answers, in
/// rights.
#[unsafe(no_mangle)]
pub extern "C" fn escrow_site_share(
    alloc: Global,
    handle: &mut Handle,
    field: u16,
    lower: &mut u64,
    raise: &mut u64,
) -> u32
    ensures done { result ≡ done
        → HasShare handle.old.value (record { 0 = field }) lower.new raise.new }
    ensures fails { result ≢ done → HasNoShare handle.old.value (record { 0 = field }) result }
    ensures same { handle.new.value ≡ handle.old.value }
    ensures untouched { result ≢ done → (lower.new ≡ lower.old) × (raise.new ≡ raise.old) }
{
    let Some(held) = handle.take(alloc) else {
        return CLOSED;
    };
    let status = look_share(&held, field, lower, raise);
    handle.put(alloc, held);
    status
}

/// Runs a script in a world of its own, as `escrow run` does, and writes what answers it to `out`.
/// `needed` is how many bytes the answers have: at `DONE` so many were written, never more than there
/// is room for; where there is too little room it is `NO_ROOM`, and `needed` says how much would do;
/// else it is 0. Nothing is kept between calls.
#[unsafe(no_mangle)]
pub extern "C" fn escrow_run_text(
    alloc: Global,
    script: &[u8],
    out: &mut [u8],
    needed: &mut usize,
) -> u32
    ensures done { result ≡ done → AnswersScript script.now (take needed.new out.new) }
    ensures within { result ≡ done → needed.new ≤ length out.new }
    ensures room { result ≡ no_room → NeedsRoom script.now (length out.old) needed.new }
    ensures fails { result ≢ done → result ≢ no_room → IsUnanswered script.now result }
    ensures none { result ≢ done → result ≢ no_room → needed.new ≡ 0 }
    ensures untouched { result ≢ done → out.new ≡ out.old }
{
    *needed = 0;
    match answers_to(alloc, script) {
        Ok(answers) => fill(answers.as_slice(), out, needed),
        Err(fault) => script_status(fault),
    }
}

/// Judges a trace under a header: entries as text, a line for each, of all sites. `DONE`: they are
/// a run of one central store, in which each reply was owed. `ILLEGAL`: entry `at`, counted from 1,
/// is the first that breaks a rule. `BAD_ENTRY`: line `at` is the first that is no entry. Else `at`
/// is 0.
#[unsafe(no_mangle)]
pub extern "C" fn escrow_judge(alloc: Global, header: &[u8], trace: &[u8], at: &mut u64) -> u32
    ensures { Judges header.now trace.now result at.new }
{
    let judgement = judge_trace(alloc, header, trace);
    *at = judgement.at;
    judgement.status
}
