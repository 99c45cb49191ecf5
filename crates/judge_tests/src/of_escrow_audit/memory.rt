//! Where want of memory is told. With memory ample none is: `rt try --test --fail-alloc N` refuses
//! the Nth request, and a preloaded `malloc` does so to the built tests.

use super::{Ended, ended};
use check_kit::STOCK_OF_TWO;
use escrow_audit::{AuditEnd, ScriptFault, Watched};
use std::alloc::Global;
use std::process::Abort;
use std::thread::Threads;
use stream_kit::Trickle;

/// A header, entries for whose judge memory is asked for, a bad line, and a line that isn't read.
const TEXT: &[u8] = b"\
{\"sites\":2,\"fields\":[{\"name\":\"stock\",\"floor\":0,\"ceiling\":100,\"value\":40}]}
0 begin -> begun 0.1
0 escrow 0.1 stock -10 -> granted
0 commit 0.1 -> committed
0 give 1 stock lower 5 -> given 5
1 accept 0 1 stock lower 5 -> accepted 5
hello
0 begin -> begun 0.2
";

/// The answer to it.
const ANSWER: &[u8] = b"bad entry 7\n";

/// How many of its bytes stand behind the bad line.
const BEHIND: usize = 21;

/// How an audit of the text ends whose reader gives a byte a read, and how many bytes it leaves. Its
/// writer, which needs no memory, has room for the answer alone.
fn ends_at(
    rt: &(impl Threads + Sync),
    alloc: Global,
    fields: bool,
    answer: &mut [u8],
) -> (Ended, usize) {
    let mut reader = Watched::new(Trickle(TEXT));
    let mut writer = Watched::new(answer);
    let end = ended(rt, alloc, fields, &mut reader, &mut writer);
    (end, reader.into_inner().0.len())
}

/// Whether want of memory is in its place where so many bytes are left: before the first read, at
/// the header or at the bad line; with `fields` at any line up to that.
fn is_in_its_place(fields: bool, left: usize) -> bool {
    let read = &TEXT[..TEXT.len().saturating_sub(left)];
    if fields {
        return left >= BEHIND && (read.is_empty() || read.ends_with(b"\n"));
    }
    read.is_empty() || read.len() == STOCK_OF_TWO.len() + 1 || left == BEHIND
}

/// Tests that the bad line is told, or want of memory in its place. Nothing is written then.
fn check_want(rt: &(impl Abort + Threads + Sync), alloc: Global, fields: bool) {
    let mut answer = [0; ANSWER.len()];
    let (end, left) = ends_at(rt, alloc, fields, &mut answer);
    if end == Err(ScriptFault::NoMemory) {
        assert!(rt; is_in_its_place(fields, left), "{left} bytes left");
        assert_eq!(rt; &answer, &[0; ANSWER.len()]);
        return;
    }
    assert_eq!(rt; end, Ok(AuditEnd::BadEntry));
    assert_eq!(rt; answer.as_slice(), ANSWER);
    assert_eq!(rt; left, BEHIND);
}

#[test]
fn tells_want_of_memory_in_its_place(rt: HostRuntime) {
    check_want(&rt, rt.alloc(), false);
    check_want(&rt, rt.alloc(), true);
}
