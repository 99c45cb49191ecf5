//! What comes behind the first bad entry: it is read and looked at as before, and only the verdict
//! stands.

use super::{READ_FAULT, check, check_reader};
use check_kit::{STOCK_OF_TWO, text_of_two};
use escrow_audit::{AuditEnd, ScriptFault};
use std::alloc::{AllocError, Global};
use std::io::Read;
use std::process::Abort;
use std::thread::Threads;
use stream_kit::broken_behind;

/// A good entry.
const GOOD: &str = "0 begin -> begun 0.1";

/// A bad entry, of a site that there isn't.
const NO_SITE: &str = "5 begin -> begun 0.1";

/// Lines, and what is answered.
const FOLLOWED: [(&[&str], AuditEnd, &str); 8] = [
    (&[GOOD, NO_SITE], AuditEnd::Illegal, "illegal 2 site\n"),
    // Entries that are good over the good one alone.
    (
        &[
            GOOD,
            NO_SITE,
            "0 escrow 0.1 stock -20 -> granted",
            "0 commit 0.1 -> committed",
        ],
        AuditEnd::Illegal,
        "illegal 2 site\n",
    ),
    // Another bad entry, that breaks another rule or the same.
    (
        &[GOOD, NO_SITE, GOOD],
        AuditEnd::Illegal,
        "illegal 2 site\n",
    ),
    (
        &[GOOD, GOOD, NO_SITE, NO_SITE],
        AuditEnd::Illegal,
        "illegal 2 reply\n",
    ),
    // A remark.
    (
        &[GOOD, NO_SITE, "bad line"],
        AuditEnd::Illegal,
        "illegal 2 site\n",
    ),
    // A bad line goes before every verdict, however far behind.
    (
        &[GOOD, NO_SITE, "hello"],
        AuditEnd::BadEntry,
        "bad entry 4\n",
    ),
    (
        &[NO_SITE, GOOD, GOOD, "bad line", "", "hello"],
        AuditEnd::BadEntry,
        "bad entry 6\n",
    ),
    (
        &[NO_SITE, "0 begin -> begun"],
        AuditEnd::BadEntry,
        "bad entry 3\n",
    ),
];

#[test]
fn looks_at_the_lines_behind(rt: HostRuntime) -> Result<(), AllocError> {
    for (lines, end, answer) in &FOLLOWED {
        check(&rt, rt.alloc(), *lines, *end, *answer)?;
    }
    Ok(())
}

/// Behind each byte of a text a read fails.
fn check_broken(rt: &(impl Abort + Threads + Sync), alloc: Global, text: &[u8], fields: bool) {
    for count in 0..=text.len() {
        let reader = broken_behind(&text[..count]);
        check_reader(rt, alloc, fields, reader, READ_FAULT, "");
    }
}

// A read that fails behind a bad entry is told, and not the verdict.
#[test]
fn tells_a_read_that_fails_behind(rt: HostRuntime) -> Result<(), AllocError> {
    let text = text_of_two(rt.alloc(), &[GOOD, NO_SITE, GOOD])?;
    check_broken(&rt, rt.alloc(), text.as_bytes(), false);
    check_broken(&rt, rt.alloc(), text.as_bytes(), true);
    Ok(())
}

// A byte behind the 1,000,000th line is told, and not the verdict.
#[test]
fn keeps_the_limit_of_lines_behind(rt: HostRuntime) -> Result<(), AllocError> {
    let alloc = rt.alloc();
    let lines = "bad line\n".repeat(alloc, 999_998)?;
    let text = [STOCK_OF_TWO, "\n", NO_SITE, "\n", lines.as_str()].concat(alloc)?;
    let bytes = text.as_bytes();
    let end = Ok(AuditEnd::Illegal);
    check_reader(&rt, alloc, false, bytes, end, "illegal 1 site\n");
    let longer = bytes.chain(b"x".as_slice());
    check_reader(&rt, alloc, false, longer, Err(ScriptFault::TooLong), "");
    Ok(())
}
