//! Input without end, and a reader that is interrupted once.

use super::{READ_FAULT, ROW, check_reader};
use check_kit::text_of_two;
use escrow_audit::{AuditEnd, ScriptFault};
use field_bounds::SchemaFault;
use std::alloc::{AllocError, Global};
use std::io;
use std::io::Read;
use std::process::Abort;
use std::thread::Threads;
use stream_kit::InterruptedReader;

#[test]
fn ends_a_header_without_end(rt: HostRuntime) {
    let wanted = Err(ScriptFault::Header(SchemaFault::TooLong));
    check_reader(&rt, rt.alloc(), false, io::repeat(b'x'), wanted, "");
}

/// Audits a header and a byte without end.
fn check_endless(rt: &(impl Abort + Threads + Sync), alloc: Global, header: &[u8], byte: u8) {
    let reader = header.chain(io::repeat(byte));
    check_reader(
        rt,
        alloc,
        false,
        reader,
        Ok(AuditEnd::BadEntry),
        "bad entry 2\n",
    );
}

// An empty line and one past its limit are bad entries.
#[test]
fn ends_lines_without_end(rt: HostRuntime) -> Result<(), AllocError> {
    let header = text_of_two(rt.alloc(), &[])?;
    check_endless(&rt, rt.alloc(), header.as_bytes(), b'\n');
    check_endless(&rt, rt.alloc(), header.as_bytes(), b'x');
    Ok(())
}

/// Behind each byte of a text a read is interrupted.
fn check_interrupted(rt: &(impl Abort + Threads + Sync), alloc: Global, text: &[u8]) {
    for count in 0..=text.len() {
        let reader = InterruptedReader::new(&text[..count], &text[count..]);
        check_reader(rt, alloc, false, reader, READ_FAULT, "");
    }
}

#[test]
fn reads_no_more_once_interrupted(rt: HostRuntime) -> Result<(), AllocError> {
    let text = text_of_two(rt.alloc(), &ROW)?;
    check_interrupted(&rt, rt.alloc(), text.as_bytes());
    Ok(())
}
