//! Rows of commands over one site and over two, each beside its reply.

use super::{HEADER, Said, Talk};
use check_kit::STOCK_OF_TWO;
use std::alloc::Global;
use std::process::Abort;

/// Two fields of one site.
const TWINS: &str =
    "{\"sites\":1,\"fields\":[{\"name\":\"a\",\"floor\":0,\"ceiling\":10,\"value\":5},{\"name\":\"b\",\"floor\":0,\"ceiling\":10,\"value\":5}]}";

/// A field that can't be moved.
const FIXED: &str =
    "{\"sites\":1,\"fields\":[{\"name\":\"stock\",\"floor\":7,\"ceiling\":7,\"value\":7}]}";

/// The widest field, at its ceiling.
const WIDEST: &str =
    "{\"sites\":1,\"fields\":[{\"name\":\"stock\",\"floor\":-1000000000000000,\"ceiling\":1000000000000000,\"value\":1000000000000000}]}";

/// Headers, each with command lines and what is replied to them.
const WORKED: [Said; 14] = [
    (
        HEADER,
        &[
            ("0 begin", "begun 0.1"),
            ("0 escrow 0.1 stock -20", "granted"),
            ("0 read stock", "between 40 40"),
            ("0 commit 0.1", "committed"),
            ("0 read stock", "between 20 20"),
        ],
    ),
    (
        HEADER,
        &[
            ("0 begin", "begun 0.1"),
            ("0 escrow 0.1 stock -41", "refused 7 short 40"),
            ("0 escrow 0.1 stock 60", "granted"),
            ("0 read stock", "between 40 40"),
            ("0 commit 0.1", "committed"),
            ("0 read stock", "between 100 100"),
            ("0 begin", "begun 0.2"),
            ("0 escrow 0.2 stock -100", "granted"),
            ("0 abort 0.2", "aborted"),
            ("0 read stock", "between 100 100"),
            ("0 read #1", "refused 3 no field"),
            ("0 read #65535", "refused 3 no field"),
            ("0 share #1", "refused 3 no field"),
            ("0 commit 0.7", "refused 4 no transaction"),
            ("0 abort 4294967295.4294967295", "refused 4 no transaction"),
            ("0 begin", "begun 0.3"),
            ("0 escrow 0.3 stock 0", "refused 5 zero"),
        ],
    ),
    (
        FIXED,
        &[
            ("0 read stock", "between 7 7"),
            ("0 begin", "begun 0.1"),
            ("0 escrow 0.1 stock 1", "refused 7 short 0"),
            ("0 escrow 0.1 stock -1", "refused 7 short 0"),
        ],
    ),
    (
        WIDEST,
        &[
            ("0 begin", "begun 0.1"),
            (
                "0 escrow 0.1 stock -2000000000000001",
                "refused 6 too large",
            ),
            (
                "0 escrow 0.1 stock -9223372036854775808",
                "refused 6 too large",
            ),
            ("0 escrow 0.1 stock -2000000000000000", "granted"),
            ("0 commit 0.1", "committed"),
            (
                "0 read stock",
                "between -1000000000000000 -1000000000000000",
            ),
        ],
    ),
    (
        STOCK_OF_TWO,
        &[
            ("0 begin", "begun 0.1"),
            ("0 escrow 0.1 stock -20", "granted"),
            ("0 read stock", "between 20 70"),
            ("0 commit 0.1", "committed"),
            ("0 share stock", "share 0 50"),
            ("0 read stock", "between 0 50"),
        ],
    ),
    (
        STOCK_OF_TWO,
        &[
            ("0 begin", "begun 0.1"),
            ("0 escrow 0.1 stock -21", "refused 7 short 20"),
        ],
    ),
    (
        STOCK_OF_TWO,
        &[
            ("0 begin", "begun 0.1"),
            ("0 escrow 0.1 stock 5", "granted"),
            ("0 escrow 0.1 stock -3", "granted"),
            ("0 commit 0.1", "committed"),
            ("0 share stock", "share 22 28"),
            ("0 read stock", "between 22 72"),
        ],
    ),
    (
        STOCK_OF_TWO,
        &[
            ("0 begin", "begun 0.1"),
            ("0 escrow 0.1 stock -20", "granted"),
            ("0 abort 0.1", "aborted"),
            ("0 begin", "begun 0.2"),
            ("0 escrow 0.2 stock -20", "granted"),
        ],
    ),
    (
        STOCK_OF_TWO,
        &[
            ("0 begin", "begun 0.1"),
            ("1 begin", "begun 0.1"),
            ("1 escrow 0.1 stock -20", "granted"),
            ("0 commit 0.1", "committed"),
            ("0 share stock", "share 20 30"),
            ("1 share stock", "share 0 30"),
            ("1 commit 0.1", "committed"),
            ("1 commit 0.1", "refused 4 no transaction"),
            ("1 share stock", "share 0 50"),
            ("0 read stock", "between 20 70"),
        ],
    ),
    (
        STOCK_OF_TWO,
        &[
            ("0 give 0 stock lower 1", "refused 8 self gift"),
            ("0 restate 1 stock raise", "refused 15 nothing given"),
            ("0 begin", "begun 0.1"),
            ("0 escrow 0.1 stock 0", "refused 5 zero"),
            ("0 read #1", "refused 3 no field"),
        ],
    ),
    (
        STOCK_OF_TWO,
        &[
            ("0 give 1 stock lower 21", "refused 7 short 20"),
            ("0 give 2 stock lower 1", "refused 2 no site"),
            ("0 give 1 stock lower 20", "given 20"),
            ("0 share stock", "share 0 30"),
            ("0 read stock", "between 0 70"),
            ("0 give 1 stock raise 7", "given 7"),
            ("0 give 1 stock raise 3", "given 10"),
            ("0 restate 1 stock raise", "stated 10"),
            ("0 share stock", "share 0 20"),
            ("1 share stock", "share 20 30"),
        ],
    ),
    (
        STOCK_OF_TWO,
        &[
            ("0 spare 1 stock raise 100", "spared 15 15"),
            ("0 spare 1 stock raise 100", "spared 8 23"),
            ("0 spare 1 stock lower 3", "spared 3 3"),
            ("0 spare 0 stock lower 3", "refused 8 self gift"),
            ("0 spare 2 stock lower 3", "refused 2 no site"),
            ("0 spare 1 stock lower 0", "refused 5 zero"),
            ("0 give 1 stock lower 17", "given 20"),
            ("0 spare 1 stock lower 3", "refused 7 short 0"),
            ("0 share stock", "share 0 7"),
        ],
    ),
    (
        STOCK_OF_TWO,
        &[
            ("0 tighten stock lower 5", "tightened 5"),
            ("0 share stock", "share 15 30"),
            ("0 read stock", "between 20 70"),
            ("0 tighten stock lower 16", "refused 7 short 15"),
            ("0 tighten stock raise 30", "tightened 30"),
            ("0 read stock", "between 20 70"),
        ],
    ),
    (
        TWINS,
        &[
            ("0 begin", "begun 0.1"),
            ("0 escrow 0.1 a -5", "granted"),
            ("0 escrow 0.1 b 5", "granted"),
            ("0 escrow 0.1 b -5", "granted"),
            ("0 commit 0.1", "committed"),
            ("0 share a", "share 0 10"),
            ("0 share b", "share 5 5"),
        ],
    ),
];

fn check_row(rt: &impl Abort, alloc: Global, header: &str, rows: &[(&str, &str)]) {
    let mut talk = Talk::new(rt, alloc, header);
    talk.rows(rows).expect(rt, "memory");
    talk.check(rt, alloc);
}

fn check_rows(rt: &impl Abort, alloc: Global, tables: &[Said]) {
    for (header, rows) in tables {
        check_row(rt, alloc, *header, *rows);
    }
}

#[test]
fn answers_worked_rows(rt: HostRuntime) {
    check_rows(&rt, rt.alloc(), &WORKED);
}
