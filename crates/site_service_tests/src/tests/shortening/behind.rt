//! A service that is opened over a log whose front was let go.

use super::*;

/// What was let go of the logs here: 26 bytes of three records, with commits up to 1.2.
fn told(rt: &impl Abort, alloc: Global) -> Gone {
    Gone {
        bytes: 26,
        records: 3,
        horizon: Horizon::new(1, 2, Vec::new(alloc)).expect(rt, "a horizon"),
    }
}

/// Site 0 of two, served over a file of which that was let go.
fn open_behind<F: LogFile + Drop>(
    rt: &impl Abort,
    alloc: Global,
    file: F,
) -> Result<Service<F>, OpenFault> {
    let schema = stock_of_two(alloc).expect(rt, "memory");
    assert!(rt; schema.sites() == 2);
    match Service::open_behind(
        alloc,
        schema,
        SiteNo(0),
        told(rt, alloc),
        file,
        &mut NoTrace,
    ) {
        Ok(service) => Ok(service),
        Err((fault, _file)) => Err(fault),
    }
}

/// How a service over this log isn't opened where the first such call of its file fails, or none;
/// None where it is.
fn fault_behind(
    rt: &impl Abort,
    alloc: Global,
    log: &str,
    call: Option<FileCall>,
) -> Option<OpenFault> {
    let mut file = file_of(rt, alloc, log.as_bytes());
    if let Some(call) = call {
        file.arm(FileMishap { call, good: 0 });
    }
    open_behind(rt, alloc, file).err()
}

/// A log whose base tells the rights that the site has, and a torn record.
const SOUND: &str = "S 1 1 17 33\nC 1 3 0 -17\nC 1 4";

/// A log, which call of its file fails, and how it isn't opened. The site has 50 rights in all, 20 of
/// them to lower: so no records leave 51, and of two fields it has none.
const ROWS: [(&str, Option<FileCall>, Option<OpenFault>); 13] = [
    ("", None, Some(OpenFault::Line(1))),
    ("R 1\n", None, Some(OpenFault::Line(1))),
    ("hello\n", None, Some(OpenFault::Line(1))),
    ("S 1 1 17 34\n", None, Some(OpenFault::Line(1))),
    ("S 1 2 17 33 0 0\n", None, Some(OpenFault::Line(1))),
    ("S 1 1 17 33\nhello\n", None, Some(OpenFault::Line(2))),
    ("S 1 1 17 33\nC 1 3 0 -18\n", None, Some(OpenFault::Line(2))),
    (
        "K 1 3 6B\nS 1 1 17 33\nC 1 3 0 -1\nS 1 1 17 33\n",
        None,
        Some(OpenFault::Line(3)),
    ),
    (SOUND, None, None),
    (SOUND, Some(FileCall::Read), Some(OpenFault::Device)),
    (SOUND, Some(FileCall::Cut), Some(OpenFault::Device)),
    (SOUND, Some(FileCall::Sync), Some(OpenFault::Device)),
    (SOUND, Some(FileCall::Write), Some(OpenFault::Device)),
];

#[test]
fn the_first_record_is_a_base(rt: HostRuntime) {
    for (log, call, fault) in &ROWS {
        assert_eq!(rt;
            fault_behind(&rt, rt.alloc(), *log, *call),
            *fault,
            "at {log}"
        );
    }
}

/// A log of which that was let go, with three summaries.
const OLD_BEHIND: &str = "escrow log 3
number 0
world 145aa8408cfe4e170aa9ab522fe2e8b9b4c23917b59218cbdada91cf44b1183a
head 26 3
horizon 1 2
sum 000021b30007fa31
S 1 1 17 33
K 1 3 6B
C 1 3 0 -1
S 1 1 16 34
C 1 4 0 -1
S 1 1 15 35
C 1 5 0 -2
sum 00000cf900020b83
";

/// The same shortened: the base, of 12 bytes, and a commit of 11 are gone too.
const NEW_BEHIND: &str = "escrow log 3
number 0
world 145aa8408cfe4e170aa9ab522fe2e8b9b4c23917b59218cbdada91cf44b1183a
head 49 4
horizon 1 3
sum 000021ba0007fa93
S 1 1 16 34
C 1 4 0 -1
S 1 1 15 35
C 1 5 0 -2
R 2
sum 0000084a0000d8d1
";

/// What it tells once it was opened.
const OPENED_BEHIND: [(&str, &str); 6] = [
    ("kept 1.2", "kept 1.2 -> forgotten"),
    ("kept 1.3", "kept 1.3 -> yes"),
    ("kept 1.6", "kept 1.6 -> no"),
    ("kept key k", "kept key k -> 1.3"),
    ("kept key kk", "kept key kk -> forgotten"),
    ("0 share stock", "0 share stock -> share 13 37"),
];

/// And once more of it is gone.
const SHORTER_BEHIND: [(&str, &str); 6] = [
    ("kept 1.2", "kept 1.2 -> forgotten"),
    ("kept 1.3", "kept 1.3 -> forgotten"),
    ("kept 1.4", "kept 1.4 -> yes"),
    ("kept 1.6", "kept 1.6 -> no"),
    ("kept key k", "kept key k -> forgotten"),
    ("0 share stock", "0 share stock -> share 13 37"),
];

#[test]
fn what_is_gone_adds_up(rt: HostRuntime) {
    let alloc = rt.alloc();
    let identity = identity(&rt, alloc);
    let mut files = files(&rt, alloc, OLD_BEHIND);
    let log = ShortFile::open(alloc, &identity, &mut files)
        .ok()
        .expect(&rt, "a log");
    let mut service = open_behind(&rt, alloc, log).expect(&rt, "opened");
    assert_let_out(&rt, alloc, &mut service, Ok(()), RESTARTED);
    assert_answers(&rt, alloc, &mut service, &OPENED_BEHIND);
    assert_eq!(&rt; shorten(&rt, alloc, &mut service, ""), Ok(()));
    assert_answers(&rt, alloc, &mut service, &SHORTER_BEHIND);
    drop(service);
    assert_holds(&rt, alloc, &files, &[NEW_BEHIND]);
}
