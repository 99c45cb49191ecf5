//! What is opened, and what isn't.

use super::*;

/// The first 93 bytes of a log of version 3 of the site.
const FIRST: usize = 93;

/// The log of version 1 of the site, with a record.
const PLAIN: &str = "escrow log 1
number 1
world 145aa8408cfe4e170aa9ab522fe2e8b9b4c23917b59218cbdada91cf44b1183a
R 1
";

/// Why a file of these bytes isn't opened, and that it is handed back with them.
fn fault_of(rt: &impl Abort, alloc: Global, bytes: &[u8]) -> Option<ShortFault> {
    let identity = identity(rt, alloc);
    match ShortFile::open(alloc, &identity, file_of(rt, alloc, bytes)) {
        Ok(_log) => None,
        Err((fault, back)) => {
            assert_eq!(rt; back.bytes(), bytes);
            Some(fault)
        }
    }
}

/// The same of a text in which this is another.
fn fault_where(rt: &impl Abort, alloc: Global, text: &str, place: usize) -> Option<ShortFault> {
    let mut bytes = Vec::from_slice(alloc, text.as_bytes()).expect(rt, "memory");
    *bytes.as_mut_slice().get_mut(place).expect(rt, "place") = b'8';
    fault_of(rt, alloc, bytes.as_slice())
}

#[test]
fn faults_are_told_apart(rt: HostRuntime) {
    let alloc = rt.alloc();
    let rows = [
        (fault_of(&rt, alloc, b""), Some(ShortFault::Other)),
        (
            fault_of(&rt, alloc, PLAIN.as_bytes()),
            Some(ShortFault::Plain),
        ),
        (fault_of(&rt, alloc, OLD.as_bytes()), None),
        (fault_of(&rt, alloc, NEW.as_bytes()), None),
        // the version, and the number of the site
        (fault_where(&rt, alloc, NEW, 11), Some(ShortFault::Other)),
        (fault_where(&rt, alloc, NEW, 20), Some(ShortFault::Other)),
        // a digit of how much is gone, of the head's sum, of the first record, and of its batch's sum
        (fault_where(&rt, alloc, NEW, 98), Some(ShortFault::Changed)),
        (fault_where(&rt, alloc, NEW, 123), Some(ShortFault::Changed)),
        (
            fault_where(&rt, alloc, NEW, 142),
            Some(ShortFault::Damaged { line: 1 }),
        ),
        (
            fault_where(&rt, alloc, NEW, 155),
            Some(ShortFault::Damaged { line: 1 }),
        ),
        // of the second batch, which begins at line 4 behind the head
        (
            fault_where(&rt, alloc, NEW_AND_ONE, 171),
            Some(ShortFault::Damaged { line: 4 }),
        ),
        (
            fault_of(&rt, alloc, &NEW.as_bytes()[..FIRST]),
            Some(ShortFault::Changed),
        ),
        (
            fault_of(&rt, alloc, &NEW.as_bytes()[..139]),
            Some(ShortFault::Changed),
        ),
    ];
    for (told, wanted) in rows {
        assert_eq!(rt; told, wanted);
    }
}

/// What a stop left of a batch is cut off, behind the head.
#[test]
fn what_a_stop_leaves_is_cut_off(rt: HostRuntime) {
    let alloc = rt.alloc();
    let identity = identity(&rt, alloc);
    for len in 169..194 {
        let front = file_of(&rt, alloc, &NEW_AND_ONE.as_bytes()[..len]);
        let mut files = TwoFiles::new(alloc, front);
        drop(log_of(&rt, alloc, &identity, &mut files));
        assert_holds(&rt, &files, NEW);
    }
}

/// A world that was ended isn't opened any more, nor shortened before.
#[test]
fn an_ended_world_stays_so(rt: HostRuntime) {
    let alloc = rt.alloc();
    let identity = identity(&rt, alloc);
    let mut files = files(&rt, alloc, NEW);
    let mut log = log_of(&rt, alloc, &identity, &mut files);
    assert_eq!(rt; log.end(), Ok(()));
    assert_eq!(rt;
        log.replace(&first_gone(&rt, alloc), HELD),
        Err(PutFault::Refused)
    );
    drop(log);
    let fault = ShortFile::open(alloc, &identity, &mut files)
        .err()
        .expect(&rt, "a fault");
    assert_eq!(rt; fault.0, ShortFault::Ended);
}

/// Each call of an opening that fails is told, the first look at its head too.
#[test]
fn an_opening_fails_where_a_call_of_the_file_does(rt: HostRuntime) {
    let alloc = rt.alloc();
    let identity = identity(&rt, alloc);
    for (call, good, wanted) in [
        (FileCall::Read, 0, Some(ShortFault::Device)),
        (FileCall::Read, 1, Some(ShortFault::Device)),
        (FileCall::Read, 2, Some(ShortFault::Device)),
        (FileCall::Sync, 0, Some(ShortFault::Device)),
        (FileCall::Sync, 1, Some(ShortFault::Device)),
        (FileCall::Sync, 2, None),
    ] {
        let mut file = file_of(&rt, alloc, NEW.as_bytes());
        file.arm(FileMishap { call, good });
        let told = match ShortFile::open(alloc, &identity, file) {
            Ok(_log) => None,
            Err((fault, _back)) => Some(fault),
        };
        assert_eq!(rt; told, wanted);
    }
}
