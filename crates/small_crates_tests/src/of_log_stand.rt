//! Each expected answer is worked out by hand from the definitions.

use log_stand::{Stand, stand_of};

#[test]
fn a_stand_is_told(rt: HostRuntime) {
    let alloc = rt.alloc();
    let seen = Stand {
        epoch: 2,
        length: 20,
    };
    assert_eq!(&rt; stand_of(alloc, b"R 1\nC 1 1 0 -15\nR 2\nC 2"), Ok(seen));
    assert_eq!(&rt;
        stand_of(alloc, b""),
        Ok(Stand {
            epoch: 0,
            length: 0
        })
    );
}

#[test]
fn a_stand_ends_before_a_line_that_is_no_record(rt: HostRuntime) {
    let alloc = rt.alloc();
    let before = Stand {
        epoch: 1,
        length: 16,
    };
    assert_eq!(&rt;
        stand_of(alloc, b"R 1\nC 1 1 0 -15\nR 02\nR 3\n"),
        Ok(before)
    );
    assert_eq!(&rt; stand_of(alloc, b"R 1\nC 1 1 0 -15\nR 2 \n"), Ok(before));
}

#[test]
fn an_older_log_is_told(rt: HostRuntime) {
    let seen = Stand {
        epoch: 2,
        length: 20,
    };
    assert!(&rt; !seen.is_before(seen));
    assert!(&rt;
        Stand {
            epoch: 1,
            length: 40
        }
        .is_before(seen)
    );
    assert!(&rt;
        Stand {
            epoch: 2,
            length: 16
        }
        .is_before(seen)
    );
}
