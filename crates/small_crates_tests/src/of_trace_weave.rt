use field_bounds::{Command, Entry, FieldNo, Kind, Reply, SiteNo, Statement, TxnId};
use std::alloc::{AllocError, Global};
use std::process::Abort;
use trace_weave::{WeaveFault, WovenEntries, weave, weave_order};

/// An entry of a site that accepts 5 rights to lower of another.
fn accepts(site: u16, from: u16, reply: Reply) -> Entry {
    Entry {
        site: SiteNo(site),
        command: Command::Accept(Statement {
            from: SiteNo(from),
            to: SiteNo(site),
            field: FieldNo(0),
            kind: Kind::Lower,
            total: 5,
        }),
        reply,
    }
}

const ACCEPTED: Reply = Reply::Accepted { gain: 5 };

/// An entry of a site that gives 5 rights to lower to another.
fn gives(site: u16, to: u16) -> Entry {
    Entry {
        site: SiteNo(site),
        command: Command::Give {
            to: SiteNo(to),
            field: FieldNo(0),
            kind: Kind::Lower,
            amount: 5,
        },
        reply: Reply::Given { total: 5 },
    }
}

/// An entry of a site that begins its first transaction.
fn begins(site: u16) -> Entry {
    Entry {
        site: SiteNo(site),
        command: Command::Begin,
        reply: Reply::Begun(TxnId {
            epoch: 0,
            number: 1,
        }),
    }
}

fn two_histories(
    alloc: Global,
    zero: &[Entry],
    one: &[Entry],
) -> Result<[Vec<Entry>; 2], AllocError> {
    Ok([Vec::from_slice(alloc, zero)?, Vec::from_slice(alloc, one)?])
}

fn woven_of_two(alloc: Global, zero: &[Entry], one: &[Entry]) -> Result<Vec<Entry>, WeaveFault> {
    weave(alloc, &two_histories(alloc, zero, one)?)
}

/// Their order.
fn order_of_two(alloc: Global, zero: &[Entry], one: &[Entry]) -> Result<Vec<u16>, WeaveFault> {
    weave_order(alloc, &two_histories(alloc, zero, one)?)
}

/// The entries of a walk by their order.
fn walk_of_two(alloc: Global, zero: &[Entry], one: &[Entry]) -> Result<Vec<Entry>, WeaveFault> {
    let histories = two_histories(alloc, zero, one)?;
    let order = weave_order(alloc, &histories)?;
    let mut trace = Vec::new(alloc);
    for entry in WovenEntries::new(alloc, &histories, order)? {
        trace.push(entry)?;
    }
    Ok(trace)
}

/// The history of a site that gives only once it has accepted.
fn passed_on(alloc: Global, site: u16, from: u16, to: u16) -> Result<Vec<Entry>, AllocError> {
    Vec::from_slice(alloc, &[accepts(site, from, ACCEPTED), gives(site, to)])
}

/// Whether weaving gave exactly these entries, in this order.
fn is_woven(woven: Result<Vec<Entry>, WeaveFault>, entries: &[Entry]) -> bool {
    match woven {
        Ok(trace) => trace.as_slice() == entries,
        Err(_) => false,
    }
}

/// Whether the order is this.
fn is_order(order: Result<Vec<u16>, WeaveFault>, sites: &[u16]) -> bool {
    match order {
        Ok(order) => order.as_slice() == sites,
        Err(_) => false,
    }
}

/// The histories of two sites are woven to these entries, which are those of these sites.
fn assert_woven(
    rt: &impl Abort,
    alloc: Global,
    zero: &[Entry],
    one: &[Entry],
    entries: &[Entry],
    sites: &[u16],
) {
    assert!(rt; is_woven(woven_of_two(alloc, zero, one), entries));
    assert!(rt; is_order(order_of_two(alloc, zero, one), sites));
    assert!(rt; is_woven(walk_of_two(alloc, zero, one), entries));
}

#[test]
fn the_lowest_site_comes_first(rt: HostRuntime) {
    let woven = [begins(0), begins(1)];
    assert_woven(&rt, rt.alloc(), &[begins(0)], &[begins(1)], &woven, &[0, 1]);
}

#[test]
fn an_acceptance_waits_for_its_gift(rt: HostRuntime) {
    let taken = accepts(0, 1, ACCEPTED);
    let woven = [gives(1, 0), taken];
    assert_woven(&rt, rt.alloc(), &[taken], &[gives(1, 0)], &woven, &[1, 0]);
}

#[test]
fn one_in_doubt_waits_too(rt: HostRuntime) {
    let taken = accepts(0, 1, Reply::Unsure);
    let one = [begins(1), gives(1, 0), begins(1)];
    let woven = [begins(1), gives(1, 0), taken, begins(1)];
    assert_woven(&rt, rt.alloc(), &[taken], &one, &woven, &[1, 1, 0, 1]);
}

#[test]
fn nothing_is_woven_of_nothing(rt: HostRuntime) {
    let histories: Vec<Vec<Entry>> = Vec::new(rt.alloc());
    assert!(&rt; is_woven(weave(rt.alloc(), &histories), &[]));
    assert!(&rt; is_order(weave_order(rt.alloc(), &histories), &[]));
}

#[test]
fn a_walk_ends_where_a_history_has_none_left(rt: HostRuntime) -> Result<(), AllocError> {
    let alloc = rt.alloc();
    let histories = two_histories(alloc, &[begins(0)], &[begins(1)])?;
    for order in [[1, 1, 0], [1, 2, 0]] {
        let order = Vec::from_slice(alloc, &order)?;
        let walked: Vec<Entry> = WovenEntries::new(alloc, &histories, order)?.collect(alloc)?;
        assert!(&rt; walked.as_slice() == [begins(1)].as_slice());
    }
    Ok(())
}

#[test]
fn two_that_wait_for_each_other_are_stuck(rt: HostRuntime) {
    let zero = [accepts(0, 1, ACCEPTED), gives(0, 1)];
    let one = [accepts(1, 0, ACCEPTED), gives(1, 0)];
    let stuck = WeaveFault::Stuck {
        site: SiteNo(0),
        number: 1,
    };
    assert_eq!(&rt; woven_of_two(rt.alloc(), &zero, &one).err(), Some(stuck));
    assert_eq!(&rt; order_of_two(rt.alloc(), &zero, &one).err(), Some(stuck));
}

#[test]
fn a_circle_of_three_is_stuck(rt: HostRuntime) -> Result<(), AllocError> {
    let alloc = rt.alloc();
    let zero = passed_on(alloc, 0, 2, 1)?;
    let one = passed_on(alloc, 1, 0, 2)?;
    let two = passed_on(alloc, 2, 1, 0)?;
    let stuck = WeaveFault::Stuck {
        site: SiteNo(0),
        number: 1,
    };
    let histories = [zero, one, two];
    assert_eq!(&rt; weave(alloc, &histories).err(), Some(stuck));
    assert_eq!(&rt; weave_order(alloc, &histories).err(), Some(stuck));
    Ok(())
}
