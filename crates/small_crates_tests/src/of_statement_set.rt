use field_bounds::{Command, Entry, FieldNo, Kind, Refusal, Reply, SiteNo, Statement};
use statement_set::StatementSet;
use std::alloc::{AllocError, Global};

const GIVEN: Statement = Statement {
    from: SiteNo(0),
    to: SiteNo(1),
    field: FieldNo(0),
    kind: Kind::Lower,
    total: 5,
};

/// Which of four statements a set has that the first two were put into, the first one twice.
fn looked_up(alloc: Global) -> Result<[bool; 4], AllocError> {
    let back = Statement {
        from: SiteNo(1),
        to: SiteNo(0),
        ..GIVEN
    };
    let more = Statement { total: 6, ..GIVEN };
    let raise = Statement {
        kind: Kind::Raise,
        ..GIVEN
    };
    let mut set = StatementSet::new(alloc);
    set.insert(GIVEN)?;
    set.insert(back)?;
    set.insert(GIVEN)?;
    Ok([GIVEN, back, more, raise].map(|statement| set.has(statement)))
}

#[test]
fn a_set_has_what_was_put_in(rt: HostRuntime) {
    assert!(rt; looked_up(rt.alloc()) == Ok([true, true, false, false]));
}

#[test]
fn an_empty_set_has_nothing(rt: HostRuntime) {
    assert!(rt; !StatementSet::new(rt.alloc()).has(GIVEN));
}

/// Whether a set has the statement of a give that was answered, and of one that was refused.
fn issued(alloc: Global) -> Result<[bool; 2], AllocError> {
    let give = |reply| Entry {
        site: SiteNo(0),
        command: Command::Give {
            to: SiteNo(1),
            field: FieldNo(0),
            kind: Kind::Lower,
            amount: 5,
        },
        reply,
    };
    let mut answered = StatementSet::new(alloc);
    answered.insert_issued(&give(Reply::Given { total: 5 }))?;
    let mut refused = StatementSet::new(alloc);
    refused.insert_issued(&give(Reply::Refused(Refusal::Down)))?;
    Ok([answered.has(GIVEN), refused.has(GIVEN)])
}

#[test]
fn a_give_that_was_answered_issues_its_statement(rt: HostRuntime) {
    assert!(rt; issued(rt.alloc()) == Ok([true, false]));
}

const fn told(channel: Statement, total: u64) -> Statement {
    Statement { total, ..channel }
}

/// Which of the totals 5, 10, 15, 35, 55, 60, 65, 95, 100, 105 and 110 of a channel a set has.
fn totals_of(set: &StatementSet) -> [bool; 11] {
    [5, 10, 15, 35, 55, 60, 65, 95, 100, 105, 110].map(|total| set.has(told(GIVEN, total)))
}

/// What a set has after ten totals that rise: of these the first four are in no row.
fn risen(alloc: Global) -> Result<StatementSet, AllocError> {
    let mut set = StatementSet::new(alloc);
    for step in 1..11 {
        set.insert(told(GIVEN, 10 * step))?;
    }
    Ok(set)
}

fn after_rising(alloc: Global) -> Result<[bool; 11], AllocError> {
    Ok(totals_of(&risen(alloc)?))
}

fn after_late_ones(alloc: Global) -> Result<[bool; 11], AllocError> {
    let mut set = risen(alloc)?;
    for late in [95, 35, 55, 5] {
        set.insert(told(GIVEN, late))?;
    }
    Ok(totals_of(&set))
}

fn after_repeats(alloc: Global) -> Result<[bool; 11], AllocError> {
    let mut set = risen(alloc)?;
    for again in [100, 10, 60, 100, 60, 10] {
        set.insert(told(GIVEN, again))?;
    }
    set.insert(told(GIVEN, 110))?;
    Ok(totals_of(&set))
}

#[test]
fn totals_that_rise_are_there_and_none_between_them(rt: HostRuntime) {
    let there = [
        false, true, false, false, false, true, false, false, true, false, false,
    ];
    assert!(rt; after_rising(rt.alloc()) == Ok(there));
}

#[test]
fn a_total_that_comes_late_is_there(rt: HostRuntime) {
    let there = [
        true, true, false, true, true, true, false, true, true, false, false,
    ];
    assert!(rt; after_late_ones(rt.alloc()) == Ok(there));
}

#[test]
fn a_total_that_comes_again_changes_nothing(rt: HostRuntime) {
    let there = [
        false, true, false, false, false, true, false, false, true, false, true,
    ];
    assert!(rt; after_repeats(rt.alloc()) == Ok(there));
}

/// Puts a statement, and tells whether it was there after that alone, and the next greater total not.
fn comes(set: &mut StatementSet, statement: Statement) -> Result<bool, AllocError> {
    let before = set.has(statement);
    set.insert(statement)?;
    Ok(!before && set.has(statement) && !set.has(told(statement, statement.total.wrapping_add(1))))
}

/// Whether the statements of two channels come one after another, each once it is put.
fn both_come(alloc: Global, first: Statement, second: Statement) -> Result<bool, AllocError> {
    let mut set = StatementSet::new(alloc);
    let mut come = true;
    for total in 1..60 {
        come &= comes(&mut set, told(first, total))?;
        come &= comes(&mut set, told(second, total))?;
    }
    for total in 1..60 {
        come &= set.has(told(first, total)) && set.has(told(second, total));
    }
    Ok(come)
}

// The slots of these two are the same of 16, 15, and others of 32, 31 and 15: from site 1, and field 1
// in its place.
const FROM_ONE: Statement = Statement {
    from: SiteNo(1),
    to: SiteNo(0),
    field: FieldNo(0),
    kind: Kind::Lower,
    total: 0,
};

const FIELD_ONE: Statement = Statement {
    from: SiteNo(0),
    field: FieldNo(1),
    ..FROM_ONE
};

#[test]
fn two_channels_of_one_slot_are_told_apart(rt: HostRuntime) {
    assert!(rt; both_come(rt.alloc(), FROM_ONE, FIELD_ONE) == Ok(true));
}

#[test]
fn the_two_kinds_of_a_field_are_told_apart(rt: HostRuntime) {
    let raise = Statement {
        kind: Kind::Raise,
        ..FROM_ONE
    };
    assert!(rt; both_come(rt.alloc(), FROM_ONE, raise) == Ok(true));
}

/// The channel of a number: 8 sites give to 5 others, on 5 fields.
fn channel(number: u16) -> Statement {
    Statement {
        from: SiteNo(number % 8),
        to: SiteNo(8 + number / 8 % 5),
        field: FieldNo(number / 40),
        kind: Kind::Raise,
        total: 0,
    }
}

/// Whether all statements of 200 channels come, four of each, and those of no other channel.
fn many_come(alloc: Global) -> Result<bool, AllocError> {
    let mut set = StatementSet::new(alloc);
    let mut come = true;
    for total in 1..5 {
        for number in 0..200 {
            come &= comes(&mut set, told(channel(number), total))?;
        }
    }
    for number in 0..200 {
        let here = channel(number);
        let back = Statement {
            from: here.to,
            to: here.from,
            ..here
        };
        come &= set.has(told(here, 1)) && set.has(told(here, 4));
        come &= !set.has(told(here, 5)) && !set.has(told(back, 1));
    }
    Ok(come)
}

#[test]
fn many_channels_are_told_apart(rt: HostRuntime) {
    assert!(rt; many_come(rt.alloc()) == Ok(true));
}
