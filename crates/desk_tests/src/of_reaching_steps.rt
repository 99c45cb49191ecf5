use check_kit::{NO_FIELD, STOCK, command, schema_of, stock_of_two, txn};
use field_bounds::{Command, Entry, FieldNo, Kind, Reply, Schema, SiteNo, TxnId};
use reaching_steps::*;
use std::alloc::Global;
use std::process::Abort;
use world_steps::{Luck, StepReply, World, WorldStep, step_fits};

const DELIVER: WorldStep = WorldStep::Deliver {
    k: 1,
    luck: Luck::Fine,
};

/// Two sites, the stock, and another field from 0 to 60 at 30: of that each site begins with 15
/// rights to lower it and 15 to raise it.
const STOCK_AND_SEATS: &str =
    r#"{"sites":2,"fields":[{"name":"stock","floor":0,"ceiling":100,"value":40},{"name":"seats","floor":0,"ceiling":60,"value":30}]}"#;

/// The other field.
const SEATS: FieldNo = FieldNo(1);

fn at(site: u16, command: Command, luck: Luck) -> WorldStep {
    WorldStep::Do {
        site: SiteNo(site),
        command,
        luck,
    }
}

fn escrows(site: u16, txn: TxnId, field: FieldNo, change: i64) -> WorldStep {
    at(site, Command::Escrow { txn, field, change }, Luck::Fine)
}

/// Site 1 begins, escrows and commits.
fn moves_of(txn: TxnId, field: FieldNo, change: i64) -> [WorldStep; 3] {
    [
        at(1, Command::Begin, Luck::Fine),
        escrows(1, txn, field, change),
        at(1, Command::Commit { txn }, Luck::Fine),
    ]
}

/// The same on the stock.
fn moves(txn: TxnId, change: i64) -> [WorldStep; 3] {
    moves_of(txn, STOCK, change)
}

/// A world of a schema in which these steps were taken.
fn world_of(rt: &impl Abort, alloc: Global, schema: Schema, steps: &[WorldStep]) -> World {
    let mut world = World::new(alloc, schema).expect(rt, "memory");
    for step in steps {
        assert!(rt; step_fits(world.schema(), step));
        world.step(alloc, step).expect(rt, "memory");
    }
    world
}

/// A world of two sites in which these steps were taken.
fn world_after(rt: &impl Abort, alloc: Global, steps: &[WorldStep]) -> World {
    let schema = stock_of_two(alloc).expect(rt, "memory");
    world_of(rt, alloc, schema, steps)
}

/// What reach of site 0 answers after these steps.
fn reached(
    rt: &impl Abort,
    alloc: Global,
    steps: &[WorldStep],
    target: i64,
) -> Result<Vec<WorldStep>, ReachFault> {
    let world = world_after(rt, alloc, steps);
    reach(alloc, &world, SiteNo(0), STOCK, target)
}

/// It takes these steps.
fn assert_takes(
    rt: &impl Abort,
    alloc: Global,
    steps: &[WorldStep],
    target: i64,
    expected: &[WorldStep],
) {
    let taken = reached(rt, alloc, steps, target).expect(rt, "reached");
    assert!(rt; taken.as_slice() == expected);
}

/// It meets this fault.
fn assert_meets(
    rt: &impl Abort,
    alloc: Global,
    steps: &[WorldStep],
    target: i64,
    fault: ReachFault,
) {
    assert_eq!(rt; reached(rt, alloc, steps, target).err(), Some(fault));
}

/// What reach of site 0 answers of one of the two fields after these steps.
fn reached_of(
    rt: &impl Abort,
    alloc: Global,
    steps: &[WorldStep],
    field: FieldNo,
    target: i64,
) -> Result<Vec<WorldStep>, ReachFault> {
    let schema = schema_of(alloc, STOCK_AND_SEATS).expect(rt, "a schema");
    let world = world_of(rt, alloc, schema, steps);
    reach(alloc, &world, SiteNo(0), field, target)
}

/// It takes these steps.
fn assert_takes_of(
    rt: &impl Abort,
    alloc: Global,
    steps: &[WorldStep],
    field: FieldNo,
    target: i64,
    expected: &[WorldStep],
) {
    let taken = reached_of(rt, alloc, steps, field, target).expect(rt, "reached");
    assert!(rt; taken.as_slice() == expected);
}

/// It meets this fault.
fn assert_meets_of(
    rt: &impl Abort,
    alloc: Global,
    steps: &[WorldStep],
    field: FieldNo,
    target: i64,
    fault: ReachFault,
) {
    assert_eq!(rt;
        reached_of(rt, alloc, steps, field, target).err(),
        Some(fault)
    );
}

#[test]
fn to_both_ends(rt: HostRuntime) {
    let alloc = rt.alloc();
    let down = moves(txn!(0.1), -20);
    assert_takes(&rt, alloc, &[], 20, &down);
    let up = moves(txn!(0.2), 50);
    assert_takes(&rt, alloc, &down, 70, &up);
    let both = [down[0], down[1], down[2], up[0], up[1], up[2]];
    assert_takes(&rt, alloc, &both, 70, &[]);
    assert_meets(
        &rt,
        alloc,
        &both,
        19,
        ReachFault::Outside { lo: 20, hi: 70 },
    );
}

#[test]
fn gifts_in_flight(rt: HostRuntime) {
    let alloc = rt.alloc();
    let given = at(1, command!(give 0 stock lower 5), Luck::Fine);
    let in_flight = ReachFault::InFlight { from: SiteNo(1) };
    assert_meets(&rt, alloc, &[given], 20, in_flight);
    let outside = ReachFault::Outside { lo: 25, hi: 70 };
    assert_meets(&rt, alloc, &[given, DELIVER], 24, outside);
    assert_takes(&rt, alloc, &[given, DELIVER], 25, &moves(txn!(0.1), -15));
}

#[test]
fn gifts_that_were_not_told(rt: HostRuntime) {
    let alloc = rt.alloc();
    let torn = at(0, command!(give 1 stock lower 5), Luck::Torn(10));
    let restart = at(0, Command::Restart, Luck::Fine);
    let unstated = ReachFault::Unstated { to: SiteNo(1) };
    assert_meets(&rt, alloc, &[torn, restart], 25, unstated);
    let told = at(0, command!(restate 1 stock lower), Luck::Fine);
    let down = moves(txn!(0.1), -25);
    let expected = [DELIVER, down[0], down[1], down[2]];
    assert_takes(&rt, alloc, &[torn, restart, told], 15, &expected);
}

#[test]
fn sites_and_bounds(rt: HostRuntime) {
    let alloc = rt.alloc();
    let failed = at(1, Command::Restart, Luck::Torn(0));
    assert_meets(
        &rt,
        alloc,
        &[failed],
        40,
        ReachFault::NotUp { site: SiteNo(1) },
    );
    let tightened = at(1, command!(tighten stock lower 1), Luck::Fine);
    assert_meets(&rt, alloc, &[tightened], 40, ReachFault::Tightened);
    let world = world_after(&rt, alloc, &[]);
    let no_site = reach(alloc, &world, SiteNo(2), STOCK, 40).err();
    let no_field = reach(alloc, &world, SiteNo(0), NO_FIELD, 40).err();
    assert_eq!(rt;
        [no_site, no_field],
        [Some(ReachFault::NoSite), Some(ReachFault::NoField)]
    );
}

/// Of its 20 rights site 0 spares 10, and is left in doubt: the record of 11 bytes is kept.
#[test]
fn spares_in_doubt(rt: HostRuntime) {
    let alloc = rt.alloc();
    let torn = at(0, command!(spare 1 stock lower 30), Luck::Torn(11));
    let restart = at(0, Command::Restart, Luck::Fine);
    let unstated = ReachFault::Unstated { to: SiteNo(1) };
    assert_meets(&rt, alloc, &[torn, restart], 25, unstated);
    let told = at(0, command!(restate 1 stock lower), Luck::Fine);
    let down = moves(txn!(0.1), -30);
    let expected = [DELIVER, down[0], down[1], down[2]];
    assert_takes(&rt, alloc, &[torn, restart, told], 10, &expected);
    let lost = at(0, command!(spare 1 stock lower 30), Luck::Torn(10));
    assert_takes(&rt, alloc, &[lost, restart], 20, &moves(txn!(0.1), -20));
}

/// Two transactions of site 1 are open: they are aborted, and all its rights are used.
#[test]
fn open_transactions_are_aborted(rt: HostRuntime) {
    let alloc = rt.alloc();
    let first = moves(txn!(0.1), -10);
    let second = moves(txn!(0.2), -5);
    let open = [first[0], first[1], second[0], second[1]];
    let down = moves(txn!(0.3), -20);
    let expected = [
        at(1, command!(abort 0.1), Luck::Fine),
        at(1, command!(abort 0.2), Luck::Fine),
        down[0],
        down[1],
        down[2],
    ];
    assert_takes(&rt, alloc, &open, 20, &expected);
}

/// Site 1 has lowered the stock by 5 and the seats by 3 in one transaction, and holds 10 and 7 in
/// another, which is aborted: the stock is moved from 35, and the seats from 27.
#[test]
fn escrows_on_another_field(rt: HostRuntime) {
    let alloc = rt.alloc();
    let steps = [
        at(1, Command::Begin, Luck::Fine),
        escrows(1, txn!(0.1), STOCK, -10),
        escrows(1, txn!(0.1), SEATS, -7),
        at(1, Command::Begin, Luck::Fine),
        escrows(1, txn!(0.2), STOCK, -2),
        escrows(1, txn!(0.2), SEATS, -3),
        escrows(1, txn!(0.2), STOCK, -3),
        at(1, command!(commit 0.2), Luck::Fine),
    ];
    let abort = at(1, command!(abort 0.1), Luck::Fine);
    let stock = moves(txn!(0.3), -10);
    let expected = [abort, stock[0], stock[1], stock[2]];
    assert_takes_of(&rt, alloc, &steps, STOCK, 25, &expected);
    let seats = moves_of(txn!(0.3), SEATS, -7);
    let expected = [abort, seats[0], seats[1], seats[2]];
    assert_takes_of(&rt, alloc, &steps, SEATS, 20, &expected);
}

/// Site 0 holds 4 of its 20 rights on the stock, and 7 of its 15 on the seats: of the 16 that are
/// free on the stock it spares 8, and is left in doubt. The record of 10 bytes is kept.
#[test]
fn spares_in_doubt_beside_escrows(rt: HostRuntime) {
    let alloc = rt.alloc();
    let steps = [
        at(0, Command::Begin, Luck::Fine),
        escrows(0, txn!(0.1), STOCK, -1),
        escrows(0, txn!(0.1), SEATS, -7),
        escrows(0, txn!(0.1), STOCK, -3),
        at(0, command!(spare 1 stock lower 30), Luck::Torn(10)),
        at(0, Command::Restart, Luck::Fine),
        at(0, command!(restate 1 stock lower), Luck::Fine),
    ];
    let unstated = ReachFault::Unstated { to: SiteNo(1) };
    assert_meets_of(&rt, alloc, &steps[..6], STOCK, 40, unstated);
    let outside = ReachFault::Outside { lo: 12, hi: 70 };
    assert_meets_of(&rt, alloc, &steps, STOCK, 11, outside);
    let down = moves(txn!(0.1), -28);
    let expected = [DELIVER, down[0], down[1], down[2]];
    assert_takes_of(&rt, alloc, &steps, STOCK, 12, &expected);
    let seats = moves_of(txn!(0.1), SEATS, -15);
    assert_takes_of(&rt, alloc, &steps, SEATS, 15, &seats);
}

/// Of its 15 rights on the seats site 0 spares 8, and is left in doubt: the record of 10 bytes is
/// kept. On the stock it has all its rights, and has given none.
#[test]
fn spares_in_doubt_on_another_field(rt: HostRuntime) {
    let alloc = rt.alloc();
    let (to, field, kind) = (SiteNo(1), SEATS, Kind::Lower);
    let spare = Command::Spare {
        to,
        field,
        kind,
        want: 30,
    };
    let steps = [
        at(0, spare, Luck::Torn(10)),
        at(0, Command::Restart, Luck::Fine),
        at(0, Command::Restate { to, field, kind }, Luck::Fine),
    ];
    assert_takes_of(&rt, alloc, &steps[..2], STOCK, 20, &moves(txn!(0.1), -20));
    let outside = ReachFault::Outside { lo: 20, hi: 70 };
    assert_meets_of(&rt, alloc, &steps[..2], STOCK, 19, outside);
    let unstated = ReachFault::Unstated { to };
    assert_meets_of(&rt, alloc, &steps[..2], SEATS, 15, unstated);
    let outside = ReachFault::Outside { lo: 7, hi: 45 };
    assert_meets_of(&rt, alloc, &steps, SEATS, 6, outside);
    let down = moves_of(txn!(0.1), SEATS, -23);
    let expected = [DELIVER, down[0], down[1], down[2]];
    assert_takes_of(&rt, alloc, &steps, SEATS, 7, &expected);
}

/// Whether it is this step, a command at site 1, and was answered so.
fn answered(one: &StepTaken, step: WorldStep, command: Command, reply: Reply) -> bool {
    let entry = Entry {
        site: SiteNo(1),
        command,
        reply,
    };
    one.step == step && one.reply == StepReply::Made(entry)
}

/// The world itself takes the steps, and tells what answered them.
#[test]
fn taken_by_the_world(rt: HostRuntime) {
    let alloc = rt.alloc();
    let mut world = world_after(&rt, alloc, &[]);
    let taken = reach_in(alloc, &mut world, SiteNo(0), STOCK, 20).expect(&rt, "reached");
    let [begin, escrow, commit] = moves(txn!(0.1), -20);
    assert_eq!(rt; taken.len(), 3);
    assert_eq!(rt; world.trace().len(), 3);
    assert_eq!(rt;
        [
            answered(&taken[0], begin, Command::Begin, Reply::Begun(txn!(0.1))),
            answered(
                &taken[1],
                escrow,
                command!(escrow 0.1 stock -20),
                Reply::Granted
            ),
            answered(&taken[2], commit, command!(commit 0.1), Reply::Committed),
        ],
        [true; 3]
    );
}

/// A fault leaves the world as it was.
#[test]
fn kept_at_a_fault(rt: HostRuntime) {
    let alloc = rt.alloc();
    let given = at(1, command!(give 0 stock lower 5), Luck::Fine);
    let mut world = world_after(&rt, alloc, &[given]);
    let flight = reach_in(alloc, &mut world, SiteNo(0), STOCK, 20).err();
    let outside = reach_in(alloc, &mut world, SiteNo(2), STOCK, 20).err();
    let steps = world.steps(alloc).expect(&rt, "memory");
    assert_eq!(rt;
        [
            flight == Some(ReachFault::InFlight { from: SiteNo(1) }),
            outside == Some(ReachFault::NoSite),
            steps.len() == 1 && steps[0] == given,
        ],
        [true; 3]
    );
}
