mod rows;
mod stops;

use check_kit::{NO_FIELD, STOCK, command, entry, statement, stock_of_two};
use field_bounds::{Command, Entry, FieldNo, Reply, SiteNo, Statement};
use std::alloc::Global;
use std::process::Abort;
use world_steps::*;

/// Site 0 gives 5 rights to lower the field to site 1.
const GIVE_FIVE: Command = command!(give 1 stock lower 5);

/// What it then states.
const FIVE: Statement = statement!(0 1 stock lower 5);

const READ: Command = command!(read stock);

/// The first statement is delivered.
const DELIVER: WorldStep = WorldStep::Deliver {
    k: 1,
    luck: Luck::Fine,
};

/// A site is asked, and its append is whole.
fn fine(site: u16, command: Command) -> WorldStep {
    WorldStep::Do {
        site: SiteNo(site),
        command,
        luck: Luck::Fine,
    }
}

/// Two sites in a world in which nothing was done.
fn fresh(rt: &impl Abort, alloc: Global) -> World {
    World::new(alloc, stock_of_two(alloc).expect(rt, "memory")).expect(rt, "memory")
}

/// Takes the step, which fits.
fn take_step(rt: &impl Abort, alloc: Global, world: &mut World, step: WorldStep) -> StepReply {
    assert!(rt; steps_fit(world.schema(), &[step]));
    world.step(alloc, &step).expect(rt, "memory")
}

const GIVEN: Entry = entry!(0 give 1 stock lower 5 -> given 5);

/// The free rights of a field at a site of the world; None at a stranger.
fn share_at(world: &World, site: u16, field: FieldNo) -> Option<(u64, u64)> {
    if site >= world.schema().sites() {
        return None;
    }
    world.share(SiteNo(site), field)
}

/// Whether the world is one in which five rights were given.
fn shows_gift(world: &World) -> [bool; 6] {
    [
        world.schema().sites() == 2,
        world.trace() == [GIVEN].as_slice(),
        world.issued() == [FIVE].as_slice(),
        share_at(world, 0, STOCK) == Some((15, 30)),
        share_at(world, 1, STOCK) == Some((20, 30)),
        share_at(world, 0, NO_FIELD) == None,
    ]
}

#[test]
fn each_call(rt: HostRuntime) {
    let mut world = fresh(&rt, rt.alloc());
    let delivered = take_step(&rt, rt.alloc(), &mut world, DELIVER);
    assert_eq!(rt; delivered, StepReply::NoStatement);
    let made = take_step(&rt, rt.alloc(), &mut world, fine(0, GIVE_FIVE));
    assert_eq!(rt; made, StepReply::Made(GIVEN));
    assert_eq!(rt; shows_gift(&world), [true; 6]);
}

/// Asks a site a command with no step made of it; the step fits.
fn ask(rt: &impl Abort, alloc: Global, world: &mut World, site: u16, command: Command) -> Reply {
    let step = WorldStep::Do {
        site: SiteNo(site),
        command,
        luck: Luck::Fine,
    };
    assert!(rt; step_fits(world.schema(), &step));
    world
        .do_fine(alloc, SiteNo(site), command)
        .expect(rt, "memory")
}

#[test]
fn a_command_is_asked(rt: HostRuntime) {
    let mut world = fresh(&rt, rt.alloc());
    let delivered = take_step(&rt, rt.alloc(), &mut world, DELIVER);
    assert_eq!(rt; delivered, StepReply::NoStatement);
    let given = ask(&rt, rt.alloc(), &mut world, 0, GIVE_FIVE);
    assert_eq!(rt; given, Reply::Given { total: 5 });
    assert_eq!(rt; shows_gift(&world), [true; 6]);
    let read = ask(&rt, rt.alloc(), &mut world, 1, READ);
    assert_eq!(rt; read, Reply::Between { lo: 20, hi: 70 });
    let steps = world.steps(rt.alloc()).expect(&rt, "memory");
    assert!(rt; steps.as_slice() == [DELIVER, fine(0, GIVE_FIVE), fine(1, READ)].as_slice());
}

#[test]
fn which_steps_fit(rt: HostRuntime) {
    let schema = stock_of_two(rt.alloc()).expect(&rt, "memory");
    let accept = fine(1, Command::Accept(FIVE));
    let each = [
        step_fits(&schema, &fine(1, READ)),
        step_fits(&schema, &DELIVER),
        step_fits(&schema, &fine(2, READ)),
        step_fits(&schema, &accept),
    ];
    assert_eq!(rt; each, [true, true, false, false]);
    let all = [
        steps_fit(&schema, &[]),
        steps_fit(&schema, &[fine(1, READ), DELIVER]),
        steps_fit(&schema, &[fine(1, READ), fine(2, READ)]),
        steps_fit(&schema, &[accept, DELIVER]),
    ];
    assert_eq!(rt; all, [true, true, false, false]);
}

/// Whether five rights were given, and accepted twice.
fn are_two_deliveries(trace: &[Entry]) -> bool {
    match trace {
        [_, first, second] => *first == entry!(1 accept 0 1 stock lower 5 -> accepted 5)
            && second.reply == Reply::Accepted { gain: 0 },
        _ => false,
    }
}

#[test]
fn runs_to_the_end(rt: HostRuntime) {
    let schema = stock_of_two(rt.alloc()).expect(&rt, "memory");
    let steps = [fine(0, GIVE_FIVE), DELIVER, DELIVER];
    assert!(rt; steps_fit(&schema, &steps));
    let trace = run_world(rt.alloc(), schema, &steps).expect(&rt, "memory");
    assert!(rt; are_two_deliveries(&trace));
}

/// A step of a row, and the reply of its entry, or None where it makes none.
type Told = (WorldStep, Option<Reply>);

/// The reply of the step's entry, or None where it makes none.
fn reply_of(rt: &impl Abort, alloc: Global, world: &mut World, step: WorldStep) -> Option<Reply> {
    match take_step(rt, alloc, world, step) {
        StepReply::Made(entry) => Some(entry.reply),
        StepReply::NoStatement => None,
    }
}

/// Two sites answer the steps of a row as it tells.
fn assert_comes(rt: &impl Abort, alloc: Global, row: &[Told]) {
    let mut world = fresh(rt, alloc);
    for (step, expected) in row {
        assert_eq!(rt; reply_of(rt, alloc, &mut world, *step), *expected);
    }
}
