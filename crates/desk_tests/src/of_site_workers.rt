//! What no clause says: that honest runs end well, and that sites work at the same time.

ghost use Rattle.std.specs.Prelude.{◌≡◌, ◌<◌};
ghost use Rattle.crossbeam_channel.specs.Claims.{IsSeatAt};
ghost use Rattle.crossbeam_channel.specs.Ends.{receives_on};

use check_kit::{Meeting, STOCK, comes, entry, reply, schema_of, statement, stock_of_two};
use field_bounds::{Command, Entry, Kind, Schema, SiteNo, Statement};
use kept_records::MemoryMedium;
use site_desk::{Blank, Desk, FreeGate, Gate, Receipt};
use site_workers::inbox::{admit, hire, open_inbox, put};
use site_workers::{
    Answer, Inbox, Letter, SiteFault, Way, WorkFault, carry, gather, run_sites, run_workers,
    scripts_fit,
};
use std::alloc::Global;
use std::marker::Brand;
use std::process::Abort;
use std::sync::Wait;
use std::sync::atomic::{AtomicU64, Ordering};
use std::sync::ledger::Ledger;
use std::thread::Threads;

/// A field from 0 to 10,000 at 4,000, at 16 sites.
const STOCK_OF_SIXTEEN: &str =
    r#"{"sites":16,"fields":[{"name":"stock","floor":0,"ceiling":10000,"value":4000}]}"#;

/// A gift of one right to lower.
fn gift(to: u16) -> Command {
    Command::Give {
        to: SiteNo(to),
        field: STOCK,
        kind: Kind::Lower,
        amount: 1,
    }
}

/// A script of so many such gifts.
fn gifts(rt: &impl Abort, alloc: Global, to: u16, count: usize) -> Vec<Command> {
    vec![in alloc; gift(to); count].expect(rt, "memory")
}

/// A script of this one command.
fn only(rt: &impl Abort, alloc: Global, command: Command) -> Vec<Command> {
    vec![in alloc; command; 1].expect(rt, "memory")
}

/// The two sites.
fn two(rt: &impl Abort, alloc: Global) -> Schema {
    stock_of_two(alloc).expect(rt, "memory")
}

/// How a run of these scripts ends, which fit.
fn run<R: Abort + Threads + Wait + Sync, G: Gate>(
    rt: &R,
    alloc: Global,
    schema: &Schema,
    scripts: Vec<Vec<Command>>,
    gate: &G,
) -> Result<Vec<Vec<Entry>>, WorkFault> {
    assert!(rt; scripts_fit(schema, scripts.as_slice()));
    run_workers(rt, alloc, schema, scripts, gate)
}

/// The same of a script for each of two sites.
fn run_two<R: Abort + Threads + Wait + Sync, G: Gate>(
    rt: &R,
    alloc: Global,
    zero: Vec<Command>,
    one: Vec<Command>,
    gate: &G,
) -> Result<Vec<Vec<Entry>>, WorkFault> {
    let schema = two(rt, alloc);
    let scripts = Vec::from_array(alloc, [zero, one]).expect(rt, "memory");
    run(rt, alloc, &schema, scripts, gate)
}

/// Whether there are so many histories of so many entries.
fn are_long(histories: &[Vec<Entry>], sites: usize, entries: usize) -> bool {
    histories.len() == sites && histories.iter().all(|history| history.len() == entries)
}

/// Two sites whose run of these scripts ends well have histories of so many entries.
fn assert_two<R: Abort + Threads + Wait + Sync, G: Gate>(
    rt: &R,
    alloc: Global,
    zero: Vec<Command>,
    one: Vec<Command>,
    gate: &G,
    entries: usize,
) {
    let histories = run_two(rt, alloc, zero, one, gate).expect(rt, "a run");
    assert!(rt; are_long(&histories, 2, entries));
}

const GIVEN: Entry = entry!(0 give 1 stock lower 5 -> given 5);

const ACCEPTED: Entry = entry!(1 accept 0 1 stock lower 5 -> accepted 5);

/// Whether site 0 gave and site 1 accepted, and nothing else was done.
fn are_told(histories: &[Vec<Entry>]) -> bool {
    match histories {
        [zero, one] => zero.as_slice() == [GIVEN].as_slice()
            && one.as_slice() == [ACCEPTED].as_slice(),
        _ => false,
    }
}

#[test]
fn a_gift_comes_to_its_receiver(rt: HostRuntime) {
    let alloc = rt.alloc();
    let zero = only(&rt, alloc, GIVEN.command);
    let histories = run_two(&rt, alloc, zero, Vec::new(alloc), &FreeGate).expect(&rt, "a run");
    assert!(&rt; are_told(&histories));
}

/// What site 0 states when it has given 5 rights to lower to site 1.
const FIVE: Statement = statement!(0 1 stock lower 5);

#[test]
fn gifts_go_both_ways(rt: HostRuntime) {
    let alloc = rt.alloc();
    let zero = gifts(&rt, alloc, 1, 10);
    let one = gifts(&rt, alloc, 0, 10);
    assert_two(&rt, alloc, zero, one, &FreeGate, 20);
}

/// A script for each of sixteen sites, which gives to the next one.
fn ring(rt: &impl Abort, alloc: Global) -> Vec<Vec<Command>> {
    let mut scripts = Vec::new(alloc);
    for site in 0..16u16 {
        let script = gifts(rt, alloc, (site + 1) % 16, 200);
        scripts.push(script).expect(rt, "memory");
    }
    scripts
}

#[test]
fn sixteen_sites_give_in_a_ring(rt: HostRuntime) {
    let alloc = rt.alloc();
    let schema = schema_of(alloc, STOCK_OF_SIXTEEN).expect(&rt, "a schema");
    let scripts = ring(&rt, alloc);
    let histories = run(&rt, alloc, &schema, scripts, &FreeGate).expect(&rt, "a run");
    assert!(&rt; are_long(&histories, 16, 400));
}

/// A gate at which the first calls of two sites meet.
#[derive(Drop)]
struct Both(Meeting);

impl Gate for Both {
    ghost turns = { λ gate site call. Unit {0} };

    fn inside(&self, site: SiteNo, call: u64) -> bool {
        self.0.meets(site, call)
    }

    fn answered(&self, _site: SiteNo, _call: u64) {}
}

/// Two sites each answer a begin at this gate.
fn assert_two_begin<R: Abort + Threads + Wait + Sync, G: Gate>(rt: &R, alloc: Global, gate: &G) {
    let zero = only(rt, alloc, Command::Begin);
    let one = only(rt, alloc, Command::Begin);
    assert_two(rt, alloc, zero, one, gate, 1);
}

#[test]
fn two_sites_work_at_the_same_time(rt: HostRuntime) {
    let gate = Both(Meeting::new());
    assert_two_begin(&rt, rt.alloc(), &gate);
}

/// A gate whose first call at site 0 waits until site 1's first call was answered, as long as it takes
/// to turn so many times.
#[derive(Drop)]
struct After {
    answered: AtomicU64,
}

impl Gate for After {
    ghost turns = { λ gate site call. Unit {0} };

    fn inside(&self, site: SiteNo, call: u64) -> bool {
        site != SiteNo(0) || call != 1 || comes(&self.answered, 100_000_000)
    }

    fn answered(&self, site: SiteNo, call: u64) {
        if site == SiteNo(1) && call == 1 {
            self.answered.store(1, Ordering::SeqCst);
        }
    }
}

#[test]
fn one_site_waits_for_another(rt: HostRuntime) {
    let gate = After {
        answered: AtomicU64::new(0),
    };
    assert_two_begin(&rt, rt.alloc(), &gate);
}

/// A gate that turns site 0's third call away.
struct Third;

impl Gate for Third {
    ghost turns = { λ gate site call. Unit {0} };

    fn inside(&self, site: SiteNo, call: u64) -> bool {
        site != SiteNo(0) || call != 3
    }

    fn answered(&self, _site: SiteNo, _call: u64) {}
}

#[test]
fn a_worker_that_is_turned_away_ends_the_run(rt: HostRuntime) {
    let alloc = rt.alloc();
    let zero = gifts(&rt, alloc, 1, 10);
    let one = gifts(&rt, alloc, 0, 10);
    let fault = run_two(&rt, alloc, zero, one, &Third).err();
    assert_eq!(&rt; fault, Some(WorkFault::GateTurns));
}

/// Whether site 0's worker was turned away, and site 1 has a history of so many entries.
fn is_turned_at_zero(answers: &[Answer], entries: usize) -> bool {
    match answers {
        [Err(SiteFault::Worker(WorkFault::GateTurns)), Ok(history)] => history.len() == entries,
        _ => false,
    }
}

#[test]
fn each_site_answers_its_own(rt: HostRuntime) {
    let alloc = rt.alloc();
    let schema = two(&rt, alloc);
    let scripts = [gifts(&rt, alloc, 1, 10), gifts(&rt, alloc, 0, 10)];
    let scripts = Vec::from_array(alloc, scripts).expect(&rt, "memory");
    assert!(&rt; scripts_fit(&schema, scripts.as_slice()));
    let answers = run_sites(&rt, alloc, &schema, scripts, &Third).expect(&rt, "answers");
    assert!(&rt; is_turned_at_zero(&answers, 12));
}

/// What is told of three answers.
fn told_of(rt: &impl Abort, alloc: Global, answers: [Answer; 3]) -> Option<WorkFault> {
    let answers = Vec::from_array(alloc, answers).expect(rt, "memory");
    assert!(rt; answers.len() == 3);
    gather(alloc, answers).err()
}

/// The fault of a site that went back.
fn went_back(site: u16) -> WorkFault {
    WorkFault::WentBack {
        site: SiteNo(site),
        length: 7,
    }
}

/// A history that accepts what nobody issued.
fn foreign(rt: &impl Abort, alloc: Global) -> Answer {
    Ok(vec![in alloc; ACCEPTED; 1].expect(rt, "memory"))
}

#[test]
fn the_lowest_sites_fault_is_told(rt: HostRuntime) {
    let alloc = rt.alloc();
    let none = || -> Answer { Ok(Vec::new(alloc)) };
    let worker = |fault: WorkFault| -> Answer { Err(SiteFault::Worker(fault)) };
    let courier = |fault: WorkFault| -> Answer {
        Err(SiteFault::Courier {
            fault,
            receipts: Vec::new(alloc),
        })
    };
    let passes = WorkFault::Passes { site: SiteNo(2) };
    let close = || -> Answer {
        Err(SiteFault::Close {
            fault: WorkFault::Passes { site: SiteNo(2) },
            receipts: Vec::new(alloc),
        })
    };
    let one = told_of(&rt, alloc, [none(), courier(went_back(1)), close()]);
    assert_eq!(&rt; one, Some(went_back(1)));
    let zero = told_of(
        &rt,
        alloc,
        [worker(WorkFault::GateTurns), worker(went_back(1)), close()],
    );
    assert_eq!(&rt; zero, Some(WorkFault::GateTurns));
    let two = told_of(&rt, alloc, [none(), foreign(&rt, alloc), close()]);
    assert_eq!(&rt; two, Some(passes));
    let crossed = told_of(&rt, alloc, [none(), foreign(&rt, alloc), none()]);
    assert_eq!(&rt; crossed, Some(WorkFault::Foreign { site: SiteNo(1) }));
    assert_eq!(&rt; told_of(&rt, alloc, [none(), none(), none()]), None);
}

/// Whether gifts at site 0 and so many scripts of a begin fit.
fn fits_with(rt: &impl Abort, alloc: Global, schema: &Schema, begins: u64) -> bool {
    let mut scripts = Vec::new(alloc);
    let script = gifts(rt, alloc, 1, 10);
    scripts.push(script).expect(rt, "memory");
    for _ in 0..begins {
        let script = only(rt, alloc, Command::Begin);
        scripts.push(script).expect(rt, "memory");
    }
    scripts_fit(schema, scripts.as_slice())
}

/// Whether a begin at site 0 and at site 1 a begin and an accept fit.
fn fits_with_accept(rt: &impl Abort, alloc: Global, schema: &Schema) -> bool {
    let zero = only(rt, alloc, Command::Begin);
    let accepts = [Command::Begin, Command::Accept(FIVE)];
    let one = Vec::from_array(alloc, accepts).expect(rt, "memory");
    let scripts = Vec::from_array(alloc, [zero, one]).expect(rt, "memory");
    scripts_fit(schema, scripts.as_slice())
}

#[test]
fn which_scripts_fit(rt: HostRuntime) {
    let alloc = rt.alloc();
    let schema = two(&rt, alloc);
    let fit = [
        fits_with(&rt, alloc, &schema, 0),
        fits_with(&rt, alloc, &schema, 1),
        fits_with(&rt, alloc, &schema, 2),
        fits_with_accept(&rt, alloc, &schema),
    ];
    assert_eq!(&rt; fit, [false, true, false, false]);
}

/// What a courier of site 1 of two makes of its mail.
fn carried<L: Ledger, R: Abort + Wait>(
    rt: &R,
    alloc: Global,
    blank: Blank,
    mail: Mail,
) -> Result<Vec<Receipt>, WorkFault>
    requires name { blank.name ≡ L.name }
    requires parts { blank.parts ≡ L.parts }
    requires some { 0 < blank.parts }
{
    let schema = two(rt, alloc);
    assert!(rt; schema.sites() == 2);
    let medium = MemoryMedium::new(Vec::new(alloc));
    let opened = Desk::<L, MemoryMedium>::new(alloc, blank, &schema, SiteNo(1), medium);
    let (desk, mut passes) = opened.expect(rt, "a desk");
    let mut pass = passes.pop().expect(rt, "a pass");
    let Mail { inbox, way } = mail;
    let mut way = way;
    carry(rt, alloc, &inbox, &mut way, &schema, &desk, &mut pass)
}

/// A courier's end of its inbox.
#[derive(Drop)]
struct Mail {
    inbox: Inbox,
    way: Way,
    ghost seated: { IsSeatAt (receives_on inbox) way },
}

/// The mail of site 1 of two: a statement of site 0, and the Ends of both workers or of one.
fn mail_of_one<R: Wait>(rt: &R, alloc: Global, both: bool) -> Option<Mail> {
    let (slot, inbox, own) = open_inbox(alloc).ok()?;
    let mut own = own;
    let mut zero = hire(&slot, &mut own);
    let mut one = hire(&slot, &mut own);
    let way = admit(&slot, &mut own);
    put(rt, &slot, &mut zero, Letter::Stated(FIVE)).ok()?;
    put(rt, &slot, &mut zero, Letter::End(SiteNo(0))).ok()?;
    if both {
        put(rt, &slot, &mut one, Letter::End(SiteNo(1))).ok()?;
    }
    Some(Mail { inbox, way })
}

/// Whether there is one receipt, of an accept of 5 rights.
fn is_accepted(receipts: &[Receipt]) -> bool {
    match receipts {
        [receipt] => receipt.entry().reply == reply!(accepted 5),
        _ => false,
    }
}

#[test]
fn a_courier_accepts_what_is_stated(rt: HostRuntime) {
    let alloc = rt.alloc();
    let mail = mail_of_one(&rt, alloc, true).expect(&rt, "mail");
    let answer = carried::<Brand, _>(&rt, alloc, Blank::new(1), mail);
    let receipts = answer.expect(&rt, "receipts");
    assert!(&rt; is_accepted(&receipts));
}

#[test]
fn a_courier_whose_inbox_is_closed_early_tells_it(rt: HostRuntime) {
    let alloc = rt.alloc();
    let mail = mail_of_one(&rt, alloc, false).expect(&rt, "mail");
    let fault = carried::<Brand, _>(&rt, alloc, Blank::new(1), mail).err();
    assert_eq!(&rt; fault, Some(WorkFault::Lost { site: SiteNo(1) }));
}
