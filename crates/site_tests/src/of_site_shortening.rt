//! A site whose log is shortened, beside one whose log isn't: each expected place, count and text is
//! worked out by hand.

use check_kit::{STOCK, command, stock_of_two};
use field_bounds::{Command, Reply, SiteNo, TxnId};
use kept_records::MemoryMedium;
use site_step::Site;
use std::alloc::Global;
use std::process::Abort;

/// Site 0 of two over a medium with these bytes.
fn site_over(rt: &impl Abort, alloc: Global, held: Vec<u8>) -> Site<MemoryMedium> {
    let schema = stock_of_two(alloc).expect(rt, "memory");
    assert!(rt; 0 < schema.sites());
    Site::open(alloc, schema, SiteNo(0), MemoryMedium::new(held))
        .ok()
        .expect(rt, "a site")
}

/// What the site answers, or None where memory was refused.
fn answer(alloc: Global, site: &mut Site<MemoryMedium>, command: Command) -> Option<Reply> {
    site.apply(alloc, command).ok()
}

/// The n-th transaction of epoch 0 lowers the stock by one where n is odd, and raises it by one else.
fn change_of(number: u32) -> i64 {
    if number % 2 == 0 { 1 } else { -1 }
}

/// Whether the site begins a transaction of epoch 0 with this number, and commits its change.
fn commits_one(alloc: Global, site: &mut Site<MemoryMedium>, number: u32) -> bool {
    let txn = TxnId { epoch: 0, number };
    let escrow = Command::Escrow {
        txn,
        field: STOCK,
        change: change_of(number),
    };
    answer(alloc, site, Command::Begin) == Some(Reply::Begun(txn))
        && answer(alloc, site, escrow) == Some(Reply::Granted)
        && answer(alloc, site, Command::Commit { txn }) == Some(Reply::Committed)
}

/// Site 0 over a medium that was empty, with this many commits, a summary behind each 1,000.
fn site_with(rt: &impl Abort, alloc: Global, count: u32) -> Site<MemoryMedium> {
    let mut site = site_over(rt, alloc, Vec::new(alloc));
    for before in 0..count {
        assert!(rt; commits_one(alloc, &mut site, before + 1));
    }
    site
}

/// How many records would go, and the number of the last transaction of epoch 0 whose commit would.
fn would_go(alloc: Global, site: &Site<MemoryMedium>, keep: usize) -> Option<(u64, u32)> {
    let plan = site.shortening(alloc, keep).ok()??;
    Some((plan.records(), plan.latest().number))
}

// Two lines of commits have 27 bytes, `C 0 2001 0 -1` and `C 0 2002 0 1` with their line feeds, and
// `S 0 1 20 30` has 12. So behind the summary of the 2,000th record stand 750 * 27 + 12 bytes where
// 3,500 were written.
#[test]
fn front_ends_at_the_last_summary_that_leaves_enough(rt: HostRuntime) {
    let alloc = rt.alloc();
    let site = site_with(&rt, alloc, 3500);
    assert_eq!(&rt; would_go(alloc, &site, 0), Some((2000, 2000)));
    assert_eq!(&rt; would_go(alloc, &site, 20_262), Some((2000, 2000)));
    assert_eq!(&rt; would_go(alloc, &site, 20_263), Some((1000, 1000)));
    assert_eq!(&rt; would_go(alloc, &site, 1_000_000), None);
}

#[test]
fn front_goes_where_another_summary_stands_behind(rt: HostRuntime) {
    let alloc = rt.alloc();
    let mut site = site_with(&rt, alloc, 1999);
    assert_eq!(&rt; would_go(alloc, &site, 0), None);
    assert!(&rt; commits_one(alloc, &mut site, 2000));
    assert_eq!(&rt; would_go(alloc, &site, 0), Some((1000, 1000)));
}

/// Shortens the log with no more to keep than it must; so many records go.
fn shorten(rt: &impl Abort, alloc: Global, site: &mut Site<MemoryMedium>, records: u64) {
    let plan = site
        .shortening(alloc, 0)
        .ok()
        .expect(rt, "memory")
        .expect(rt, "a front");
    assert_eq!(rt; plan.records(), records);
    let size = plan.held().len();
    site.shorten(plan);
    assert_eq!(rt; site.medium().bytes().len(), size);
}

/// Whether two sites answer a command alike, and know the same then.
fn answer_alike(
    alloc: Global,
    one: &mut Site<MemoryMedium>,
    other: &mut Site<MemoryMedium>,
    command: Command,
) -> bool {
    let told = answer(alloc, one, command);
    told.is_some()
        && told == answer(alloc, other, command)
        && one.share(STOCK) == other.share(STOCK)
        && one.interval(STOCK) == other.interval(STOCK)
        && one.history().len() == other.history().len()
        && one.replayed() == other.replayed()
        && one.is_up() == other.is_up()
}

/// The transaction that is open where a log is shortened.
const OPEN: TxnId = TxnId {
    epoch: 0,
    number: 2501,
};

/// The one that begins then.
const NEXT: TxnId = TxnId {
    epoch: 0,
    number: 2502,
};

/// What is asked of two sites with one transaction open, which holds a right.
const BEHIND: [Command; 13] = [
    command!(read stock),
    command!(share stock),
    command!(begin),
    Command::Escrow {
        txn: NEXT,
        field: STOCK,
        change: -19,
    },
    command!(give 1 stock raise 3),
    Command::Commit { txn: OPEN },
    command!(restate 1 stock raise),
    command!(accept 1 0 stock lower 2),
    command!(tighten stock lower 1),
    command!(spare 1 stock lower 4),
    command!(restart),
    Command::Commit { txn: NEXT },
    command!(read stock),
];

/// A site with 2,500 commits, and a transaction open that holds a right.
fn site_in_work(rt: &impl Abort, alloc: Global) -> Site<MemoryMedium> {
    let mut site = site_with(rt, alloc, 2500);
    let escrow = Command::Escrow {
        txn: OPEN,
        field: STOCK,
        change: -1,
    };
    assert_eq!(rt;
        answer(alloc, &mut site, Command::Begin),
        Some(Reply::Begun(OPEN))
    );
    assert_eq!(rt; answer(alloc, &mut site, escrow), Some(Reply::Granted));
    site
}

#[test]
fn shortened_site_answers_as_its_twin(rt: HostRuntime) {
    let alloc = rt.alloc();
    let mut site = site_in_work(&rt, alloc);
    let mut twin = site_in_work(&rt, alloc);
    shorten(&rt, alloc, &mut site, 1000);
    assert!(&rt;
        site.medium()
            .bytes()
            .starts_with(b"S 0 1 20 30\nC 0 1001 0 -1\n")
    );
    assert!(&rt; twin.medium().bytes().ends_with(site.medium().bytes()));
    for command in BEHIND {
        assert!(&rt; answer_alike(alloc, &mut site, &mut twin, command));
    }
    assert!(&rt; twin.medium().bytes().ends_with(site.medium().bytes()));
}

#[test]
fn base_itself_does_not_go(rt: HostRuntime) {
    let alloc = rt.alloc();
    let mut site = site_with(&rt, alloc, 2500);
    shorten(&rt, alloc, &mut site, 1000);
    assert_eq!(&rt; would_go(alloc, &site, 0), None);
    for number in 2501..3001 {
        assert!(&rt; commits_one(alloc, &mut site, number));
    }
    shorten(&rt, alloc, &mut site, 1000);
    assert!(&rt;
        site.medium()
            .bytes()
            .starts_with(b"S 0 1 20 30\nC 0 2001 0 -1\n")
    );
}

#[test]
fn site_that_is_down_is_not_shortened(rt: HostRuntime) {
    let alloc = rt.alloc();
    let site = site_with(&rt, alloc, 2000);
    let held = Vec::from_slice(alloc, site.medium().bytes())
        .ok()
        .expect(&rt, "memory");
    let mut site = site_over(&rt, alloc, held);
    assert_eq!(&rt; would_go(alloc, &site, 0), None);
    assert!(&rt; answer(alloc, &mut site, Command::Restart).is_some());
    assert_eq!(&rt; would_go(alloc, &site, 0), Some((1000, 1000)));
}
