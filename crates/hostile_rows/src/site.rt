//! Worked commands at site 0 of two: each expected reply is worked out by hand.

use super::refused::Refusals;
use check_kit::{STOCK, add, entry, stock_of_two};
use field_bounds::{Command, Entry, Reply, SiteNo};
use itoa::Buffer;
use kept_records::Mishap::{Append, Cut, Never, Read};
use kept_records::{Medium, Mishap, TornMedium};
use site_step::{OpenFault, Site};
use std::alloc::{AllocError, Global};

/// A command under a mishap, and what the site answers.
type Step = (Mishap, Entry);

/// What the medium holds when the site is opened: the records of so many restarts, and then these.
type Log = (u32, &'static str);

/// The rows, each with its name and what the site is opened over.
pub static ROWS: [(&str, Log, &[Step]); 10] = [
    ("a commit", (0, ""), &COMMITTED),
    ("an abort", (0, ""), &ABORTED),
    ("a gift in doubt", (0, ""), &IN_DOUBT),
    ("each mishap", (0, ""), &EACH_MISHAP),
    ("other records", (0, ""), &OTHERS),
    (
        "over a summary with a gift",
        (0, GIFT_SUMMED_UP),
        &OVER_GIFT,
    ),
    (
        "over a summary with a tightening",
        (0, TIGHTENING_SUMMED_UP),
        &OVER_TIGHTENING,
    ),
    ("a summary behind a commit", (998, ""), &WITH_SUMMARY),
    ("a torn summary", (998, ""), &TORN_SUMMARY),
    ("a restart without its summary", (998, ""), &WITHOUT_SUMMARY),
];

const COMMITTED: [Step; 6] = [
    (Never, entry!(0 begin -> begun 0.1)),
    (Never, entry!(0 escrow 0.1 stock -20 -> granted)),
    (Never, entry!(0 read stock -> between 20 70)),
    (Never, entry!(0 commit 0.1 -> committed)),
    (Never, entry!(0 restart -> restarted 1 nothing)),
    (Never, entry!(0 share stock -> share 0 50)),
];

const ABORTED: [Step; 4] = [
    (Never, entry!(0 begin -> begun 0.1)),
    (Never, entry!(0 escrow 0.1 stock -20 -> granted)),
    (Never, entry!(0 abort 0.1 -> aborted)),
    (Never, entry!(0 share stock -> share 20 30)),
];

const IN_DOUBT: [Step; 4] = [
    (Append(10), entry!(0 give 1 stock lower 5 -> unsure)),
    (Never, entry!(0 read stock -> refused 1 down)),
    (Never, entry!(0 restart -> restarted 1 kept)),
    (Never, entry!(0 restate 1 stock lower -> stated 5)),
];

const EACH_MISHAP: [Step; 7] = [
    (Never, entry!(0 begin -> begun 0.1)),
    (Never, entry!(0 escrow 0.1 stock -20 -> granted)),
    (Append(11), entry!(0 commit 0.1 -> unsure)),
    (Cut, entry!(0 restart -> still down)),
    (Read, entry!(0 restart -> still down)),
    (Never, entry!(0 restart -> restarted 1 lost)),
    (Never, entry!(0 share stock -> share 20 30)),
];

const OTHERS: [Step; 6] = [
    (Never, entry!(0 accept 1 0 stock lower 5 -> accepted 5)),
    (Never, entry!(0 spare 1 stock raise 100 -> spared 15 15)),
    (Never, entry!(0 tighten stock lower 5 -> tightened 5)),
    (Never, entry!(0 give 1 stock lower 5 -> given 5)),
    (Never, entry!(0 restart -> restarted 1 nothing)),
    (Never, entry!(0 share stock -> share 15 15)),
];

/// 5 of the 20 rights to lower were given to site 1.
const GIFT_SUMMED_UP: &str = "G 1 0 l 5\nS 0 1 15 30 g 1 0 l 5\n";

const OVER_GIFT: [Step; 4] = [
    (Never, entry!(0 restart -> restarted 1 nothing)),
    (Never, entry!(0 restate 1 stock lower -> stated 5)),
    (Never, entry!(0 give 1 stock lower 5 -> given 10)),
    (Never, entry!(0 share stock -> share 10 30)),
];

/// 5 of the 20 rights to lower were given up.
const TIGHTENING_SUMMED_UP: &str = "T 0 l 5\nS 0 1 15 30 t 0 l 5\n";

/// The 10 rights given up in the end and the 10 that are left make the lowest value.
const OVER_TIGHTENING: [Step; 4] = [
    (Never, entry!(0 restart -> restarted 1 nothing)),
    (Never, entry!(0 tighten stock lower 5 -> tightened 10)),
    (Never, entry!(0 share stock -> share 10 30)),
    (Never, entry!(0 read stock -> between 20 70)),
];

/// The 1,000th record is followed by a summary.
const WITH_SUMMARY: [Step; 6] = [
    (Never, entry!(0 restart -> restarted 999 nothing)),
    (Never, entry!(0 begin -> begun 999.1)),
    (Never, entry!(0 escrow 999.1 stock -20 -> granted)),
    (Never, entry!(0 commit 999.1 -> committed)),
    (Never, entry!(0 restart -> restarted 1000 nothing)),
    (Never, entry!(0 share stock -> share 0 50)),
];

/// The commit's record, `C 999 1 0 -20`, has 14 bytes with its line feed: the summary behind it is
/// torn.
const TORN_SUMMARY: [Step; 7] = [
    (Never, entry!(0 restart -> restarted 999 nothing)),
    (Never, entry!(0 begin -> begun 999.1)),
    (Never, entry!(0 escrow 999.1 stock -20 -> granted)),
    (Append(20), entry!(0 commit 999.1 -> unsure)),
    (Cut, entry!(0 restart -> still down)),
    (Never, entry!(0 restart -> restarted 1000 kept)),
    (Never, entry!(0 share stock -> share 0 50)),
];

/// The restart's record, `R 1000`, has 7 bytes with its line feed: it stands whole, without the
/// summary that is due behind it, and uses its epoch up.
const WITHOUT_SUMMARY: [Step; 4] = [
    (Never, entry!(0 restart -> restarted 999 nothing)),
    (Append(7), entry!(0 restart -> still down)),
    (Never, entry!(0 restart -> restarted 1001 nothing)),
    (Never, entry!(0 share stock -> share 20 30)),
];

/// Adds the record of the restart behind so many.
fn add_restart(text: &mut String, behind: u32) -> Result<(), AllocError> {
    let mut digits = Buffer::new();
    add(text, &["R ", digits.format(behind.saturating_add(1)), "\n"])
}

/// Adds the text of a log.
fn spell(text: &mut String, log: Log) -> Result<(), AllocError> {
    let (restarts, records) = log;
    for behind in 0..restarts {
        add_restart(text, behind)?;
    }
    text.push_str(records)
}

/// The text of a log. None where memory was refused.
fn spelled(alloc: Global, log: Log) -> Option<Vec<u8>> {
    let mut text = String::new(alloc);
    match spell(&mut text, log) {
        Ok(()) => Some(text.into_bytes()),
        Err(_) => None,
    }
}

/// The text of a log, of two tries.
fn text_of(alloc: Global, log: Log, refusals: &mut Refusals) -> Option<Vec<u8>> {
    for _ in 0..2 {
        if let Some(text) = spelled(alloc, log) {
            return Some(text);
        }
        refusals.note();
    }
    None
}

/// A medium that holds these bytes, of two tries.
fn medium_over(alloc: Global, bytes: &[u8], refusals: &mut Refusals) -> Option<TornMedium> {
    for _ in 0..2 {
        if let Ok(held) = Vec::from_slice(alloc, bytes) {
            return Some(TornMedium::new(held));
        }
        refusals.note();
    }
    None
}

/// Site 0 over the medium.
fn open_over(
    alloc: Global,
    medium: TornMedium,
) -> Result<Site<TornMedium>, (OpenFault, TornMedium)> {
    let Some(schema) = stock_of_two(alloc) else {
        return Err((OpenFault::NoMemory, medium));
    };
    if schema.sites() == 0 {
        return Err((OpenFault::Device, medium));
    }
    Site::open(alloc, schema, SiteNo(0), medium)
}

/// Site 0 over these bytes, of two tries: after one that was refused memory the medium that came
/// back holds the bytes as before. None where it doesn't.
fn site_over(alloc: Global, bytes: &[u8], refusals: &mut Refusals) -> Option<Site<TornMedium>> {
    let medium = medium_over(alloc, bytes, refusals)?;
    match open_over(alloc, medium) {
        Ok(site) => Some(site),
        Err((OpenFault::NoMemory, back)) => {
            refusals.note();
            let mut medium = back;
            let held = medium.read_all(alloc).ok()?;
            if held.as_slice() != bytes {
                return None;
            }
            open_over(alloc, medium).ok()
        }
        Err(_) => None,
    }
}

/// Whether both sites show the same history, rights, interval and count of records replayed.
fn look_alike(site: &Site<TornMedium>, twin: &Site<TornMedium>) -> bool {
    site.history() == twin.history()
        && site.is_up() == twin.is_up()
        && site.share(STOCK) == twin.share(STOCK)
        && site.interval(STOCK) == twin.interval(STOCK)
        && site.replayed() == twin.replayed()
}

/// The site's reply, of two tries: after one that was refused memory the site looks like its twin,
/// which hasn't been asked. None where it doesn't.
fn reply_of(
    alloc: Global,
    site: &mut Site<TornMedium>,
    twin: &Site<TornMedium>,
    command: Command,
    refusals: &mut Refusals,
) -> Option<Reply> {
    for _ in 0..2 {
        match site.apply(alloc, command) {
            Ok(reply) => return Some(reply),
            Err(AllocError) => refusals.note(),
        }
        if !look_alike(site, twin) {
            return None;
        }
    }
    None
}

/// Whether the twin answers the command too, of two tries.
fn follows(
    alloc: Global,
    twin: &mut Site<TornMedium>,
    command: Command,
    refusals: &mut Refusals,
) -> bool {
    for _ in 0..2 {
        match twin.apply(alloc, command) {
            Ok(_) => return true,
            Err(AllocError) => refusals.note(),
        }
    }
    false
}

/// Whether the site answers the step as told, and its twin follows and then looks like it.
fn is_told(
    alloc: Global,
    site: &mut Site<TornMedium>,
    twin: &mut Site<TornMedium>,
    step: &Step,
    refusals: &mut Refusals,
) -> bool {
    let (mishap, entry) = *step;
    site.arm(mishap);
    twin.arm(mishap);
    reply_of(alloc, site, twin, entry.command, refusals) == Some(entry.reply)
        && follows(alloc, twin, entry.command, refusals)
        && look_alike(site, twin)
}

/// How many of the steps are answered as told, from the first on, by the site and then by its twin.
fn count_at(
    alloc: Global,
    site: &mut Site<TornMedium>,
    twin: &mut Site<TornMedium>,
    steps: &[Step],
    refusals: &mut Refusals,
) -> usize {
    for (at, step) in steps.iter().enumerate() {
        if !is_told(alloc, site, twin, step, refusals) {
            return at;
        }
    }
    steps.len()
}

/// The same, by a twin that is opened over the bytes that the site was. None where it couldn't be.
fn count_beside(
    alloc: Global,
    bytes: &[u8],
    site: &mut Site<TornMedium>,
    steps: &[Step],
    refusals: &mut Refusals,
) -> Option<usize> {
    let mut twin = site_over(alloc, bytes, refusals)?;
    Some(count_at(alloc, site, &mut twin, steps, refusals))
}

/// The same, by a site over these bytes and its twin. None where one of them couldn't be opened.
fn count_over(
    alloc: Global,
    bytes: &[u8],
    steps: &[Step],
    refusals: &mut Refusals,
) -> Option<usize> {
    let mut site = site_over(alloc, bytes, refusals)?;
    count_beside(alloc, bytes, &mut site, steps, refusals)
}

/// How many of the steps are answered as told, from the first on, by a site over the log and then
/// by its twin. None where one of them couldn't be opened.
pub fn count_told(
    alloc: Global,
    log: Log,
    steps: &[Step],
    refusals: &mut Refusals,
) -> Option<usize> {
    let text = text_of(alloc, log, refusals)?;
    count_over(alloc, &text, steps, refusals)
}
