//! Worked histories of two and three sites that are woven and judged. What is told was worked out by
//! hand from the rules: each site of two begins with 20 rights to lower the stock and 30 to raise it,
//! the first of three with 14 and 20.

use check_kit::{STOCK_OF_THREE, STOCK_OF_TWO, schema_of};
use entry_text::read_entry;
use field_bounds::{Entry, Schema, SiteNo};
use std::alloc::Global;
use std::process::Abort;
use woven_verdict::{ListedHistories, VerdictFault, judge_histories, judge_woven, verdict_line};

/// The entries of a site, a line each.
fn history_of(rt: &impl Abort, alloc: Global, schema: &Schema, lines: &str) -> Vec<Entry> {
    let mut history = Vec::new(alloc);
    for line in lines.lines() {
        let entry = read_entry(schema, line.as_bytes()).expect(rt, "an entry");
        history.push(entry).expect(rt, "memory is ample");
    }
    history
}

/// The histories of the sites of a header, in order.
fn histories_of(
    rt: &impl Abort,
    alloc: Global,
    schema: &Schema,
    sites: &[&str],
) -> Vec<Vec<Entry>> {
    let mut histories = Vec::new(alloc);
    for lines in sites {
        histories
            .push(history_of(rt, alloc, schema, *lines))
            .expect(rt, "memory is ample");
    }
    histories
}

/// The line that is told of these sites, or why none is.
fn told_of(
    rt: &impl Abort,
    alloc: Global,
    header: &str,
    sites: &[&str],
) -> Result<String, VerdictFault> {
    let schema = schema_of(alloc, header).expect(rt, "a schema");
    let histories = histories_of(rt, alloc, &schema, sites);
    assert!(rt; histories.len() <= 65_535);
    let (verdict, count) = judge_woven(alloc, &schema, histories.as_slice())?;
    Ok(verdict_line(alloc, verdict, count)?)
}

/// This line is told of the sites.
fn assert_told(rt: &impl Abort, alloc: Global, header: &str, sites: &[&str], line: &str) {
    let told = told_of(rt, alloc, header, sites).expect(rt, "a verdict");
    assert_eq!(rt; told.as_str(), line);
}

/// No trace weaves the sites: this entry can't come.
fn assert_stuck(
    rt: &impl Abort,
    alloc: Global,
    header: &str,
    sites: &[&str],
    site: u16,
    number: u64,
) {
    let stuck = VerdictFault::Stuck {
        site: SiteNo(site),
        number,
    };
    assert_eq!(rt; told_of(rt, alloc, header, sites).err(), Some(stuck));
}

// ---- two sites

const BEGUN: &str = "0 begin -> begun 0.1\n";

const GIVES: &str = "1 give 0 stock lower 5 -> given 5\n";

const ACCEPTS: &str = "0 accept 1 0 stock lower 5 -> accepted 5\n";

/// Site 0 spends 25 rights once it has accepted 5 of site 1.
const SPENDS: &str = "\
0 accept 1 0 stock lower 5 -> accepted 5
0 begin -> begun 0.1
0 escrow 0.1 stock -25 -> granted
0 commit 0.1 -> committed
";

#[test]
fn honest_sites_are_legal(rt: HostRuntime) {
    let alloc = rt.alloc();
    assert_told(&rt, alloc, STOCK_OF_TWO, &["", ""], "legal 0\n");
    assert_told(&rt, alloc, STOCK_OF_TWO, &[BEGUN, ""], "legal 1\n");
    assert_told(&rt, alloc, STOCK_OF_TWO, &[ACCEPTS, GIVES], "legal 2\n");
    assert_told(&rt, alloc, STOCK_OF_TWO, &[SPENDS, GIVES], "legal 5\n");
}

#[test]
fn a_site_that_is_not_in_the_world(rt: HostRuntime) {
    let sites = ["0 begin -> begun 0.1\n2 begin -> begun 0.1\n", GIVES];
    assert_told(&rt, rt.alloc(), STOCK_OF_TWO, &sites, "illegal 2 site\n");
}

// The entries of site 1 and the acceptance come first: 1 give, 0 accept, 0 begin, 0 escrow.
#[test]
fn more_than_the_infimum_allows(rt: HostRuntime) {
    let zero = "\
0 accept 1 0 stock lower 5 -> accepted 5
0 begin -> begun 0.1
0 escrow 0.1 stock -41 -> granted
";
    assert_told(
        &rt,
        rt.alloc(),
        STOCK_OF_TWO,
        &[zero, GIVES],
        "illegal 4 grant\n",
    );
}

#[test]
fn a_share_that_is_not_the_sites(rt: HostRuntime) {
    let alloc = rt.alloc();
    let zero = "0 begin -> begun 0.1\n0 escrow 0.1 stock -21 -> refused 7 short 19\n";
    assert_told(
        &rt,
        alloc,
        STOCK_OF_TWO,
        &[zero, GIVES],
        "illegal 2 shortage\n",
    );
    let one = "\
1 give 0 stock lower 5 -> given 5
1 begin -> begun 0.1
1 escrow 0.1 stock -21 -> refused 7 short 20
";
    assert_told(
        &rt,
        alloc,
        STOCK_OF_TWO,
        &[ACCEPTS, one],
        "illegal 4 shortage\n",
    );
}

#[test]
fn an_interval_without_the_value(rt: HostRuntime) {
    let zero = "0 read stock -> between 41 100\n";
    assert_told(
        &rt,
        rt.alloc(),
        STOCK_OF_TWO,
        &[zero, ""],
        "illegal 1 interval\n",
    );
}

#[test]
fn a_reply_that_is_not_owed(rt: HostRuntime) {
    let alloc = rt.alloc();
    let zero = "0 read stock -> between 0 100\n";
    assert_told(&rt, alloc, STOCK_OF_TWO, &[zero, ""], "illegal 1 reply\n");
    // 25 are more than site 0 has, where it hasn't accepted what it was given.
    let early = "\
0 begin -> begun 0.1
0 escrow 0.1 stock -25 -> granted
0 accept 1 0 stock lower 5 -> accepted 5
";
    assert_told(
        &rt,
        alloc,
        STOCK_OF_TWO,
        &[early, GIVES],
        "illegal 2 reply\n",
    );
    // Site 1 gave 5, so it has 15 left. Its third entry is the fourth of the woven trace.
    let one = "\
1 give 0 stock lower 5 -> given 5
1 share stock -> share 15 30
1 share stock -> share 20 30
";
    assert_told(
        &rt,
        alloc,
        STOCK_OF_TWO,
        &[ACCEPTS, one],
        "illegal 4 reply\n",
    );
}

// What is accepted and was never issued can't be woven, so no woven trace breaks the rule on
// statements.
#[test]
fn what_nobody_gave_is_stuck(rt: HostRuntime) {
    let alloc = rt.alloc();
    assert_stuck(&rt, alloc, STOCK_OF_TWO, &[ACCEPTS, ""], 0, 1);
    let more = "0 begin -> begun 0.1\n0 accept 1 0 stock lower 6 -> accepted 6\n";
    assert_stuck(&rt, alloc, STOCK_OF_TWO, &[more, GIVES], 0, 2);
    let zero = "0 accept 1 0 stock lower 5 -> accepted 5\n0 give 1 stock lower 5 -> given 5\n";
    let one = "1 accept 0 1 stock lower 5 -> accepted 5\n1 give 0 stock lower 5 -> given 5\n";
    assert_stuck(&rt, alloc, STOCK_OF_TWO, &[zero, one], 0, 1);
}

// That no trace weaves them is told before a bad entry.
#[test]
fn a_bad_entry_before_one_that_is_stuck(rt: HostRuntime) {
    let zero = "0 read stock -> between 41 100\n0 accept 1 0 stock lower 6 -> accepted 6\n";
    assert_stuck(&rt, rt.alloc(), STOCK_OF_TWO, &[zero, GIVES], 0, 2);
}

// Only the first bad entry is told.
#[test]
fn later_bad_entries_are_not_told(rt: HostRuntime) {
    let zero = "\
0 read stock -> between 0 100
0 begin -> begun 0.1
0 escrow 0.1 stock -41 -> granted
";
    let one = "2 begin -> begun 0.1\n";
    assert_told(
        &rt,
        rt.alloc(),
        STOCK_OF_TWO,
        &[zero, one],
        "illegal 1 reply\n",
    );
}

// ---- three sites

/// Site 0 accepts of site 2 and gives to site 1.
const ZERO: &str = "\
0 begin -> begun 0.1
0 accept 2 0 stock lower 5 -> accepted 5
0 give 1 stock lower 19 -> given 19
";

/// Site 1 accepts of site 0 and spends.
const ONE: &str = "\
1 accept 0 1 stock lower 19 -> accepted 19
1 begin -> begun 0.1
1 escrow 0.1 stock -32 -> granted
1 commit 0.1 -> committed
1 read stock -> between 0 48
";

/// Site 2 gives to site 0.
const TWO: &str = "\
2 share stock -> share 13 20
2 give 0 stock lower 5 -> given 5
";

#[test]
fn three_honest_sites_are_legal(rt: HostRuntime) {
    assert_told(
        &rt,
        rt.alloc(),
        STOCK_OF_THREE,
        &[ZERO, ONE, TWO],
        "legal 10\n",
    );
}

// Woven are 0 begin, 2 share, 2 give, 0 accept, 0 give, 1 accept, and so on.
#[test]
fn one_of_three_sites_is_tampered_with(rt: HostRuntime) {
    let alloc = rt.alloc();
    let one = "\
1 accept 0 1 stock lower 19 -> accepted 19
1 begin -> begun 0.1
1 escrow 0.1 stock -33 -> granted
";
    assert_told(
        &rt,
        alloc,
        STOCK_OF_THREE,
        &[ZERO, one, TWO],
        "illegal 8 reply\n",
    );
    let one = "\
1 accept 0 1 stock lower 19 -> accepted 19
1 begin -> begun 0.1
1 escrow 0.1 stock -41 -> granted
";
    assert_told(
        &rt,
        alloc,
        STOCK_OF_THREE,
        &[ZERO, one, TWO],
        "illegal 8 grant\n",
    );
    let two = "2 share stock -> share 14 20\n2 give 0 stock lower 5 -> given 5\n";
    assert_told(
        &rt,
        alloc,
        STOCK_OF_THREE,
        &[ZERO, ONE, two],
        "illegal 2 reply\n",
    );
    let one = "1 accept 0 1 stock lower 19 -> accepted 19\n3 begin -> begun 0.1\n";
    assert_told(
        &rt,
        alloc,
        STOCK_OF_THREE,
        &[ZERO, one, TWO],
        "illegal 7 site\n",
    );
}

// Each accepts of the next and gives on.
#[test]
fn a_circle_of_three_is_stuck(rt: HostRuntime) {
    let zero = "0 accept 2 0 stock lower 5 -> accepted 5\n0 give 1 stock lower 5 -> given 5\n";
    let one = "1 accept 0 1 stock lower 5 -> accepted 5\n1 give 2 stock lower 5 -> given 5\n";
    let two = "2 accept 1 2 stock lower 5 -> accepted 5\n2 give 0 stock lower 5 -> given 5\n";
    assert_stuck(&rt, rt.alloc(), STOCK_OF_THREE, &[zero, one, two], 0, 1);
}

// ---- any histories

#[test]
fn listed_histories_are_judged_as_they_lie(rt: HostRuntime) {
    let alloc = rt.alloc();
    let schema = schema_of(alloc, STOCK_OF_TWO).expect(&rt, "a schema");
    let histories = histories_of(&rt, alloc, &schema, &[SPENDS, GIVES]);
    assert!(&rt; histories.len() <= 65_535);
    let mut listed = ListedHistories::new(alloc, histories.as_slice()).expect(&rt, "memory");
    let (verdict, count) = judge_histories(alloc, &schema, &mut listed).expect(&rt, "a verdict");
    let line = verdict_line(alloc, verdict, count).expect(&rt, "memory");
    assert_eq!(&rt; line.as_str(), "legal 5\n");
}
