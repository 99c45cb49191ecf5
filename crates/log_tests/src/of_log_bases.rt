//! Bases of one to eleven sites, those that have a past and those that have none, and what they
//! stand for. A base has a past exactly where it tells each field, and totals of other sites and of
//! fields of the schema alone; and where on each field what is guarded is within the width, it and
//! all that was given make up the parts and all that was accepted, and nothing was given if there
//! is no width. Every expected value is worked out by hand.

ghost use Rattle.std.specs.Prelude.{◌<◌, ◌≢◌, ℕ, List, IfSome};
ghost use Rattle.kept_records.specs.declared.record.Record.{Record as Kept};
ghost use Rattle.kept_records.specs.Text.{IsSummary};
ghost use Rattle.log_replay.specs.Standing.{IsStandingFor};

use check_kit::{STOCK_OF_THREE, STOCK_OF_TWO, add, joined, schema_of};
use field_bounds::{FieldNo, Kind, Schema, SiteNo};
use kept_records::{Cursor, Summary, read_records};
use log_bases::{is_balanced, stand_on};
use log_replay::{Replayed, Standing, replay};
use std::alloc::{AllocError, Global};

/// One site: 40 rights to lower, 60 to raise.
const ALONE: &str = r#"{"sites":1,"fields":[{"name":"stock","floor":0,"ceiling":100,"value":40}]}"#;

/// Two sites and a field of no width: no rights.
const FIXED: &str = r#"{"sites":2,"fields":[{"name":"fixed","floor":5,"ceiling":5,"value":5}]}"#;

/// Four sites and two fields. The first is 8 wide: sites 0 to 2 begin with one right to lower it and
/// site 3 with none, site 0 with two to raise it and the others with one each. The second has no
/// width.
const FOUR: &str =
    r#"{"sites":4,"fields":[{"name":"stock","floor":0,"ceiling":8,"value":3},{"name":"fixed","floor":5,"ceiling":5,"value":5}]}"#;

/// Eleven sites: 40 rights to lower, 60 to raise each.
const ELEVEN: &str =
    r#"{"sites":11,"fields":[{"name":"stock","floor":0,"ceiling":1100,"value":440}]}"#;

/// A header, a site, its base, and what the base stands for: the epoch; for each field the own
/// rights to lower and to raise it, and what was given up of both; and for each other site and each
/// field the totals given to lower and to raise it, and those accepted.
type Row = (&'static str, u16, &'static str, &'static [u64]);

const STANDS: [Row; 15] = [
    (ALONE, 0, "S 0 1 40 60\n", &[0, 40, 60, 0, 0]),
    (ALONE, 0, "S 1 1 100 0\n", &[1, 100, 0, 0, 0]),
    (
        ALONE,
        0,
        "S 0 1 0 0 t 0 l 45 t 0 r 55\n",
        &[0, 0, 0, 45, 55],
    ),
    (
        STOCK_OF_TWO,
        0,
        "S 0 1 20 30\n",
        &[0, 20, 30, 0, 0, 0, 0, 0, 0],
    ),
    (
        STOCK_OF_TWO,
        1,
        "S 1000000000 1 0 50\n",
        &[1_000_000_000, 0, 50, 0, 0, 0, 0, 0, 0],
    ),
    (
        STOCK_OF_TWO,
        0,
        "S 0 1 0 0 t 0 l 5 t 0 r 45\n",
        &[0, 0, 0, 5, 45, 0, 0, 0, 0],
    ),
    (
        STOCK_OF_TWO,
        0,
        "S 2 1 0 0 g 1 0 l 50\n",
        &[2, 0, 0, 0, 0, 50, 0, 0, 0],
    ),
    // All of the width.
    (
        STOCK_OF_TWO,
        0,
        "S 0 1 60 40 a 1 0 l 30 a 1 0 r 20\n",
        &[0, 60, 40, 0, 0, 0, 0, 30, 20],
    ),
    (
        STOCK_OF_TWO,
        0,
        "S 0 1 60 0 a 1 0 l 30 a 1 0 r 20 t 0 r 40\n",
        &[0, 60, 0, 0, 40, 0, 0, 30, 20],
    ),
    // Rights that went there and back: the totals are above the width.
    (
        STOCK_OF_TWO,
        0,
        "S 0 1 20 30 g 1 0 l 500 a 1 0 l 500\n",
        &[0, 20, 30, 0, 0, 500, 0, 500, 0],
    ),
    // Given of one kind, accepted of the other.
    (
        STOCK_OF_TWO,
        1,
        "S 0 1 11 40 g 0 0 r 900 a 0 0 l 901\n",
        &[0, 11, 40, 0, 0, 0, 900, 901, 0],
    ),
    // Site 1 of three begins with 13 and 20.
    (
        STOCK_OF_THREE,
        1,
        "S 0 1 13 20 g 0 0 l 7 g 2 0 r 9 a 0 0 r 6 a 2 0 l 10\n",
        &[0, 13, 20, 0, 0, 7, 0, 0, 6, 0, 9, 10, 0],
    ),
    // 4 guarded and 50 given, one right to begin with and 53 accepted.
    (
        FOUR,
        3,
        "S 9 2 2 1 0 0 g 0 0 l 20 g 2 0 r 30 a 0 0 r 25 a 1 0 l 28 t 0 l 1\n",
        &[
            9, 2, 1, 1, 0, 0, 0, 0, 0, 20, 0, 0, 25, 0, 0, 0, 0, 0, 0, 28, 0, 0, 0, 0, 0, 0, 30, 0,
            0, 0, 0, 0, 0,
        ],
    ),
    (
        FOUR,
        0,
        "S 0 2 1 2 0 0\n",
        &[
            0, 1, 2, 0, 0, 0, 0, 0, 0, 0, 0, 0, 0, 0, 0, 0, 0, 0, 0, 0, 0, 0, 0, 0, 0, 0, 0, 0, 0,
            0, 0, 0, 0,
        ],
    ),
    (FIXED, 0, "S 0 1 0 0\n", &[0, 0, 0, 0, 0, 0, 0, 0, 0]),
];

/// Bases that no lawful records are in front of.
const NONE: [(&str, u16, &str); 33] = [
    // One right too many, one too few.
    (ALONE, 0, "S 0 1 40 61\n"),
    (ALONE, 0, "S 0 1 40 59\n"),
    (ALONE, 0, "S 0 1 0 0 t 0 l 45 t 0 r 54\n"),
    (STOCK_OF_TWO, 0, "S 0 1 21 30\n"),
    (STOCK_OF_TWO, 0, "S 0 1 19 30\n"),
    (STOCK_OF_TWO, 0, "S 0 1 0 0 t 0 l 5 t 0 r 46\n"),
    (STOCK_OF_TWO, 0, "S 2 1 0 0 g 1 0 l 49\n"),
    (STOCK_OF_TWO, 0, "S 2 1 0 0 g 1 0 l 51\n"),
    (STOCK_OF_TWO, 0, "S 0 1 20 30 g 1 0 l 500\n"),
    (STOCK_OF_TWO, 0, "S 0 1 20 30 a 1 0 l 10\n"),
    (STOCK_OF_TWO, 0, "S 0 1 20 30 g 1 0 l 501 a 1 0 l 500\n"),
    (STOCK_OF_TWO, 0, "S 0 1 20 30 g 1 0 l 500 a 1 0 l 501\n"),
    (STOCK_OF_TWO, 0, "S 0 1 20 31 g 1 0 l 500 a 1 0 l 500\n"),
    (STOCK_OF_TWO, 1, "S 0 1 11 40 g 0 0 r 901 a 0 0 l 901\n"),
    (STOCK_OF_THREE, 0, "S 0 1 13 20\n"),
    (
        STOCK_OF_THREE,
        1,
        "S 0 1 13 20 g 0 0 l 7 g 2 0 r 9 a 0 0 r 6 a 2 0 l 11\n",
    ),
    (
        FOUR,
        3,
        "S 9 2 2 1 0 0 g 0 0 l 20 g 2 0 r 30 a 0 0 r 25 a 1 0 l 27 t 0 l 1\n",
    ),
    // What is one right too many on a field is one too few on the other.
    (FOUR, 0, "S 0 2 1 1 0 1\n"),
    // Past the width by one, though it balances.
    (STOCK_OF_TWO, 0, "S 0 1 60 41 a 1 0 l 31 a 1 0 r 20\n"),
    (
        STOCK_OF_TWO,
        0,
        "S 0 1 60 0 a 1 0 l 31 a 1 0 r 20 t 0 r 41\n",
    ),
    (FIXED, 0, "S 0 1 0 1 a 1 0 r 1\n"),
    // Given without rights, though it balances.
    (FIXED, 0, "S 0 1 0 0 g 1 0 l 3 a 1 0 l 3\n"),
    (FOUR, 0, "S 0 2 1 2 0 0 g 1 1 r 1 a 1 1 l 1\n"),
    // A field too many, a field too few.
    (STOCK_OF_TWO, 0, "S 0 2 20 30 0 0\n"),
    (FOUR, 0, "S 0 1 1 2\n"),
    // Totals of the own site, of a site and of a field that there isn't.
    (STOCK_OF_TWO, 0, "S 0 1 20 30 g 0 0 l 5 a 0 0 l 5\n"),
    (STOCK_OF_TWO, 0, "S 0 1 20 30 g 2 0 l 5 a 2 0 l 5\n"),
    (STOCK_OF_TWO, 0, "S 0 1 20 30 g 1 1 l 5 a 1 1 l 5\n"),
    (STOCK_OF_TWO, 0, "S 0 1 20 30 g 1 0 l 5 a 0 0 l 5\n"),
    (STOCK_OF_TWO, 0, "S 0 1 20 30 g 2 0 l 5 a 1 0 l 5\n"),
    (STOCK_OF_TWO, 0, "S 0 1 20 30 t 1 l 5\n"),
    (ALONE, 0, "S 0 1 40 60 g 1 0 l 5 a 1 0 l 5\n"),
    (ALONE, 0, "S 0 1 40 60 g 0 0 l 5 a 0 0 l 5\n"),
];

/// A header, a site, a log, and its summary, which is worked out by the rules of a log.
const SUMMARIES: [(&str, u16, &str, &str, &[u64]); 2] = [
    // 5 of 20 leave, 7 join 30, 3 of 15 turn, 4 of 40 are given up.
    (
        STOCK_OF_TWO,
        0,
        "G 1 0 l 5\nA 1 0 r 7\nC 0 1 0 -3\nT 0 r 4\nR 2\n",
        "S 2 1 12 36 g 1 0 l 5 a 1 0 r 7 t 0 r 4\n",
        &[2, 12, 36, 0, 4, 5, 0, 0, 7],
    ),
    // The one to lower turns, all three to raise leave; 4 to lower come and 4 more, and 5 leave.
    (
        FOUR,
        0,
        "C 0 1 0 -1\nG 2 0 r 3\nA 1 0 l 4\nA 1 0 l 8\nG 3 0 l 5\nR 7\n",
        "S 7 2 3 0 0 0 g 2 0 r 3 g 3 0 l 5 a 1 0 l 8\n",
        &[
            7, 3, 0, 0, 0, 0, 0, 0, 0, 0, 0, 8, 0, 0, 0, 0, 0, 0, 3, 0, 0, 0, 0, 0, 0, 5, 0, 0, 0,
            0, 0, 0, 0,
        ],
    ),
];

/// The numbers of a standing, as `Row` tells them.
fn read_off(
    alloc: Global,
    schema: &Schema,
    site: SiteNo,
    standing: &Standing,
) -> Result<Vec<u64>, AllocError>
    requires stands { (rs : List Kept) × IsStandingFor schema.now site.0 rs standing.now }
{
    let mut told = Vec::new(alloc);
    told.push(u64::from(standing.epoch))?;
    for number in 0..schema.fields() {
        let field = FieldNo(number);
        told.push(standing.rights.free(field, Kind::Lower))?;
        told.push(standing.rights.free(field, Kind::Raise))?;
        told.push(standing.rights.tightened(field, Kind::Lower))?;
        told.push(standing.rights.tightened(field, Kind::Raise))?;
    }
    for number in 0..schema.sites() {
        if number != site.0 {
            add_totals(&mut told, schema, SiteNo(number), standing)?;
        }
    }
    Ok(told)
}

/// Adds the totals with another site, field by field.
fn add_totals(
    told: &mut Vec<u64>,
    schema: &Schema,
    other: SiteNo,
    standing: &Standing,
) -> Result<(), AllocError>
    requires stands { (s : ℕ) × (rs : List Kept) × (other.0 ≢ s)
        × IsStandingFor schema.now s rs standing.now }
    requires site_in { other.0 < schema.now.sites }
{
    for number in 0..schema.fields() {
        let field = FieldNo(number);
        told.push(standing.ledger.total(other, field, Kind::Lower))?;
        told.push(standing.ledger.total(other, field, Kind::Raise))?;
        told.push(standing.ledger.accepted(other, field, Kind::Lower))?;
        told.push(standing.ledger.accepted(other, field, Kind::Raise))?;
    }
    Ok(())
}

/// The summary that stands on a line, which is a record, or None where memory was refused.
fn base_of(alloc: Global, line: &str) -> Option<Summary>
    ensures fits { IfSome result (λ base. IsSummary base) }
{
    let bytes = line.as_bytes();
    let (_, _) = read_records(alloc, bytes).ok()?;
    let mut lines = Cursor::new(alloc, bytes);
    lines.next_summary(alloc).ok()?
}

/// What a base stands for, empty where it has no past, or None where memory was refused.
fn stood(alloc: Global, header: &str, site: SiteNo, line: &str) -> Option<Vec<u64>> {
    let schema = schema_of(alloc, header)?;
    if site.0 >= schema.sites() {
        return None;
    }
    let base = base_of(alloc, line)?;
    match stand_on(alloc, &schema, site, &base) {
        Ok(Some(standing)) => read_off(alloc, &schema, site, &standing).ok(),
        Ok(None) => Some(Vec::new(alloc)),
        Err(_) => None,
    }
}

/// Whether a base is balanced, or None where memory was refused.
fn balances(alloc: Global, header: &str, site: SiteNo, line: &str) -> Option<bool> {
    let schema = schema_of(alloc, header)?;
    if site.0 >= schema.sites() {
        return None;
    }
    let base = base_of(alloc, line)?;
    Some(is_balanced(&schema, site, &base))
}

/// What a lawful log stands for, or None where memory was refused.
fn replayed(alloc: Global, header: &str, site: SiteNo, log: &str) -> Option<Vec<u64>> {
    let schema = schema_of(alloc, header)?;
    if site.0 >= schema.sites() {
        return None;
    }
    let (records, _) = read_records(alloc, log.as_bytes()).ok()?;
    match replay(alloc, &schema, site, &records) {
        Ok(Replayed::Standing(standing)) => read_off(alloc, &schema, site, &standing).ok(),
        _ => None,
    }
}

#[test]
fn balanced_bases_stand(rt: HostRuntime) {
    for (header, site, line, numbers) in &STANDS {
        let told = stood(rt.alloc(), *header, SiteNo(*site), *line).expect(&rt, *line);
        assert_eq!(rt; told.as_slice(), *numbers, "{line}");
        let balanced = balances(rt.alloc(), *header, SiteNo(*site), *line).expect(&rt, *line);
        assert!(rt; balanced, "{line}");
    }
}

#[test]
fn other_bases_have_no_past(rt: HostRuntime) {
    for (header, site, line) in &NONE {
        let told = stood(rt.alloc(), *header, SiteNo(*site), *line).expect(&rt, *line);
        assert_eq!(rt; told.len(), 0, "{line}");
        let balanced = balances(rt.alloc(), *header, SiteNo(*site), *line).expect(&rt, *line);
        assert!(rt; !balanced, "{line}");
    }
}

#[test]
fn the_summary_of_a_log_stands_for_the_log(rt: HostRuntime) {
    let alloc = rt.alloc();
    for (header, site, log, line, numbers) in &SUMMARIES {
        let whole = joined(alloc, &[*log, *line]).expect(&rt, *line);
        let before = replayed(alloc, *header, SiteNo(*site), whole.as_str()).expect(&rt, *line);
        assert_eq!(rt; before.as_slice(), *numbers, "{log}");
        let told = stood(alloc, *header, SiteNo(*site), *line).expect(&rt, *line);
        assert_eq!(rt; told.as_slice(), *numbers, "{line}");
    }
}

/// The greatest total that there is.
const GREATEST: u64 = 1_000_000_000_000_000_000;

/// Adds totals of both kinds with sites 1 to 9, each the greatest that there is.
fn add_greatest(text: &mut String, letter: &str) -> Result<(), AllocError> {
    for site in &["1", "2", "3", "4", "5", "6", "7", "8", "9"] {
        for kind in &["l", "r"] {
            add(
                text,
                &[
                    " ",
                    letter,
                    " ",
                    *site,
                    " 0 ",
                    *kind,
                    " 1000000000000000000",
                ],
            )?;
        }
    }
    Ok(())
}

/// A base of site 0 of eleven: its parts, and these totals given to site 10 and accepted from it,
/// beside the greatest with all others where `accepted` is there too.
fn greatest_base(alloc: Global, given: &str, accepted: Option<&str>) -> Result<String, AllocError> {
    let mut text = joined(alloc, &["S 0 1 40 60"])?;
    add_greatest(&mut text, "g")?;
    add(&mut text, &[given])?;
    if let Some(accepted) = accepted {
        add_greatest(&mut text, "a")?;
        add(&mut text, &[accepted])?;
    }
    add(&mut text, &["\n"])?;
    Ok(text)
}

/// What such a base stands for.
fn greatest_stood(alloc: Global, given: &str, accepted: Option<&str>) -> Option<Vec<u64>> {
    let line = greatest_base(alloc, given, accepted).ok()?;
    stood(alloc, ELEVEN, SiteNo(0), line.as_str())
}

/// The numbers of a base of the greatest totals both ways, those to raise with site 10 left out.
fn greatest_numbers(alloc: Global) -> Result<Vec<u64>, AllocError> {
    let mut numbers = Vec::from_slice(alloc, &[0, 40, 60, 0, 0])?;
    for _ in 0..9 {
        numbers.extend_from_slice(&[GREATEST; 4])?;
    }
    numbers.extend_from_slice(&[GREATEST, 0, GREATEST, 0])?;
    Ok(numbers)
}

#[test]
fn sums_above_64_bits_are_whole(rt: HostRuntime) {
    let alloc = rt.alloc();
    // 19 totals of 10^18 a side: more than 64 bits hold.
    let both = " 10 0 l 1000000000000000000";
    let given = joined(alloc, &[" g", both]).expect(&rt, "memory");
    let accepted = joined(alloc, &[" a", both]).expect(&rt, "memory");
    let told = greatest_stood(alloc, given.as_str(), Some(accepted.as_str())).expect(&rt, "memory");
    let numbers = greatest_numbers(alloc).expect(&rt, "memory");
    assert_eq!(rt; told, numbers);
    // One less was accepted.
    let less = " a 10 0 l 999999999999999999";
    let told = greatest_stood(alloc, given.as_str(), Some(less)).expect(&rt, "memory");
    assert_eq!(rt; told.len(), 0);
    // 2^64 given, and none accepted.
    let wraps = " g 10 0 l 446744073709551616";
    let told = greatest_stood(alloc, wraps, None).expect(&rt, "memory");
    assert_eq!(rt; told.len(), 0);
}
