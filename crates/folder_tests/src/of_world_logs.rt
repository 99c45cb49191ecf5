//! Worked logs of all sites of a world. Of one field from 0 to 100 at 40, two sites begin with 20
//! rights to lower it and 30 to raise it each; of three, the first has 14 to lower it, the others 13,
//! and each has 20 to raise it. Every expected value is worked out by hand.

ghost use Rattle.std.specs.Prelude.{◌≡◌, ℕ, ◌<◌, IfSome, IfOk, length};
ghost use Rattle.std.specs.List.{AllByRecursion};
ghost use Rattle.kept_records.specs.Text.{IsRecord};
ghost use Rattle.world_logs.specs.Logs.{records_of, log_of};
ghost use Rattle.world_logs.specs.Lost.{known_of, known_records};
ghost use Rattle.world_logs.specs.Body.{StandsForLog, AreForLogs};
ghost use Rattle.world_logs.specs.LostBody.{StandsIfKnown};
ghost use Rattle.world_logs.specs.Outcomes.{IsOutcome, AreOutcomes};

use check_kit::{STOCK_OF_THREE, STOCK_OF_TWO, schema_of};
use field_bounds::{FieldNo, FieldSpec, Kind, Schema, SiteNo};
use kept_records::{Record, read_records};
use log_replay::{LogReplayed, Standing, replay_log};
use std::alloc::Global;
use std::process::Abort;
use world_logs::*;

/// Two sites and two fields: the second may lie from -10 to 0, and begins at -10, so that site 0
/// and site 1 have 5 rights each to raise it, and none to lower it.
const TWO_FIELDS: &str =
    r#"{"sites":2,"fields":[{"name":"stock","floor":0,"ceiling":100,"value":40},{"name":"debt","floor":-10,"ceiling":0,"value":-10}]}"#;

/// A value, its floor and its ceiling.
macro_rules! at {
    ($value:expr, $floor:expr, $ceiling:expr) => {
        FieldState { value: $value, floor: $floor, ceiling: $ceiling }
    };
}

/// The logs of two sites that account for every right, and where the field stands.
const ACCOUNTED: [([&str; 2], FieldState); 11] = [
    (["", ""], at!(40, 0, 100)),
    (["C 0 1 0 -20\n", ""], at!(20, 0, 100)),
    (["", "C 0 1 0 30\n"], at!(70, 0, 100)),
    (["C 0 1 0 -20\n", "C 0 1 0 30\n"], at!(50, 0, 100)),
    (["", "C 0 1 0 -5 0 3\n"], at!(38, 0, 100)),
    // Five rights in flight.
    (["G 1 0 l 5\n", ""], at!(40, 0, 100)),
    (["G 1 0 l 5\n", "A 0 0 l 5\nC 0 1 0 -25\n"], at!(15, 0, 100)),
    // Two in flight.
    (["G 1 0 l 5\n", "A 0 0 l 3\nC 0 1 0 -23\n"], at!(17, 0, 100)),
    (["T 0 l 5\n", "T 0 r 30\n"], at!(40, 5, 70)),
    (
        ["T 0 l 20\nC 0 1 0 30\n", "C 0 1 0 -20\nT 0 r 10\n"],
        at!(50, 20, 90),
    ),
    (["R 1\nC 1 1 0 -1\nS 1 1 19 31\n", ""], at!(39, 0, 100)),
];

/// A site, and the number of the record of its log that breaks a rule.
macro_rules! breaks {
    ($site:expr, $number:expr) => {
        WorldFault::BreaksRule { site: SiteNo($site), number: $number }
    };
}

/// What was given on the first field from one site to another, and what that accepted.
macro_rules! more {
    ($from:expr, $to:expr, $kind:expr, $given:expr, $accepted:expr) => {
        WorldFault::AcceptedMore(Excess {
            from: SiteNo($from),
            to: SiteNo($to),
            field: FieldNo(0),
            kind: $kind,
            given: $given,
            accepted: $accepted,
        })
    };
}

/// The logs of two sites that don't, and the first fault of them.
const REFUSED: [([&str; 2], WorldFault); 10] = [
    (["C 0 1 0 -21\n", ""], breaks!(0, 1)),
    (["", "G 0 0 l 5\nG 0 0 l 5\n"], breaks!(1, 2)),
    (["T 0 l 21\n", "T 0 l 21\n"], breaks!(0, 1)),
    // A log of site 0, where that of site 1 belongs.
    (["", "G 1 0 l 5\n"], breaks!(1, 1)),
    // A log that breaks a rule goes before what was accepted and never given.
    (["A 1 0 l 1\n", "T 0 l 21\n"], breaks!(1, 1)),
    (
        ["G 1 0 l 5\n", "A 0 0 l 6\n"],
        more!(0, 1, Kind::Lower, 5, 6),
    ),
    (
        ["G 1 0 l 5\n", "A 0 0 r 5\n"],
        more!(0, 1, Kind::Raise, 0, 5),
    ),
    (
        ["A 1 0 r 2\nA 1 0 l 1\n", ""],
        more!(1, 0, Kind::Lower, 0, 1),
    ),
    (
        ["A 1 0 r 2\n", "A 0 0 l 1\n"],
        more!(1, 0, Kind::Raise, 0, 2),
    ),
    // The giver's log was put back to an older one.
    (["", "A 0 0 l 5\n"], more!(0, 1, Kind::Lower, 0, 5)),
];

/// The same of three sites.
const REFUSED_OF_THREE: [([&str; 3], WorldFault); 5] = [
    // Of two logs that break a rule the lower site's is told.
    (["", "G 0 0 l 5\nG 0 0 l 5\n", "T 0 l 14\n"], breaks!(1, 2)),
    (
        ["", "A 2 0 l 1\nA 0 0 l 1\n", "A 0 0 l 1\n"],
        more!(0, 1, Kind::Lower, 0, 1),
    ),
    (
        ["", "A 2 0 l 1\n", "A 0 0 l 1\n"],
        more!(2, 1, Kind::Lower, 0, 1),
    ),
    // A gift to site 1, which site 2 accepted.
    (
        ["G 1 0 l 5\n", "", "A 0 0 l 5\n"],
        more!(0, 2, Kind::Lower, 0, 5),
    ),
    // Together site 0 has given what was accepted, but not to site 2.
    (
        ["G 1 0 l 5\nG 2 0 l 3\n", "A 0 0 l 2\n", "A 0 0 l 5\n"],
        more!(0, 2, Kind::Lower, 3, 5),
    ),
];

/// The records of each log, or None where a line is no record, or memory was refused.
fn read_logs(alloc: Global, texts: &[&str]) -> Option<Vec<Vec<Record>>>
    ensures in_range { IfSome result (λ logs. (s : ℕ)
        → AllByRecursion IsRecord (log_of (records_of logs.items) s)) }
{
    let mut logs = Vec::new(alloc);
    for text in texts {
        let (records, _) = read_records(alloc, text.as_bytes()).ok()?;
        logs.push(records).ok()?;
    }
    Some(logs)
}

/// Where each field stands.
fn checked(
    rt: &impl Abort,
    alloc: Global,
    header: &str,
    texts: &[&str],
) -> Result<Vec<FieldState>, WorldFault> {
    let schema = schema_of(alloc, header).expect(rt, "a schema");
    let logs = read_logs(alloc, texts).expect(rt, "logs");
    assert!(rt; logs.len() == usize::from(schema.sites()));
    check_world(alloc, &schema, logs.as_slice())
}

/// What a site's log came to, straight from its bytes.
fn outcome_of(
    rt: &impl Abort,
    alloc: Global,
    schema: &Schema,
    site: SiteNo,
    text: &str,
) -> Result<Result<Standing, u64>, WorldFault>
    requires site_in { site.0 < schema.now.sites }
    ensures { IfOk result (IsOutcome schema.now (StandsForLog schema.now) site.0) }
{
    match replay_log(alloc, schema, site, text.as_bytes()) {
        Ok(LogReplayed::Standing { standing, .. }) => Ok(Ok(standing)),
        Ok(LogReplayed::BreaksRule { number }) => Ok(Err(number)),
        Ok(LogReplayed::BadLine { .. }) => panic!(rt; "a line is no record"),
        Err(_) => Err(WorldFault::NoMemory),
    }
}

/// What the log of each site came to.
fn outcomes_of(
    rt: &impl Abort,
    alloc: Global,
    schema: &Schema,
    texts: &[&str],
) -> Result<Vec<Result<Standing, u64>>, WorldFault>
    requires count { length texts.now ≡ schema.now.sites }
    ensures { IfOk result (λ outcomes. AreOutcomes schema.now (StandsForLog schema.now)
        outcomes.items) }
{
    let mut outcomes = Vec::new(alloc);
    for number in 0..schema.sites() {
        let text = texts[usize::from(number)];
        outcomes.push(outcome_of(rt, alloc, schema, SiteNo(number), text)?)?;
    }
    Ok(outcomes)
}

/// What the log of each site stands for, or the fault of the lowest that breaks a rule.
fn standings_of(
    rt: &impl Abort,
    alloc: Global,
    schema: &Schema,
    texts: &[&str],
) -> Result<Vec<Standing>, WorldFault>
    requires count { length texts.now ≡ schema.now.sites }
    ensures { IfOk result (λ standings. AreForLogs schema.now standings.items) }
{
    let outcomes = outcomes_of(rt, alloc, schema, texts)?;
    standings_or_fault(alloc, schema, outcomes)
}

/// Where each field stands, by what the logs stand for.
fn checked_standings(
    rt: &impl Abort,
    alloc: Global,
    header: &str,
    texts: &[&str],
) -> Result<Vec<FieldState>, WorldFault> {
    let schema = schema_of(alloc, header).expect(rt, "a schema");
    assert!(rt; texts.len() == usize::from(schema.sites()));
    let standings = standings_of(rt, alloc, &schema, texts)?;
    check_standings(alloc, &schema, standings.as_slice())
}

/// The first fault of logs that don't account for every right.
fn assert_refused(rt: &impl Abort, alloc: Global, header: &str, texts: &[&str], fault: WorldFault) {
    assert_eq!(rt; checked(rt, alloc, header, texts).err(), Some(fault));
    assert_eq!(rt;
        checked_standings(rt, alloc, header, texts).err(),
        Some(fault)
    );
}

/// Where the first field stands.
fn assert_accounted(rt: &impl Abort, alloc: Global, texts: &[&str], state: FieldState) {
    let states = checked(rt, alloc, STOCK_OF_TWO, texts).expect(rt, "accounted");
    assert_eq!(rt; states.as_slice().get(0), Some(&state));
    let states = checked_standings(rt, alloc, STOCK_OF_TWO, texts).expect(rt, "accounted");
    assert_eq!(rt; states.as_slice().get(0), Some(&state));
}

#[test]
fn logs_that_account_for_every_right(rt: HostRuntime) {
    for (texts, state) in &ACCOUNTED {
        assert_accounted(&rt, rt.alloc(), texts, *state);
    }
}

#[test]
fn logs_that_are_refused(rt: HostRuntime) {
    for (texts, fault) in &REFUSED {
        assert_refused(&rt, rt.alloc(), STOCK_OF_TWO, texts, *fault);
    }
    for (texts, fault) in &REFUSED_OF_THREE {
        assert_refused(&rt, rt.alloc(), STOCK_OF_THREE, texts, *fault);
    }
}

const OF_TWO_FIELDS: [&str; 2] = ["C 0 1 0 -1 1 4\nT 1 r 1\n", "C 0 1 1 5\nC 0 2 1 -2\n"];

#[test]
fn each_field_stands_by_itself(rt: HostRuntime) {
    let alloc = rt.alloc();
    let states = checked(&rt, alloc, TWO_FIELDS, &OF_TWO_FIELDS).expect(&rt, "accounted");
    assert_eq!(rt;
        states.as_slice(),
        [at!(39, 0, 100), at!(-3, -10, -1)].as_slice()
    );
    // The lower field is named first, and both kinds of it before the next.
    let texts = ["", "A 0 1 l 1\nA 0 0 r 1\n"];
    assert_refused(
        &rt,
        alloc,
        TWO_FIELDS,
        &texts,
        more!(0, 1, Kind::Raise, 0, 1),
    );
}

/// The schema to which these logs settle.
fn settled(
    rt: &impl Abort,
    alloc: Global,
    header: &str,
    texts: &[&str],
) -> Result<Schema, WorldFault> {
    let schema = schema_of(alloc, header).expect(rt, "a schema");
    let logs = read_logs(alloc, texts).expect(rt, "logs");
    assert!(rt; logs.len() == usize::from(schema.sites()));
    settle_world(alloc, &schema, logs.as_slice())
}

/// The same, by what the logs stand for.
fn settled_standings(
    rt: &impl Abort,
    alloc: Global,
    header: &str,
    texts: &[&str],
) -> Result<Schema, WorldFault> {
    let schema = schema_of(alloc, header).expect(rt, "a schema");
    assert!(rt; texts.len() == usize::from(schema.sites()));
    let standings = standings_of(rt, alloc, &schema, texts)?;
    settle_standings(alloc, &schema, standings.as_slice())
}

/// Whether the logs settle to the schema of this header, read as records or taken in from bytes.
fn settles_to(
    rt: &impl Abort,
    alloc: Global,
    header: &str,
    texts: &[&str],
    expected: &str,
) -> [bool; 2] {
    let settled = settled(rt, alloc, header, texts).expect(rt, "settled");
    let standing = settled_standings(rt, alloc, header, texts).expect(rt, "settled");
    let expected = schema_of(alloc, expected).expect(rt, "a schema");
    [settled == expected, standing == expected]
}

/// A header, the logs of two sites, the header of a schema, and whether they settle to that.
const SETTLED: [(&str, [&str; 2], &str, bool); 4] = [
    (STOCK_OF_TWO, ["", ""], STOCK_OF_TWO, true),
    (
        STOCK_OF_TWO,
        ["G 1 0 l 5\n", "A 0 0 l 3\nC 0 1 0 -23\nT 0 r 2\n"],
        r#"{"sites":2,"fields":[{"name":"stock","floor":0,"ceiling":98,"value":17}]}"#,
        true,
    ),
    (
        TWO_FIELDS,
        OF_TWO_FIELDS,
        r#"{"sites":2,"fields":[{"name":"stock","floor":0,"ceiling":100,"value":39},{"name":"debt","floor":-10,"ceiling":-1,"value":-3}]}"#,
        true,
    ),
    (STOCK_OF_TWO, ["C 0 1 0 -20\n", ""], STOCK_OF_TWO, false),
];

#[test]
fn a_world_is_settled(rt: HostRuntime) {
    for (header, texts, expected, wanted) in &SETTLED {
        let found = settles_to(&rt, rt.alloc(), *header, texts, *expected);
        assert_eq!(rt; found, [*wanted; 2], "{expected}");
    }
    let refused = settled(&rt, rt.alloc(), STOCK_OF_TWO, &["", "A 0 0 l 5\n"]);
    assert!(rt; refused.is_err());
    let refused = settled_standings(&rt, rt.alloc(), STOCK_OF_TWO, &["", "A 0 0 l 5\n"]);
    assert!(rt; refused.is_err());
}

/// The least and the greatest value.
macro_rules! range {
    ($least:expr, $greatest:expr) => {
        FieldRange { least: $least, greatest: $greatest }
    };
}

/// The logs of two sites, of which some are lost, and between which values the field lies.
const BOUNDED: [([Option<&str>; 2], FieldRange); 7] = [
    ([None, None], range!(0, 100)),
    // Site 0 is left with 15 rights to lower and 35 to raise.
    ([Some("C 0 1 0 -5\n"), None], range!(15, 65)),
    ([None, Some("C 0 1 0 -5\n")], range!(15, 65)),
    // What went to the lost site may be spent.
    ([Some("G 1 0 l 5\n"), None], range!(15, 70)),
    ([Some("A 1 0 l 20\n"), None], range!(40, 70)),
    // What was given up is no one's, and moves the bound.
    ([Some("T 0 l 5\nT 0 r 30\n"), None], range!(20, 70)),
    // No log is lost: the value alone.
    (
        [Some("G 1 0 l 5\n"), Some("A 0 0 l 3\nC 0 1 0 -23\n")],
        range!(17, 17),
    ),
];

/// The same of three sites.
const BOUNDED_OF_THREE: [([Option<&str>; 3], FieldRange); 2] = [
    // Four rights in flight between the known sites, which own 10 and 13 to lower, and 20 each to
    // raise.
    ([Some("G 1 0 l 4\n"), Some(""), None], range!(27, 60)),
    // What was accepted from the lost site is not compared.
    ([Some(""), Some("A 2 0 l 1\n"), None], range!(28, 60)),
];

/// The logs of three sites, of which one is lost, and the first fault of them.
const UNBOUNDED: [([Option<&str>; 3], WorldFault); 4] = [
    ([None, Some("T 0 l 14\n"), Some("")], breaks!(1, 1)),
    (
        [None, Some("G 2 0 l 5\nT 0 l 9\n"), Some("T 0 l 14\n")],
        breaks!(1, 2),
    ),
    (
        [Some("G 1 0 l 5\n"), Some("A 0 0 l 6\n"), None],
        more!(0, 1, Kind::Lower, 5, 6),
    ),
    // With what it says to have accepted, site 0 has 80 rights to lower and 20 to raise, and site 1
    // has 13 and 20: together more than the 100 that the field is wide.
    (
        [Some("A 2 0 l 66\n"), Some(""), None],
        WorldFault::TooMuch { field: FieldNo(0) },
    ),
];

/// The records of each log that isn't lost, or None where a line is no record, or memory was
/// refused.
fn read_known(alloc: Global, texts: &[Option<&str>]) -> Option<Vec<Option<Vec<Record>>>>
    ensures in_range { IfSome result (λ logs. (s : ℕ)
        → AllByRecursion IsRecord (log_of (known_records (known_of logs.items)) s)) }
{
    let mut logs = Vec::new(alloc);
    for text in texts {
        match text {
            Some(text) => {
                let (records, _) = read_records(alloc, text.as_bytes()).ok()?;
                logs.push(Some(records)).ok()?;
            }
            None => logs.push(None).ok()?,
        }
    }
    Some(logs)
}

/// Between which values each field lies.
fn bounded(
    rt: &impl Abort,
    alloc: Global,
    header: &str,
    texts: &[Option<&str>],
) -> Result<Vec<FieldRange>, WorldFault> {
    let schema = schema_of(alloc, header).expect(rt, "a schema");
    let logs = read_known(alloc, texts).expect(rt, "logs");
    assert!(rt; logs.len() == usize::from(schema.sites()));
    bound_world(alloc, &schema, logs.as_slice())
}

/// What a site's log came to, or None in place of what it stands for where it is lost.
fn known_outcome(
    rt: &impl Abort,
    alloc: Global,
    schema: &Schema,
    site: SiteNo,
    text: Option<&str>,
) -> Result<Result<Option<Standing>, u64>, WorldFault>
    requires site_in { site.0 < schema.now.sites }
    ensures { IfOk result (IsOutcome schema.now (StandsIfKnown schema.now) site.0) }
{
    let Some(text) = text else {
        return Ok(Ok(None));
    };
    match outcome_of(rt, alloc, schema, site, text)? {
        Ok(standing) => Ok(Ok(Some(standing))),
        Err(number) => Ok(Err(number)),
    }
}

/// The same of each site.
fn known_outcomes(
    rt: &impl Abort,
    alloc: Global,
    schema: &Schema,
    texts: &[Option<&str>],
) -> Result<Vec<Result<Option<Standing>, u64>>, WorldFault>
    requires count { length texts.now ≡ schema.now.sites }
    ensures { IfOk result (λ outcomes. AreOutcomes schema.now (StandsIfKnown schema.now)
        outcomes.items) }
{
    let mut outcomes = Vec::new(alloc);
    for number in 0..schema.sites() {
        let text = texts[usize::from(number)];
        outcomes.push(known_outcome(rt, alloc, schema, SiteNo(number), text)?)?;
    }
    Ok(outcomes)
}

/// Between which values each field lies, by what the logs stand for.
fn bounded_standings(
    rt: &impl Abort,
    alloc: Global,
    header: &str,
    texts: &[Option<&str>],
) -> Result<Vec<FieldRange>, WorldFault> {
    let schema = schema_of(alloc, header).expect(rt, "a schema");
    assert!(rt; texts.len() == usize::from(schema.sites()));
    let outcomes = known_outcomes(rt, alloc, &schema, texts)?;
    let standings = standings_or_fault(alloc, &schema, outcomes)?;
    bound_standings(alloc, &schema, standings)
}

/// Between which values the first field lies.
fn assert_bounded(
    rt: &impl Abort,
    alloc: Global,
    header: &str,
    texts: &[Option<&str>],
    range: FieldRange,
) {
    let ranges = bounded(rt, alloc, header, texts).expect(rt, "bounded");
    assert_eq!(rt; ranges.as_slice().get(0), Some(&range));
    let ranges = bounded_standings(rt, alloc, header, texts).expect(rt, "bounded");
    assert_eq!(rt; ranges.as_slice().get(0), Some(&range));
}

#[test]
fn lost_logs_leave_a_range(rt: HostRuntime) {
    for (texts, range) in &BOUNDED {
        assert_bounded(&rt, rt.alloc(), STOCK_OF_TWO, texts, *range);
    }
    for (texts, range) in &BOUNDED_OF_THREE {
        assert_bounded(&rt, rt.alloc(), STOCK_OF_THREE, texts, *range);
    }
    for (texts, fault) in &UNBOUNDED {
        let found = bounded(&rt, rt.alloc(), STOCK_OF_THREE, texts).err();
        assert_eq!(rt; found, Some(*fault));
        let found = bounded_standings(&rt, rt.alloc(), STOCK_OF_THREE, texts).err();
        assert_eq!(rt; found, Some(*fault));
    }
}

/// Headers, and how they are written.
const WRITTEN: [(&str, &str); 4] = [
    (STOCK_OF_TWO, STOCK_OF_TWO),
    (TWO_FIELDS, TWO_FIELDS),
    (
        r#"{ "fields": [{"value": 40, "ceiling": 100, "floor": 0, "name": "stock"}], "sites": 2 }"#,
        STOCK_OF_TWO,
    ),
    (
        r#"{"sites":64,"fields":[{"name":"_9","floor":-1000000000000000,"ceiling":1000000000000000,"value":-1}]}"#,
        r#"{"sites":64,"fields":[{"name":"_9","floor":-1000000000000000,"ceiling":1000000000000000,"value":-1}]}"#,
    ),
];

/// How the header of the schema that a header tells is written.
fn written(rt: &impl Abort, alloc: Global, header: &str) -> String {
    let schema = schema_of(alloc, header).expect(rt, "a schema");
    write_header(alloc, &schema).expect(rt, "memory")
}

fn assert_written(rt: &impl Abort, alloc: Global, header: &str, expected: &str) {
    let written = written(rt, alloc, header);
    assert_eq!(rt; written.as_str(), expected);
}

#[test]
fn headers_are_written(rt: HostRuntime) {
    for (header, expected) in &WRITTEN {
        assert_written(&rt, rt.alloc(), *header, *expected);
    }
    assert!(rt; written(&rt, rt.alloc(), STOCK_OF_TWO).as_str() != STOCK_OF_THREE);
}

/// A field with a name of 32 bytes and numbers of 16 digits.
fn longest_field(rt: &impl Abort, alloc: Global, number: u16) -> FieldSpec {
    let name = format!(in alloc; "a_name_of_thirty_two_bytes_0_{number}");
    FieldSpec {
        name: name.expect(rt, "memory"),
        floor: -1_000_000_000_000_000,
        ceiling: 1_000_000_000_000_000,
        value: -1_000_000_000_000_000,
    }
}

/// As many of them as a schema may have.
fn longest_fields(rt: &impl Abort, alloc: Global) -> Vec<FieldSpec> {
    let mut fields = Vec::new(alloc);
    for number in 100..356u16 {
        let field = longest_field(rt, alloc, number);
        fields.push(field).expect(rt, "memory");
    }
    fields
}

// A field has 40 bytes beside its name of 32 and its numbers of 17, 16 and 17 bytes, so 122; 256 of
// them, 255 commas, and 24 bytes around.
#[test]
fn the_longest_header_is_read_back(rt: HostRuntime) {
    let fields = longest_fields(&rt, rt.alloc());
    let schema = Schema::new(rt.alloc(), 64, fields).expect(&rt, "a schema");
    let written = write_header(rt.alloc(), &schema).expect(&rt, "memory");
    assert_eq!(rt; written.len(), 31_511);
}
