//! Headers as lines of JSON: each fault, the order of the faults, and the limits.

use super::*;
use itoa::Buffer;

/// The greatest quantity.
const MOST: i64 = 1_000_000_000_000_000;

/// The fault of a header, if it has one.
fn header_fault(alloc: Global, header: &[u8]) -> Option<SchemaFault> {
    Schema::from_header(alloc, header).err()
}

const NOT_JSON: [&str; 6] = [
    "",
    "{",
    r#"{"sites":1,"fields":[{"name":"a","floor":0,"ceiling":1,"value":0}]"#,
    r#"{"sites":1,"fields":[{"name":"a","floor":0,"ceiling":1,"value":0}]}}"#,
    r#"{"sites":1,"fields":[{"name":"a","floor":0,"ceiling":1,"value":0},]}"#,
    r#"{"sites":01,"fields":[]}"#,
];

const SHAPES: [&str; 9] = [
    "[]",
    r#"{"sites":1}"#,
    r#"{"sites":1,"fields":[],"more":0}"#,
    r#"{"sites":1,"fields":{}}"#,
    r#"{"sites":"1","fields":[]}"#,
    r#"{"sites":1,"fields":[[]]}"#,
    r#"{"sites":1,"fields":[{"name":"a","floor":0,"ceiling":1,"value":0,"more":0}]}"#,
    r#"{"sites":1,"fields":[{"name":"a","floor":0,"ceiling":1}]}"#,
    r#"{"sites":1,"fields":[{"name":7,"floor":0,"ceiling":1,"value":0}]}"#,
];

/// What JSON has as a number, and is not written as a whole number of 64 bits.
const NOT_WHOLE: [&str; 8] = [
    r#"{"sites":1.0,"fields":[{"name":"a","floor":0,"ceiling":1,"value":0}]}"#,
    r#"{"sites":1e2,"fields":[{"name":"a","floor":0,"ceiling":1,"value":0}]}"#,
    r#"{"sites":-0,"fields":[{"name":"a","floor":0,"ceiling":1,"value":0}]}"#,
    r#"{"sites":9223372036854775808,"fields":[{"name":"a","floor":0,"ceiling":1,"value":0}]}"#,
    r#"{"sites":1,"fields":[{"name":"a","floor":-0,"ceiling":1,"value":0}]}"#,
    r#"{"sites":1,"fields":[{"name":"a","floor":0,"ceiling":1e2,"value":0}]}"#,
    r#"{"sites":1,"fields":[{"name":"a","floor":0,"ceiling":9223372036854775808,"value":0}]}"#,
    r#"{"sites":1,"fields":[{"name":"a","floor":0,"ceiling":1,"value":1.0}]}"#,
];

const SITE_COUNTS: [&str; 4] = [
    r#"{"sites":0,"fields":[{"name":"a","floor":0,"ceiling":1,"value":0}]}"#,
    r#"{"sites":65,"fields":[{"name":"a","floor":0,"ceiling":1,"value":0}]}"#,
    r#"{"sites":-1,"fields":[{"name":"a","floor":0,"ceiling":1,"value":0}]}"#,
    r#"{"sites":9223372036854775807,"fields":[{"name":"a","floor":0,"ceiling":1,"value":0}]}"#,
];

const NAMES: [&str; 5] = [
    r#"{"sites":1,"fields":[{"name":"","floor":0,"ceiling":1,"value":0}]}"#,
    r#"{"sites":1,"fields":[{"name":"A","floor":0,"ceiling":1,"value":0}]}"#,
    r#"{"sites":1,"fields":[{"name":"a b","floor":0,"ceiling":1,"value":0}]}"#,
    r#"{"sites":1,"fields":[{"name":"a-b","floor":0,"ceiling":1,"value":0}]}"#,
    r#"{"sites":1,"fields":[{"name":"abcdefghijklmnopqrstuvwxyz_012345","floor":0,"ceiling":1,"value":0}]}"#,
];

const NAMES_USED: [&str; 1] = [
    r#"{"sites":1,"fields":[{"name":"a","floor":0,"ceiling":1,"value":0},{"name":"a","floor":0,"ceiling":2,"value":1}]}"#,
];

const BOUNDS: [&str; 4] = [
    r#"{"sites":1,"fields":[{"name":"a","floor":1,"ceiling":2,"value":0}]}"#,
    r#"{"sites":1,"fields":[{"name":"a","floor":0,"ceiling":1,"value":2}]}"#,
    r#"{"sites":1,"fields":[{"name":"a","floor":-1000000000000001,"ceiling":0,"value":0}]}"#,
    r#"{"sites":1,"fields":[{"name":"a","floor":0,"ceiling":1000000000000001,"value":0}]}"#,
];

/// Faults, and headers that have them.
const FAULTS: [(SchemaFault, &[&str]); 7] = [
    (SchemaFault::NotJson, &NOT_JSON),
    (SchemaFault::Shape, &SHAPES),
    (SchemaFault::Shape, &NOT_WHOLE),
    (SchemaFault::SiteCount, &SITE_COUNTS),
    (SchemaFault::Name, &NAMES),
    (SchemaFault::NameUsed, &NAMES_USED),
    (SchemaFault::Bounds, &BOUNDS),
];

/// Every one of these headers has this fault.
fn assert_fault(rt: &impl Abort, alloc: Global, fault: SchemaFault, headers: &[&str]) {
    for header in headers {
        let found = header_fault(alloc, header.as_bytes());
        assert_row(rt, *header, &found, &Some(fault));
    }
}

#[test]
fn faults(rt: HostRuntime) {
    for (fault, headers) in &FAULTS {
        assert_fault(&rt, rt.alloc(), *fault, *headers);
    }
}

/// Whether the fault prints so.
fn prints(alloc: Global, fault: SchemaFault, text: &str) -> bool {
    match fault.to_string(alloc) {
        Ok(printed) => printed.as_str() == text,
        Err(_) => false,
    }
}

/// Headers with two faults, the one that is told, and how it prints.
const TWO_FAULTS: [(&str, SchemaFault, &str); 7] = [
    (
        r#"{"sites":65,"fields":[{"name":"a"}"#,
        SchemaFault::NotJson,
        "S1",
    ),
    (
        r#"{"sites":65,"fields":[{"name":"a"}]}"#,
        SchemaFault::Shape,
        "S2",
    ),
    (r#"{"sites":65,"fields":[]}"#, SchemaFault::SiteCount, "S3"),
    (r#"{"sites":1,"fields":[]}"#, SchemaFault::FieldCount, "S4"),
    (
        r#"{"sites":1,"fields":[{"name":"A","floor":1,"ceiling":0,"value":0}]}"#,
        SchemaFault::Name,
        "S5",
    ),
    (
        r#"{"sites":1,"fields":[{"name":"a","floor":0,"ceiling":1,"value":0},{"name":"a","floor":1,"ceiling":0,"value":0}]}"#,
        SchemaFault::NameUsed,
        "S6",
    ),
    (
        r#"{"sites":1,"fields":[{"name":"a","floor":1,"ceiling":0,"value":0},{"name":"A","floor":0,"ceiling":1,"value":0}]}"#,
        SchemaFault::Bounds,
        "S7",
    ),
];

/// How the others print.
const OTHER_TEXTS: [(SchemaFault, &str); 2] = [
    (SchemaFault::NoMemory, "S8"),
    (SchemaFault::TooLong, "S9"),
];

/// Of two faults in a header the earlier test tells, and this is how each prints.
#[test]
fn order(rt: HostRuntime) {
    for (header, fault, text) in &TWO_FAULTS {
        let found = header_fault(rt.alloc(), header.as_bytes());
        let printed = prints(rt.alloc(), *fault, *text);
        assert_row(&rt, *header, &(found, printed), &(Some(*fault), true));
    }
}

#[test]
fn texts(rt: HostRuntime) {
    for (fault, text) in &OTHER_TEXTS {
        assert_row(&rt, *text, &prints(rt.alloc(), *fault, *text), &true);
    }
}

/// The fault of so many spaces.
fn fault_of_spaces(alloc: Global, count: usize) -> Option<SchemaFault> {
    let spaces = vec![in alloc; b' '; count].ok()?;
    header_fault(alloc, &spaces)
}

/// The fault of empty arrays, each but the last with the next in it.
fn fault_of_nested(alloc: Global, depth: usize) -> Option<SchemaFault> {
    let mut text = vec![in alloc; b'['; depth].ok()?;
    for _ in 0..depth {
        text.push(b']').ok()?;
    }
    header_fault(alloc, &text)
}

/// Adds the parts, one behind the other.
fn add(text: &mut String, parts: &[&str]) -> Result<(), AllocError> {
    for part in parts {
        text.push_str(*part)?;
    }
    Ok(())
}

/// Adds a field named f and this number, whose ceiling and value are the number.
fn add_field(header: &mut String, number: u16) -> Result<(), AllocError> {
    let mut digits = Buffer::new();
    let digits = digits.format(number);
    let parts = [
        r#"{"name":"f"#,
        digits,
        r#"","floor":0,"ceiling":"#,
        digits,
        r#","value":"#,
        digits,
        "}",
    ];
    add(header, &parts)
}

/// Adds so many fields, named f0, f1 and so on.
fn add_fields(header: &mut String, fields: u16) -> Result<(), AllocError> {
    for number in 0..fields {
        if number > 0 {
            header.push_str(",")?;
        }
        add_field(header, number)?;
    }
    Ok(())
}

/// Adds a header of so many fields.
fn add_header(text: &mut String, fields: u16) -> Result<(), AllocError> {
    text.push_str(r#"{"sites":64,"fields":["#)?;
    add_fields(text, fields)?;
    text.push_str("]}")
}

/// A header of so many fields.
fn many(alloc: Global, fields: u16) -> Result<String, AllocError> {
    let mut header = String::new(alloc);
    add_header(&mut header, fields)?;
    Ok(header)
}

/// The fault of a header of so many fields.
fn fault_of_many(alloc: Global, fields: u16) -> Option<SchemaFault> {
    let header = many(alloc, fields).ok()?;
    header_fault(alloc, header.as_bytes())
}

/// What a schema of 256 fields tells.
fn assert_most(rt: &impl Abort, schema: &Schema) {
    assert_eq!(rt; (schema.sites(), schema.fields()), (64, 256));
    let last = schema.bounds(FieldNo(255));
    let found = (schema.field_no("f255"), schema.field_no("f256"));
    assert_eq!(rt; (last, found), ((0, 255, 255), (Some(FieldNo(255)), None)));
}

#[test]
fn most_fields(rt: HostRuntime) -> Result<(), Fail> {
    let header = many(rt.alloc(), 256)?;
    let schema = Schema::from_header(rt.alloc(), header.as_bytes())?;
    assert_most(&rt, &schema);
    Ok(())
}

/// Bytes that are no text; a line that is just too long, and one that isn't; arrays that are nested
/// just too deep, and some that aren't; and just too many fields.
#[test]
fn limits(rt: HostRuntime) {
    let alloc = rt.alloc();
    let found = [
        header_fault(alloc, &[34, 255, 34]),
        fault_of_spaces(alloc, 65_537),
        fault_of_spaces(alloc, 65_536),
        fault_of_nested(alloc, 128),
        fault_of_nested(alloc, 127),
        fault_of_many(alloc, 257),
    ];
    assert_eq!(rt; found, AT_LIMITS);
}

const AT_LIMITS: [Option<SchemaFault>; 6] = [
    Some(SchemaFault::NotJson),
    Some(SchemaFault::TooLong),
    Some(SchemaFault::NotJson),
    Some(SchemaFault::NotJson),
    Some(SchemaFault::Shape),
    Some(SchemaFault::FieldCount),
];

/// The floor, the ceiling and the value of the first field.
fn first_bounds(alloc: Global, header: &[u8]) -> Option<(i64, i64, i64)> {
    let schema = Schema::from_header(alloc, header).ok()?;
    if schema.fields() == 0 {
        return None;
    }
    Some(schema.bounds(FieldNo(0)))
}

/// Headers that are just good, and the floor, the ceiling and the value of the first field.
const GOOD: [(&str, (i64, i64, i64)); 4] = [
    (
        r#"{"sites":1,"fields":[{"name":"a","floor":-1000000000000000,"ceiling":1000000000000000,"value":-1000000000000000}]}"#,
        (-MOST, MOST, -MOST),
    ),
    (
        r#"{"fields":[{"value":5,"name":"abcdefghijklmnopqrstuvwxyz_01234","ceiling":5,"floor":5}],"sites":64}"#,
        (5, 5, 5),
    ),
    (
        "\r \t{ \"sites\" : 1 , \"fields\" : [ { \"name\":\"a\",\"floor\":0,\"ceiling\":1,\"value\":1 } ] }\n\r",
        (0, 1, 1),
    ),
    (
        r#"{"sites":0,"fields":[],"sites":1,"fields":[{"name":"A","floor":0,"ceiling":9,"value":7,"name":"a","value":8}]}"#,
        (0, 9, 8),
    ),
];

#[test]
fn good(rt: HostRuntime) {
    for (header, bounds) in &GOOD {
        let found = first_bounds(rt.alloc(), header.as_bytes());
        assert_row(&rt, *header, &found, &Some(*bounds));
    }
}
