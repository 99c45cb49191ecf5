//! When two schemas are equal.

use super::*;

/// Two sites, and the two fields that the other headers below differ from in one part each.
const PAIR: &str =
    r#"{"sites":2,"fields":[{"name":"a","floor":0,"ceiling":9,"value":4},{"name":"b","floor":0,"ceiling":9,"value":4}]}"#;

const MORE_SITES: &str =
    r#"{"sites":3,"fields":[{"name":"a","floor":0,"ceiling":9,"value":4},{"name":"b","floor":0,"ceiling":9,"value":4}]}"#;

const OTHER_NAME: &str =
    r#"{"sites":2,"fields":[{"name":"a","floor":0,"ceiling":9,"value":4},{"name":"c","floor":0,"ceiling":9,"value":4}]}"#;

const OTHER_FLOOR: &str =
    r#"{"sites":2,"fields":[{"name":"a","floor":1,"ceiling":9,"value":4},{"name":"b","floor":0,"ceiling":9,"value":4}]}"#;

const OTHER_CEILING: &str =
    r#"{"sites":2,"fields":[{"name":"a","floor":0,"ceiling":9,"value":4},{"name":"b","floor":0,"ceiling":8,"value":4}]}"#;

const OTHER_VALUE: &str =
    r#"{"sites":2,"fields":[{"name":"a","floor":0,"ceiling":9,"value":5},{"name":"b","floor":0,"ceiling":9,"value":4}]}"#;

const OTHER_ORDER: &str =
    r#"{"sites":2,"fields":[{"name":"b","floor":0,"ceiling":9,"value":4},{"name":"a","floor":0,"ceiling":9,"value":4}]}"#;

const FEWER_FIELDS: &str = r#"{"sites":2,"fields":[{"name":"a","floor":0,"ceiling":9,"value":4}]}"#;

/// Whether this header is read as a schema that is equal to the first.
fn is_read_as(alloc: Global, first: &Schema, header: &str) -> Option<bool> {
    match Schema::from_header(alloc, header.as_bytes()) {
        Ok(other) => Some(*first == other),
        Err(_) => None,
    }
}

fn are_equal(alloc: Global, first: &str, second: &str) -> Option<bool> {
    match Schema::from_header(alloc, first.as_bytes()) {
        Ok(schema) => is_read_as(alloc, &schema, second),
        Err(_) => None,
    }
}

/// Headers, and whether each is read as a schema that is equal to the first.
const ROWS: [(&str, bool); 8] = [
    (PAIR, true),
    (MORE_SITES, false),
    (OTHER_NAME, false),
    (OTHER_FLOOR, false),
    (OTHER_CEILING, false),
    (OTHER_VALUE, false),
    (OTHER_ORDER, false),
    (FEWER_FIELDS, false),
];

#[test]
fn equal_schemas(rt: HostRuntime) {
    for (header, equal) in &ROWS {
        let found = are_equal(rt.alloc(), PAIR, *header);
        assert_row(&rt, *header, &found, &Some(*equal));
    }
}
