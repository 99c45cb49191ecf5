use check_kit::{FIRST, STOCK, STOCK_OF_TWO, schema_of};
use entry_text::*;
use field_bounds::{
    Command, Entry, FieldNo, Kind, Last, Refusal, Reply, Schema, SiteNo, Statement, TxnId,
};
use std::alloc::{AllocError, Global};
use std::process::Abort;

/// The schema that the rows are read by.
fn stock(rt: &impl Abort, alloc: Global) -> Schema {
    let schema = schema_of(alloc, STOCK_OF_TWO).expect(rt, "a schema");
    assert!(rt; schema.sites() == 2);
    schema
}

/// The line is read as the command at the site, which is written as the line.
fn is_command(alloc: Global, schema: &Schema, line: &str, site: u16, command: Command) -> bool {
    let site = SiteNo(site);
    read_command(schema, line.as_bytes()) == Some((site, command))
        && is_text(write_command(alloc, schema, site, command), line)
}

/// Whether this was written.
fn is_text(written: Result<String, AllocError>, line: &str) -> bool {
    match written {
        Ok(text) => text.as_str() == line,
        Err(_) => false,
    }
}

/// Each line is read as the command at the site, which is written as the line.
fn assert_commands(rt: &impl Abort, alloc: Global, rows: &[(&str, u16, Command)]) {
    let schema = stock(rt, alloc);
    for (line, site, command) in rows {
        assert_row(
            rt,
            *line,
            is_command(alloc, &schema, *line, *site, *command),
        );
    }
}

/// None of the lines is a command's.
fn assert_no_commands(rt: &impl Abort, alloc: Global, lines: &[&str]) {
    let schema = stock(rt, alloc);
    for line in lines {
        assert_row(rt, *line, read_command(&schema, line.as_bytes()).is_none());
    }
}

/// The row of this line is as told.
fn assert_row(rt: &impl Abort, line: &str, as_told: bool) {
    assert!(rt; as_told, "{line}");
}

/// The line is read as the entry of a begin at site 0 with the reply, which is written as the line.
fn is_reply(alloc: Global, schema: &Schema, line: &str, reply: Reply) -> bool {
    let entry = Entry {
        site: SiteNo(0),
        command: Command::Begin,
        reply,
    };
    read_entry(schema, line.as_bytes()) == Some(entry)
        && is_appended(alloc, line, reply)
        && is_text(write_entry(alloc, schema, entry), line)
}

/// Behind a begin at site 0 and an arrow, the reply makes the line.
fn is_appended(alloc: Global, line: &str, reply: Reply) -> bool {
    let mut out = match Vec::from_slice(alloc, b"0 begin -> ") {
        Ok(out) => out,
        Err(_) => return false,
    };
    append_reply(&mut out, reply).is_ok() && out.as_slice() == line.as_bytes()
}

/// Each line is read as the entry with the reply, which is written as the line.
fn assert_replies(rt: &impl Abort, alloc: Global, rows: &[(&str, Reply)]) {
    let schema = stock(rt, alloc);
    for (line, reply) in rows {
        assert_row(rt, *line, is_reply(alloc, &schema, *line, *reply));
    }
}

/// The same with refusals as the replies.
fn assert_refusals(rt: &impl Abort, alloc: Global, rows: &[(&str, Refusal)]) {
    let schema = stock(rt, alloc);
    for (line, refusal) in rows {
        let reply = Reply::Refused(*refusal);
        assert_row(rt, *line, is_reply(alloc, &schema, *line, reply));
    }
}

const COMMANDS: [(&str, u16, Command); 5] = [
    ("0 begin", 0, Command::Begin),
    ("65535 begin", 65535, Command::Begin),
    (
        "1 escrow 0.1 stock -20",
        1,
        Command::Escrow {
            txn: FIRST,
            field: STOCK,
            change: -20,
        },
    ),
    ("0 commit 0.1", 0, Command::Commit { txn: FIRST }),
    ("0 abort 0.1", 0, Command::Abort { txn: FIRST }),
];

#[test]
fn spells_commands(rt: HostRuntime) {
    assert_commands(&rt, rt.alloc(), &COMMANDS);
}

const GIFTS: [(&str, u16, Command); 5] = [
    (
        "0 give 1 stock lower 18446744073709551615",
        0,
        Command::Give {
            to: SiteNo(1),
            field: STOCK,
            kind: Kind::Lower,
            amount: 18446744073709551615,
        },
    ),
    (
        "0 restate 65535 #1 raise",
        0,
        Command::Restate {
            to: SiteNo(65535),
            field: FieldNo(1),
            kind: Kind::Raise,
        },
    ),
    (
        "0 spare 1 stock raise 100",
        0,
        Command::Spare {
            to: SiteNo(1),
            field: STOCK,
            kind: Kind::Raise,
            want: 100,
        },
    ),
    (
        "0 tighten stock lower 5",
        0,
        Command::Tighten {
            field: STOCK,
            kind: Kind::Lower,
            amount: 5,
        },
    ),
    (
        "1 accept 0 1 stock lower 30",
        1,
        Command::Accept(Statement {
            from: SiteNo(0),
            to: SiteNo(1),
            field: STOCK,
            kind: Kind::Lower,
            total: 30,
        }),
    ),
];

#[test]
fn spells_gifts(rt: HostRuntime) {
    assert_commands(&rt, rt.alloc(), &GIFTS);
}

/// A read and a share of each field.
const OF_FIELDS: [(&str, u16, Command); 6] = [
    ("0 read stock", 0, Command::Read { field: STOCK }),
    ("0 share stock", 0, Command::Share { field: STOCK }),
    ("0 read #1", 0, Command::Read { field: FieldNo(1) }),
    ("0 share #1", 0, Command::Share { field: FieldNo(1) }),
    (
        "0 read #65535",
        0,
        Command::Read {
            field: FieldNo(65535),
        },
    ),
    (
        "0 share #65535",
        0,
        Command::Share {
            field: FieldNo(65535),
        },
    ),
];

#[test]
fn spells_fields(rt: HostRuntime) {
    assert_commands(&rt, rt.alloc(), &OF_FIELDS);
}

fn assert_fields(rt: &impl Abort, schema: &Schema) {
    assert_eq!(rt; read_field(schema, b"stock"), Some(STOCK));
    assert_eq!(rt; read_field(schema, b"#0"), None);
}

fn assert_kinds(rt: &impl Abort) {
    assert_eq!(rt; read_kind(b"raise"), Some(Kind::Raise));
    assert_eq!(rt; read_kind(b"rise"), None);
}

fn assert_txns(rt: &impl Abort) {
    let txn = TxnId {
        epoch: 3,
        number: 17,
    };
    assert_eq!(rt; read_txn(b"3.17"), Some(txn));
    assert_eq!(rt; read_txn(b"3.017"), None);
}

fn assert_numbers(rt: &impl Abort) {
    assert_eq!(rt; read_number(b"20"), Some(20));
    assert_eq!(rt; read_signed(b"-20"), Some(-20));
}

#[test]
fn reads_words(rt: HostRuntime) {
    let schema = stock(&rt, rt.alloc());
    assert_fields(&rt, &schema);
    assert_kinds(&rt);
    assert_txns(&rt);
    assert_numbers(&rt);
}

/// Two sites, on one field with a name as long as a field's may be.
const LONG_OF_TWO: &str =
    r#"{"sites":2,"fields":[{"name":"abbbbbbbbbbbbbbbbbbbbbbbbbbbbbbc","floor":0,"ceiling":100,"value":40}]}"#;

const LONGEST_ENTRY: Entry = Entry {
    site: SiteNo(65535),
    command: Command::Accept(Statement {
        from: SiteNo(65535),
        to: SiteNo(65535),
        field: FieldNo(0),
        kind: Kind::Lower,
        total: 18446744073709551615,
    }),
    reply: Reply::Between {
        lo: -9223372036854775808,
        hi: -9223372036854775808,
    },
};

/// The text of the longest entry: 84 bytes of a command, 4 of the arrow and 49 of the reply.
const LONGEST: &str =
    "65535 accept 65535 65535 abbbbbbbbbbbbbbbbbbbbbbbbbbbbbbc lower 18446744073709551615 -> between -9223372036854775808 -9223372036854775808";

fn assert_longest(rt: &impl Abort, text: &str) {
    assert_eq!(rt; text, LONGEST);
    assert_eq!(rt; text.len(), 137);
}

fn assert_longest_is_read(rt: &impl Abort, schema: &Schema) {
    assert_eq!(rt; read_entry(schema, LONGEST.as_bytes()), Some(LONGEST_ENTRY));
}

/// It has room on the stack: where there is memory, it is added whole.
fn assert_longest_is_appended(rt: &impl Abort, alloc: Global, schema: &Schema) {
    let mut out = Vec::new(alloc);
    append_entry(&mut out, schema, LONGEST_ENTRY).expect(rt, "memory");
    assert!(rt; out.as_slice() == LONGEST.as_bytes());
}

#[test]
fn longest_entry_is_a_line(rt: HostRuntime) {
    texts_are_lines();
    let schema = schema_of(rt.alloc(), LONG_OF_TWO).expect(&rt, "a schema");
    let text = write_entry(rt.alloc(), &schema, LONGEST_ENTRY).expect(&rt, "memory");
    assert_longest(&rt, text.as_str());
    assert_longest_is_read(&rt, &schema);
    assert_longest_is_appended(&rt, rt.alloc(), &schema);
}

/// Lines that no command has.
const NO_COMMANDS: [&str; 6] = [
    "",
    "00 begin",
    "0  begin",
    "65536 begin",
    "0 escrow 0.1 stock -0",
    "0 escrow 0.01 stock 1",
];

#[test]
fn refuses_other_commands(rt: HostRuntime) {
    assert_no_commands(&rt, rt.alloc(), &NO_COMMANDS);
}

/// Lines that no command has.
const NO_FIELDS: [&str; 4] = ["0 read #0", "0 read #65536", "0 read stock ", "0 read sock"];

#[test]
fn refuses_other_fields(rt: HostRuntime) {
    assert_no_commands(&rt, rt.alloc(), &NO_FIELDS);
}

/// Four fields, which are looked at each, and five, which are found in a map: their names are
/// alike.
const FOUR_ALIKE: &str =
    r#"{"sites":1,"fields":[{"name":"b","floor":0,"ceiling":9,"value":5},{"name":"seat_b","floor":0,"ceiling":9,"value":5},{"name":"west_seat_b","floor":0,"ceiling":9,"value":5},{"name":"west_seat_c","floor":0,"ceiling":9,"value":5}]}"#;

const FIVE_ALIKE: &str =
    r#"{"sites":1,"fields":[{"name":"b","floor":0,"ceiling":9,"value":5},{"name":"seat_b","floor":0,"ceiling":9,"value":5},{"name":"west_seat_b","floor":0,"ceiling":9,"value":5},{"name":"west_seat_c","floor":0,"ceiling":9,"value":5},{"name":"c","floor":0,"ceiling":9,"value":5}]}"#;

/// Lines about a field of these names, each with the field's number.
const ALIKE: [(&str, u16); 9] = [
    ("0 read b", 0),
    ("0 read seat_b", 1),
    ("0 read west_seat_b", 2),
    ("0 read west_seat_c", 3),
    ("0 tighten b lower 1", 0),
    ("0 tighten seat_b lower 1", 1),
    ("0 tighten west_seat_b lower 1", 2),
    ("0 tighten west_seat_c lower 1", 3),
    ("0 read #5", 5),
];

/// Lines about no field of these names.
const NOT_ALIKE: [&str; 7] = [
    "0 read ",
    "0 read x",
    "0 read bb",
    "0 read eat_b",
    "0 read seat_b ",
    "0 read east_seat_b",
    "0 tighten  lower 1",
];

/// The field that the line is about.
fn field_read(schema: &Schema, line: &str) -> Option<FieldNo> {
    match read_command(schema, line.as_bytes())? {
        (_, Command::Read { field }) => Some(field),
        (_, Command::Tighten { field, .. }) => Some(field),
        _ => None,
    }
}

/// The lines about fields of names that are alike are read as told under the schema.
fn assert_alike(rt: &impl Abort, alloc: Global, header: &str) {
    let schema = schema_of(alloc, header).expect(rt, "a schema");
    for (line, field) in &ALIKE {
        assert_row(
            rt,
            *line,
            field_read(&schema, *line) == Some(FieldNo(*field)),
        );
    }
    for line in &NOT_ALIKE {
        assert_row(rt, *line, read_command(&schema, line.as_bytes()).is_none());
    }
}

#[test]
fn tells_fields_alike_apart(rt: HostRuntime) {
    assert_alike(&rt, rt.alloc(), FOUR_ALIKE);
    assert_alike(&rt, rt.alloc(), FIVE_ALIKE);
}

const LATEST: TxnId = TxnId {
    epoch: 4294967295,
    number: 7,
};

const REPLIES: [(&str, Reply); 6] = [
    ("0 begin -> begun 4294967295.7", Reply::Begun(LATEST)),
    ("0 begin -> granted", Reply::Granted),
    ("0 begin -> committed", Reply::Committed),
    ("0 begin -> aborted", Reply::Aborted),
    (
        "0 begin -> between -1 70",
        Reply::Between { lo: -1, hi: 70 },
    ),
    (
        "0 begin -> share 18446744073709551615 0",
        Reply::Shares {
            lower: 18446744073709551615,
            raise: 0,
        },
    ),
];

#[test]
fn spells_replies(rt: HostRuntime) {
    assert_replies(&rt, rt.alloc(), &REPLIES);
    assert_no_entries(&rt, rt.alloc(), &["0 begin->granted"]);
}

/// Lines that no command has.
const NO_GIFTS: [&str; 10] = [
    "0 give 65536 stock lower 1",
    "0 give 1 stock lower 18446744073709551616",
    "0 restate 1 stock",
    "0 spare 1 stock raise",
    "0 spare 1 stock raise 18446744073709551616",
    "0 tighten stock lower",
    "0 tighten 1 stock lower 5",
    "0 tighten stock lower -5",
    "0 tighten stock lower 18446744073709551616",
    "0 accept 0 1 stock rise 30",
];

#[test]
fn refuses_other_gifts(rt: HostRuntime) {
    assert_no_commands(&rt, rt.alloc(), &NO_GIFTS);
}

const GIFT_REPLIES: [(&str, Reply); 5] = [
    (
        "0 begin -> spared 8 23",
        Reply::Spared {
            amount: 8,
            total: 23,
        },
    ),
    ("0 begin -> tightened 5", Reply::Tightened { total: 5 }),
    ("0 begin -> given 30", Reply::Given { total: 30 }),
    (
        "0 begin -> stated 18446744073709551615",
        Reply::Stated {
            total: 18446744073709551615,
        },
    ),
    ("0 begin -> accepted 0", Reply::Accepted { gain: 0 }),
];

#[test]
fn spells_gift_replies(rt: HostRuntime) {
    assert_replies(&rt, rt.alloc(), &GIFT_REPLIES);
}

const GIFT_REFUSALS: [(&str, Refusal); 3] = [
    ("0 begin -> refused 2 no site", Refusal::NoSite),
    ("0 begin -> refused 8 self gift", Refusal::SelfGift),
    (
        "0 begin -> refused 9 ledger full 30",
        Refusal::LedgerFull { total: 30 },
    ),
];

#[test]
fn spells_gift_refusals(rt: HostRuntime) {
    assert_refusals(&rt, rt.alloc(), &GIFT_REFUSALS);
}

const STATEMENT_REFUSALS: [(&str, Refusal); 3] = [
    ("0 begin -> refused 10 not yours", Refusal::NotYours),
    (
        "0 begin -> refused 11 forged 60",
        Refusal::Forged { room: 60 },
    ),
    ("0 begin -> refused 15 nothing given", Refusal::NothingGiven),
];

#[test]
fn spells_statement_refusals(rt: HostRuntime) {
    assert_refusals(&rt, rt.alloc(), &STATEMENT_REFUSALS);
}

const REFUSALS: [(&str, Refusal); 5] = [
    ("0 begin -> refused 3 no field", Refusal::NoField),
    (
        "0 begin -> refused 4 no transaction",
        Refusal::NoTransaction,
    ),
    ("0 begin -> refused 5 zero", Refusal::Zero),
    ("0 begin -> refused 6 too large", Refusal::TooLarge),
    (
        "0 begin -> refused 7 short 20",
        Refusal::Short { share: 20 },
    ),
];

#[test]
fn spells_refusals(rt: HostRuntime) {
    assert_refusals(&rt, rt.alloc(), &REFUSALS);
}

const REFUSALS_AT_LIMITS: [(&str, Refusal); 3] = [
    ("0 begin -> refused 12 too many open", Refusal::TooManyOpen),
    (
        "0 begin -> refused 13 too many escrows",
        Refusal::TooManyEscrows,
    ),
    ("0 begin -> refused 14 numbers full", Refusal::NumbersFull),
];

#[test]
fn spells_refusals_at_limits(rt: HostRuntime) {
    assert_refusals(&rt, rt.alloc(), &REFUSALS_AT_LIMITS);
}

const RESTARTS: [(&str, Reply); 6] = [
    (
        "0 begin -> restarted 1 nothing",
        Reply::Restarted {
            epoch: 1,
            last: Last::Nothing,
        },
    ),
    (
        "0 begin -> restarted 1 kept",
        Reply::Restarted {
            epoch: 1,
            last: Last::Kept,
        },
    ),
    (
        "0 begin -> restarted 1 lost",
        Reply::Restarted {
            epoch: 1,
            last: Last::Lost,
        },
    ),
    ("0 begin -> unsure", Reply::Unsure),
    ("0 begin -> still down", Reply::StillDown),
    ("0 begin -> refused 1 down", Reply::Refused(Refusal::Down)),
];

#[test]
fn spells_restarts(rt: HostRuntime) {
    assert_commands(&rt, rt.alloc(), &[("0 restart", 0, Command::Restart)]);
    assert_replies(&rt, rt.alloc(), &RESTARTS);
}

/// None of the lines is an entry's.
fn assert_no_entries(rt: &impl Abort, alloc: Global, lines: &[&str]) {
    let schema = stock(rt, alloc);
    for line in lines {
        assert_row(rt, *line, read_entry(&schema, line.as_bytes()).is_none());
    }
}

/// Lines that no entry has.
const NO_RESTARTS: [&str; 5] = [
    "0 begin -> restarted 1",
    "0 begin -> restarted 1 Kept",
    "0 begin -> restarted 4294967296 kept",
    "0 begin -> still  down",
    "0 begin -> refused 01 down",
];

#[test]
fn refuses_other_restarts(rt: HostRuntime) {
    assert_no_commands(&rt, rt.alloc(), &["0 restart 1"]);
    assert_no_entries(&rt, rt.alloc(), &NO_RESTARTS);
}

/// Appends the entry of the first begin at site 1, and again.
fn append_twice(out: &mut Vec<u8>, schema: &Schema) -> Result<(), AllocError> {
    let entry = Entry {
        site: SiteNo(1),
        command: Command::Begin,
        reply: Reply::Begun(FIRST),
    };
    append_entry(out, schema, entry)?;
    append_entry(out, schema, entry)
}

#[test]
fn appends_entries(rt: HostRuntime) {
    let schema = stock(&rt, rt.alloc());
    let mut out = vec![in rt.alloc(); b'#'; 1].expect(&rt, "memory");
    append_twice(&mut out, &schema).expect(&rt, "memory");
    assert!(rt; out.as_slice() == b"#1 begin -> begun 0.11 begin -> begun 0.1".as_slice());
}

/// Appends the entry of an acceptance at site 1 of 5 lowering rights on this field.
fn append_acceptance(out: &mut Vec<u8>, schema: &Schema, field: FieldNo) -> Result<(), AllocError> {
    let entry = Entry {
        site: SiteNo(1),
        command: Command::Accept(Statement {
            from: SiteNo(0),
            to: SiteNo(1),
            field,
            kind: Kind::Lower,
            total: 25,
        }),
        reply: Reply::Accepted { gain: 5 },
    };
    append_entry(out, schema, entry)
}

/// Appends that of the stock, and behind a stroke that of a field that there is not.
fn append_both(out: &mut Vec<u8>, schema: &Schema) -> Result<(), AllocError> {
    append_acceptance(out, schema, STOCK)?;
    out.push(b'/')?;
    append_acceptance(out, schema, FieldNo(300))
}

/// The two, and the stroke between them.
const BOTH: &str =
    "1 accept 0 1 stock lower 25 -> accepted 5/1 accept 0 1 #300 lower 25 -> accepted 5";

#[test]
fn appends_acceptances(rt: HostRuntime) {
    let schema = stock(&rt, rt.alloc());
    let mut out = Vec::new(rt.alloc());
    append_both(&mut out, &schema).expect(&rt, "memory");
    assert!(rt; out.as_slice() == BOTH.as_bytes());
}
