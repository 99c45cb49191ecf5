//! Worked examples of schemas and of the small types. Every expected value is worked out by hand.

use field_bounds::*;
use std::alloc::{AllocError, Global};
use std::fmt::Debug;
use std::process::Abort;
use std::test::Fail;

mod equal_schemas;
mod headers;
mod keys;

/// Two sites and one field, whose 40 lowering rights and 60 raising rights divide evenly.
const EVEN: &str = r#"{"sites":2,"fields":[{"name":"stock","floor":0,"ceiling":100,"value":40}]}"#;

/// The same with 41 and 59 rights, which leave one over at each kind.
const ODD: &str = r#"{"sites":2,"fields":[{"name":"stock","floor":0,"ceiling":100,"value":41}]}"#;

/// The same as the first, with three sites.
const THREE: &str = r#"{"sites":3,"fields":[{"name":"stock","floor":0,"ceiling":100,"value":40}]}"#;

/// The lowering and the raising rights of a site on the first field, where there is the site.
fn parts_at(schema: &Schema, site: u16) -> Option<(u64, u64)> {
    if site >= schema.sites() || schema.fields() == 0 {
        return None;
    }
    let lower = schema.part(SiteNo(site), FieldNo(0), Kind::Lower);
    let raise = schema.part(SiteNo(site), FieldNo(0), Kind::Raise);
    Some((lower, raise))
}

/// A field of 0 to 100.
fn spec(alloc: Global, name: &str, value: i64) -> Result<FieldSpec, AllocError> {
    Ok(FieldSpec {
        name: String::from_str(alloc, name)?,
        floor: 0,
        ceiling: 100,
        value,
    })
}

/// The schema of so many sites and of two fields of 0 to 100, the second at 0.
fn made(
    alloc: Global,
    sites: u16,
    first: &str,
    second: &str,
    value: i64,
) -> Result<Schema, SchemaFault> {
    let mut fields = Vec::new(alloc);
    fields.push(spec(alloc, first, value)?)?;
    fields.push(spec(alloc, second, 0)?)?;
    Schema::new(alloc, sites, fields)
}

/// The same of a copy of the schema.
fn parts_at_copy(schema: &Schema, site: u16) -> Option<(u64, u64)> {
    match schema.copy() {
        Ok(copy) => parts_at(&copy, site),
        Err(_) => None,
    }
}

/// Both of the header's schema.
fn parts_of(alloc: Global, header: &str, site: u16) -> Option<[Option<(u64, u64)>; 2]> {
    let schema = Schema::from_header(alloc, header.as_bytes()).ok()?;
    Some([parts_at(&schema, site), parts_at_copy(&schema, site)])
}

/// A row of a table comes to what was worked out for it.
fn assert_row<T: PartialEq + Debug>(rt: &impl Abort, row: &str, found: &T, worked_out: &T) {
    assert_eq!(rt; *found, *worked_out, "{row}");
}

/// Headers, sites, and the rights of each on the first field.
const PARTS: [(&str, u16, Option<(u64, u64)>); 8] = [
    (ODD, 0, Some((21, 30))),
    (ODD, 1, Some((20, 29))),
    (ODD, 2, None),
    (EVEN, 0, Some((20, 30))),
    (EVEN, 1, Some((20, 30))),
    (THREE, 0, Some((14, 20))),
    (THREE, 1, Some((13, 20))),
    (THREE, 2, Some((13, 20))),
];

#[test]
fn parts(rt: HostRuntime) {
    for (header, site, parts) in &PARTS {
        let found = (*site, parts_of(rt.alloc(), *header, *site));
        assert_row(&rt, *header, &found, &(*site, Some([*parts, *parts])));
    }
}

/// What a schema tells of its one field.
fn assert_field(rt: &impl Abort, schema: &Schema) {
    let counts = (schema.sites(), schema.fields());
    let field = (schema.bounds(FieldNo(0)), schema.name(FieldNo(0)));
    assert_eq!(rt; (counts, field), ((2, 1), ((0, 100, 40), "stock")));
}

/// Which names a schema finds.
fn assert_names(rt: &impl Abort, schema: &Schema) {
    let texts = (schema.field_no("stock"), schema.field_no("sock"));
    let bytes = (schema.field_no_of(b"stock"), schema.field_no_of(&[255]));
    let found = Some(FieldNo(0));
    assert_eq!(rt; (texts, bytes), ((found, None), (found, None)));
}

#[test]
fn readers(rt: HostRuntime) -> Result<(), Fail> {
    let schema = Schema::from_header(rt.alloc(), EVEN.as_bytes())?;
    assert_field(&rt, &schema);
    assert_names(&rt, &schema);
    Ok(())
}

/// The rights of sites 0 and 1 by a schema that was made of its parts.
fn parts_of_made(alloc: Global) -> Option<[Option<(u64, u64)>; 2]> {
    let schema = made(alloc, 2, "stock", "other", 41).ok()?;
    Some([parts_at(&schema, 0), parts_at(&schema, 1)])
}

#[test]
fn new(rt: HostRuntime) {
    let found = parts_of_made(rt.alloc());
    assert_eq!(rt; found, Some([Some((21, 30)), Some((20, 29))]));
}

/// How many sites, the names of both fields, the value of the first, and the fault.
type New = (u16, &'static str, &'static str, i64, Option<SchemaFault>);

const FAULTS_OF_NEW: [New; 6] = [
    (0, "a", "b", 0, Some(SchemaFault::SiteCount)),
    (65, "a", "b", 0, Some(SchemaFault::SiteCount)),
    (64, "A", "b", 0, Some(SchemaFault::Name)),
    (64, "a", "a", 0, Some(SchemaFault::NameUsed)),
    (64, "a", "b", 101, Some(SchemaFault::Bounds)),
    (64, "a", "b", 100, None),
];

/// The row with the fault that is found.
fn with_fault_found(alloc: Global, row: &New) -> New {
    let (sites, first, second, value, _) = *row;
    let fault = made(alloc, sites, first, second, value).err();
    (sites, first, second, value, fault)
}

#[test]
fn faults_of_new(rt: HostRuntime) {
    for row in &FAULTS_OF_NEW {
        assert_eq!(rt; with_fault_found(rt.alloc(), row), *row);
    }
}

#[test]
fn no_fields(rt: HostRuntime) {
    let none = Schema::new(rt.alloc(), 1, Vec::new(rt.alloc())).err();
    assert_eq!(rt; none, Some(SchemaFault::FieldCount));
}

#[test]
fn kinds(rt: HostRuntime) {
    let others = (Kind::Lower.other(), Kind::Raise.other());
    let of_changes = (Kind::of(-1), Kind::of(1));
    let (lower, raise) = (Kind::Lower, Kind::Raise);
    assert_eq!(rt; (others, of_changes), ((raise, lower), (lower, raise)));
}

/// The first two places where values are equal and the places aren't, or the other way round.
fn first_mistaken<T: PartialEq>(values: &[T]) -> Option<(usize, usize)> {
    for i in 0..values.len() {
        for j in 0..values.len() {
            if (values[i] == values[j]) != (i == j) {
                return Some((i, j));
            }
        }
    }
    None
}

const FIRST_TXN: TxnId = TxnId {
    epoch: 1,
    number: 1,
};

const NEXT_TXN: TxnId = TxnId {
    epoch: 1,
    number: 2,
};

/// Each command is equal to itself, and to none of the others.
const COMMANDS: [Command; 18] = [
    Command::Begin,
    Command::Escrow {
        txn: FIRST_TXN,
        field: FieldNo(0),
        change: 1,
    },
    Command::Escrow {
        txn: FIRST_TXN,
        field: FieldNo(0),
        change: -1,
    },
    Command::Commit { txn: FIRST_TXN },
    Command::Commit { txn: NEXT_TXN },
    Command::Abort { txn: FIRST_TXN },
    GIVE,
    RESTATE,
    SPARE,
    TIGHTEN,
    Command::Tighten {
        field: FieldNo(0),
        kind: Kind::Raise,
        amount: 5,
    },
    Command::Accept(TOLD_FIVE),
    Command::Accept(TOLD_SIX),
    Command::Read { field: FieldNo(0) },
    Command::Read { field: FieldNo(1) },
    Command::Share { field: FieldNo(0) },
    Command::Share { field: FieldNo(1) },
    Command::Restart,
];

/// The same of replies.
const REPLIES: [Reply; 26] = [
    Reply::Begun(FIRST_TXN),
    Reply::Begun(NEXT_TXN),
    Reply::Granted,
    Reply::Committed,
    Reply::Aborted,
    Reply::Given { total: 5 },
    Reply::Stated { total: 5 },
    Reply::Tightened { total: 5 },
    Reply::Accepted { gain: 5 },
    Reply::Accepted { gain: 0 },
    Reply::Between { lo: 0, hi: 1 },
    Reply::Shares { lower: 0, raise: 1 },
    Reply::Shares { lower: 1, raise: 0 },
    Reply::Refused(Refusal::Zero),
    Reply::Refused(Refusal::Short { share: 1 }),
    Reply::Refused(Refusal::Short { share: 2 }),
    Reply::Refused(Refusal::LedgerFull { total: 1 }),
    Reply::Refused(Refusal::Forged { room: 1 }),
    Reply::Refused(Refusal::NotYours),
    Reply::Refused(Refusal::Down),
    Reply::Restarted {
        epoch: 1,
        last: Last::Nothing,
    },
    Reply::Restarted {
        epoch: 2,
        last: Last::Nothing,
    },
    Reply::Restarted {
        epoch: 1,
        last: Last::Kept,
    },
    Reply::Restarted {
        epoch: 1,
        last: Last::Lost,
    },
    Reply::Unsure,
    Reply::StillDown,
];

/// The same of entries.
const ENTRIES: [Entry; 2] = [
    Entry {
        site: SiteNo(0),
        command: Command::Begin,
        reply: Reply::Begun(FIRST_TXN),
    },
    Entry {
        site: SiteNo(1),
        command: Command::Begin,
        reply: Reply::Begun(FIRST_TXN),
    },
];

/// The same of escrows.
const ESCROWS: [Escrow; 2] = [
    Escrow {
        field: FieldNo(0),
        change: 1,
    },
    Escrow {
        field: FieldNo(0),
        change: -1,
    },
];

#[test]
fn equality(rt: HostRuntime) {
    let mistaken = [
        first_mistaken(&COMMANDS),
        first_mistaken(&REPLIES),
        first_mistaken(&ENTRIES),
        first_mistaken(&ESCROWS),
    ];
    assert_eq!(rt; mistaken, [None, None, None, None]);
}

/// A gift of 5 lowering rights on the first field to site 1.
const GIVE: Command = Command::Give {
    to: SiteNo(1),
    field: FieldNo(0),
    kind: Kind::Lower,
    amount: 5,
};

/// The same asked to be told again.
const RESTATE: Command = Command::Restate {
    to: SiteNo(1),
    field: FieldNo(0),
    kind: Kind::Lower,
};

/// As many as it wants, and half of the share at most.
const SPARE: Command = Command::Spare {
    to: SiteNo(1),
    field: FieldNo(0),
    kind: Kind::Lower,
    want: 9,
};

/// Of the lowering rights on the first field, 5 are given up for good.
const TIGHTEN: Command = Command::Tighten {
    field: FieldNo(0),
    kind: Kind::Lower,
    amount: 5,
};

/// What site 0 tells site 1 of its gifts.
const TOLD: Statement = Statement {
    from: SiteNo(0),
    to: SiteNo(1),
    field: FieldNo(0),
    kind: Kind::Lower,
    total: 8,
};

/// The same with smaller totals.
const TOLD_FIVE: Statement = Statement { total: 5, ..TOLD };

const TOLD_SIX: Statement = Statement { total: 6, ..TOLD };

/// The statement of an entry of site 0.
fn stated(command: Command, reply: Reply) -> Option<Statement> {
    statement_of(&Entry {
        site: SiteNo(0),
        command,
        reply,
    })
}

const GIVEN: Reply = Reply::Given { total: 8 };

const RESTATED: Reply = Reply::Stated { total: 8 };

const SPARED: Reply = Reply::Spared {
    amount: 3,
    total: 8,
};

/// Commands, their replies, and what these state.
const STATEMENTS: [(Command, Reply, Option<Statement>); 12] = [
    (GIVE, GIVEN, Some(TOLD)),
    (RESTATE, RESTATED, Some(TOLD)),
    (SPARE, SPARED, Some(TOLD)),
    (SPARE, GIVEN, None),
    (GIVE, SPARED, None),
    (GIVE, RESTATED, None),
    (RESTATE, GIVEN, None),
    (TIGHTEN, Reply::Tightened { total: 8 }, None),
    (Command::Accept(TOLD), Reply::Accepted { gain: 8 }, None),
    (GIVE, Reply::Refused(Refusal::NoSite), None),
    (GIVE, Reply::Unsure, None),
    (
        Command::Restart,
        Reply::Restarted {
            epoch: 1,
            last: Last::Kept,
        },
        None,
    ),
];

#[test]
fn statements(rt: HostRuntime) {
    for (command, reply, statement) in &STATEMENTS {
        assert_eq!(rt; stated(*command, *reply), *statement);
    }
}

/// The last amount that a command bears, read by the arm of its name; 0 where it bears none.
fn amount_of(command: Command) -> u64 {
    by_command! { command;
        Begin => 0,
        Escrow { txn, field, change } => change.unsigned_abs(),
        Commit { txn } => 0,
        Abort { txn } => 0,
        Give { to, field, kind, amount } => amount,
        Restate { to, field, kind } => 0,
        Spare { to, field, kind, want } => want,
        Tighten { field, kind, amount } => amount,
        Accept(told) => told.total,
        Read { field } => 0,
        Share { field } => 0,
        Restart => 0,
    }
}

/// Commands, and the amount that each bears last.
const AMOUNTS: [(Command, u64); 5] = [
    (GIVE, 5),
    (Command::Accept(TOLD_SIX), 6),
    (SPARE, 9),
    (TIGHTEN, 5),
    (Command::Begin, 0),
];

#[test]
fn arms(rt: HostRuntime) {
    for (command, amount) in &AMOUNTS {
        assert_eq!(rt; amount_of(*command), *amount);
    }
}
