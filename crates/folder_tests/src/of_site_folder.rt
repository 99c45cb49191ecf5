//! Worked texts of identities. The names of worlds were computed by `sha256sum` of the header without a
//! line feed, and behind a line of the world's own name where it has one; the sums of names of logs are
//! the first 16 digits that it tells of the lines before them.

use field_bounds::{SchemaFault, SiteNo};
use site_folder::{
    Identity, IdentityFault, log_name, read_identity, sealed_log_name, trace_name, write_identity,
};
use std::alloc::Global;
use std::process::Abort;

const HEADER: &str =
    r#"{"sites":2,"fields":[{"name":"stock","floor":0,"ceiling":100,"value":40}]}"#;

/// Site 1 of this world.
const TEXT: &str = r#"escrow site 1
number 1
world 145aa8408cfe4e170aa9ab522fe2e8b9b4c23917b59218cbdada91cf44b1183a
{"sites":2,"fields":[{"name":"stock","floor":0,"ceiling":100,"value":40}]}
"#;

/// What a read of a text that is refused meets, or None where it is read.
fn refusal_of(alloc: Global, text: &str) -> Option<IdentityFault> {
    read_identity(alloc, text.as_bytes()).err()
}

/// The identity that the text of site 1 tells.
fn identity_of_text(rt: &impl Abort, alloc: Global) -> Identity {
    read_identity(alloc, TEXT.as_bytes()).expect(rt, "an identity")
}

/// The text that a number and a header have.
fn written(alloc: Global, number: u64, header: &str) -> Result<Vec<u8>, IdentityFault> {
    let identity = Identity::new(alloc, number, header.as_bytes())?;
    Ok(write_identity(alloc, &identity)?)
}

/// Each text is refused with the fault beside it.
fn assert_refused(rt: &impl Abort, alloc: Global, rows: &[(&str, IdentityFault)]) {
    for (text, fault) in rows {
        assert_eq!(rt; refusal_of(alloc, *text), Some(*fault), "{text}");
    }
}

/// The bytes are this text.
fn assert_text(rt: &impl Abort, bytes: &[u8], text: &str) {
    assert_eq!(rt; str::from_utf8(bytes), Ok(text));
}

#[test]
fn spells_an_identity(rt: HostRuntime) {
    let text = written(rt.alloc(), 1, HEADER).expect(&rt, "written");
    assert_text(&rt, text.as_slice(), TEXT);
    let identity = identity_of_text(&rt, rt.alloc());
    assert_eq!(rt; identity.number(), SiteNo(1));
    assert_text(&rt, identity.header(), HEADER);
}

#[test]
fn tells_the_world_and_the_schema(rt: HostRuntime) {
    let identity = identity_of_text(&rt, rt.alloc());
    assert_eq!(rt; identity.schema().sites(), 2);
    let world = identity.world(rt.alloc()).expect(&rt, "memory");
    assert_eq!(rt;
        world.as_str(),
        "145aa8408cfe4e170aa9ab522fe2e8b9b4c23917b59218cbdada91cf44b1183a"
    );
}

/// The name of the log.
const LOG_NAME: &str = "escrow log 1
number 1
world 145aa8408cfe4e170aa9ab522fe2e8b9b4c23917b59218cbdada91cf44b1183a
";

#[test]
fn names_a_log(rt: HostRuntime) {
    let identity = identity_of_text(&rt, rt.alloc());
    let name = log_name(rt.alloc(), &identity).expect(&rt, "memory");
    assert_text(&rt, name.as_slice(), LOG_NAME);
}

/// The name of the trace.
const TRACE_NAME: &str = "escrow trace 1
number 1
world 145aa8408cfe4e170aa9ab522fe2e8b9b4c23917b59218cbdada91cf44b1183a
";

#[test]
fn names_a_trace(rt: HostRuntime) {
    let identity = identity_of_text(&rt, rt.alloc());
    let name = trace_name(rt.alloc(), &identity).expect(&rt, "memory");
    assert_text(&rt, name.as_slice(), TRACE_NAME);
}

/// Numbers and headers that make no identity, and why.
const NO_IDENTITIES: [(u64, &str, IdentityFault); 5] = [
    (2, HEADER, IdentityFault::Number),
    (65536, HEADER, IdentityFault::Number),
    (0, "{\"sites\":1,\n\"fields\":[]}", IdentityFault::Lines),
    (0, "", IdentityFault::Header(SchemaFault::NotJson)),
    (
        0,
        "{\"sites\":1,\"fields\":[]}",
        IdentityFault::Header(SchemaFault::FieldCount),
    ),
];

#[test]
fn makes_no_identity(rt: HostRuntime) {
    for (number, header, fault) in &NO_IDENTITIES {
        assert_eq!(rt; written(rt.alloc(), *number, *header).err(), Some(*fault));
    }
}

/// Texts that are no identity, and why.
const OTHER_LINES: [(&str, IdentityFault); 10] = [
    ("", IdentityFault::Version),
    ("escrow site 1", IdentityFault::Version),
    ("escrow site 3\n", IdentityFault::Version),
    ("escrow site 1\r\n", IdentityFault::Version),
    ("escrow site 1\n", IdentityFault::NoIdentity),
    (
        "escrow site 1\nnumber 01\nworld x\n{}\n",
        IdentityFault::NoIdentity,
    ),
    (
        "escrow site 1\nnumber 1\nWorld x\n{}\n",
        IdentityFault::NoIdentity,
    ),
    (
        "escrow site 1\nnumber 1\nworld x\n{}",
        IdentityFault::NoIdentity,
    ),
    (
        "escrow site 1\nnumber 1\nworld x\n{}\n\n",
        IdentityFault::NoIdentity,
    ),
    (
        "escrow site 1\nnumber 1\nworld x\n{}\n",
        IdentityFault::World,
    ),
];

#[test]
fn refuses_other_lines(rt: HostRuntime) {
    assert_refused(&rt, rt.alloc(), &OTHER_LINES);
}

/// The header of `TEXT` with another ceiling under the old name; under its own names a header that is
/// none, and a site that the header hasn't.
const EDITED: [(&str, IdentityFault); 3] = [
    (
        r#"escrow site 1
number 1
world 145aa8408cfe4e170aa9ab522fe2e8b9b4c23917b59218cbdada91cf44b1183a
{"sites":2,"fields":[{"name":"stock","floor":0,"ceiling":900,"value":40}]}
"#,
        IdentityFault::World,
    ),
    (
        r#"escrow site 1
number 0
world 44136fa355b3678a1146ad16f7e8649e94fb4fc21fe77e8310c060f61caaff8a
{}
"#,
        IdentityFault::Header(SchemaFault::Shape),
    ),
    (
        r#"escrow site 1
number 2
world 145aa8408cfe4e170aa9ab522fe2e8b9b4c23917b59218cbdada91cf44b1183a
{"sites":2,"fields":[{"name":"stock","floor":0,"ceiling":100,"value":40}]}
"#,
        IdentityFault::Number,
    ),
];

#[test]
fn refuses_what_was_edited(rt: HostRuntime) {
    assert_refused(&rt, rt.alloc(), &EDITED);
}

/// Site 1 of the world of the same header that is named `concert-17`.
const NAMED_TEXT: &str = r#"escrow site 2
number 1
name concert-17
world abf6d0b2ae68513ab0fe4bdacf613f45ec8d357c35c7ad8bb3b851a559578afd
{"sites":2,"fields":[{"name":"stock","floor":0,"ceiling":100,"value":40}]}
"#;

/// The identity that the text of a named world tells.
fn named_of_text(rt: &impl Abort, alloc: Global) -> Identity {
    read_identity(alloc, NAMED_TEXT.as_bytes()).expect(rt, "an identity")
}

/// The identity of site 1 in the world of this name and the header.
fn named(alloc: Global, name: &[u8]) -> Result<Identity, IdentityFault> {
    Identity::named(alloc, name, 1, HEADER.as_bytes())
}

#[test]
fn spells_a_named_identity(rt: HostRuntime) {
    let identity = named(rt.alloc(), b"concert-17").expect(&rt, "an identity");
    let text = write_identity(rt.alloc(), &identity).expect(&rt, "memory");
    assert_text(&rt, text.as_slice(), NAMED_TEXT);
    let identity = named_of_text(&rt, rt.alloc());
    assert_eq!(rt; identity.number(), SiteNo(1));
    assert_text(&rt, identity.header(), HEADER);
    assert_eq!(rt; identity.schema().sites(), 2);
}

#[test]
fn tells_the_name_of_a_world(rt: HostRuntime) {
    let identity = named_of_text(&rt, rt.alloc());
    let name = identity.name().expect(&rt, "a name");
    assert_text(&rt, name, "concert-17");
    let identity = identity_of_text(&rt, rt.alloc());
    assert!(rt; identity.name().is_none());
}

/// The names of the worlds of the header with these names of their own.
const WORLDS: [(&str, &str); 2] = [
    (
        "concert-17",
        "abf6d0b2ae68513ab0fe4bdacf613f45ec8d357c35c7ad8bb3b851a559578afd",
    ),
    (
        "concert-18",
        "14519eda853eaedad2811bdccdc560233a46e0018f500072d3bd2ed254947b2d",
    ),
];

#[test]
fn tells_worlds_of_one_header_apart(rt: HostRuntime) {
    for (name, world) in &WORLDS {
        let identity = named(rt.alloc(), name.as_bytes()).expect(&rt, "an identity");
        let told = identity.world(rt.alloc()).expect(&rt, "memory");
        assert_eq!(rt; told.as_str(), *world);
    }
}

/// The name of the log of the named world's site.
const NAMED_LOG_NAME: &str = "escrow log 1
number 1
world abf6d0b2ae68513ab0fe4bdacf613f45ec8d357c35c7ad8bb3b851a559578afd
";

/// The name of its trace.
const NAMED_TRACE_NAME: &str = "escrow trace 1
number 1
world abf6d0b2ae68513ab0fe4bdacf613f45ec8d357c35c7ad8bb3b851a559578afd
";

#[test]
fn names_files_of_a_named_world(rt: HostRuntime) {
    let identity = named_of_text(&rt, rt.alloc());
    let log = log_name(rt.alloc(), &identity).expect(&rt, "memory");
    assert_text(&rt, log.as_slice(), NAMED_LOG_NAME);
    let trace = trace_name(rt.alloc(), &identity).expect(&rt, "memory");
    assert_text(&rt, trace.as_slice(), NAMED_TRACE_NAME);
}

/// The name of its log in version 2.
const SEALED_LOG_NAME: &str = "escrow log 2
number 1
world abf6d0b2ae68513ab0fe4bdacf613f45ec8d357c35c7ad8bb3b851a559578afd
head 0 0
sum 00001e9100068741
";

#[test]
fn names_a_sealed_log(rt: HostRuntime) {
    let identity = named_of_text(&rt, rt.alloc());
    let name = sealed_log_name(rt.alloc(), &identity).expect(&rt, "memory");
    assert_text(&rt, name.as_slice(), SEALED_LOG_NAME);
}

/// Names that a world can have: the longest, the shortest, and one with each kind of byte.
const GOOD_NAMES: [&str; 4] = [
    "0123456789012345678901234567890123456789012345678901234567890123",
    "-",
    "azAZ09._-",
    "..",
];

#[test]
fn takes_names(rt: HostRuntime) {
    for name in &GOOD_NAMES {
        let identity = named(rt.alloc(), name.as_bytes()).expect(&rt, "an identity");
        let text = write_identity(rt.alloc(), &identity).expect(&rt, "memory");
        let read = read_identity(rt.alloc(), text.as_slice()).expect(&rt, "read");
        assert_text(&rt, read.name().expect(&rt, "a name"), *name);
    }
}

/// Names that no world can have, of 0 and of 65 bytes among them.
const BAD_NAMES: [&[u8]; 10] = [
    b"",
    b"01234567890123456789012345678901234567890123456789012345678901234",
    b"a b",
    b"a/b",
    b"a+b",
    b"a#b",
    b"a\nb",
    b"a\0b",
    b"a\x80",
    b"a:b",
];

#[test]
fn refuses_names(rt: HostRuntime) {
    for name in &BAD_NAMES {
        assert_eq!(rt; named(rt.alloc(), *name).err(), Some(IdentityFault::Name));
    }
}

/// Names, numbers and headers that make no identity, and why: the first of the faults.
const NO_NAMED_IDENTITIES: [(&str, u64, &str, IdentityFault); 4] = [
    ("a b", 2, "{}\n", IdentityFault::Name),
    ("a", 2, "{}\n", IdentityFault::Lines),
    ("a", 2, "{}", IdentityFault::Header(SchemaFault::Shape)),
    ("a", 2, HEADER, IdentityFault::Number),
];

#[test]
fn makes_no_named_identity(rt: HostRuntime) {
    for (name, number, header, fault) in &NO_NAMED_IDENTITIES {
        let made = Identity::named(rt.alloc(), name.as_bytes(), *number, header.as_bytes());
        assert_eq!(rt; made.err(), Some(*fault));
    }
}

/// Texts with the first line of version 2 that are no identity, and one of version 1 with a name.
const OTHER_NAMED_LINES: [(&str, IdentityFault); 7] = [
    ("escrow site 2", IdentityFault::Version),
    ("escrow site 2\n", IdentityFault::NoIdentity),
    (
        "escrow site 2\nnumber 1\nworld x\n{}\n",
        IdentityFault::NoIdentity,
    ),
    (
        "escrow site 2\nname a\nnumber 1\nworld x\n{}\n",
        IdentityFault::NoIdentity,
    ),
    (
        "escrow site 2\nnumber 1\nname a\nworld x\n{}\n\n",
        IdentityFault::NoIdentity,
    ),
    (
        "escrow site 2\nnumber 1\nname a\nworld x\n{}\n",
        IdentityFault::World,
    ),
    (
        "escrow site 1\nnumber 1\nname a\nworld x\n{}\n",
        IdentityFault::NoIdentity,
    ),
];

#[test]
fn refuses_other_named_lines(rt: HostRuntime) {
    assert_refused(&rt, rt.alloc(), &OTHER_NAMED_LINES);
}

/// `NAMED_TEXT` with another name under the old name of the world, and with the name of the world of
/// its header alone; under their own names of worlds a name with a slash, an empty one, a header that
/// is none, and a site that the header hasn't.
const EDITED_NAMES: [(&str, IdentityFault); 6] = [
    (
        r#"escrow site 2
number 1
name concert-18
world abf6d0b2ae68513ab0fe4bdacf613f45ec8d357c35c7ad8bb3b851a559578afd
{"sites":2,"fields":[{"name":"stock","floor":0,"ceiling":100,"value":40}]}
"#,
        IdentityFault::World,
    ),
    (
        r#"escrow site 2
number 1
name concert-17
world 145aa8408cfe4e170aa9ab522fe2e8b9b4c23917b59218cbdada91cf44b1183a
{"sites":2,"fields":[{"name":"stock","floor":0,"ceiling":100,"value":40}]}
"#,
        IdentityFault::World,
    ),
    (
        r#"escrow site 2
number 1
name a/b
world 6b1acd70e974e073617f8d95559962a4f82023d6402ba0b93fa0167a7be72272
{"sites":2,"fields":[{"name":"stock","floor":0,"ceiling":100,"value":40}]}
"#,
        IdentityFault::Name,
    ),
    (
        "escrow site 2\nnumber 1\nname \nworld 0d960bb6fc40dc5058ccb18e06352d1aaa848412590c2c1ebdb8da98a7a616a4\n{\"sites\":2,\"fields\":[{\"name\":\"stock\",\"floor\":0,\"ceiling\":100,\"value\":40}]}\n",
        IdentityFault::Name,
    ),
    (
        r#"escrow site 2
number 0
name concert-17
world ab52613d04242b4f2161046b2b8cee3aef9de0ecae90c41262eeeae21e1684e1
{}
"#,
        IdentityFault::Header(SchemaFault::Shape),
    ),
    (
        r#"escrow site 2
number 2
name concert-17
world abf6d0b2ae68513ab0fe4bdacf613f45ec8d357c35c7ad8bb3b851a559578afd
{"sites":2,"fields":[{"name":"stock","floor":0,"ceiling":100,"value":40}]}
"#,
        IdentityFault::Number,
    ),
];

#[test]
fn refuses_what_was_edited_of_a_named_world(rt: HostRuntime) {
    assert_refused(&rt, rt.alloc(), &EDITED_NAMES);
}

#[test]
fn tells_the_fault_of_a_name(rt: HostRuntime) {
    let text = format!(in rt.alloc(); "{}", IdentityFault::Name).expect(&rt, "memory");
    assert_eq!(rt;
        text.as_str(),
        "a world's name has 1 to 64 of a-z A-Z 0-9 . _ -"
    );
}
