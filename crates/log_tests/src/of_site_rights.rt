ghost use Rattle.std.specs.Prelude.{◌<◌, length};

use field_bounds::{FieldNo, Kind, Schema, SiteNo};
use site_rights::*;
use std::alloc::Global;
use std::process::Abort;

const STOCK: FieldNo = FieldNo(0);

/// Two sites and one field, of which site 1 has 20 rights to lower it and 29 to raise it.
const ODD: &str = r#"{"sites":2,"fields":[{"name":"stock","floor":0,"ceiling":100,"value":41}]}"#;

/// The same with 20 and 30.
const EVEN: &str = r#"{"sites":2,"fields":[{"name":"stock","floor":0,"ceiling":100,"value":40}]}"#;

/// The rights of site 1 of two.
fn half(rt: &impl Abort, alloc: Global, header: &str) -> Rights
    ensures in_schema { 0 < length result }
{
    let schema = Schema::from_header(alloc, header.as_bytes()).expect(rt, "a schema");
    assert!(rt; schema.sites() == 2 && schema.fields() == 1);
    Rights::new(alloc, &schema, SiteNo(1)).expect(rt, "memory")
}

/// The free rights to lower the field and to raise it, and the held and the own ones to lower it.
fn standing(rights: &Rights) -> [u64; 4]
    requires in_schema { 0 < length rights.now }
{
    [
        rights.free(STOCK, Kind::Lower),
        rights.free(STOCK, Kind::Raise),
        rights.held(STOCK, Kind::Lower),
        rights.own(STOCK, Kind::Lower),
    ]
}

/// What is answered where 21 of 20 free lowering rights are to be set aside, and then 20.
fn set_aside(rights: &mut Rights) -> (Result<(), Short>, Result<(), Short>)
    requires in_schema { 0 < length rights.old }
    ensures in_schema { 0 < length rights.new }
{
    let many = rights.take(STOCK, Kind::Lower, 21);
    let all = rights.take(STOCK, Kind::Lower, 20);
    (many, all)
}

/// Gives 5 of 15 held lowering rights back and turns the others, where so many are held.
fn ended(rights: &mut Rights)
    requires in_schema { 0 < length rights.old }
    ensures in_schema { 0 < length rights.new }
{
    if rights.held(STOCK, Kind::Lower) >= 15 {
        rights.give_back(STOCK, Kind::Lower, 5);
        rights.turn(STOCK, Kind::Lower, 10);
        rights.end(&[], Outcome::Committed);
    }
}

#[test]
fn second_of_two_sites(rt: HostRuntime) {
    let mut rights = half(&rt, rt.alloc(), ODD);
    assert_eq!(rt; standing(&rights), [20, 29, 0, 20]);
    let short = Short { share: 20 };
    assert_eq!(rt; set_aside(&mut rights), (Err(short), Ok(())));
    assert_eq!(rt; standing(&rights), [0, 29, 20, 20]);
    ended(&mut rights);
    assert_eq!(rt; standing(&rights), [5, 39, 5, 10]);
}

/// All free lowering rights leave; how many they were.
fn given_away(rights: &mut Rights) -> u64
    requires in_schema { 0 < length rights.old }
    ensures in_schema { 0 < length rights.new }
{
    let all = rights.free(STOCK, Kind::Lower);
    rights.drop_free(STOCK, Kind::Lower, all);
    all
}

/// The room, and the raising rights once that many more came to them.
fn filled_up(rights: &mut Rights) -> (u64, u64)
    requires in_schema { 0 < length rights.old }
{
    let room = rights.room(STOCK);
    rights.add(STOCK, Kind::Raise, room);
    (room, rights.own(STOCK, Kind::Raise))
}

#[test]
fn rights_leave_and_come(rt: HostRuntime) {
    let mut rights = half(&rt, rt.alloc(), EVEN);
    assert_eq!(rt; given_away(&mut rights), 20);
    assert_eq!(rt; filled_up(&mut rights), (70, 100));
}

/// What is answered where 21 of 20 free lowering rights are to be given up, and then 5, and 2 more.
fn given_up(rights: &mut Rights) -> (Result<u64, Short>, Result<u64, Short>, Result<u64, Short>)
    requires in_schema { 0 < length rights.old }
    ensures in_schema { 0 < length rights.new }
{
    let many = rights.tighten(STOCK, Kind::Lower, 21);
    let some = rights.tighten(STOCK, Kind::Lower, 5);
    let more = rights.tighten(STOCK, Kind::Lower, 2);
    (many, some, more)
}

/// What is given up of both kinds, the share left of the kind, what is guarded, and the room.
fn left(rights: &Rights) -> [u64; 5]
    requires in_schema { 0 < length rights.now }
{
    [
        rights.tightened(STOCK, Kind::Lower),
        rights.tightened(STOCK, Kind::Raise),
        rights.free(STOCK, Kind::Lower),
        rights.guarded(STOCK, Kind::Lower),
        rights.room(STOCK),
    ]
}

#[test]
fn rights_are_given_up(rt: HostRuntime) {
    let mut rights = half(&rt, rt.alloc(), EVEN);
    let short = Short { share: 20 };
    assert_eq!(rt; given_up(&mut rights), (Err(short), Ok(5), Ok(7)));
    assert_eq!(rt; left(&rights), [7, 0, 13, 20, 50]);
}
