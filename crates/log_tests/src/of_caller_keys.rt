//! Worked keys, notes and texts. The hexadecimal digits of keys were typed from a table of ASCII.

use caller_keys::{KeyTable, push_note, read_key, split_notes};
use field_bounds::TxnId;
use std::alloc::{AllocError, Global};
use std::process::Abort;

/// So many bytes, each of which a key may have.
const LETTERS: &[u8] = b"ABCDEFGHIJKLMNOPQRSTUVWXYZabcdefghijklmnopqrstuvwxyz0123456789.-_";

fn txn(epoch: u32, number: u32) -> TxnId {
    TxnId { epoch, number }
}

/// The last transaction that the table tells of a word, or None where it tells none or the word is no
/// key.
fn last_of(keys: &KeyTable, word: &[u8]) -> Option<TxnId> {
    match read_key(word) {
        Some(key) => keys.last(key),
        None => None,
    }
}

/// Notes a transaction of a word, where it is a key.
fn note(keys: &mut KeyTable, word: &[u8], txn: TxnId) -> Result<bool, AllocError> {
    let Some(key) = read_key(word) else {
        return Ok(false);
    };
    keys.reserve()?;
    keys.note(key, txn);
    Ok(true)
}

/// The line of a note behind these bytes, or None where the word is no key.
fn noted(
    alloc: Global,
    before: &[u8],
    word: &[u8],
    txn: TxnId,
) -> Result<Option<Vec<u8>>, AllocError> {
    let mut out = Vec::from_slice(alloc, before)?;
    match read_key(word) {
        Some(key) => {
            push_note(&mut out, key, txn)?;
            Ok(Some(out))
        }
        None => Ok(None),
    }
}

/// The text has these records, and tells of the key `order-17` this transaction.
fn splits(alloc: Global, text: &[u8], records: &[u8], last: Option<TxnId>) -> bool {
    match split(alloc, text) {
        Ok((keys, found)) => found.as_slice() == records && last_of(&keys, b"order-17") == last,
        Err(AllocError) => false,
    }
}

fn split(alloc: Global, text: &[u8]) -> Result<(KeyTable, Vec<u8>), AllocError> {
    split_notes(alloc, Vec::from_slice(alloc, text)?)
}

/// The text is records alone, and none of its lines tells of these keys.
fn is_records(alloc: Global, text: &[u8]) -> bool {
    match split(alloc, text) {
        Ok((keys, found)) => found.as_slice() == text && tells_nothing(&keys),
        Err(AllocError) => false,
    }
}

fn tells_nothing(keys: &KeyTable) -> bool {
    let words: [&[u8]; 6] = [b"a", b"o", b"order-17", b"ab", b"J", b"j"];
    words.iter().all(|word| last_of(keys, *word).is_none())
}

/// Each text is records alone.
fn assert_records(rt: &impl Abort, alloc: Global, texts: &[&str]) {
    for text in texts {
        assert!(rt; is_records(alloc, text.as_bytes()), "{text}");
    }
}

#[test]
fn keys_are_told_from_other_words(rt: HostRuntime) {
    let keys = [
        read_key(b"a").is_some(),
        read_key(b"-").is_some(),
        read_key(b"order-17").is_some(),
        read_key(b"2026-11-28T09.15_Z").is_some(),
        read_key(&LETTERS[..64]).is_some(),
        read_key(&LETTERS[1..65]).is_some(),
    ];
    assert_eq!(&rt; keys, [true; 6]);
    let others = [
        read_key(b"").is_none(),
        read_key(LETTERS).is_none(),
        read_key(b"order 17").is_none(),
        read_key(b"order/17").is_none(),
        read_key(b"order:17").is_none(),
        read_key(b"order17\n").is_none(),
        read_key(b"@").is_none(),
        read_key(b"[").is_none(),
        read_key(b"`").is_none(),
        read_key(b"{").is_none(),
        read_key(b"na\xc3\xafve").is_none(),
        read_key(b"\x00").is_none(),
    ];
    assert_eq!(&rt; others, [true; 12]);
}

#[test]
fn a_note_is_a_line(rt: HostRuntime) {
    let alloc = rt.alloc();
    let first = noted(alloc, b"R 1\n", b"order-17", txn(3, 17)).expect(&rt, "memory");
    assert!(&rt;
        first.expect(&rt, "a key").as_slice() == b"R 1\nK 3 17 6F726465722D3137\n".as_slice()
    );
    let zero = noted(alloc, b"", b"Zz_9.", txn(0, 4294967295)).expect(&rt, "memory");
    assert!(&rt; zero.expect(&rt, "a key").as_slice() == b"K 0 4294967295 5A7A5F392E\n".as_slice());
}

#[test]
fn the_last_note_of_a_key_counts(rt: HostRuntime) {
    let alloc = rt.alloc();
    let mut keys = KeyTable::new(alloc);
    assert_eq!(&rt; last_of(&keys, b"a"), None);
    let rows = [
        note(&mut keys, b"a", txn(1, 1)),
        note(&mut keys, b"aa", txn(1, 2)),
        note(&mut keys, b"A", txn(1, 3)),
        note(&mut keys, b"a", txn(2, 1)),
        note(&mut keys, &LETTERS[..64], txn(2, 2)),
        note(&mut keys, &LETTERS[..63], txn(2, 3)),
    ];
    assert!(&rt; rows == [Ok(true); 6]);
    let found = [
        last_of(&keys, b"a"),
        last_of(&keys, b"aa"),
        last_of(&keys, b"A"),
        last_of(&keys, &LETTERS[..64]),
        last_of(&keys, &LETTERS[..63]),
    ];
    let told = [
        Some(txn(2, 1)),
        Some(txn(1, 2)),
        Some(txn(1, 3)),
        Some(txn(2, 2)),
        Some(txn(2, 3)),
    ];
    assert!(&rt; found == told);
    assert_eq!(&rt; last_of(&keys, &LETTERS[1..64]), None);
    assert_eq!(&rt; last_of(&keys, b"aaa"), None);
}

#[test]
fn notes_are_split_from_records(rt: HostRuntime) {
    let alloc = rt.alloc();
    let rows = [
        splits(alloc, b"", b"", None),
        splits(alloc, b"R 1\nC 1 1 0 -15\n", b"R 1\nC 1 1 0 -15\n", None),
        splits(
            alloc,
            b"R 1\nK 1 1 6F726465722D3137\nC 1 1 0 -15\n",
            b"R 1\nC 1 1 0 -15\n",
            Some(txn(1, 1)),
        ),
        splits(
            alloc,
            b"K 1 1 6F726465722D3137\nK 1 2 61\nC 1 2 0 -1\nK 2 5 6F726465722D3137\nC 2 5 0 -1\n",
            b"C 1 2 0 -1\nC 2 5 0 -1\n",
            Some(txn(2, 5)),
        ),
        splits(
            alloc,
            b"K 7 1 6F726465722D3137\nK 6 9 6F726465722D3137\n",
            b"",
            Some(txn(6, 9)),
        ),
        splits(
            alloc,
            b"K 1 1 6F726465722D3137\nC 1 1 0",
            b"C 1 1 0",
            Some(txn(1, 1)),
        ),
        splits(
            alloc,
            b"R 1\nK 1 1 6F726465722D3137",
            b"R 1\nK 1 1 6F726465722D3137",
            None,
        ),
    ];
    assert_eq!(&rt; rows, [true; 7]);
}

#[test]
fn other_lines_are_records(rt: HostRuntime) {
    let alloc = rt.alloc();
    assert_records(
        &rt,
        alloc,
        &[
            "K 1 1 6f\n",
            "K 1 1 6a\n",
            "K 1 1 4a\n",
            "k 1 1 61\n",
            "K 01 1 61\n",
            "K 1 01 61\n",
            "K -1 1 61\n",
            "K 4294967296 1 61\n",
            "K 1 4294967296 61\n",
            "K 18446744073709551616 1 61\n",
            "K 1 1\n",
            "K 1 1 \n",
            "K 1 61\n",
            "K 1 1 6\n",
            "K 1 1 616\n",
            "K 1 1 61 \n",
            "K 1 1 61 61\n",
            "K 1 1  61\n",
            "K  1 1 61\n",
            " K 1 1 61\n",
            "K 1 1 61\r\n",
            "K 1 1 20\n",
            "K 1 1 2F\n",
            "K 1 1 G1\n",
            "K\n",
            "CK 1 1 61\n",
            "C 1 1 0 5K 1 1 61\n",
        ],
    );
}

#[test]
fn a_key_has_64_bytes_at_most(rt: HostRuntime) {
    let alloc = rt.alloc();
    let most =
        "K 1 1 41414141414141414141414141414141414141414141414141414141414141414141414141414141414141414141414141414141414141414141414141414141\n";
    let (keys, records) = split(alloc, most.as_bytes()).expect(&rt, "memory");
    assert_eq!(&rt; records.len(), 0);
    let key = b"AAAAAAAAAAAAAAAAAAAAAAAAAAAAAAAAAAAAAAAAAAAAAAAAAAAAAAAAAAAAAAAA";
    assert_eq!(&rt; last_of(&keys, key), Some(txn(1, 1)));
    let beyond =
        "K 1 1 4141414141414141414141414141414141414141414141414141414141414141414141414141414141414141414141414141414141414141414141414141414141\n";
    assert!(&rt; is_records(alloc, beyond.as_bytes()));
}
