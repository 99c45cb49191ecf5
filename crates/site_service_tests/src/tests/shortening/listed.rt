//! A transaction that is open while the log lets go of commits of later ones.

use super::*;
use check_kit::STOCK;
use field_bounds::Command;

/// A log without records.
const EMPTY: &str = "escrow log 2
number 0
world 145aa8408cfe4e170aa9ab522fe2e8b9b4c23917b59218cbdada91cf44b1183a
head 0 0
sum 00001dc100065641
";

/// With what it begins once it was shortened. Gone are `R 1`, of 4 bytes, and the commits of 1.2 to
/// 1.1000, which raise the stock by one where the number is even, and else lower it by one. Those of
/// one digit have 84 bytes, those of two 1,035, those of three 11,250, and that of four has 13. Of
/// the site's 20 rights to lower one more is left, since 500 raise and 499 lower. 1.1 is listed.
const BEGINS: &str = "escrow log 3
number 0
world 145aa8408cfe4e170aa9ab522fe2e8b9b4c23917b59218cbdada91cf44b1183a
head 12386 1000
horizon 1 1000 1
sum 000023bd00097304
S 1 1 21 29
C 1 1001 0 -1
";

fn change_of(number: u32) -> i64 {
    if number % 2 == 0 { 1 } else { -1 }
}

/// Begins the transaction of this number, which gets its right to one.
fn begin_one<F: LogFile>(rt: &impl Abort, alloc: Global, service: &mut Service<F>, number: u32) {
    let txn = TxnId { epoch: 1, number };
    let escrow = Command::Escrow {
        txn,
        field: STOCK,
        change: change_of(number),
    };
    service.apply(alloc, Command::Begin).expect(rt, "memory");
    service.apply(alloc, escrow).expect(rt, "memory");
}

/// Begins and commits the transactions of these numbers, and lets their answers out.
fn commit_each<F: LogFile>(
    rt: &impl Abort,
    alloc: Global,
    service: &mut Service<F>,
    first: u32,
    last: u32,
) {
    for number in first..last {
        begin_one(rt, alloc, service, number);
        let txn = TxnId { epoch: 1, number };
        service
            .apply(alloc, Command::Commit { txn })
            .expect(rt, "memory");
    }
    let told = let_out(alloc, service);
    assert_eq!(rt; told.0, Ok(()));
}

/// Transactions, and whether their commits are kept once the log was shortened.
const TOLD: [(u32, CommitAnswer); 6] = [
    (1, CommitAnswer::No),
    (2, CommitAnswer::Forgotten),
    (1000, CommitAnswer::Forgotten),
    (1001, CommitAnswer::Yes),
    (2000, CommitAnswer::Yes),
    (2001, CommitAnswer::No),
];

/// Tests what is told of each.
fn assert_told_of<F: LogFile>(
    rt: &impl Abort,
    alloc: Global,
    service: &mut Service<F>,
    rows: &[(u32, CommitAnswer)],
) {
    for (number, wanted) in rows {
        let txn = TxnId {
            epoch: 1,
            number: *number,
        };
        assert_eq!(rt; service.has_kept(alloc, txn), Ok(*wanted), "at {number}");
    }
}

#[test]
fn an_open_transaction_is_not_forgotten(rt: HostRuntime) {
    let alloc = rt.alloc();
    let identity = identity(&rt, alloc);
    let mut files = files(&rt, alloc, EMPTY);
    let mut service = serve_over(&rt, alloc, &identity, &mut files);
    begin_one(&rt, alloc, &mut service, 1);
    commit_each(&rt, alloc, &mut service, 2, 2001);
    assert_eq!(&rt; shorten(&rt, alloc, &mut service, ""), Ok(()));
    assert_told_of(&rt, alloc, &mut service, &TOLD);
    assert_answer(
        &rt,
        alloc,
        &mut service,
        "0 commit 1.1",
        "0 commit 1.1 -> committed\n",
    );
    assert_told_of(&rt, alloc, &mut service, &[(1, CommitAnswer::Yes)]);
    drop(service);
    assert!(&rt; files.file.bytes().starts_with(BEGINS.as_bytes()));
    assert!(&rt; files.file.safe().starts_with(BEGINS.as_bytes()));
}
