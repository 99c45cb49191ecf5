//! Desks that two threads call at the same time.

ghost use Rattle.std.specs.Prelude.{◌≡◌, ◌<◌};

use super::*;
use check_kit::{Meeting, comes, command};

/// Whether a begin is answered, and an abort of what was begun.
fn begins_and_aborts<L: Ledger, R: Wait>(
    rt: &R,
    alloc: Global,
    desk: &Desk<L, MemoryMedium>,
    pass: &mut Pass<L>,
    receipts: &mut Vec<Receipt>,
) -> bool {
    let Some(Reply::Begun(txn)) = served(rt, alloc, desk, pass, Command::Begin, receipts) else {
        return false;
    };
    served(rt, alloc, desk, pass, Command::Abort { txn }, receipts).is_some()
}

/// The same fifty times.
fn begin_and_abort<L: Ledger, R: Wait>(
    rt: &R,
    alloc: Global,
    desk: &Desk<L, MemoryMedium>,
    pass: &mut Pass<L>,
) -> Option<Vec<Receipt>> {
    let mut receipts = Vec::new(alloc);
    for _turn in 0..50u32 {
        if !begins_and_aborts(rt, alloc, desk, pass, &mut receipts) {
            return None;
        }
    }
    Some(receipts)
}

/// Whether there are receipts, and they are added behind the others.
fn adds_all(receipts: &mut Vec<Receipt>, more: Option<Vec<Receipt>>) -> bool {
    match more {
        Some(more) => receipts.extend_from_slice(&more).is_ok(),
        None => false,
    }
}

/// Whether two threads with one of the two passes each are served, with the receipts of the first
/// in front.
fn both_begin_and_abort<L: Ledger + Send + Sync, R: Threads + Wait + Sync>(
    rt: &R,
    alloc: Global,
    desk: &Desk<L, MemoryMedium>,
    passes: &mut [Pass<L>],
    receipts: &mut Vec<Receipt>,
) -> bool {
    let Some((first, rest)) = passes.split_first_mut() else {
        return false;
    };
    let Some(second) = rest.first_mut() else {
        return false;
    };
    let (of_first, of_second) = thread::join(
        rt,
        move || begin_and_abort(rt, alloc, desk, first),
        move || begin_and_abort(rt, alloc, desk, second),
    );
    adds_all(receipts, of_first) && adds_all(receipts, of_second)
}

/// How many entries a close with one of two passes found, and how many passes it handed back.
type Refused = (u64, usize);

/// The desk closed with this pass too, after a close without it was refused.
fn closed_after_all<L: Ledger>(
    rt: &impl Abort,
    refused: CloseError<L, MemoryMedium>,
    second: Pass<L>,
) -> (Refused, Closed<MemoryMedium>) {
    let CloseError {
        desk,
        mut passes,
        length,
        found: _,
    } = refused;
    let handed_back = passes.len();
    passes.push(second).expect(rt, "memory");
    ((length, handed_back), closed_with(rt, desk, passes))
}

/// The desk closed with all passes, after a close without the last was refused.
fn closed_at_last<L: Ledger>(
    rt: &impl Abort,
    desk: Desk<L, MemoryMedium>,
    passes: Vec<Pass<L>>,
) -> (Refused, Closed<MemoryMedium>) {
    let mut passes = passes;
    let second = passes.pop().expect(rt, "a pass");
    let refused = desk.close(passes).err().expect(rt, "refused");
    closed_after_all(rt, refused, second)
}

/// What two threads with a pass each leave behind: whether both were served, what a close with one
/// of the passes gave, how many entries the closed site has, how many receipts there are, and
/// whether they are those of the site.
#[derive(Clone, Copy)]
struct Left {
    served: bool,
    refused: Refused,
    entries: usize,
    receipts: usize,
    verdict: Result<(), ReceiptFault>,
}

/// What the closed site and the receipts show.
fn left_by(
    alloc: Global,
    served: bool,
    refused: Refused,
    closed: Closed<MemoryMedium>,
    receipts: &[Receipt],
) -> Left {
    Left {
        served,
        refused,
        entries: closed.history().len(),
        receipts: receipts.len(),
        verdict: check_receipts(alloc, &closed, receipts),
    }
}

/// What two threads at a desk of two passes leave behind.
fn two_threads<L: Ledger + Send + Sync, R: Abort + Threads + Wait + Sync>(
    rt: &R,
    alloc: Global,
    blank: Blank,
) -> Left
    requires name { blank.name ≡ L.name }
    requires parts { blank.parts ≡ L.parts }
    requires some { 0 < blank.parts }
{
    let mut receipts = Vec::new(alloc);
    let (desk, mut passes) = desk_over::<L>(rt, alloc, blank, 0, &[]);
    let served = both_begin_and_abort(rt, alloc, &desk, &mut passes, &mut receipts);
    let (refused, closed) = closed_at_last(rt, desk, passes);
    left_by(alloc, served, refused, closed, &receipts)
}

/// The same of a desk of its own.
fn two_threads_of<R: Abort + Threads + Wait + Sync>(rt: &R, alloc: Global) -> Left {
    two_threads::<Brand, R>(rt, alloc, Blank::new(2))
}

/// Both threads made a hundred calls each, and each call has its receipt.
fn assert_left(rt: &impl Abort, left: &Left) {
    assert!(rt; left.served);
    assert_eq!(rt; left.refused, (200, 1));
    assert_eq!(rt; left.receipts, 200);
    assert_eq!(rt; left.entries, 200);
    assert_eq!(rt; left.verdict, Ok(()));
}

#[test]
fn two_threads_call_one_desk(rt: HostRuntime) {
    assert_left(&rt, &two_threads_of(&rt, rt.alloc()));
}

/// A gate at which the first calls of two sites meet.
#[derive(Drop)]
struct Both(Meeting);

impl Gate for Both {
    fn inside(&self, site: SiteNo, call: u64) -> bool {
        self.0.meets(site, call)
    }

    fn answered(&self, _site: SiteNo, _call: u64) {}
}

/// A gate that lets another thread call the desk while a call is inside it, and looks for a while
/// whether that thread is served by then. Once its own call was answered it waits until it is.
#[derive(Drop)]
struct Order {
    inside: AtomicU64,
    other: AtomicU64,
    early: AtomicU64,
    late: AtomicU64,
}

impl Gate for Order {
    fn inside(&self, _site: SiteNo, _call: u64) -> bool {
        self.inside.store(1, Ordering::SeqCst);
        if comes(&self.other, 10_000_000) {
            self.early.store(1, Ordering::SeqCst);
        }
        true
    }

    fn answered(&self, _site: SiteNo, _call: u64) {
        if comes(&self.other, 20_000_000_000) {
            self.late.store(1, Ordering::SeqCst);
        }
    }
}

/// The number of a begin's entry at the gate.
fn begin_at<L: Ledger, R: Wait>(
    rt: &R,
    alloc: Global,
    desk: &Desk<L, MemoryMedium>,
    pass: &mut Pass<L>,
    gate: &Order,
) -> Option<u64> {
    let receipt = desk.call_at(rt, alloc, pass, Command::Begin, gate).ok()?;
    Some(receipt.number())
}

/// The number of a begin's entry without the gate, asked for once a call is inside it.
fn begin_beside<L: Ledger, R: Wait>(
    rt: &R,
    alloc: Global,
    desk: &Desk<L, MemoryMedium>,
    pass: &mut Pass<L>,
    gate: &Order,
) -> Option<u64> {
    if !comes(&gate.inside, 20_000_000_000) {
        return None;
    }
    let receipt = desk.call(rt, alloc, pass, Command::Begin).ok()?;
    gate.other.store(1, Ordering::SeqCst);
    Some(receipt.number())
}

/// The numbers of two begins, the first of them at the gate.
fn both_begin<L: Ledger + Send + Sync, R: Threads + Wait + Sync>(
    rt: &R,
    alloc: Global,
    desk: &Desk<L, MemoryMedium>,
    passes: &mut [Pass<L>],
    gate: &Order,
) -> Option<(Option<u64>, Option<u64>)> {
    let (first, rest) = passes.split_first_mut()?;
    let second = rest.first_mut()?;
    Some(thread::join(
        rt,
        move || begin_at(rt, alloc, desk, first, gate),
        move || begin_beside(rt, alloc, desk, second, gate),
    ))
}

/// The same of a desk that is opened for it.
fn both_begin_there<L: Ledger + Send + Sync, R: Abort + Threads + Wait + Sync>(
    rt: &R,
    alloc: Global,
    blank: Blank,
    gate: &Order,
) -> Option<(Option<u64>, Option<u64>)>
    requires name { blank.name ≡ L.name }
    requires parts { blank.parts ≡ L.parts }
    requires some { 0 < blank.parts }
{
    let (desk, mut passes) = desk_over::<L>(rt, alloc, blank, 0, &[]);
    both_begin(rt, alloc, &desk, &mut passes, gate)
}

/// The same of a desk of two passes.
fn both_begin_of<R: Abort + Threads + Wait + Sync>(
    rt: &R,
    alloc: Global,
    gate: &Order,
) -> Option<(Option<u64>, Option<u64>)> {
    both_begin_there::<Brand, R>(rt, alloc, Blank::new(2), gate)
}

#[test]
fn a_gate_is_passed_under_the_lock_and_told_after_it(rt: HostRuntime) {
    let gate = Order {
        inside: AtomicU64::new(0),
        other: AtomicU64::new(0),
        early: AtomicU64::new(0),
        late: AtomicU64::new(0),
    };
    let numbers = both_begin_of(&rt, rt.alloc(), &gate);
    assert_eq!(rt; numbers, Some((Some(1), Some(2))));
    assert_eq!(rt; gate.early.load(Ordering::SeqCst), 0);
    assert_eq!(rt; gate.late.load(Ordering::SeqCst), 1);
}

/// The receipt of a read at the gate with the first pass.
fn read_at<L: Ledger, R: Wait>(
    rt: &R,
    alloc: Global,
    desk: &Desk<L, MemoryMedium>,
    passes: &mut [Pass<L>],
    gate: &Both,
) -> Option<Receipt> {
    let read = command!(read stock);
    desk.call_at(rt, alloc, passes.first_mut()?, read, gate)
        .ok()
}

/// A closed site, and the receipt of a read.
type Read = (Closed<MemoryMedium>, Option<Receipt>);

/// One read of a desk of its own at the gate.
fn one_read<L: Ledger, R: Abort + Wait>(
    rt: &R,
    alloc: Global,
    blank: Blank,
    site: u16,
    gate: &Both,
) -> Read
    requires name { blank.name ≡ L.name }
    requires parts { blank.parts ≡ L.parts }
    requires some { 0 < blank.parts }
{
    let (desk, mut passes) = desk_over::<L>(rt, alloc, blank, site, &[]);
    let receipt = read_at(rt, alloc, &desk, &mut passes, gate);
    (closed_with(rt, desk, passes), receipt)
}

/// The same of a desk that has the only pass.
fn one_read_of<R: Abort + Wait + Sync>(rt: &R, alloc: Global, site: u16, gate: &Both) -> Read {
    one_read::<Brand, R>(rt, alloc, Blank::new(1), site, gate)
}

/// The receipt of such a read, without the closed site.
fn receipt_of<R: Abort + Wait + Sync>(
    rt: &R,
    alloc: Global,
    site: u16,
    gate: &Both,
) -> Option<Receipt> {
    let (_closed, receipt) = one_read_of(rt, alloc, site, gate);
    receipt
}

/// Whether this receipt alone is that of the closed site's entries, and None for no receipt.
fn verdict_alone(
    alloc: Global,
    closed: &Closed<MemoryMedium>,
    receipt: Option<Receipt>,
) -> Option<Result<(), ReceiptFault>> {
    Some(check_receipts(alloc, closed, &[receipt?]))
}

/// The check of both receipts beside the closed site of the first read: its own is that of the
/// site's only entry, and the other one isn't.
fn assert_verdicts(rt: &impl Abort, alloc: Global, read: Read, foreign: Option<Receipt>) {
    let (closed, own) = read;
    assert_eq!(rt; verdict_alone(alloc, &closed, own), Some(Ok(())));
    let differs = ReceiptFault::Differs {
        site: SiteNo(1),
        number: 1,
    };
    assert_eq!(rt; verdict_alone(alloc, &closed, foreign), Some(Err(differs)));
}

#[test]
fn two_desks_are_called_at_the_same_time(rt: HostRuntime) {
    let alloc = rt.alloc();
    let gate = Both(Meeting::new());
    let shared = &gate;
    let handle = &rt;
    let (zero, foreign) = thread::join(
        &rt,
        move || one_read_of(handle, alloc, 0, shared),
        move || receipt_of(handle, alloc, 1, shared),
    );
    assert_verdicts(&rt, alloc, zero, foreign);
}
