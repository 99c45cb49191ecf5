//! The front of a log that can be let go.

ghost use Rattle.std.specs.Prelude.{◌≡◌, ◌+◌, ◌<◌, ◌^◌, ◌==◌, [], ◌∷◌, ◌++◌, List, ℕ, None, length, position, IfOk, IfSome};
ghost use Rattle.kept_records.specs.declared.record.Record.{Record};
ghost use Rattle.kept_records.specs.Logs.{IsLog};
ghost use Rattle.kept_records.specs.Keeping.{IsKept};
ghost use Rattle.kept_records.specs.ReadingBack.{IsSummaryLine};
ghost use Rattle.kept_records.specs.Stands.{plain};
ghost use Rattle.site_step.specs.Shortening.{later_commit, latest_commit, behind_line, IsInLine, NoneBetween, IsFrontEnd};

use field_bounds::{TxnId, is_up_to};
use history::Unkept;
use kept_records::{LentRecords, Record, RecordLine, by_line, plain_count};
use memchr::memrchr;
use std::alloc::{AllocError, Global};

/// Where the last summary's line starts that starts before this place.
fn summary_before(bytes: &[u8], end: usize) -> Option<usize>
    requires inside { IsInLine bytes.now end }
    ensures line { IfSome result (λ at. IsSummaryLine bytes.now at) }
    ensures before { IfSome result (λ at. at < end) }
    ensures last { IfSome result (λ at. NoneBetween bytes.now (at + 1) end) }
    ensures none { result ≡ None → NoneBetween bytes.now 0 end }
{
    let mut left = end;
    while let Some(at) = memrchr(b'S', &bytes[..left]) {
        if at > 0 && bytes[at - 1] == b'\n' {
            return Some(at);
        }
        left = at;
    }
    None
}

fn line_feed(bytes: &[u8]) -> Option<usize>
    ensures value { result ≡ position (λ b. b == 10) bytes.now }
{
    bytes.iter().position(|b| *b == b'\n')
}

/// How many bytes stand behind the first line.
fn left_behind(bytes: &[u8]) -> usize
    ensures value { result ≡ behind_line bytes.now }
{
    match line_feed(bytes) {
        Some(end) => bytes.len() - end - 1,
        None => 0,
    }
}

/// Where the front ends that a log can let go: where the last summary's line starts behind which so
/// many bytes stand, and another summary's line.
pub(crate) fn front_end(bytes: &[u8], keep: usize) -> Option<usize>
    ensures some { IfSome result (λ end. IsFrontEnd bytes.now keep end) }
    ensures last { IfSome result (λ end. (place : ℕ) → end < place
        → IsFrontEnd bytes.now keep place → ⊥) }
    ensures none { result ≡ None → (place : ℕ) → IsFrontEnd bytes.now keep place → ⊥ }
{
    let end = memrchr(b'\n', bytes)?;
    let mut further = summary_before(bytes, end)?;
    while let Some(at) = summary_before(bytes, further) {
        if keep <= left_behind(&bytes[at..]) {
            return Some(at);
        }
        further = at;
    }
    None
}

/// The greatest transaction so far, this record's commit with it, if it is one.
fn later_commit(latest: TxnId, next: &Record) -> TxnId
    ensures value { result ≡ later_commit latest next.now }
{
    match next.commit_told() {
        Some(txn) => { if is_up_to(latest, txn) { latest } else { txn } }
        None => latest,
    }
}

/// The records of a front, which only proofs see; how many they are, summaries left out; and the
/// greatest transaction whose commit is among them, 0.0 where none is.
#[derive(Drop)]
pub(crate) struct FrontRecords {
    pub gone: Unkept<Record>,
    pub records: u64,
    pub latest: TxnId,
}

impl FrontRecords {
    /// A record more, behind the others.
    fn note(&mut self, next: &Record)
        requires few { self.old.records + 1 < 2 ^ 64 }
        ensures gone { self.new.gone.items ≡ self.old.gone.items ++ next.now ∷ [] }
        ensures records { self.new.records ≡ self.old.records + length (plain (next.now ∷ [])) }
        ensures latest { self.new.latest ≡ later_commit self.old.latest next.now }
    {
        self.gone = self.gone.with(next);
        self.records += plain_count(next) as u64;
        self.latest = later_commit(self.latest, next);
    }
}

/// The records of bytes that are a log. Each is read from its line, and no list of them is made.
/// The error is want of memory.
pub(crate) fn read_front(alloc: Global, bytes: &[u8]) -> Result<FrontRecords, AllocError>
    requires log { IsKept bytes.now }
    ensures gone { IfOk result (λ front. (rs : List Record) (rest : List ℕ) → IsLog bytes.now rs rest
        → front.gone.items ≡ rs) }
    ensures records { IfOk result (λ front. front.records ≡ length (plain front.gone.items)) }
    ensures latest { IfOk result (λ front. front.latest ≡ latest_commit front.gone.items) }
{
    let mut front = FrontRecords {
        gone: Unkept::new(),
        records: 0,
        latest: TxnId {
            epoch: 0,
            number: 0,
        },
    };
    let mut lines = LentRecords::new(alloc, bytes);
    by_line! { 'lines: lines.next_common(), lines.next_line(alloc)?;
        Some(told) => {
            let next = lines.whole(alloc, told);
            front.note(&next);
            lines.give_back(next);
        },
        RecordLine::Record(next) => {
            front.note(&next);
            lines.give_back(next);
        },
        RecordLine::NoRecord => unreachable!(),
        RecordLine::End => break 'lines,
    }
    Ok(front)
}
