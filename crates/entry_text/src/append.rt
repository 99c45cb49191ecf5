//! Replies, and whole entries, spelled piece by piece onto whatever takes text.

ghost use Rattle.std.specs.Prelude.{◌≡◌, ◌+◌, ◌<◌, ◌++◌, ◌∷◌, [], ℕ, List, OnOk, OnErr, length, take, codes, string_bytes};
ghost use Rattle.std.specs.Fmt.{decimal, signed_decimal};
ghost use Rattle.line_words.specs.Words.{line};
ghost use Rattle.entry_text.specs.Spelling.{id_text, found_text, refusal_words, reply_text, entry_text};

use crate::MAX_LINE;
use crate::refusal::refusal_parts;
use crate::spelling::push_command;
use arrayvec::ArrayString;
use field_bounds::{Entry, Last, Refusal, Reply, Schema, TxnId};
use itoa::Buffer;
use std::alloc::AllocError;

/// What text is added to, at its end.
pub(crate) trait AddText {
    /// The bytes that it holds.
    ghost held: { Self → List ℕ };

    /// Adds text. The error is want of memory, or of room where that is fixed, and changes nothing.
    fn add(&mut self, text: &str) -> Result<(), AllocError>
        ensures ok { OnOk result (held self.new ≡ held self.old ++ text.now) }
        ensures err { OnErr result (held self.new ≡ held self.old) };

    /// Adds one digit. The error is as that of `add`, and changes nothing.
    fn add_digit(&mut self, digit: u8) -> Result<(), AllocError>
        requires { digit < 10 }
        ensures ok { OnOk result (held self.new ≡ held self.old ++ (48 + digit) ∷ []) }
        ensures err { OnErr result (held self.new ≡ held self.old) };
}

impl AddText for Vec<u8> {
    ghost held = { λ v. v.items };

    #[inline]
    fn add(&mut self, text: &str) -> Result<(), AllocError> {
        self.extend_from_slice(text.as_bytes())
    }

    #[inline]
    fn add_digit(&mut self, digit: u8) -> Result<(), AllocError> {
        match self.push(b'0' + digit) {
            Ok(()) => Ok(()),
            Err(_) => Err(AllocError),
        }
    }
}

impl AddText for String {
    ghost held = { λ s. string_bytes s };

    fn add(&mut self, text: &str) -> Result<(), AllocError> {
        self.push_str(text)
    }

    fn add_digit(&mut self, digit: u8) -> Result<(), AllocError> {
        self.push(char::from(b'0' + digit))
    }
}

/// Room for so many bytes of text, on the stack.
impl<const CAP: usize> AddText for ArrayString<CAP> {
    ghost held = { λ s. s.bytes };

    #[inline]
    fn add(&mut self, text: &str) -> Result<(), AllocError> {
        self.try_push_str(text).map_err(|_| AllocError)
    }

    #[inline]
    fn add_digit(&mut self, digit: u8) -> Result<(), AllocError> {
        match self.try_push(char::from(b'0' + digit)) {
            Ok(()) => Ok(()),
            Err(_) => Err(AllocError),
        }
    }
}

// Adds a number.
#[inline(always)]
pub(crate) fn push_number<T: AddText>(out: &mut T, number: u64) -> Result<(), AllocError>
    ensures ok { OnOk result (T.held out.new ≡ T.held out.old ++ decimal number) }
    ensures err { OnErr result (T.held out.new ≡ T.held out.old) }
{
    if number < 10 {
        return out.add_digit(number as u8);
    }
    push_digits(out, number)
}

// Adds a number of any size.
fn push_digits<T: AddText>(out: &mut T, number: u64) -> Result<(), AllocError>
    ensures ok { OnOk result (T.held out.new ≡ T.held out.old ++ decimal number) }
    ensures err { OnErr result (T.held out.new ≡ T.held out.old) }
{
    let mut buffer = Buffer::new();
    out.add(buffer.format(number))
}

// Adds a number with its sign.
#[inline]
pub(crate) fn push_signed<T: AddText>(out: &mut T, number: i64) -> Result<(), AllocError>
    ensures ok { OnOk result (T.held out.new ≡ T.held out.old ++ signed_decimal number) }
    ensures err { OnErr result (T.held out.new ≡ T.held out.old) }
{
    let mut buffer = Buffer::new();
    out.add(buffer.format(number))
}

// Adds some words and a number. Always inlined, so that words of a known length are copied without
// a call.
#[inline(always)]
pub(crate) fn push_counted<T: AddText>(
    out: &mut T,
    words: &str,
    number: u64,
) -> Result<(), AllocError>
    ensures ok { OnOk result (T.held out.new ≡ T.held out.old ++ (words.now ++ decimal number)) }
    ensures err { OnErr result (take (length (T.held out.old)) (T.held out.new)
        ≡ T.held out.old) }
{
    out.add(words)?;
    push_number(out, number)
}

// Adds some words and two numbers, a space between them.
pub(crate) fn push_two<T: AddText>(
    out: &mut T,
    words: &str,
    first: u64,
    second: u64,
) -> Result<(), AllocError>
    ensures ok { OnOk result (T.held out.new
        ≡ T.held out.old ++ (words.now ++ (decimal first ++ 32 ∷ decimal second))) }
    ensures err { OnErr result (take (length (T.held out.old)) (T.held out.new)
        ≡ T.held out.old) }
{
    push_counted(out, words, first)?;
    push_counted(out, " ", second)
}

// Adds some words and a transaction.
#[inline]
pub(crate) fn push_txn<T: AddText>(out: &mut T, words: &str, txn: TxnId) -> Result<(), AllocError>
    ensures ok { OnOk result (T.held out.new ≡ T.held out.old ++ (words.now ++ id_text txn)) }
    ensures err { OnErr result (take (length (T.held out.old)) (T.held out.new)
        ≡ T.held out.old) }
{
    push_counted(out, words, u64::from(txn.epoch))?;
    push_counted(out, ".", u64::from(txn.number))
}

#[inline]
fn push_between<T: AddText>(out: &mut T, lo: i64, hi: i64) -> Result<(), AllocError>
    ensures ok { OnOk result (T.held out.new ≡ T.held out.old
        ++ line (codes "between" ∷ signed_decimal lo ∷ signed_decimal hi ∷ [])) }
    ensures err { OnErr result (take (length (T.held out.old)) (T.held out.new)
        ≡ T.held out.old) }
{
    out.add("between ")?;
    push_signed(out, lo)?;
    out.add(" ")?;
    push_signed(out, hi)
}

fn last_word(last: Last) -> &'static str
    ensures { result.now ≡ found_text last }
{
    match last {
        Last::Nothing => "nothing",
        Last::Kept => "kept",
        Last::Lost => "lost",
    }
}

fn push_restarted<T: AddText>(out: &mut T, epoch: u32, last: Last) -> Result<(), AllocError>
    ensures ok { OnOk result (T.held out.new ≡ T.held out.old
        ++ line (codes "restarted" ∷ decimal epoch ∷ found_text last ∷ [])) }
    ensures err { OnErr result (take (length (T.held out.old)) (T.held out.new)
        ≡ T.held out.old) }
{
    push_counted(out, "restarted ", u64::from(epoch))?;
    out.add(" ")?;
    out.add(last_word(last))
}

fn push_refusal<T: AddText>(out: &mut T, refusal: Refusal) -> Result<(), AllocError>
    ensures ok { OnOk result (T.held out.new
        ≡ T.held out.old ++ line (codes "refused" ∷ refusal_words refusal)) }
    ensures err { OnErr result (take (length (T.held out.old)) (T.held out.new)
        ≡ T.held out.old) }
{
    let (words, told) = refusal_parts(refusal);
    match told {
        None => out.add(words),
        Some(number) => {
            out.add(words)?;
            push_counted(out, " ", number)
        }
    }
}

// Adds the text of the reply. Where memory is refused a front of it may have been added.
#[inline]
fn push_reply<T: AddText>(out: &mut T, reply: Reply) -> Result<(), AllocError>
    ensures ok { OnOk result (T.held out.new ≡ T.held out.old ++ reply_text reply) }
    ensures err { OnErr result (take (length (T.held out.old)) (T.held out.new)
        ≡ T.held out.old) }
{
    match reply {
        Reply::Begun(txn) => push_txn(out, "begun ", txn),
        Reply::Granted => out.add("granted"),
        Reply::Committed => out.add("committed"),
        Reply::Aborted => out.add("aborted"),
        Reply::Given { total } => push_counted(out, "given ", total),
        Reply::Stated { total } => push_counted(out, "stated ", total),
        Reply::Spared { amount, total } => push_two(out, "spared ", amount, total),
        Reply::Tightened { total } => push_counted(out, "tightened ", total),
        Reply::Accepted { gain } => push_counted(out, "accepted ", gain),
        Reply::Between { lo, hi } => push_between(out, lo, hi),
        Reply::Shares { lower, raise } => push_two(out, "share ", lower, raise),
        Reply::Restarted { epoch, last } => push_restarted(out, epoch, last),
        Reply::Unsure => out.add("unsure"),
        Reply::StillDown => out.add("still down"),
        Reply::Refused(refusal) => push_refusal(out, refusal),
    }
}

/// Adds the text of the reply, as it stands behind the arrow of an entry, behind what `out` holds.
/// The error is want of memory, and leaves `out` as it was. Costs no memory but that of `out`.
pub fn append_reply(out: &mut Vec<u8>, reply: Reply) -> Result<(), AllocError>
    ensures ok { OnOk result (out.new.items ≡ out.old.items ++ reply_text reply) }
    ensures err { OnErr result (out.new.items ≡ out.old.items) }
{
    let kept = out.len();
    if push_reply(out, reply).is_err() {
        out.truncate(kept);
        return Err(AllocError);
    }
    Ok(())
}

/// Adds the text of the entry under the schema. Where memory is refused any of it may have been
/// added.
#[inline(never)]
pub(crate) fn push_entry<T: AddText>(
    out: &mut T,
    schema: &Schema,
    entry: Entry,
) -> Result<(), AllocError>
    ensures { OnOk result (T.held out.new ≡ T.held out.old ++ entry_text schema.now entry) }
{
    push_command(out, schema, entry.site, entry.command)?;
    out.add(" -> ")?;
    push_reply(out, entry.reply)
}

/// Adds the text of the entry under the schema, without an LF, behind what `out` holds. The error
/// is want of memory, and leaves `out` as it was. The entry is spelled on the stack, where every
/// entry under a schema has room, so that line after line costs no memory but that of `out`.
pub fn append_entry(out: &mut Vec<u8>, schema: &Schema, entry: Entry) -> Result<(), AllocError>
    ensures ok { OnOk result (out.new.items ≡ out.old.items ++ entry_text schema.now entry) }
    ensures err { OnErr result (out.new.items ≡ out.old.items) }
{
    let mut line = ArrayString::<MAX_LINE>::new();
    push_entry(&mut line, schema, entry)?;
    out.add(line.as_str())
}
