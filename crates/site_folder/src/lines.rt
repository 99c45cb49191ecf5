//! The lines of a text that tells a number, the own name of a world that has one, the name of a world,
//! and a header.

ghost use Rattle.std.specs.Prelude.{◌≡◌, ◌≢◌, ◌<◌, ◌^◌, ◌++◌, ℕ, List, None, Some, codes, option_map, MatchOption, IfSome, IfNone, IfOk, IfErr};
ghost use Rattle.std.specs.Fmt.{decimal};
ghost use Rattle.site_folder.specs.Identity.{IsOneLine, line_then, version_line};
ghost use Rattle.site_folder.specs.Reading.{AreLast, Tells, TellsLines, IsRefused};

use crate::fault::IdentityFault;
use line_words::{read_number, split_line};

/// What the lines of a text tell, whether or not it is so.
#[derive(Clone, Copy)]
pub(crate) struct Told<'a> {
    /// The name that the world has of its own.
    pub name: Option<&'a [u8]>,
    pub number: u64,
    pub world: &'a [u8],
    pub header: &'a [u8],
}

// What stands behind a word at the front of the bytes, or None where it doesn't stand there.
fn behind<'a>(bytes: &'a [u8], word: &[u8]) -> Option<&'a [u8]>
    ensures rest { MatchOption result ((rest : List ℕ) → bytes.now ≢ word.now ++ rest)
        (λ rest. bytes.now ≡ word.now ++ rest.now) }
{
    match bytes.strip_prefix(word) {
        Some(rest) => Some(rest),
        None => None,
    }
}

// What stands behind a word in the first line, and what stands behind the line, or None where it
// isn't a line that begins with the word.
fn split_behind<'a>(bytes: &'a [u8], word: &[u8]) -> Option<(&'a [u8], &'a [u8])>
    ensures some { IfSome result (λ parts. IsOneLine parts.0.now
        × (bytes.now ≡ line_then (word.now ++ parts.0.now) parts.1.now)) }
    ensures none { IfNone result ((line rest : List ℕ)
        → bytes.now ≢ line_then (word.now ++ line) rest) }
{
    let bytes = behind(bytes, word)?;
    let (line, bytes) = split_line(bytes)?;
    Some((line, bytes))
}

// The number that the first line tells, and what stands behind the line.
fn split_number(bytes: &[u8]) -> Option<(u64, &[u8])>
    ensures some { IfSome result (λ parts. (parts.0 < 2 ^ 64)
        × (bytes.now ≡ line_then (codes "number " ++ decimal parts.0) parts.1.now)) }
    ensures none { IfNone result ((number : ℕ) (rest : List ℕ) → number < 2 ^ 64
        → bytes.now ≢ line_then (codes "number " ++ decimal number) rest) }
{
    let (word, bytes) = split_behind(bytes, b"number ")?;
    let number = read_number(word)?;
    Some((number, bytes))
}

// The name of a world and the header that the bytes tell, which are two lines, or None where they
// aren't.
fn last_lines(bytes: &[u8]) -> Option<(&[u8], &[u8])>
    ensures some { IfSome result (λ lines. AreLast bytes.now lines.0.now lines.1.now) }
    ensures none { IfNone result ((world header : List ℕ) → AreLast bytes.now world header → ⊥) }
{
    let (world, bytes) = split_behind(bytes, b"world ")?;
    let (header, bytes) = split_line(bytes)?;
    if bytes.is_empty() {
        Some((world, header))
    } else {
        None
    }
}

// What the lines behind that of version 1 tell, or None where they are other lines.
fn read_first(bytes: &[u8]) -> Option<Told<'_>>
    ensures some { IfSome result (λ told.
        (version_line (option_map (λ n. n.now) told.name) ≡ codes "escrow site 1")
        × Tells bytes.now (option_map (λ n. n.now) told.name) told.number told.world.now
        told.header.now) }
    ensures none { IfNone result ((number : ℕ) (world header : List ℕ)
        → Tells bytes.now None number world header → ⊥) }
{
    let (number, bytes) = split_number(bytes)?;
    let (world, header) = last_lines(bytes)?;
    Some(Told {
        name: None,
        number,
        world,
        header,
    })
}

// What the lines behind that of version 2 tell, or None where they are other lines.
fn read_second(bytes: &[u8]) -> Option<Told<'_>>
    ensures some { IfSome result (λ told.
        (version_line (option_map (λ n. n.now) told.name) ≡ codes "escrow site 2")
        × Tells bytes.now (option_map (λ n. n.now) told.name) told.number told.world.now
        told.header.now) }
    ensures none { IfNone result ((name : List ℕ) (number : ℕ) (world header : List ℕ)
        → Tells bytes.now (Some name) number world header → ⊥) }
{
    let (number, bytes) = split_number(bytes)?;
    let (name, bytes) = split_behind(bytes, b"name ")?;
    let (world, header) = last_lines(bytes)?;
    Some(Told {
        name: Some(name),
        number,
        world,
        header,
    })
}

// What the lines behind that of a version tell, or the fault that they are other lines.
fn told_lines(told: Option<Told<'_>>) -> Result<Told<'_>, IdentityFault>
    ensures lines { MatchOption told.entry (result ≡ Err IdentityFault.NoIdentity) (λ t. result ≡ Ok t) }
{
    match told {
        Some(told) => Ok(told),
        None => Err(IdentityFault::NoIdentity),
    }
}

// What stands behind the line of version 1, or None where the first line is another.
fn behind_first(text: &[u8]) -> Option<&[u8]>
    ensures rest { MatchOption result ((rest : List ℕ) → text.now ≢ line_then (codes "escrow site 1") rest)
        (λ rest. text.now ≡ line_then (codes "escrow site 1") rest.now) }
{
    behind(text, b"escrow site 1\n")
}

// What stands behind the line of version 2, or None where the first line is another.
fn behind_second(text: &[u8]) -> Option<&[u8]>
    ensures rest { MatchOption result ((rest : List ℕ) → text.now ≢ line_then (codes "escrow site 2") rest)
        (λ rest. text.now ≡ line_then (codes "escrow site 2") rest.now) }
{
    behind(text, b"escrow site 2\n")
}

/// What the lines of a text tell. The fault is `Version` or `NoIdentity`.
pub(crate) fn read_lines(text: &[u8]) -> Result<Told<'_>, IdentityFault>
    ensures ok { IfOk result (λ told. TellsLines text.now (option_map (λ n. n.now) told.name)
        told.number told.world.now told.header.now) }
    ensures err { IfErr result (IsRefused text.now) }
{
    if let Some(rest) = behind_first(text) {
        return told_lines(read_first(rest));
    }
    if let Some(rest) = behind_second(text) {
        return told_lines(read_second(rest));
    }
    Err(IdentityFault::Version)
}
