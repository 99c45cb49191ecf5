//! Where a part of a log lies, and how it begins.

ghost use Rattle.std.specs.Prelude.{◌≡◌, ◌==◌, position, IfOk, string_bytes};
ghost use Rattle.folder_logs.specs.Files.{bytes_of};
ghost use Rattle.folder_archives.specs.Verified.{part_path};
ghost use Rattle.folder_archives.specs.Steps.{IsFirstLineOf, PartBegins};

use held_logs::HeldLog;
use itoa::Buffer;
use log_head::Gone;
use std::alloc::{AllocError, Global};
use world_folders::Paths;

/// The path of the part that was the log of a folder before so many bytes were gone. The error is
/// want of memory.
///
/// Source: this project.
pub fn part_path(alloc: Global, paths: &Paths, gone: u64) -> Result<String, AllocError>
    ensures path { IfOk result (λ path. string_bytes path
        ≡ part_path (string_bytes paths.now.log) gone) }
{
    let mut buffer = Buffer::new();
    let mut path = String::from_str(alloc, paths.log.as_str())?;
    path.push_str(".")?;
    path.push_str(buffer.format(gone))?;
    Ok(path)
}

/// How a part begins that others are in front of: what its head tells, and its first line.
#[derive(Drop)]
pub(crate) struct Beginning {
    pub path: String,
    pub told: Gone,
    pub base: Vec<u8>,
}

// Where the first line ends, if one does.
fn line_feed(records: &[u8]) -> Option<usize>
    ensures value { result ≡ position (λ b. b == 10) records.now }
{
    records.iter().position(|byte| *byte == b'\n')
}

// The first line of records with its line feed, or all where no line ends.
fn first_line(records: &[u8]) -> &[u8]
    ensures first { IsFirstLineOf records.now result.now }
{
    match line_feed(records) {
        Some(end) => &records[..end + 1],
        None => records,
    }
}

/// How the part at a path begins, or None where nothing is gone in front of it.
pub(crate) fn beginning_of(
    alloc: Global,
    path: &str,
    part: HeldLog<'_>,
) -> Result<Option<Beginning>, AllocError>
    ensures begins { IfOk result (PartBegins path.now part.entry.gone
        (bytes_of part.entry.records)) }
{
    let HeldLog { gone, records } = part;
    match gone {
        Some(told) => Ok(Some(Beginning {
            path: String::from_str(alloc, path)?,
            told,
            base: Vec::from_slice(alloc, first_line(records.as_slice()))?,
        })),
        None => Ok(None),
    }
}
