//! Why a task ends before it is done, in words that name the file and say what to do.

ghost use Rattle.std.specs.Prelude.{◌≡◌, codes, None, Some, String};
ghost use Rattle.std.specs.Global.{Global};
ghost use Rattle.std.specs.IoError.{error_kind};
ghost use Rattle.folder_faults.specs.declared.fault.Fault.TheVariants.{NoMemory};
ghost use Rattle.file_medium.specs.declared.host.FileFault.{FileFault};
ghost use Rattle.file_medium.specs.declared.memory_file.FileCall.TheVariants.{Sync};
ghost use Rattle.folder_faults.specs.Faults.{IsAsked, IsDevice, IsOf, IsRefused, TellsCall, TellsNotClosed, call_word, status_of, why_missing};

use field_bounds::SchemaFault;
use file_medium::{FileCall, FileFault};
use std::alloc::{AllocError, AllocFailed, Global};
use std::io;
use std::io::ErrorKind;
use thiserror::Error;

/// Why a file or a folder is refused.
#[derive(Debug, Drop, Error)]
pub enum Why {
    #[error("the header isn't one line: write it as one line of JSON")]
    ManyLines,
    #[error("header {0}: {1}")]
    Header(SchemaFault, &'static str),
    #[error("no site {0}: sites are numbered from 0")]
    NoNumber(u64),
    #[error("a world's name has 1 to 64 of a-z A-Z 0-9 . _ -")]
    NoName,
    #[error("is there already: create takes a path at which nothing is")]
    FolderThere,
    #[error("isn't there: look whether its disk is: a site's folder is made by create, once")]
    NoSite,
    #[error("isn't in a folder: name the one that create made, not a file in it")]
    NoFolder,
    #[error("isn't of escrow site 1 or 2: serve it by the version that made it, or put it back from a copy")]
    OtherVersion,
    #[error("isn't as create wrote it: put it back from a copy")]
    Damaged,
    #[error("the header was changed: put it back from a copy, as create wrote it")]
    HeaderChanged,
    #[error("its header has no such site: put it back from a copy, as create wrote it")]
    OtherNumber,
    #[error("was settled: serve the sites of the world that goes on from there, and this folder never again")]
    Settled,
    #[error("isn't there: put the newest log back; a site without it would sell again what it sold")]
    NoLog,
    #[error("isn't the log of this site, or is a later program's: serve it by that, or put its own newest log back")]
    OtherLog,
    #[error("its head was changed: put its own newest log back")]
    HeadChanged,
    #[error("version 1 can't let go of its front: serve it without --keep, or settle its world into a new one")]
    Plain,
    #[error("line {0} is no record of this site: put its own newest log back")]
    BadRecord(u64),
    #[error("line {0}: the batch that begins there is damaged: put its own newest log back")]
    DamagedBatch(u64),
    #[error("epoch {0}, length {1}: older than --not-before: put the newest log back")]
    Old(u64, u64),
    /// How far the log has come, and the mark.
    #[error("epoch {epoch}, length {length}: older than its mark in not_before, epoch {mark_epoch}, length {mark_length}: put the newest log back")]
    Marked {
        epoch: u64,
        length: u64,
        mark_epoch: u64,
        mark_length: u64,
    },
    #[error("isn't two numbers, the epoch and the length of the mark that refused an older log here: write those that escrow_site show tells of the newest log")]
    NoMark,
    #[error("is where standard output goes: send that elsewhere")]
    Output,
    #[error("is where standard error goes: send that elsewhere")]
    ErrorOutput,
    #[error("isn't there: only a site that was always served with --trace has one")]
    NoTrace,
    #[error("is there: serve with --trace, so that it misses nothing")]
    TraceThere,
    #[error("isn't the trace of this site: put its own newest trace back")]
    OtherTrace,
    #[error("line {0} is no entry: put its own newest trace back")]
    BadEntry(u64),
    #[error("is behind its log, which has records of no entry in it: put its own newest trace back")]
    TraceBehind,
    #[error("isn't of the world of {0}: name the folders of one world")]
    OtherWorld(String),
    #[error("is of site {0}, as {1} is: name one folder for each site")]
    SameSite(u16, String),
    /// Of the log of the site that gave.
    #[error("site {to} accepted {accepted} {kind} on {field} from site {from}, which gave {given}: this log is older than what it gave: put its newest log back")]
    AcceptedMore {
        from: u16,
        to: u16,
        field: String,
        kind: &'static str,
        given: u64,
        accepted: u64,
    },
}

/// A file of a folder that isn't there.
#[derive(Clone, Copy)]
pub enum Missing {
    Site,
    Log,
    Trace,
}

impl From<Missing> for Why {
    ghost from_gives = { λ file why. why ≡ why_missing file };

    fn from(file: Missing) -> Why {
        match file {
            Missing::Site => Why::NoSite,
            Missing::Log => Why::NoLog,
            Missing::Trace => Why::NoTrace,
        }
    }
}

/// Why a task ends before it is done. A text names the file.
#[derive(Debug, Drop, Error)]
pub enum Fault {
    #[error("read fault")]
    Read,
    #[error("write fault")]
    Write,
    #[error("input too long")]
    TooLong,
    /// What the command line names can't be read.
    #[error("{0}: {1}")]
    Unread(String, io::Error),
    /// What the command line names is refused.
    #[error("{0}: {1}")]
    Asked(String, Why),
    /// What lies in the folder is refused, or that it is there.
    #[error("{0}: {1}")]
    Refused(String, Why),
    #[error("{0}: {1}")]
    System(String, io::Error),
    #[error("{0}: device fault: nothing more is answered")]
    Device(String),
    /// The same, with the call that failed, what the system told, and what to do.
    #[error("{0}: device fault: {1}: {2}: nothing more is answered: {3}")]
    DeviceCall(String, &'static str, io::Error, &'static str),
    /// A folder wasn't closed, though the header was written: a call at this path failed.
    #[error("{0}: {1}: the folder isn't closed: {2}, and settle with --again before the header is used")]
    NotClosed(String, io::Error, &'static str),
    #[error("{0}: in use: another process serves it")]
    Busy(String),
    /// No name of the world is given.
    #[error("--name NAME is wanted: 1 to 64 of a-z A-Z 0-9 . _ - that no other world of yours has, the same for all sites of this world")]
    NoWorldName,
    /// No folder of this site is named.
    #[error("site {0}: isn't among the folders: name the folders of all sites of the world")]
    NoFolder(u16),
    /// The logs of the sites with these numbers are lost.
    #[error("the logs of these sites are lost: {0}: nothing was closed: put the newest ones back to settle")]
    LogsLost(String),
    /// On this field the logs that are there have more rights than it is wide.
    #[error("field {0}: the logs have more rights than it is wide: one is older than what its site gave: put the newest ones back")]
    TooMuch(String),
    /// No trace weaves the sites: this site has this entry, from 1, as its next, and it can't come.
    #[error("entry {1} of site {0} can't come next: another site's copy is older than this one's: copy all folders anew")]
    Stuck(u16, u64),
    #[error("the header that was written isn't read back")]
    NotReadBack,
    #[error("all folders were settled before, and the header was written then: --again writes it once more")]
    AllSettled,
    #[error("out of memory")]
    NoMemory,
}

impl From<AllocError> for Fault {
    ghost from_gives = { λ _ fault. fault ≡ NoMemory };

    fn from(_refused: AllocError) -> Fault {
        Fault::NoMemory
    }
}

impl<T: Drop> From<AllocFailed<T>> for Fault {
    ghost from_gives = { λ _ fault. fault ≡ NoMemory };

    fn from(_refused: AllocFailed<T>) -> Fault {
        Fault::NoMemory
    }
}

impl Fault {
    /// The status with which the program ends.
    pub fn status(&self) -> u8
        ensures { result ≡ status_of self.now }
    {
        match self {
            Fault::Read | Fault::Write | Fault::TooLong => 1,
            Fault::Unread(..) | Fault::Asked(..) | Fault::NoFolder(_) | Fault::NoWorldName => 2,
            Fault::Refused(..)
            | Fault::LogsLost(_)
            | Fault::TooMuch(_)
            | Fault::Stuck(..)
            | Fault::NotReadBack
            | Fault::AllSettled => 3,
            Fault::NoMemory => 4,
            Fault::System(..) | Fault::Device(_) | Fault::DeviceCall(..) | Fault::NotClosed(..) =>
                5,
            Fault::Busy(_) => 6,
        }
    }
}

/// The words of a header's fault.
pub fn header_words(fault: SchemaFault) -> &'static str {
    match fault {
        SchemaFault::NotJson => "no JSON",
        SchemaFault::Shape => "another shape",
        SchemaFault::SiteCount => "the number of sites",
        SchemaFault::FieldCount => "the number of fields",
        SchemaFault::Name => "a field's name",
        SchemaFault::NameUsed => "a name that is used twice",
        SchemaFault::Bounds => "a field's bounds",
        SchemaFault::NoMemory => "out of memory",
        SchemaFault::TooLong => "more than 65536 bytes",
    }
}

/// The fault that the command line names what is refused.
pub fn asked(alloc: Global, path: &str, why: Why) -> Fault
    ensures { IsAsked path.now why result }
{
    match String::from_str(alloc, path) {
        Ok(path) => Fault::Asked(path, why),
        Err(_) => Fault::NoMemory,
    }
}

/// The fault that what lies at a path is refused.
pub fn refused(alloc: Global, path: &str, why: Why) -> Fault
    ensures { IsRefused path.now why result }
{
    match String::from_str(alloc, path) {
        Ok(path) => Fault::Refused(path, why),
        Err(_) => Fault::NoMemory,
    }
}

/// The fault that a call of the system failed at a path.
pub fn failed(alloc: Global, path: &str, error: io::Error) -> Fault
    ensures failed { IsOf (λ name. Fault.System name error) path.now result }
    ensures memory { error_kind error ≡ ErrorKind.OutOfMemory → result ≡ NoMemory }
{
    if error.kind() == ErrorKind::OutOfMemory {
        return Fault::NoMemory;
    }
    match String::from_str(alloc, path) {
        Ok(path) => Fault::System(path, error),
        Err(_) => Fault::NoMemory,
    }
}

/// The fault that the file that the command line names can't be read.
pub fn unread(alloc: Global, path: &str, error: io::Error) -> Fault
    ensures unread { IsOf (λ name. Fault.Unread name error) path.now result }
    ensures memory { error_kind error ≡ ErrorKind.OutOfMemory → result ≡ NoMemory }
{
    if error.kind() == ErrorKind::OutOfMemory {
        return Fault::NoMemory;
    }
    match String::from_str(alloc, path) {
        Ok(path) => Fault::Unread(path, error),
        Err(_) => Fault::NoMemory,
    }
}

/// The fault that a call failed at a file whose answers wait for it.
pub fn device_fault(alloc: Global, path: &str) -> Fault
    ensures { IsDevice path.now result }
{
    match String::from_str(alloc, path) {
        Ok(path) => Fault::Device(path),
        Err(_) => Fault::NoMemory,
    }
}

// What a call of a file is called.
fn call_word(call: FileCall) -> &'static str
    ensures { result.now ≡ call_word call }
{
    match call {
        FileCall::Read => "read",
        FileCall::Write => "write",
        FileCall::Cut => "cut",
        FileCall::Sync => "sync",
    }
}

// What is to be done where a call of a file failed.
enum Remedy {
    // A sync that failed is told once: what the system has in memory may not be what the disk has,
    // until the machine is started anew.
    NewStart,
    Room,
    Disk,
}

fn remedy_of(call: FileCall, kind: ErrorKind) -> Remedy
    ensures sync { call ≡ Sync → result ≡ Remedy.NewStart }
{
    match (call, kind) {
        (FileCall::Sync, _) => Remedy::NewStart,
        (_, ErrorKind::StorageFull | ErrorKind::QuotaExceeded | ErrorKind::FileTooLarge) => {
            Remedy::Room
        }
        (_, _) => Remedy::Disk,
    }
}

// The remedy of a site that is served.
fn serve_remedy(remedy: Remedy) -> &'static str
    ensures anew { remedy ≡ Remedy.NewStart
        → result.now ≡ codes "start the machine anew before it is served again" }
{
    match remedy {
        Remedy::NewStart => "start the machine anew before it is served again",
        Remedy::Room => "make room, and serve it again",
        Remedy::Disk => "look after the disk, and serve it again",
    }
}

// The remedy of a folder that isn't closed.
fn close_remedy(remedy: Remedy) -> &'static str
    ensures anew { remedy ≡ Remedy.NewStart → result.now ≡ codes "start the machine anew" }
{
    match remedy {
        Remedy::NewStart => "start the machine anew",
        Remedy::Room => "make room",
        Remedy::Disk => "look after the disk",
    }
}

/// A device fault with the call that failed, where that is known. Any other fault stays as it is.
pub fn with_call(fault: Fault, failed: Option<FileFault>) -> Fault
    ensures call { (path : String Global) (told : FileFault) → fault ≡ Fault.Device path
        → failed ≡ Some told → TellsCall path told result }
    ensures unknown { failed ≡ None → result ≡ fault }
    ensures other { ((path : String Global) → fault ≡ Fault.Device path → ⊥) → result ≡ fault }
{
    match (fault, failed) {
        (Fault::Device(path), Some(FileFault { call, error })) => {
            let remedy = serve_remedy(remedy_of(call, error.kind()));
            Fault::DeviceCall(path, call_word(call), error, remedy)
        }
        (fault, _) => fault,
    }
}

/// The same of a folder that is to be closed, once the header of the new world was written.
pub fn not_closed(fault: Fault, failed: Option<FileFault>) -> Fault
    ensures call { (path : String Global) (told : FileFault) → fault ≡ Fault.Device path
        → failed ≡ Some told → TellsNotClosed path told result }
    ensures status { status_of result ≡ status_of fault }
{
    match (fault, failed) {
        (Fault::Device(path), Some(FileFault { call, error })) => {
            let remedy = close_remedy(remedy_of(call, error.kind()));
            Fault::NotClosed(path, error, remedy)
        }
        (Fault::System(path, error), _) => {
            let remedy = close_remedy(remedy_of(FileCall::Write, error.kind()));
            Fault::NotClosed(path, error, remedy)
        }
        (fault, _) => fault,
    }
}
