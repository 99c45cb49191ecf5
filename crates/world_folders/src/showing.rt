//! What the log of one site stands for, by itself.

ghost use Rattle.std.specs.Prelude.{◌≡◌, IfOk, length, string_bytes};
ghost use Rattle.world_folders.specs.Logs.{ShowsLog, gone_bytes, length_of};

use crate::folder::Paths;
use crate::folder_log::{FolderReplay, bad_record, replay_folder};
use crate::reading::ReadsFiles;
use folder_faults::Fault;
use log_head::Gone;
use log_replay::{LogReplayed, Standing};
use site_folder::Identity;
use std::alloc::Global;

/// What the records of a log stand for, and how long they are.
#[derive(Drop)]
pub struct Shown {
    /// How many bytes of records are gone, by the head of a log of version 3; None of versions 1 and 2.
    pub gone: Option<u64>,
    /// The length of all records since the site was created, those that are gone included, in bytes.
    pub length: u64,
    pub standing: Standing,
}

// What is shown of a log that holds records of this length, in bytes.
fn shown_of(gone: &Option<Gone>, standing: Standing, length: usize) -> Shown
    ensures gone { result.gone ≡ gone_bytes gone.now }
    ensures length { result.length ≡ length_of gone.now length }
    ensures standing { result.standing ≡ standing }
{
    let held = length as u64;
    match gone {
        Some(gone) => Shown {
            gone: Some(gone.bytes),
            length: gone.bytes.saturating_add(held),
            standing,
        },
        None => Shown {
            gone: None,
            length: held,
            standing,
        },
    }
}

/// What the records of a folder's log stand for. The fault is that of the log where it can't be read or
/// isn't this site's, of its first line that is no record or breaks a rule, or want of memory. Lines
/// are those of the records that it holds, the first one being 1.
pub fn read_records<R: ReadsFiles>(
    files: &R,
    alloc: Global,
    paths: &Paths,
    identity: &Identity,
) -> Result<Shown, Fault>
    ensures fields { IfOk result (λ shown. length shown.standing.rights
        ≡ length identity.now.schema.fields) }
    ensures shown { IfOk result (ShowsLog (R.holds files.now) (string_bytes paths.now.log)
        identity.now) }
{
    let schema = identity.schema();
    let number = identity.number();
    let FolderReplay { gone, came } = replay_folder(files, alloc, paths, identity, schema, number)?;
    match came {
        LogReplayed::Standing { standing, length } => Ok(shown_of(&gone, standing, length)),
        LogReplayed::BadLine { number } | LogReplayed::BreaksRule { number } => {
            Err(bad_record(alloc, paths, number))
        }
    }
}
