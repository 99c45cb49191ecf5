//! The program `escrow_site`: one site over a log in a folder, made by one command and served by
//! another, over standard input and output.
#![tactic(auto)]

mod archived;
mod checking;
mod closing;
mod creating;
mod judging;
mod linked;
mod locking;
mod serving;
mod settling;
mod showing;
mod streams;
mod told_swap;
mod tracing;
mod unsynced;
mod verifying;
mod weaving;

use clap::Error;
use clap::error::ErrorKind;
use folder_faults::Fault;
use site_tasks::{Task, read_task};
use std::process::ExitCode;
use streams::Stream;

// Carries a task out, and tells the status that it ends with.
fn carry_out(rt: &HostRuntime, task: &Task) -> Result<u8, Fault> {
    let done = match task {
        Task::Create {
            folder,
            schema,
            site,
            name,
        } => creating::create(rt, folder.as_str(), schema.as_str(), *site, name),
        Task::Serve { folder, how } => serving::serve_folder(rt, folder.as_str(), *how),
        Task::Show { folder } => showing::show(rt, folder.as_str()),
        Task::Verify { folder } => return verifying::verify(rt, folder.as_str()),
        Task::Check { folders } => checking::check(rt, folders.as_slice()),
        Task::Settle { folders, how } => settling::settle(rt, folders.as_slice(), *how),
        Task::Weave { folders } => weaving::weave_folders(rt, folders.as_slice()),
        Task::Judge { folders } => return judging::judge_folders(rt, folders.as_slice()),
        Task::Version => tell_version(rt),
    };
    done?;
    Ok(0)
}

// The release, and which versions of files are read and made. A folder keeps its own for life.
const VERSIONS: &str = "escrow_site 0.1.0: \
    reads site 1 2, log 1 2 3, trace 1; makes site 2, log 2 3, trace 1; answers ready 1 2";

fn tell_version(rt: &impl Print) -> Result<(), Fault> {
    match println!(rt; "{VERSIONS}") {
        Ok(()) => Ok(()),
        Err(_) => Err(Fault::Write),
    }
}

/// Tells a fault on standard error. A write that fails there changes nothing.
fn tell(rt: &impl Eprint, fault: &Fault) -> u8 {
    let _ = eprintln!(rt; "escrow_site: {fault}");
    fault.status()
}

/// Tells why the command line asks for no task, and gives help where it asks for that.
fn tell_refused(rt: &(impl Print + Eprint), error: &Error) -> u8 {
    if error.kind() == ErrorKind::OutOfMemory {
        return tell(rt, &Fault::NoMemory);
    }
    if error.print(rt).is_err() && !error.use_stderr() {
        return tell(rt, &Fault::Write);
    }
    if error.use_stderr() { 2 } else { 0 }
}

/// Tells a fault where that isn't among the records of a site: on standard error, or else on standard
/// output, or nowhere.
fn tell_apart(rt: &HostRuntime, task: Option<&Task>, fault: &Fault) -> u8 {
    if !streams::is_refused(rt, task, Stream::Error) {
        return tell(rt, fault);
    }
    if !streams::is_refused(rt, task, Stream::Output) {
        let _ = println!(rt; "escrow_site: {fault}");
    }
    fault.status()
}

// Tells why the command line asks for no task, where no stream goes to a file of a site.
fn refuse_line(rt: &HostRuntime, error: &Error) -> u8 {
    match streams::refuse_streams(rt, None) {
        Ok(()) => tell_refused(rt, error),
        Err(fault) => tell_apart(rt, None, &fault),
    }
}

// Carries a task out, once no file that it opens can take the number of a standard stream, and no stream
// goes to a file of a site.
fn in_order(rt: &HostRuntime, task: &Task) -> Result<u8, Fault> {
    streams::take_closed(rt)?;
    streams::refuse_streams(rt, Some(task))?;
    carry_out(rt, task)
}

fn main(rt: HostRuntime) -> ExitCode {
    let task = match read_task(&rt) {
        Ok(task) => task,
        Err(error) => return ExitCode::from(refuse_line(&rt, &error)),
    };
    match in_order(&rt, &task) {
        Ok(status) => ExitCode::from(status),
        Err(fault) => ExitCode::from(tell_apart(&rt, Some(&task), &fault)),
    }
}
