//! A site served over the log of its folder: from the first line of all to the end of the input.

ghost use Rattle.std.specs.Prelude.{◌≡◌, ◌≢◌, ◌++◌, ℕ, List, IfOk, IfErr, OnOk, OnErr, MatchOption, None, Some, string_bytes};
ghost use Rattle.script_input.specs.Streams.{GaveNothing};
ghost use Rattle.site_service.specs.Behind.{IsOpenedBehind};
ghost use Rattle.site_service.specs.Opening.{IsOpened, KeepsLines, SparesLines};
ghost use Rattle.site_service.specs.Service.{IsSettled};
ghost use Rattle.site_service.specs.Traces.{trace_of, HasTold};
ghost use Rattle.folder_serving.specs.Refusing.{IsAgeFault, IsPlainFault, IsUnopened, TellsUnopened};
ghost use Rattle.folder_serving.specs.Serving.{IsNoOlder, IsNoPlain, IsOpenedOver, IsReadyLine, ServesReady, StopsAtReady, StopsReady, TellsReady, ready_text, version_of};

use file_medium::LogFile;
use folder_faults::{Fault, Missing, Why, device_fault, refused};
use held_logs::stand_held;
use line_serving::{serve, serve_keeping};
use log_head::Gone;
use log_stand::Stand;
use script_input::{Sink, Source};
use short_log::ShortLog;
use site_folder::{Identity, log_name};
use site_service::{OpenFault, ServeFault, Service};
use std::alloc::Global;
use world_folders::{Paths, ReadsFiles, read_file, read_stand};

/// Refuses a log that is older than was seen of it before. It stays as it is, and is read without its
/// lock. The fault besides `Old` is that it can't be read or isn't this site's, or want of memory.
pub fn check_age<R: ReadsFiles>(
    files: &R,
    alloc: Global,
    paths: &Paths,
    identity: &Identity,
    seen: Stand,
) -> Result<(), Fault>
    ensures newest { OnOk result (IsNoOlder (R.holds files.now) (string_bytes paths.now.log)
        identity.now seen) }
    ensures fault { IfErr result (IsAgeFault (R.fails files.now) (R.holds files.now)
        (string_bytes paths.now.log) identity.now seen) }
{
    let stand = read_stand(files, alloc, paths, identity)?;
    if stand.is_before(seen) {
        let why = Why::Old(stand.epoch, stand.length);
        return Err(refused(alloc, paths.log.as_str(), why));
    }
    Ok(())
}

// What stands behind a name, or None where the bytes don't begin with it.
fn behind<'a>(bytes: &'a [u8], name: &[u8]) -> Option<&'a [u8]>
    ensures rest { MatchOption result ((rest : List ℕ) → bytes.now ≢ name.now ++ rest)
        (λ rest. bytes.now ≡ name.now ++ rest.now) }
{
    bytes.strip_prefix(name)
}

/// Refuses a log of version 1, whose front can't be let go. It stays as it is, and is read without its
/// lock. The fault besides `Plain` is that it can't be read, or want of memory. Costs a read of the log,
/// and memory for it.
pub fn refuse_plain<R: ReadsFiles>(
    files: &R,
    alloc: Global,
    paths: &Paths,
    identity: &Identity,
) -> Result<(), Fault>
    ensures other { OnOk result (IsNoPlain (R.holds files.now) (string_bytes paths.now.log)
        identity.now) }
    ensures fault { IfErr result (IsPlainFault (R.fails files.now) (R.holds files.now)
        (string_bytes paths.now.log) identity.now) }
{
    let name = log_name(alloc, identity)?;
    let bytes = read_file(files, alloc, paths.log.as_str(), Missing::Log)?;
    match behind(bytes.as_slice(), name.as_slice()) {
        Some(_) => Err(refused(alloc, paths.log.as_str(), Why::Plain)),
        None => Ok(()),
    }
}

// Why the site isn't opened over its log, as a fault at its path.
fn open_fault(alloc: Global, paths: &Paths, fault: OpenFault) -> Fault
    ensures told { TellsUnopened (string_bytes paths.now.log) fault result }
{
    match fault {
        OpenFault::Line(line) => refused(alloc, paths.log.as_str(), Why::BadRecord(line)),
        OpenFault::Device => device_fault(alloc, paths.log.as_str()),
        OpenFault::NoMemory => Fault::NoMemory,
    }
}

// Opens the site over a log of which nothing is told to be gone.
fn open_whole<F: LogFile + Drop, T: LogFile>(
    alloc: Global,
    paths: &Paths,
    identity: &Identity,
    log: F,
    trace: &mut T,
) -> Result<Service<F>, Fault>
    ensures opened { IfOk result (IsOpened identity.now.schema identity.now.number
        (F.bytes log)) }
    ensures kept { IfOk result (λ service. KeepsLines (F.bytes log) (F.safe log) service.safe) }
    ensures spared { IfOk result (λ service. SparesLines (F.bytes log) (F.least log)
        service.least) }
    ensures told { IfOk result (λ service. HasTold
        (trace_of (T.bytes trace.old) (T.safe trace.old))
        (trace_of (T.bytes trace.new) (T.safe trace.new)) service.waiting) }
    ensures fault { IfErr result (IsUnopened identity.now.schema identity.now.number None
        (F.bytes log) (string_bytes paths.now.log)) }
    ensures uncut { T.least trace.new ≡ T.least trace.old }
{
    let schema = identity.schema().copy()?;
    match Service::open(alloc, schema, identity.number(), log, trace) {
        Ok(service) => Ok(service),
        Err((fault, _log)) => Err(open_fault(alloc, paths, fault)),
    }
}

// Opens the site over a log of which this is told to be gone.
fn open_behind<F: LogFile + Drop, T: LogFile>(
    alloc: Global,
    paths: &Paths,
    identity: &Identity,
    told: Gone,
    log: F,
    trace: &mut T,
) -> Result<Service<F>, Fault>
    ensures opened { IfOk result (IsOpenedBehind identity.now.schema identity.now.number told
        (F.bytes log)) }
    ensures kept { IfOk result (λ service. KeepsLines (F.bytes log) (F.safe log) service.safe) }
    ensures spared { IfOk result (λ service. SparesLines (F.bytes log) (F.least log)
        service.least) }
    ensures told { IfOk result (λ service. HasTold
        (trace_of (T.bytes trace.old) (T.safe trace.old))
        (trace_of (T.bytes trace.new) (T.safe trace.new)) service.waiting) }
    ensures fault { IfErr result (IsUnopened identity.now.schema identity.now.number (Some told)
        (F.bytes log) (string_bytes paths.now.log)) }
    ensures uncut { T.least trace.new ≡ T.least trace.old }
{
    let schema = identity.schema().copy()?;
    match Service::open_behind(alloc, schema, identity.number(), told, log, trace) {
        Ok(service) => Ok(service),
        Err((fault, _log)) => Err(open_fault(alloc, paths, fault)),
    }
}

/// Opens the site over its log, of which this was let go as its head tells, or over a whole one where
/// nothing is told; and tells its trace. The fault is that of the log's first line that is no record or
/// breaks a rule, that a call of a file failed, or want of memory. Behind what was let go the first line
/// is the summary of that.
pub fn open_service<F: LogFile + Drop, T: LogFile>(
    alloc: Global,
    paths: &Paths,
    identity: &Identity,
    gone: Option<Gone>,
    log: F,
    trace: &mut T,
) -> Result<Service<F>, Fault>
    ensures opened { IfOk result (IsOpenedOver identity.now.schema identity.now.number gone
        (F.bytes log)) }
    ensures kept { IfOk result (λ service. KeepsLines (F.bytes log) (F.safe log) service.safe) }
    ensures spared { IfOk result (λ service. SparesLines (F.bytes log) (F.least log)
        service.least) }
    ensures told { IfOk result (λ service. HasTold
        (trace_of (T.bytes trace.old) (T.safe trace.old))
        (trace_of (T.bytes trace.new) (T.safe trace.new)) service.waiting) }
    ensures fault { IfErr result (IsUnopened identity.now.schema identity.now.number gone
        (F.bytes log) (string_bytes paths.now.log)) }
    ensures uncut { T.least trace.new ≡ T.least trace.old }
{
    match gone {
        Some(told) => open_behind(alloc, paths, identity, told, log, trace),
        None => open_whole(alloc, paths, identity, log, trace),
    }
}

// The version of the lines that are written.
fn version_of(gone: &Option<Gone>, shortens: bool) -> u8
    ensures { result ≡ version_of gone.now shortens }
{
    match gone {
        Some(_) => 2,
        None => if shortens { 2 } else { 1 },
    }
}

// The text of the line that tells how far the log has come.
fn ready_text(alloc: Global, version: u8, stand: Stand) -> Result<String, Fault>
    ensures text { IfOk result (λ line. string_bytes line ≡ ready_text version stand) }
{
    let mut line = String::new(alloc);
    let Stand { epoch, length } = stand;
    match writeln!(line, "ready {version} {epoch} {length}") {
        Ok(()) => Ok(line),
        Err(_) => Err(Fault::NoMemory),
    }
}

// The line that tells how far the log of a service has come, of which more will be let go, or won't.
fn ready_line<F: LogFile>(
    alloc: Global,
    service: &Service<F>,
    shortens: bool,
) -> Result<String, Fault>
    ensures line { IfOk result (λ line. IsReadyLine shortens service.now (string_bytes line)) }
{
    let stand = stand_held(alloc, service.gone(), service.site().medium().bytes())?;
    let version = version_of(service.gone(), shortens);
    let line = ready_text(alloc, version, stand)?;
    Ok(line)
}

// Writes the first line of all.
fn write_ready<F: LogFile, W: Sink>(
    alloc: Global,
    service: &Service<F>,
    shortens: bool,
    writer: &mut W,
) -> Result<(), Fault>
    requires safe { IsSettled service.now }
    ensures ready { OnOk result (TellsReady shortens (W.bytes writer.old) (W.bytes writer.new)
        service.now) }
    ensures refused { OnErr result (StopsAtReady shortens (W.bytes writer.old)
        (W.bytes writer.new) service.now) }
{
    let line = ready_line(alloc, service, shortens)?;
    match writer.write_all(line.as_bytes()) {
        Ok(()) => Ok(()),
        Err(_) => Err(Fault::Write),
    }
}

// The file at which a call failed: its log's, unless the service's log is sound.
fn failed_file<'a, F: LogFile>(paths: &'a Paths, service: &Service<F>) -> &'a str {
    if service.is_lost() {
        paths.log.as_str()
    } else {
        paths.trace.as_str()
    }
}

// Why the serving ended, as a fault at this file.
fn serve_fault(alloc: Global, path: &str, fault: ServeFault) -> Fault {
    match fault {
        ServeFault::Read => Fault::Read,
        ServeFault::Write => Fault::Write,
        ServeFault::Device => device_fault(alloc, path),
        ServeFault::TooLong => Fault::TooLong,
        ServeFault::NoMemory => Fault::NoMemory,
    }
}

/// Writes the first line of all, and serves the site to the end of the input: all that it stands on is
/// safe by then, and nothing is written but that line and what `serve` lets out. The fault is that of the
/// input, of the output, or of the log's or the trace's file, at its path; or want of memory.
pub fn serve_streams<F: LogFile, T: LogFile, R: Source, W: Sink>(
    alloc: Global,
    paths: &Paths,
    service: &mut Service<F>,
    trace: &mut T,
    reader: &mut R,
    writer: &mut W,
) -> Result<(), Fault>
    requires safe { IsSettled service.old }
    ensures ok { OnOk result (ServesReady None (R.bytes reader.old) (R.bytes reader.new)
        (W.bytes writer.old) (W.bytes writer.new) (trace_of (T.bytes trace.old) (T.safe trace.old))
        (trace_of (T.bytes trace.new) (T.safe trace.new)) service.old service.new) }
    ensures end { OnOk result (GaveNothing (R.last reader.new)) }
    ensures err { OnErr result (StopsReady None (R.bytes reader.old) (R.bytes reader.new)
        (W.bytes writer.old) (W.bytes writer.new) (trace_of (T.bytes trace.old) (T.safe trace.old))
        (trace_of (T.bytes trace.new) (T.safe trace.new)) service.old service.new) }
    ensures least { service.new.least ≡ service.old.least }
    ensures uncut { T.least trace.new ≡ T.least trace.old }
{
    write_ready(alloc, service, false, writer)?;
    match serve(alloc, service, trace, reader, writer) {
        Ok(()) => Ok(()),
        Err(fault) => Err(serve_fault(alloc, failed_file(paths, service), fault)),
    }
}

/// The same over a log whose front is let go meanwhile, as `serve_keeping` does it: each time a summary
/// stays, and behind its line at least `keep` bytes and another summary.
pub fn keep_streams<F: ShortLog, T: LogFile, R: Source, W: Sink>(
    alloc: Global,
    paths: &Paths,
    service: &mut Service<F>,
    trace: &mut T,
    reader: &mut R,
    writer: &mut W,
    keep: usize,
) -> Result<(), Fault>
    requires safe { IsSettled service.old }
    ensures ok { OnOk result (ServesReady (Some keep) (R.bytes reader.old) (R.bytes reader.new)
        (W.bytes writer.old) (W.bytes writer.new) (trace_of (T.bytes trace.old) (T.safe trace.old))
        (trace_of (T.bytes trace.new) (T.safe trace.new)) service.old service.new) }
    ensures end { OnOk result (GaveNothing (R.last reader.new)) }
    ensures err { OnErr result (StopsReady (Some keep) (R.bytes reader.old) (R.bytes reader.new)
        (W.bytes writer.old) (W.bytes writer.new) (trace_of (T.bytes trace.old) (T.safe trace.old))
        (trace_of (T.bytes trace.new) (T.safe trace.new)) service.old service.new) }
    ensures uncut { T.least trace.new ≡ T.least trace.old }
{
    write_ready(alloc, service, true, writer)?;
    match serve_keeping(alloc, service, trace, reader, writer, keep) {
        Ok(()) => Ok(()),
        Err(fault) => Err(serve_fault(alloc, failed_file(paths, service), fault)),
    }
}
