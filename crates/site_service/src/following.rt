//! A file that follows a list of bytes, and a sink to which a text goes.

ghost use Rattle.std.specs.Prelude.{◌≡◌, [], OnOk, OnErr, IfErr};
ghost use Rattle.std.specs.Io.KnownBytes.{Appends, append_known};
ghost use Rattle.script_input.specs.Streams.{AppendsPrefix, HasRefused};
ghost use Rattle.site_service.specs.Counting.{CountsWrites};

use crate::fault::ServeFault;
use file_medium::{FileFailed, LogFile, write_front};
use script_input::Sink;

/// Writes two pieces behind the bytes of a file, of which one may be empty, and syncs it once: at Ok
/// it holds them too, and all that it holds is safe. At a fault what was safe still is, and of the
/// rest nothing is known.
pub(crate) fn add_both<F: LogFile>(
    file: &mut F,
    first: &[u8],
    second: &[u8],
) -> Result<(), FileFailed>
    ensures added { OnOk result (F.bytes file.new
        ≡ append_known (append_known (F.bytes file.old) first.now) second.now) }
    ensures safe { OnOk result (F.safe file.new ≡ F.bytes file.new) }
    ensures kept { OnErr result (F.safe file.new ≡ F.safe file.old) }
    ensures least { F.least file.new ≡ F.least file.old }
{
    if write_front(file, first) < first.len() {
        return Err(FileFailed);
    }
    add_safely(file, second)
}

/// The same with one piece.
pub(crate) fn add_safely<F: LogFile>(file: &mut F, piece: &[u8]) -> Result<(), FileFailed>
    ensures added { OnOk result (F.bytes file.new ≡ append_known (F.bytes file.old) piece.now) }
    ensures safe { OnOk result (F.safe file.new ≡ F.bytes file.new) }
    ensures kept { OnErr result (F.safe file.new ≡ F.safe file.old) }
    ensures least { F.least file.new ≡ F.least file.old }
{
    if write_front(file, piece) < piece.len() {
        return Err(FileFailed);
    }
    file.sync()
}

/// Writes a text, all of it or a front, and clears it. The fault is `Write`.
pub(crate) fn let_out<W: Sink>(text: &mut Vec<u8>, writer: &mut W) -> Result<(), ServeFault>
    ensures ok { OnOk result (Appends (W.bytes writer.old) (W.bytes writer.new) text.old.items) }
    ensures front { OnErr result (AppendsPrefix (W.bytes writer.old) (W.bytes writer.new)
        text.old.items) }
    ensures fault { IfErr result (λ fault. fault ≡ ServeFault.Write) }
    ensures none { text.new.items ≡ [] }
    ensures refused { OnErr result (HasRefused (W.last writer.new)) }
    ensures writes { CountsWrites result (W.refusals writer.old) (W.refusals writer.new) }
{
    match writer.write_all(text.as_slice()) {
        Ok(()) => {
            text.clear();
            Ok(())
        }
        Err(_) => {
            text.clear();
            Err(ServeFault::Write)
        }
    }
}
