//! The look at a file's first bytes.

ghost use Rattle.std.specs.Prelude.{◌≡◌, IfOk};
ghost use Rattle.named_log.specs.Names.{StartsAs};

use file_medium::{FileFailed, LogFile};

/// How many bytes are read at a time.
const PIECE: usize = 128;

/// Whether the first bytes of the file are these.
pub(crate) fn starts_with<F: LogFile>(file: &mut F, name: &[u8]) -> Result<bool, FileFailed>
    ensures starts { IfOk result (λ starts. StartsAs starts (F.bytes file.old) name.now) }
    ensures bytes { F.bytes file.new ≡ F.bytes file.old }
    ensures safe { F.safe file.new ≡ F.safe file.old }
    ensures least { F.least file.new ≡ F.least file.old }
{
    let mut piece = [0u8; PIECE];
    let mut seen = 0;
    while seen < name.len() {
        let count = file.read_at(seen as u64, piece.as_mut_slice())?;
        let count = count.min(name.len() - seen);
        if count == 0 {
            return Ok(false);
        }
        if piece[..count] != name[seen..seen + count] {
            return Ok(false);
        }
        seen += count;
    }
    Ok(true)
}
