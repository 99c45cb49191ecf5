//! Reads of bytes in memory.

ghost use Rattle.std.specs.Prelude.{◌≡◌, ◌≤◌, ◌<◌, ◌+◌, Some, length};
ghost use Rattle.file_medium.specs.Files.{ReadsAt};

/// Copies the bytes behind the first `at`, as many as there are and as the buffer has room for, and
/// tells how many they were.
pub(crate) fn copy_behind(bytes: &[u8], at: u64, buffer: &mut [u8]) -> usize
    ensures room { result ≤ length buffer.new }
    ensures size { length buffer.new ≡ length buffer.old }
    ensures within { 0 < result → at + result ≤ length bytes.now }
    ensures read { ReadsAt (Some bytes.now) at result buffer.new }
{
    if at >= bytes.len() as u64 {
        return 0;
    }
    let behind = &bytes[at as usize..];
    let count = behind.len().min(buffer.len());
    buffer[..count].copy_from_slice(&behind[..count]);
    count
}
