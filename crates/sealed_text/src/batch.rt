//! Batches, and the lines that close them.

ghost use Rattle.std.specs.Prelude.{◌≡◌, ◌↔◌, ◌%◌, ◌^◌, IsTrue};
ghost use Rattle.std.specs.List.{AllPass, sum};
ghost use Rattle.sealed_text.specs.Seals.{IsBatch, is_batch_byte, sum_line, weighted, end_batch};

// What the bytes add up to, and what they add up to with each as often as there are bytes from it to
// the last one, modulo 2^32.
fn sums_of(bytes: &[u8]) -> (u32, u32)
    ensures total { result.0 ≡ sum bytes.now % 2 ^ 32 }
    ensures weighted { result.1 ≡ weighted bytes.now % 2 ^ 32 }
{
    let mut total = 0u32;
    let mut weighted = 0u32;
    for byte in bytes {
        total = total.wrapping_add(u32::from(*byte));
        weighted = weighted.wrapping_add(total);
    }
    (total, weighted)
}

/// The line that closes a batch: `sum `, its sum, and a line feed. The sum is what its bytes add up to,
/// and what they add up to with each as often as there are bytes from it to the last one, both modulo
/// 2^32 (Fletcher 1982) and as 8 hexadecimal digits of lower case. Costs a pass over the batch, and no
/// memory.
pub fn sum_line(batch: &[u8]) -> [u8; 21]
    ensures line { result ≡ sum_line batch.now }
{
    let (total, weighted) = sums_of(batch);
    let [a, b, c, d] = total.to_be_bytes();
    let [e, f, g, h] = weighted.to_be_bytes();
    let mut line = *b"sum 0000000000000000\n";
    let _ = hex::encode_to_slice(&[a, b, c, d, e, f, g, h], &mut line[4..20]);
    line
}

/// The batch that ends a world: `X` and a line feed. No record is spelled so.
pub fn end_batch() -> &'static [u8]
    ensures batch { result.now ≡ end_batch }
{
    b"X\n"
}

// Whether records are spelled with the byte.
#[tactic(auto, unfolding(crate::specs::Seals::is_batch_byte))]
fn is_batch_byte(byte: u8) -> bool
    ensures { result ≡ is_batch_byte byte }
{
    matches!(byte, b'A'..=b'Z' | b'0'..=b'9' | b' ' | b'-' | b'\n')
        || matches!(byte, b'a' | b'g' | b'l' | b'r' | b't')
}

// Whether records are spelled with each of the bytes.
pub(crate) fn are_batch_bytes(bytes: &[u8]) -> bool
    ensures decides { IsTrue result ↔ AllPass is_batch_byte bytes.now }
{
    bytes.iter().all(|byte| is_batch_byte(*byte))
}

/// Whether the bytes are a batch: one or more bytes, each of `A-Z`, `0-9`, space, `-`, line feed, `a`,
/// `g`, `l`, `r` and `t`, of which the last one is a line feed. Costs a pass over the bytes.
pub fn is_batch(bytes: &[u8]) -> bool
    ensures decides { IsTrue result ↔ IsBatch bytes.now }
{
    match bytes.split_last() {
        Some((b'\n', _)) => are_batch_bytes(bytes),
        _ => false,
    }
}
