//! Rows of bytes that are the same in each run.

ghost use Rattle.std.specs.Prelude.{◌≡◌, ◌*◌, ◌%◌, ◌^◌, IfOk, bit_xor, fold, vec_len};

use std::alloc::{AllocError, Global};

const PRIME: u64 = 1_099_511_628_211;

/// So many bytes that look like noise, of which `seed` makes several rows.
pub fn filled_row(alloc: Global, bytes: usize, seed: u32) -> Result<Vec<u8>, AllocError>
    ensures { IfOk result (λ row. vec_len row ≡ bytes) }
{
    let mut row = Vec::with_capacity(alloc, bytes)?;
    let mut state = seed;
    for _ in 0..bytes {
        state = state.wrapping_mul(1_103_515_245).wrapping_add(12_345);
        row.push((state >> 24) as u8)?;
    }
    Ok(row)
}

/// A number that any change of a byte is likely to change: from `start` on, for each byte, times a prime, and the byte added
/// by `^`.
pub fn checksum(start: u64, bytes: &[u8]) -> u64
    ensures { result ≡ fold (λ sum byte. bit_xor (sum * PRIME % 2 ^ 64) byte) start bytes.now }
{
    bytes.iter().fold(
        start,
        |sum: u64, byte| sum.wrapping_mul(PRIME) ^ u64::from(*byte),
    )
}
