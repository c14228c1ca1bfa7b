//! A fragment's bytes in blocks, and a record's blocks in a zone: `docs/FORMATS.md`, "Blocks".
ghost use Rattle.std.specs.Prelude.{◌≡◌, ◌+◌, ◌*◌, ◌≤◌, ◌++◌, length, drop};
ghost use Rattle.smore_base.specs.declared.limits.TheConstants.{BLOCK_BYTES};
ghost use Rattle.marker_format.specs.Marker.{IsMarker};
ghost use Rattle.marker_format.specs.Fragment.{blocks_of, fragment_blocks, record_bytes, fragment_at};

use crate::block::{BLOCK, write_data_block, write_marker_block};
use crate::marker::Marker;
use smore_base::CONTENT_BYTES;

/// The bytes of a fragment that a block has at most.
const CONTENT: usize = CONTENT_BYTES as usize;

/// How many blocks so many bytes of a fragment take.
pub fn blocks_of(bytes: u32) -> u32
    ensures { result ≡ blocks_of bytes }
{
    bytes.div_ceil(CONTENT_BYTES)
}

/// Writes the fragment as blocks.
pub fn write_fragment(fragment: &[u8], out: &mut [u8])
    requires { length out.old ≡ BLOCK_BYTES * blocks_of (length fragment.now) }
    ensures { out.new ≡ fragment_blocks fragment.now }
{
    let count = fragment.len().div_ceil(CONTENT);
    for i in 0..count {
        let from = CONTENT * i;
        let to = fragment.len().min(from + CONTENT);
        let at = BLOCK * i;
        write_data_block(&fragment[from..to], &mut out[at..at + BLOCK]);
    }
}

/// Reads the fragment whose blocks these are.
pub fn read_fragment(blocks: &[u8], out: &mut [u8])
    requires { length blocks.now ≡ BLOCK_BYTES * blocks_of (length out.old) }
    ensures { out.new ≡ fragment_at blocks.now 0 (length out.old) }
{
    let count = out.len().div_ceil(CONTENT);
    for i in 0..count {
        let from = CONTENT * i;
        let to = out.len().min(from + CONTENT);
        let at = BLOCK * i + 1;
        out[from..to].copy_from_slice(&blocks[at..at + (to - from)]);
    }
}

/// Writes the blocks of a record at the front, and answers how many bytes they are.
pub fn write_record(marker: &Marker, fragment: &[u8], out: &mut [u8]) -> usize
    requires marker { IsMarker marker.now }
    requires room { BLOCK_BYTES * (1 + blocks_of (length fragment.now)) ≤ length out.old }
    ensures end { result ≡ BLOCK_BYTES * (1 + blocks_of (length fragment.now)) }
    ensures written { out.new ≡ record_bytes marker.now fragment.now ++ drop result out.old }
{
    write_marker_block(marker, &mut out[..BLOCK]);
    let end = BLOCK + BLOCK * fragment.len().div_ceil(CONTENT);
    write_fragment(fragment, &mut out[BLOCK..end]);
    end
}
