//! The fragments of a record, read from the zones that carry them.
ghost use Rattle.std.specs.Prelude.{◌≡◌, ◌+◌, ◌*◌, ◌^◌, ◌<◌, ◌≤◌, length, IfSome, IfErr, OnOk};
ghost use Rattle.std.specs.List.{AllByRecursion, Contains};
ghost use Rattle.smore_base.specs.declared.limits.TheConstants.{BLOCK_BYTES, MAX_BLOCKS, MAX_SHARD_BYTES};
ghost use Rattle.marker_format.specs.Fragment.{blocks_of};
ghost use Rattle.set_reader.specs.Calls.{ReadsUntil, failed_by};
ghost use Rattle.set_reader.specs.Rows.{IsInBay, HasBlocks, devices_of, fragment_on, rows_of};

use marker_format::{blocks_of, read_fragment};
use set_table::Member;
use smore_base::BLOCK_BYTES;
use zone_bay::Bay;

/// Fills `out` with the fragment behind the marker at this block, in one read. The buffer has room for its blocks. Where it
/// fails, the device is told.
fn read_row<B: Bay>(
    bay: &mut B,
    member: Member,
    block: u32,
    buffer: &mut [u8],
    out: &mut [u8],
) -> Result<(), u8>
    requires zone { IsInBay (B.state bay.old).shape member }
    requires few { block < MAX_BLOCKS }
    requires short { length out.old ≤ MAX_SHARD_BYTES }
    requires room { BLOCK_BYTES * blocks_of (length out.old) ≤ length buffer.old }
    requires written { IfSome (B.state bay.old).contents (λ held. HasBlocks held block (length out.old) member) }
    ensures fragment { IfSome (B.state bay.old).contents
        (λ held. OnOk result (out.new ≡ fragment_on held block (length out.old) member)) }
    ensures device { IfErr result (λ device. device ≡ member.device) }
    ensures reads { ReadsUntil 1 (failed_by result) (B.state bay.old) (B.state bay.new) }
{
    let bytes = (BLOCK_BYTES * blocks_of(out.len() as u32)) as usize;
    let blocks = &mut buffer[..bytes];
    let at = BLOCK_BYTES * (block + 1);
    match bay.read(member.device, member.zone, at, blocks) {
        Ok(()) => {
            read_fragment(blocks, out);
            Ok(())
        }
        Err(_) => Err(member.device),
    }
}

/// Fills `rows` with the fragments of these members, of `f` bytes each, one behind the other: one read for each. The buffer has
/// room for the blocks of one. Where a read fails, its device is told, and no call follows.
pub(crate) fn read_rows<B: Bay>(
    bay: &mut B,
    members: &[Member],
    block: u32,
    f: usize,
    buffer: &mut [u8],
    rows: &mut [u8],
) -> Result<(), u8>
    requires zones { AllByRecursion (IsInBay (B.state bay.old).shape) members.now }
    requires few { block < MAX_BLOCKS }
    requires short { f ≤ MAX_SHARD_BYTES }
    requires size { length rows.old ≡ length members.now * f }
    requires room { BLOCK_BYTES * blocks_of f ≤ length buffer.old }
    requires written { IfSome (B.state bay.old).contents (λ held. AllByRecursion (HasBlocks held block f) members.now) }
    ensures rows { IfSome (B.state bay.old).contents (λ held. OnOk result (rows.new ≡ rows_of held block f members.now)) }
    ensures device { IfErr result (Contains (devices_of members.now)) }
    ensures reads { ReadsUntil (length members.now) (failed_by result) (B.state bay.old) (B.state bay.new) }
{
    for (at, member) in members.iter().enumerate() {
        let from = at * f;
        read_row(bay, *member, block, buffer, &mut rows[from..from + f])?;
    }
    Ok(())
}
