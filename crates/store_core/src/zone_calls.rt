//! Calls on the store's zone.
ghost use Rattle.std.specs.Prelude.{◌≡◌, ◌+◌, ◌*◌, ◌^◌, ◌<◌, ◌≤◌, length, IfSome, OnOk};
ghost use Rattle.smore_base.specs.declared.limits.TheConstants.{BLOCK_BYTES};
ghost use Rattle.marker_format.specs.Fragment.{fragment_at, blocks_of};
ghost use Rattle.store_core.specs.DeviceCalls.{Appends};
ghost use Rattle.zone_bay.specs.OneDevice.{ReadsOn};

use crate::blocks::{BLOCK, CONTENT};
use crate::store::{DRIVE, ZONE};
use marker_format::read_fragment;
use zone_bay::{Bay, Failed};

/// Puts the bytes at the end of the zone, and makes them firm.
pub(crate) fn append_firm<B: Bay>(bay: &mut B, bytes: &[u8]) -> Result<(), Failed>
    requires drive { DRIVE < (B.state bay.old).shape.devices }
    requires zone { ZONE < (B.state bay.old).shape.zones }
    requires fits { IfSome (B.state bay.old).contents
        (λ held. length (held DRIVE ZONE) + length bytes.now ≤ BLOCK_BYTES * (B.state bay.old).shape.blocks) }
    ensures { Appends bytes.now (B.state bay.old) (B.state bay.new) result }
{
    bay.append(DRIVE, ZONE, bytes)?;
    bay.flush(DRIVE)
}

/// Fills `out` with the fragment of the record whose marker stands at this block. The buffer has room for its blocks.
pub(crate) fn read_record<B: Bay>(
    bay: &mut B,
    block: u32,
    buffer: &mut [u8],
    out: &mut [u8],
) -> Result<(), Failed>
    requires drive { DRIVE < (B.state bay.old).shape.devices }
    requires zone { ZONE < (B.state bay.old).shape.zones }
    requires room { BLOCK_BYTES * blocks_of (length out.old) ≤ length buffer.old }
    requires few { BLOCK_BYTES * (block + 1 + blocks_of (length out.old)) < 2 ^ 32 }
    requires written { IfSome (B.state bay.old).contents
        (λ held. BLOCK_BYTES * (block + 1 + blocks_of (length out.old)) ≤ length (held DRIVE ZONE)) }
    ensures fragment { IfSome (B.state bay.old).contents
        (λ held. OnOk result (out.new ≡ fragment_at (held DRIVE ZONE) (block + 1) (length out.old))) }
    ensures room { length buffer.new ≡ length buffer.old }
    ensures length { length out.new ≡ length out.old }
    ensures reads { ReadsOn DRIVE (B.state bay.old) (B.state bay.new) result }
{
    let bytes = BLOCK * out.len().div_ceil(CONTENT);
    let blocks = &mut buffer[..bytes];
    bay.read(DRIVE, ZONE, BLOCK as u32 * (block + 1), blocks)?;
    read_fragment(blocks, out);
    Ok(())
}
