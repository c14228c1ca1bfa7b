//! The payloads of records, from the fragments that carriers hold.
ghost use Rattle.std.specs.Prelude.{◌≡◌, ◌+◌, ◌*◌, ◌^◌, ◌<◌, ◌≤◌, ◌++◌, length, map, IfSome, IfOk, OnOk};
ghost use Rattle.std.specs.Int.{div_ceil};
ghost use Rattle.std.specs.List.{AllByRecursion};
ghost use Rattle.zone_bay.specs.Contents.{Reads};
ghost use Rattle.rs_code.specs.Fragments.{AreIndexes};
ghost use Rattle.array_model.specs.Payload.{payload_from};
ghost use Rattle.marker_format.specs.Fragment.{content_at, fragment_at};
ghost use Rattle.array_model.specs.Drives.{bytes_at};
ghost use Rattle.array_scan.specs.Calls.{OnlyRead, lost_by};
ghost use Rattle.array_scan.specs.SetRead.{place_of, IsPlaceIn, IsCarrierIn, FitsBay};
ghost use Rattle.array_scan.specs.Payloads.{resized, fragments_held, given_of};
ghost use Rattle.array_scan.specs.Scan.{payload_held};

use crate::refusal::ScanRefusal;
use crate::set_read::{Carrier, RecordAt, SetRead, ZonePlace};
use crate::zone::written;
use rs_code::Code;
use smore_base::{BLOCK_BYTES, CONTENT_BYTES, Memory};
use std::alloc::Global;
use zone_bay::Bay;

/// Bytes of a block.
const BLOCK: u64 = BLOCK_BYTES as u64;

/// Bytes of a block behind its first one.
const CONTENT: usize = CONTENT_BYTES as usize;

/// Fills `out` from the zone's byte `at` on.
fn read_into<B: Bay>(
    bay: &mut B,
    place: ZonePlace,
    at: u32,
    out: &mut [u8],
) -> Result<(), ScanRefusal>
    requires place { IsPlaceIn (B.state bay.old).shape place }
    requires written { IfSome (B.state bay.old).contents
        (λ held. at + length out.old ≤ length (bytes_at held (place_of place))) }
    ensures bytes { IfSome (B.state bay.old).contents
        (λ held. OnOk result (Reads (bytes_at held (place_of place)) at out.new)) }
    ensures len { length out.new ≡ length out.old }
    ensures reads { OnlyRead (B.state bay.old) (B.state bay.new) (lost_by result) }
{
    match bay.read(place.device, place.zone, at, out) {
        Ok(()) => Ok(()),
        Err(_) => Err(ScanRefusal::Lost {
            device: place.device,
        }),
    }
}

/// Adds the content of the block, as far as the zone has it.
fn add_content<B: Bay>(
    bay: &mut B,
    place: ZonePlace,
    block: u64,
    out: &mut Vec<u8>,
) -> Result<(), ScanRefusal>
    requires place { IsPlaceIn (B.state bay.old).shape place }
    requires few { block < 2 ^ 40 }
    ensures content { IfSome (B.state bay.old).contents (λ held. IfOk result
        (λ _. out.new.items ≡ out.old.items ++ content_at (bytes_at held (place_of place)) block)) }
    ensures reads { OnlyRead (B.state bay.old) (B.state bay.new) (lost_by result) }
{
    let at = BLOCK * block + 1;
    let written = u64::from(written(bay, place)?);
    if written <= at {
        return Ok(());
    }
    let len = CONTENT.min((written - at) as usize);
    let mut content = [0; CONTENT];
    read_into(bay, place, at as u32, &mut content[..len])?;
    out.extend_from_slice(&content[..len])?;
    Ok(())
}

/// Adds the carrier's fragment of the record: its first f bytes, with zeros behind what the zone has of them.
fn add_fragment<B: Bay>(
    bay: &mut B,
    place: ZonePlace,
    at: &RecordAt,
    f: usize,
    out: &mut Vec<u8>,
) -> Result<(), ScanRefusal>
    requires place { IsPlaceIn (B.state bay.old).shape place }
    ensures fragment { IfSome (B.state bay.old).contents (λ held. IfOk result (λ _. out.new.items
        ≡ out.old.items
        ++ resized f (fragment_at (bytes_at held (place_of place)) (at.now.block + 1) at.now.marker.fragment))) }
    ensures len { IfOk result (λ _. length out.new.items ≡ length out.old.items + f) }
    ensures reads { OnlyRead (B.state bay.old) (B.state bay.new) (lost_by result) }
{
    let from = out.len();
    for i in 0..u32::from(at.marker.fragment).div_ceil(CONTENT_BYTES) {
        add_content(bay, place, u64::from(at.block) + 1 + u64::from(i), out)?;
    }
    out.truncate(from.saturating_add(at.marker.fragment as usize));
    let Some(behind) = from.checked_add(f) else {
        return Err(ScanRefusal::Memory);
    };
    out.resize(behind, 0)?;
    Ok(())
}

/// Fragments of one record, and their indexes.
#[derive(Drop)]
struct Given {
    have: Vec<u8>,
    /// One fragment behind the other.
    fragments: Vec<u8>,
}

/// The carriers' fragments of the record, of f bytes each.
fn read_fragments<B: Bay>(
    alloc: Global,
    bay: &mut B,
    carriers: &[Carrier],
    at: &RecordAt,
    f: usize,
) -> Result<Given, ScanRefusal>
    requires within { AllByRecursion (IsCarrierIn (B.state bay.old).shape) carriers.now }
    ensures have { IfOk result (λ given. given.have.items ≡ map (λ c. c.index) carriers.now) }
    ensures size { IfOk result (λ given. length given.fragments.items ≡ length carriers.now * f) }
    ensures fragments { IfSome (B.state bay.old).contents (λ held. IfOk result
        (λ given. given.fragments.items ≡ fragments_held held at.now f carriers.now)) }
    ensures reads { OnlyRead (B.state bay.old) (B.state bay.new) (lost_by result) }
{
    let mut given = Given {
        have: Vec::new(alloc),
        fragments: Vec::new(alloc),
    };
    for carrier in carriers {
        given.have.push(carrier.index)?;
        add_fragment(bay, carrier.place, at, f, &mut given.fragments)?;
    }
    Ok(given)
}

/// The payload of so many bytes, from k of its fragments.
fn decode(
    alloc: Global,
    code: &Code,
    given: &Given,
    f: usize,
    bytes: usize,
) -> Result<Vec<u8>, Memory>
    requires have { AreIndexes code.now.k (code.now.k + code.now.p) given.now.have.items }
    requires size { length given.now.fragments.items ≡ code.now.k * f }
    requires f { f ≡ div_ceil bytes code.now.k }
    ensures { IfOk result (λ payload. payload.items
        ≡ payload_from code.now.k (given_of f given.now.have.items given.now.fragments.items) bytes) }
{
    let mut payload = Vec::new(alloc);
    for index in 0..code.k {
        let mut fragment = Vec::new(alloc);
        fragment.resize(f, 0)?;
        code.fragment_into(&given.have, &given.fragments, f, index, &mut fragment);
        payload.extend_from_slice(&fragment)?;
    }
    payload.truncate(bytes);
    Ok(payload)
}

/// What the k carriers of lowest index hold as the payload of a record of a set, which has k.
pub(crate) fn read_payload<B: Bay>(
    alloc: Global,
    bay: &mut B,
    code: &Code,
    set: &SetRead,
    at: &RecordAt,
) -> Result<Vec<u8>, ScanRefusal>
    requires fits { FitsBay (B.state bay.old).shape (code.now.k + code.now.p) set.now }
    requires enough { code.now.k ≤ length set.now.carriers.items }
    ensures payload { IfSome (B.state bay.old).contents (λ held. IfOk result
        (λ bytes. bytes.items ≡ payload_held code.now.k held set.now.carriers.items at.now)) }
    ensures reads { OnlyRead (B.state bay.old) (B.state bay.new) (lost_by result) }
{
    let k = code.k as usize;
    let bytes = at.marker.payload as usize;
    let f = bytes.div_ceil(k);
    let given = read_fragments(alloc, bay, &set.carriers[..k], at, f)?;
    Ok(decode(alloc, code, &given, f, bytes)?)
}
