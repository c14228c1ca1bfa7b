//! Records of a set over six drives, of which any four have the payload.

ghost use Rattle.std.specs.Prelude.{◌≤◌, length};
ghost use Rattle.marker_format.proofs.MarkerRules.{Widths};

use marker_format::{Marker, write_record};
use rs_code::{Code, Coded};
use set_reader::{ReadRefusal, read_record};
use set_table::SetTable;
use smore_base::{Geometry, Name, Place};
use std::alloc::Global;
use std::process::Abort;
use std::test::Fail;
use zone_bay::{Bay, Failed};

const GEOMETRY: Geometry = Geometry {
    drives: 6,
    k: 4,
    p: 2,
    zones: 4,
    blocks: 128,
    shard: 1022,
};

const ARRAY: [u8; 16] = *b"0123456789abcdef";

/// Bytes of each zone: a block of zeros, and a record of three blocks.
const ZONE: usize = 2048;

/// The record of set 1 behind the first block.
const PLACE: Place = Place {
    set: 1,
    position: 1,
    block: 1,
};

/// A bay of six drives and the flash, of which each zone of a drive holds the same bytes. It tells nothing of them. A call
/// fails where the device is broken, and at the last moment.
#[derive(Drop)]
struct Drives {
    /// The drives' zones, one behind the other.
    bytes: Vec<u8>,
    broken: [bool; 7],
    moment: u64,
    reads: u64,
    /// How often each device has failed.
    faults: [u64; 7],
}

impl Drives {
    ghost use Rattle.std.specs.Prelude.{◌≡◌, ◌<◌};
    ghost use Rattle.zone_bay.specs.Counts.{CountsCall};

    /// Counts a call on the device, and lets it fail where it is to.
    fn begin(&mut self, device: u8) -> Result<(), Failed>
        requires { device < 7 }
        ensures call { CountsCall device (⟦<Drives as Bay>⟧.state self.old) (⟦<Drives as Bay>⟧.state self.new) result }
        ensures reads { self.new.reads ≡ self.old.reads }
    {
        let device = usize::from(device);
        let fails = self.broken[device] || self.moment == u64::MAX;
        self.moment = self.moment.saturating_add(1);
        if fails {
            self.faults[device] = self.faults[device].saturating_add(1);
            return Err(Failed);
        }
        Ok(())
    }
}

impl Bay for Drives {
    ghost use Rattle.std.specs.Prelude.{slice_index};
    ghost use Rattle.zone_bay.specs.Counts.{counts_alone, counts_are_sound};

    ghost state = { λ bay. counts_alone (record { shape = record { devices = 7; zones = 4; blocks = 128 }; faults = λ device. slice_index bay.faults device; moment = bay.moment; reads = bay.reads }) };

    ghost sound = { λ bay. counts_are_sound _ };

    fn devices(&self) -> u8 {
        7
    }

    fn zones(&self) -> u16 {
        4
    }

    fn blocks(&self) -> u32 {
        128
    }

    fn moment(&self) -> u64 {
        self.moment
    }

    fn written(&mut self, device: u8, _zone: u16) -> Result<u32, Failed> {
        self.begin(device)?;
        Ok(ZONE as u32)
    }

    fn read(&mut self, device: u8, _zone: u16, at: u32, out: &mut [u8]) -> Result<(), Failed> {
        if device < 6 {
            self.reads = self.reads.saturating_add(1);
        }
        self.begin(device)?;
        let from = ZONE * usize::from(device) + at as usize;
        if let Some(part) = self.bytes.get(from..from + out.len()) {
            out.copy_from_slice(part);
        }
        Ok(())
    }

    fn append(&mut self, device: u8, _zone: u16, _bytes: &[u8]) -> Result<(), Failed> {
        self.begin(device)
    }

    fn reset(&mut self, device: u8, _zone: u16) -> Result<(), Failed> {
        self.begin(device)
    }

    fn flush(&mut self, device: u8) -> Result<(), Failed> {
        self.begin(device)
    }

    fn replace(&mut self, device: u8) -> Result<(), Failed> {
        self.begin(device)
    }
}

/// The marker of a part, or of a note where there is no payload.
fn marker_of(payload: u16, index: u8) -> Marker
    ensures { Widths result }
{
    let note = payload == 0;
    Marker {
        kind: if note { 3 } else { 2 },
        index,
        k: 4,
        n: 6,
        set: 1,
        position: 1,
        fragment: payload.div_ceil(4),
        stamp: u64::from(note),
        upload: 1,
        part: 0,
        parts: u32::from(note),
        length: u32::from(note),
        payload: u32::from(payload),
        array: ARRAY,
        name: if note { Name::new(b"a").ok() } else { None },
    }
}

/// Writes the record. False where its marker isn't well formed.
fn put_record(marker: &Marker, fragment: &[u8], out: &mut [u8]) -> bool
    requires widths { Widths marker.now }
    requires few { length fragment.now ≤ 1022 }
    requires room { 1536 ≤ length out.old }
{
    if !marker.is_well_formed() {
        return false;
    }
    write_record(marker, fragment, out);
    true
}

/// Drives whose zones have a record with this payload.
fn drives_with(rt: &impl Abort, alloc: Global, payload: &[u8]) -> Result<Drives, Fail> {
    let body = Coded::of(alloc, &Code::new(4, 2), payload)?;
    let mut bytes = Vec::new(alloc);
    assert!(rt; payload.len() <= 4088);
    for index in 0..6 {
        let marker = marker_of(payload.len() as u16, index);
        let fragment = body.fragment(index);
        assert!(rt; fragment.len() <= 1022);
        let mut zone = vec![in alloc; 0; ZONE]?;
        assert!(rt; put_record(&marker, fragment, &mut zone[512..]));
        bytes.extend_from_slice(&zone)?;
    }
    Ok(Drives {
        bytes,
        broken: [false; 7],
        moment: 0,
        reads: 0,
        faults: [0; 7],
    })
}

/// A table in which these drives are lost, and each carries an index of set 1.
fn table_without(alloc: Global, lost: &[bool; 6]) -> Result<SetTable, Fail> {
    GEOMETRY.check()?;
    let mut table = SetTable::new(alloc, GEOMETRY, ARRAY)?;
    table.reserve(1)?;
    if !table.contains(1) {
        let _ = table.form_set(1, 6)?;
    }
    for (device, is_lost) in lost.iter().enumerate() {
        if *is_lost && device <= table.geometry().drives as usize {
            table.lose(device as u8);
        }
    }
    Ok(table)
}

/// The drives whose bits are set.
fn drives_of(bits: u8) -> [bool; 6] {
    let mut drives = [false; 6];
    for device in 0..6u8 {
        drives[device as usize] = bits >> device & 1 == 1;
    }
    drives
}

/// Reads the record behind a first byte, with these drives lost before, and those broken in the call.
fn read(
    rt: &impl Abort,
    alloc: Global,
    drives: &mut Drives,
    lost: u8,
    broken: u8,
) -> Result<(Vec<u8>, Result<(), ReadRefusal>), Fail> {
    let mut table = table_without(alloc, &drives_of(lost))?;
    for (device, is_broken) in drives_of(broken).iter().enumerate() {
        drives.broken[device] = *is_broken;
    }
    let mut out = vec![in alloc; 7; 1]?;
    assert!(rt; *table.geometry() == GEOMETRY);
    let answer = read_record(drives, &mut table, &PLACE, &mut out);
    Ok((out, answer))
}

/// The payload behind a first byte.
fn behind_a_byte(alloc: Global, payload: &[u8]) -> Result<Vec<u8>, Fail> {
    let mut out = vec![in alloc; 7; 1]?;
    out.extend_from_slice(payload)?;
    Ok(out)
}

/// Bytes that aren't alike.
fn payload_of(alloc: Global, len: usize) -> Result<Vec<u8>, Fail> {
    let mut payload = vec![in alloc; 0; len]?;
    for (at, byte) in payload.iter_mut().enumerate() {
        *byte = (at % 251) as u8 + 1;
    }
    Ok(payload)
}

/// Each pair of drives lost, and more than two: before the call, and in it.
#[test]
fn any_four_drives_have_the_payload(rt: HostRuntime) -> Result<(), Fail> {
    for len in [0, 1, 4 * 1022] {
        let payload = payload_of(rt.alloc(), len)?;
        let whole = behind_a_byte(rt.alloc(), &payload)?;
        let mut drives = drives_with(&rt, rt.alloc(), &payload)?;
        for bits in 0..64 {
            let mut missing = 0u8;
            for is_away in drives_of(bits) {
                missing = missing.saturating_add(u8::from(is_away));
            }
            for (lost, broken) in [(bits, 0), (0, bits)] {
                let (out, answer) = read(&rt, rt.alloc(), &mut drives, lost, broken)?;
                if missing <= 2 {
                    assert_eq!(rt; answer, Ok(()));
                    assert!(rt; out.as_slice() == whole.as_slice());
                } else if lost > 0 {
                    assert_eq!(rt;
                        answer,
                        Err(ReadRefusal::TooFewFragments { set: 1, missing })
                    );
                    assert!(rt; out.as_slice() == [7].as_slice());
                }
            }
        }
    }
    Ok(())
}

/// Drives that are lost before the call, drives that fail in it, and how many reads are made.
const READS: [(u8, u8, u64); 9] = [
    (0, 0, 5),
    (0b11, 0, 5),
    // one that isn't called
    (0b1, 0b10_0000, 5),
    // that of the marker
    (0, 0b1, 6),
    // the second, and then the third
    (0, 0b110, 9),
    // the fourth
    (0, 0b1000, 9),
    // no call where too few are left
    (0b111, 0, 0),
    (0b11, 0b100, 1),
    (0, 0b11_1000, 13),
];

#[test]
fn a_fragment_is_read_once(rt: HostRuntime) -> Result<(), Fail> {
    let payload = payload_of(rt.alloc(), 5)?;
    let mut drives = drives_with(&rt, rt.alloc(), &payload)?;
    for (lost, broken, reads) in READS {
        let before = drives.reads;
        let (_, _) = read(&rt, rt.alloc(), &mut drives, lost, broken)?;
        assert_eq!(rt;
            drives.reads.saturating_sub(before),
            reads,
            "{lost} lost, {broken} broken"
        );
    }
    Ok(())
}
