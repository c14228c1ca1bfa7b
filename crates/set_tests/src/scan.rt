//! Arrays as tables of zones, and what a scan says of each.

ghost use Rattle.marker_format.proofs.MarkerRules.{Widths};

use array_scan::{Object, What, scan};
use bay_memory::MemoryBay;
use marker_format::{Label, Marker, write_data_block, write_label_block, write_marker_block};
use rs_code::{Code, Coded};
use smore_base::{Geometry, Name};
use std::alloc::Global;
use std::process::Abort;
use std::test::Fail;
use zone_bay::Bay;

const GEOMETRY: Geometry = Geometry {
    drives: 4,
    k: 2,
    p: 1,
    zones: 5,
    blocks: 128,
    shard: 511,
};

const ARRAY: [u8; 16] = *b"0123456789abcdef";

/// A record without its place: its kind, stamp, upload, part, parts, length, bytes of payload and name.
type Row = (u8, u64, u64, u32, u32, u32, u32, &'static [u8]);

const HEAD: Row = (1, 0, 0, 0, 0, 0, 0, b"");

const REBUILT: Row = (1, 0, 0, 1, 0, 0, 0, b"");

const READY: Row = (6, 0, 0, 0, 0, 0, 0, b"");

const TRAILER: Row = (9, 0, 0, 0, 0, 0, 0, b"");

const PART: Row = (2, 0, 1, 0, 0, 0, 5, b"");

const PUT: Row = (3, 1, 1, 0, 1, 5, 0, b"a");

const PUT_B: Row = (3, 2, 1, 0, 1, 5, 0, b"b");

const NEW_PART: Row = (2, 0, 2, 0, 0, 0, 5, b"");

const NEW_PUT: Row = (3, 3, 2, 0, 1, 5, 0, b"a");

const DELETE_A: Row = (4, 2, 0, 0, 0, 0, 0, b"a");

const DELETE_B: Row = (4, 4, 0, 0, 0, 0, 0, b"b");

/// In set 1: four records, and first ones of them.
const FOUR: &[Row] = &[HEAD, READY, PART, PUT];

const THREE: &[Row] = &[HEAD, READY, PART];

const TWO: &[Row] = &[HEAD, READY];

/// Cuts of set 1.
const CUT_TO_4: Row = (5, 0, 1, 0, 0, 4, 0, b"");

const CUT_TO_0: Row = (5, 0, 1, 0, 0, 0, 0, b"");

/// A zone: the device, the zone, the set, the index and the records.
type Zone = (u8, u16, u64, u8, &'static [Row]);

/// Zones, the devices that are away, and what the scan says: of each set the number, the carriers and the valid records; of
/// the names a and b the bytes of the object, 100 and the part for a broken one, or 200 for none; the needed records as 100
/// times the set and the position; and whether each set keeps k carriers without drive 0.
const ARRAYS: [(&[Zone], &[u8], &[u64]); 15] = [
    // nothing but labels
    (&[], &[], &[200, 200, 1]),
    // a set of four records
    (
        &[(0, 2, 1, 0, FOUR), (1, 2, 1, 1, FOUR), (2, 2, 1, 2, FOUR)],
        &[],
        &[1, 3, 4, 5, 200, 102, 103, 1],
    ),
    // the note on two of three carriers
    (
        &[(0, 2, 1, 0, FOUR), (1, 2, 1, 1, FOUR), (2, 2, 1, 2, THREE)],
        &[],
        &[1, 3, 3, 200, 200, 1],
    ),
    // the same without the third
    (
        &[(0, 2, 1, 0, FOUR), (1, 2, 1, 1, FOUR), (2, 2, 1, 2, THREE)],
        &[2],
        &[1, 2, 4, 5, 200, 102, 103, 0],
    ),
    // the same without the first and the third: one carrier
    (
        &[(0, 2, 1, 0, FOUR), (1, 2, 1, 1, FOUR), (2, 2, 1, 2, THREE)],
        &[0, 2],
        &[1, 1, 0, 200, 200, 0],
    ),
    // a delete that a higher set cuts off
    (
        &[
            (0, 2, 1, 0, &[HEAD, READY, PART, PUT, DELETE_A]),
            (1, 2, 1, 1, &[HEAD, READY, PART, PUT, DELETE_A]),
            (2, 2, 1, 2, &[HEAD, READY, PART, PUT, DELETE_A]),
            (1, 3, 2, 0, &[HEAD, CUT_TO_4, READY]),
            (2, 3, 2, 1, &[HEAD, CUT_TO_4, READY]),
            (3, 3, 2, 2, &[HEAD, CUT_TO_4, READY]),
        ],
        &[],
        &[1, 3, 4, 2, 3, 3, 5, 200, 102, 103, 201, 1],
    ),
    // a cut to 0
    (
        &[
            (0, 2, 1, 0, FOUR),
            (1, 2, 1, 1, FOUR),
            (1, 3, 2, 0, &[HEAD, CUT_TO_0, READY]),
            (2, 3, 2, 1, &[HEAD, CUT_TO_0, READY]),
        ],
        &[],
        &[1, 2, 0, 2, 2, 3, 200, 200, 201, 0],
    ),
    // no ready record
    (
        &[
            (0, 2, 1, 0, &[HEAD, PART, PUT]),
            (1, 2, 1, 1, &[HEAD, PART, PUT]),
        ],
        &[],
        &[1, 2, 0, 200, 200, 0],
    ),
    // three zones of one index, on one drive and on another
    (
        &[
            (0, 2, 1, 0, FOUR),
            (0, 3, 1, 0, TWO),
            (3, 2, 1, 0, TWO),
            (1, 2, 1, 1, FOUR),
        ],
        &[],
        &[1, 2, 4, 5, 200, 102, 103, 1],
    ),
    // a put over a put, and a delete over a put
    (
        &[
            (0, 2, 1, 0, &[HEAD, READY, PART, PUT, PUT_B]),
            (1, 2, 1, 1, &[HEAD, READY, PART, PUT, PUT_B]),
            (1, 3, 2, 0, &[HEAD, READY, NEW_PART, NEW_PUT, DELETE_B]),
            (2, 3, 2, 1, &[HEAD, READY, NEW_PART, NEW_PUT, DELETE_B]),
        ],
        &[],
        &[1, 2, 5, 2, 2, 5, 5, 200, 202, 203, 204, 0],
    ),
    // a copy of a note
    (
        &[
            (0, 2, 1, 0, FOUR),
            (1, 2, 1, 1, FOUR),
            (1, 3, 2, 0, &[HEAD, READY, PUT]),
            (2, 3, 2, 1, &[HEAD, READY, PUT]),
        ],
        &[],
        &[1, 2, 4, 2, 2, 3, 5, 200, 102, 103, 0],
    ),
    // a note without its part
    (
        &[
            (1, 2, 1, 0, &[HEAD, READY, PUT]),
            (2, 2, 1, 1, &[HEAD, READY, PUT]),
        ],
        &[],
        &[1, 2, 3, 100, 200, 102, 1],
    ),
    // two cuts of one set
    (
        &[
            (0, 2, 1, 0, FOUR),
            (1, 2, 1, 1, FOUR),
            (1, 3, 2, 0, &[HEAD, CUT_TO_4, READY]),
            (2, 3, 2, 1, &[HEAD, CUT_TO_4, READY]),
            (1, 4, 3, 0, &[HEAD, CUT_TO_0, READY]),
            (2, 4, 3, 1, &[HEAD, CUT_TO_0, READY]),
        ],
        &[],
        &[1, 2, 0, 2, 2, 3, 3, 2, 3, 200, 200, 301, 0],
    ),
    // a rebuilt zone with its trailer
    (
        &[
            (1, 2, 1, 1, FOUR),
            (2, 2, 1, 2, &[REBUILT, READY, PART, PUT, TRAILER]),
        ],
        &[],
        &[1, 2, 4, 5, 200, 102, 103, 1],
    ),
    // and without it
    (
        &[
            (1, 2, 1, 1, FOUR),
            (2, 2, 1, 2, &[REBUILT, READY, PART, PUT]),
        ],
        &[],
        &[1, 1, 0, 200, 200, 0],
    ),
];

/// Puts the bytes behind what the zone holds.
fn put(
    rt: &impl Abort,
    bay: &mut MemoryBay,
    device: u8,
    zone: u16,
    bytes: &[u8],
) -> Result<(), Fail> {
    assert!(rt; bay.blocks() == 128 && device < bay.devices() && zone < bay.zones());
    assert!(rt; bytes.len() <= 1024 && bay.held(device, zone).len() <= 60_000);
    bay.append(device, zone, bytes)?;
    Ok(())
}

/// The block that holds the marker, or zeros where it isn't well formed.
fn block_of(marker: &Marker) -> [u8; 512]
    requires { Widths marker.now }
{
    let mut block = [0; 512];
    if marker.is_well_formed() {
        write_marker_block(marker, &mut block);
    }
    block
}

/// The blocks of a record of which hello has the payload's bytes.
fn bytes_of(
    rt: &impl Abort,
    alloc: Global,
    row: &Row,
    zone: &Zone,
    position: u16,
) -> Result<Vec<u8>, Fail> {
    let (kind, stamp, upload, part, parts, length, payload, name) = *row;
    assert!(rt; payload <= 5 && zone.3 < 3);
    let marker = Marker {
        kind,
        index: zone.3,
        k: 2,
        n: 3,
        set: zone.2,
        position,
        fragment: payload.div_ceil(2) as u16,
        stamp,
        upload,
        part,
        parts,
        length,
        payload,
        array: ARRAY,
        name: Name::new(name).ok(),
    };
    let mut block = block_of(&marker);
    let mut bytes = Vec::new(alloc);
    bytes.extend_from_slice(&block)?;
    if payload > 0 {
        let coded = Coded::of(alloc, &Code::new(2, 1), &b"hello"[..payload as usize])?;
        let fragment = coded.fragment(zone.3);
        assert!(rt; fragment.len() <= 511);
        write_data_block(fragment, &mut block);
        bytes.extend_from_slice(&block)?;
    }
    Ok(bytes)
}

/// A bay with these zones, whose last label is of another array where that is asked for.
fn bay_with(
    rt: &impl Abort,
    alloc: Global,
    zones: &[Zone],
    last: [u8; 16],
) -> Result<MemoryBay, Fail> {
    let mut bay = MemoryBay::new(alloc, 5, 5, 128)?;
    for device in 0..4 {
        let label = Label {
            version: 1,
            device,
            geometry: GEOMETRY,
            array: if device == 3 { last } else { ARRAY },
        };
        let mut block = [0; 512];
        write_label_block(&label, &mut block);
        put(rt, &mut bay, device, 0, &block)?;
    }
    for zone in zones {
        for (position, row) in zone.4.iter().enumerate() {
            assert!(rt; position < 100);
            let bytes = bytes_of(rt, alloc, row, zone, position as u16)?;
            put(rt, &mut bay, zone.0, zone.1, &bytes)?;
        }
    }
    Ok(bay)
}

/// What is told of a name, as a number.
fn number_of(what: Option<&What>) -> u64 {
    match what {
        Some(What::Whole { bytes }) => u64::from(*bytes),
        Some(What::Broken { part, .. }) => 100 + u64::from(*part),
        None => 200,
    }
}

/// What the scan of the bay says, as numbers.
fn told<B: Bay>(alloc: Global, bay: &mut B, away: &[u8]) -> Result<Vec<u64>, Fail> {
    let scan = scan(alloc, bay, away)?;
    let mut told = Vec::new(alloc);
    for set in &scan.sets.list {
        told.push(set.read.id)?;
        told.push(set.read.carriers.len() as u64)?;
        told.push(set.valid as u64)?;
    }
    let objects = scan.map(alloc)?;
    told.push(number_of(objects.get(b"a".as_slice())))?;
    told.push(number_of(objects.get(b"b".as_slice())))?;
    for valid in &scan.needed(alloc, bay)? {
        let place = valid.set.id.saturating_mul(100);
        told.push(place.saturating_add(valid.position as u64))?;
    }
    told.push(u64::from(scan.keeps_carriers(alloc, bay, &[0])?))?;
    Ok(told)
}

#[test]
fn arrays_say_what_they_hold(rt: HostRuntime) -> Result<(), Fail> {
    for (zones, away, numbers) in &ARRAYS {
        let mut bay = bay_with(&rt, rt.alloc(), zones, ARRAY)?;
        assert_eq!(rt; told(rt.alloc(), &mut bay, away)?.as_slice(), *numbers);
    }
    Ok(())
}

fn is_hello(object: &Option<Object>) -> bool {
    match object {
        Some(Object::Whole { bytes }) => bytes.as_slice() == b"hello".as_slice(),
        _ => false,
    }
}

/// The bytes of an object, with each drive away in turn.
#[test]
fn objects_are_read_from_any_carriers(rt: HostRuntime) -> Result<(), Fail> {
    let zones: [Zone; 3] = [(0, 2, 1, 0, FOUR), (1, 2, 1, 1, FOUR), (2, 2, 1, 2, FOUR)];
    let mut bay = bay_with(&rt, rt.alloc(), &zones, *b"fedcba9876543210")?;
    for away in 0..4 {
        let scan = scan(rt.alloc(), &mut bay, &[away])?;
        assert_eq!(rt; scan.is_mixed(), away != 3);
        let object = scan.object(rt.alloc(), &mut bay, b"a")?;
        assert!(rt; is_hello(&object));
    }
    Ok(())
}
