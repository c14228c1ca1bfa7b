//! Zones as tables of blocks, and the kinds of their whole records as digits.

ghost use Rattle.std.specs.Prelude.{IfOk};
ghost use Rattle.zone_parse.specs.ZoneReader.{CanRead};

use Block::{Data, Foot, Half, Ready, Record};
use bay_memory::MemoryBay;
use smore_base::Geometry;
use std::alloc::Global;
use std::process::Abort;
use std::test::Fail;
use zone_bay::Bay;
use zone_parse::{Lost, ZoneReader};

const GEOMETRY: Geometry = Geometry {
    drives: 2,
    k: 1,
    p: 1,
    zones: 4,
    blocks: 128,
    shard: 511,
};

const ARRAY: [u8; 16] = *b"0123456789abcdef";

/// A block of a zone of set 2, index 0.
#[derive(Clone, Copy)]
enum Block {
    /// Kind, position, part, parts and bytes of the payload.
    Record(u8, u8, u8, u8, u8),
    /// The position and the block of the first digest record, and how many there are.
    Foot(u8, u8, u8),
    /// Bytes of an object, which are a whole marker block: that of a put at position 3.
    Data,
    /// The same as half of an object: its bytes begin with that marker.
    Half,
    /// A ready record at position 1, with this byte of its block changed.
    Ready(usize, u8),
}

/// The bytes of the block, each field at its place.
fn bytes_of(block: Block) -> [u8; 512] {
    let mut out = [0; 512];
    match block {
        Record(kind, position, part, parts, payload) => {
            out[0] = 1;
            out[1..9].copy_from_slice(b"SMOREMK1");
            out[9] = kind;
            out[11] = 1;
            out[12] = 2;
            out[20] = 2;
            out[22] = position;
            out[24] = payload;
            if kind == 3 {
                // a stamp, one byte under the name a
                out[32] = 1;
                out[52] = 1;
                out[73] = 1;
                out[74] = b'a';
            }
            if kind == 2 || kind == 3 || kind == 5 {
                // an upload, or the set that is cut
                out[40] = 1;
            }
            out[44] = part;
            out[48] = parts;
            out[56] = payload;
            out[57..73].copy_from_slice(&ARRAY);
        }
        Foot(position, block, count) => {
            out[0] = 3;
            out[1..9].copy_from_slice(b"SMOREFT1");
            out[16] = 2;
            out[19] = position;
            out[23] = block;
            out[27] = count;
        }
        Data => return bytes_of_put(),
        Half => {
            out = bytes_of_put();
            out[0] = 2;
        }
        Ready(at, byte) => {
            out[..13].copy_from_slice(b"\x01SMOREMK1\x06\0\x01\x02");
            out[20] = 2;
            out[22] = 1;
            out[57..73].copy_from_slice(&ARRAY);
            if at < 512 {
                out[at] = byte;
            }
        }
    }
    out
}

fn bytes_of_put() -> [u8; 512] {
    let mut out = [0; 512];
    out[..9].copy_from_slice(b"\x01SMOREMK1");
    out[9..13].copy_from_slice(b"\x03\0\x01\x02");
    out[20] = 2;
    out[22] = 3;
    out[32] = 1;
    out[40] = 1;
    out[48] = 1;
    out[52] = 1;
    out[57..73].copy_from_slice(&ARRAY);
    out[73..75].copy_from_slice(b"\x01a");
    out
}

const HEAD: Block = Record(1, 0, 0, 0, 0);

const MARKED_HEAD: Block = Record(1, 0, 1, 0, 0);

const READY: Block = Record(6, 1, 0, 0, 0);

const PART: Block = Record(2, 2, 0, 0, 5);

const PUT: Block = Record(3, 3, 0, 1, 0);

/// The blocks of a zone, the kinds of its whole records, and whether a whole foot follows.
const ZONES: [(&[Block], u64, bool); 33] = [
    // open
    (&[HEAD, READY, PART, Data, PUT], 1623, false),
    // closed
    (
        &[
            HEAD,
            READY,
            PART,
            Data,
            PUT,
            Record(7, 4, 0, 2, 5),
            Data,
            Record(7, 5, 1, 2, 5),
            Data,
            Foot(4, 5, 2),
        ],
        162_377,
        true,
    ),
    // rebuilt, closed
    (
        &[
            MARKED_HEAD,
            READY,
            PART,
            Data,
            Record(7, 3, 0, 1, 5),
            Data,
            Foot(3, 4, 1),
            Record(9, 4, 0, 0, 0),
        ],
        1627,
        true,
    ),
    // rebuilt, closed, with a cut
    (
        &[
            MARKED_HEAD,
            Record(5, 1, 0, 0, 0),
            Record(6, 2, 0, 0, 0),
            Record(2, 3, 0, 0, 5),
            Half,
            Record(7, 4, 0, 1, 5),
            Half,
            Foot(4, 5, 1),
            Record(9, 5, 0, 0, 0),
        ],
        15_627,
        true,
    ),
    // rebuilt, settled by a cut
    (
        &[MARKED_HEAD, READY, PART, Data, Record(9, 3, 0, 0, 0)],
        162,
        false,
    ),
    // no bytes
    (&[], 0, false),
    // no head
    (&[READY], 0, false),
    // an object's bytes that are a marker, where the next record would stand without them
    (&[HEAD, READY, PART, Data], 162, false),
    // half of an object that begins with a marker
    (&[HEAD, READY, PART, Half], 162, false),
    // the last block of a record is missing
    (&[HEAD, READY, PART], 16, false),
    // a second head
    (&[HEAD, HEAD], 1, false),
    // a head at position 1
    (&[HEAD, Record(1, 1, 0, 0, 0)], 1, false),
    // a position is left out
    (&[HEAD, Record(6, 2, 0, 0, 0)], 1, false),
    // digest records out of turn: a first one that is no first one
    (&[HEAD, READY, Record(7, 2, 1, 2, 5), Data], 16, false),
    // a third one behind the first one
    (
        &[
            HEAD,
            READY,
            Record(7, 2, 0, 3, 5),
            Data,
            Record(7, 3, 2, 3, 5),
            Data,
        ],
        167,
        false,
    ),
    // another record behind the first of two
    (&[HEAD, READY, Record(7, 2, 0, 2, 5), Data, PUT], 167, false),
    // a foot behind the first of two
    (
        &[HEAD, READY, Record(7, 2, 0, 2, 5), Data, Foot(2, 2, 2)],
        167,
        false,
    ),
    // a foot with another block
    (
        &[HEAD, READY, Record(7, 2, 0, 1, 5), Data, Foot(2, 3, 1)],
        167,
        false,
    ),
    // rebuilt, and without its trailer
    (&[MARKED_HEAD, READY, PART, Data], 0, false),
    // rebuilt, and its trailer has another position
    (
        &[MARKED_HEAD, READY, PART, Data, Record(9, 4, 0, 0, 0)],
        0,
        false,
    ),
    // rebuilt, closed, and without its trailer
    (
        &[
            MARKED_HEAD,
            READY,
            Record(7, 2, 0, 1, 5),
            Data,
            Foot(2, 2, 1),
        ],
        0,
        false,
    ),
    // rebuilt, and its trailer is behind the first of two digest records
    (
        &[
            MARKED_HEAD,
            READY,
            Record(7, 2, 0, 2, 5),
            Data,
            Record(9, 3, 0, 0, 0),
        ],
        167,
        false,
    ),
    // rebuilt, and a foot with another number stands before its trailer
    (
        &[
            MARKED_HEAD,
            READY,
            Record(7, 2, 0, 1, 5),
            Data,
            Foot(2, 2, 2),
            Record(9, 3, 0, 0, 0),
        ],
        0,
        false,
    ),
    // a record behind the foot
    (
        &[
            HEAD,
            READY,
            Record(7, 2, 0, 1, 5),
            Data,
            Foot(2, 2, 1),
            Record(6, 3, 0, 0, 0),
        ],
        167,
        true,
    ),
    // records behind the trailer
    (&[MARKED_HEAD, Record(9, 1, 0, 0, 0), READY], 1, false),
    // a trailer in a zone that isn't rebuilt
    (
        &[HEAD, Record(9, 1, 0, 0, 0), Record(6, 2, 0, 0, 0)],
        1,
        false,
    ),
    // a ready record with nothing changed
    (&[HEAD, Ready(0, 1)], 16, false),
    // of another set
    (&[HEAD, Ready(20, 3)], 1, false),
    // of another index
    (&[HEAD, Ready(10, 1)], 1, false),
    // of another code
    (&[HEAD, Ready(12, 3)], 1, false),
    // of another array
    (&[HEAD, Ready(57, b'1')], 1, false),
    // under another tag
    (&[HEAD, Ready(0, 2)], 1, false),
    // a byte behind the marker
    (&[HEAD, Ready(511, 1)], 1, false),
];

/// The kinds of the reader's records as digits, and whether a foot follows.
fn kinds_of<B: Bay>(bay: &mut B, mut reader: ZoneReader) -> Result<(u64, bool), Lost>
    requires { CanRead reader (B.state bay.old) }
{
    let mut kinds: u64 = 0;
    for _ in 0..20 {
        match reader.next(bay)? {
            Some(marker) => kinds = kinds.wrapping_mul(10).wrapping_add(u64::from(marker.kind)),
            None => return Ok((kinds, reader.has_foot())),
        }
    }
    Ok((0, false))
}

/// A bay whose zone 2 of device 0 holds these bytes, and a reader of it.
fn bay_with(rt: &impl Abort, alloc: Global, bytes: &[u8]) -> Result<(MemoryBay, ZoneReader), Fail>
    ensures { IfOk result (λ made. CanRead made.1 (⟦<MemoryBay as Bay>⟧.state made.0)) }
{
    let mut bay = MemoryBay::new(alloc, 2, 4, 128)?;
    assert!(rt; bay.devices() == 2 && bay.zones() == 4 && bay.blocks() == 128);
    assert!(rt; bay.held(0, 2).is_empty() && bytes.len() <= 65_536);
    bay.append(0, 2, bytes)?;
    assert!(rt; bay.devices() == 2 && bay.zones() == 4 && bay.blocks() == 128);
    let written = bay.held(0, 2).len();
    assert!(rt; written <= 65_536);
    let reader = ZoneReader::new(0, 2, written as u32, GEOMETRY, ARRAY);
    Ok((bay, reader))
}

/// The same of a zone with these bytes.
fn read_zone(rt: &impl Abort, alloc: Global, bytes: &[u8]) -> Result<(u64, bool), Fail> {
    let (mut bay, reader) = bay_with(rt, alloc, bytes)?;
    Ok(kinds_of(&mut bay, reader)?)
}

fn bytes_of_all(alloc: Global, blocks: &[Block]) -> Result<Vec<u8>, Fail> {
    let mut bytes = Vec::new(alloc);
    for block in blocks {
        bytes.extend_from_slice(&bytes_of(*block))?;
    }
    Ok(bytes)
}

#[test]
fn zones_have_their_whole_records(rt: HostRuntime) -> Result<(), Fail> {
    for (blocks, kinds, foot) in &ZONES {
        let bytes = bytes_of_all(rt.alloc(), blocks)?;
        let read = read_zone(&rt, rt.alloc(), &bytes)?;
        assert_eq!(rt; read, (*kinds, *foot));
    }
    Ok(())
}

/// What is left of the open zone where it is cut after each half of a block.
const CUT: [u64; 11] = [0, 0, 1, 1, 16, 16, 16, 16, 162, 162, 1623];

#[test]
fn a_cut_zone_has_its_first_records(rt: HostRuntime) -> Result<(), Fail> {
    let bytes = bytes_of_all(rt.alloc(), &[HEAD, READY, PART, Data, PUT])?;
    for (halves, kinds) in CUT.iter().enumerate() {
        assert!(rt; halves <= 10 && bytes.len() == 2560);
        let read = read_zone(&rt, rt.alloc(), &bytes[..256 * halves])?;
        assert_eq!(rt; read, (*kinds, false));
    }
    Ok(())
}

#[test]
fn a_lost_device_is_told(rt: HostRuntime) -> Result<(), Fail> {
    let (mut bay, mut reader) = bay_with(&rt, rt.alloc(), &bytes_of(HEAD))?;
    assert!(rt; bay.devices() == 2);
    bay.lose(0);
    assert!(rt; matches!(reader.next(&mut bay), Err(Lost { device: 0 })));
    Ok(())
}
