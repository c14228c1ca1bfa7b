ghost use Rattle.std.specs.Prelude.{◌≡◌};
ghost use Rattle.set_digest.specs.Line.{IsLine};

use set_digest::{Catalogue, Line, closing, write_line, write_lines};
use smore_base::{Geometry, LINE_BYTES, Memory, Name};
use std::test::Fail;

const LINE: usize = LINE_BYTES as usize;

/// Position, kind, block, fragment, stamp, upload, part, parts, length, payload and name of a line, and the bytes that its
/// spelling begins with. Zeros follow them.
type Vector = (
    u16,
    u8,
    u32,
    u16,
    u64,
    u64,
    [u32; 4],
    &'static [u8],
    &'static [u8],
);

/// Lines of each kind that is listed. The put is written by hand, field by field.
const VECTORS: [Vector; 8] = [
    // head
    (0, 1, 0, 0, 0, 0, [0, 0, 0, 0], b"", b"\0\0\x01"),
    // cut of set 9 to 7 records
    (
        1,
        5,
        1,
        0,
        0,
        9,
        [0, 0, 7, 0],
        b"",
        b"\0\x01\x05\0\0\0\x01\0\0\0\0\0\0\0\0\0\0\0\0\0\0\0\0\0\x09\0\0\0\0\0\0\0\0\0\0\0\x07",
    ),
    // ready
    (2, 6, 2, 0, 0, 0, [0, 0, 0, 0], b"", b"\0\x02\x06\0\0\0\x02"),
    // part 4 of upload 3, of 1021 bytes
    (
        3,
        2,
        3,
        511,
        0,
        3,
        [4, 0, 0, 1021],
        b"",
        b"\0\x03\x02\0\0\0\x03\x01\xff\0\0\0\0\0\0\0\0\0\0\0\0\0\0\0\x03\0\0\0\x04\0\0\0\0\0\0\0\0\0\0\x03\xfd",
    ),
    // put of the name ab
    (
        0x0102,
        3,
        0x0304_0506,
        0,
        0x0708_090a_0b0c_0d0e,
        0x0f10_1112_1314_1516,
        [0, 0x1718_191a, 0x1b1c_1d1e, 0],
        b"ab",
        b"\x01\x02\x03\x03\x04\x05\x06\0\0\x07\x08\x09\x0a\x0b\x0c\x0d\x0e\x0f\x10\x11\x12\x13\x14\x15\x16\0\0\0\0\x17\x18\x19\x1a\x1b\x1c\x1d\x1e\0\0\0\0\x02ab",
    ),
    // delete of a name of one byte
    (
        5,
        4,
        6,
        0,
        2,
        0,
        [0, 0, 0, 0],
        b"a",
        b"\0\x05\x04\0\0\0\x06\0\0\0\0\0\0\0\0\0\x02\0\0\0\0\0\0\0\0\0\0\0\0\0\0\0\0\0\0\0\0\0\0\0\0\x01a",
    ),
    // part 1 of 2 of a snapshot of 9 bytes
    (
        6,
        8,
        7,
        2,
        1,
        0,
        [1, 2, 9, 4],
        b"",
        b"\0\x06\x08\0\0\0\x07\0\x02\0\0\0\0\0\0\0\x01\0\0\0\0\0\0\0\0\0\0\0\x01\0\0\0\x02\0\0\0\x09\0\0\0\x04",
    ),
    // ready at the last position, in a great block
    (
        0xffff,
        6,
        0x0080_0000,
        0,
        0,
        0,
        [0, 0, 0, 0],
        b"",
        b"\xff\xff\x06\0\x80\0\0",
    ),
];

/// The line of a vector.
fn line_of(vector: &Vector) -> Line {
    let (position, kind, block, fragment, stamp, upload, numbers, name, _) = *vector;
    Line {
        position,
        kind,
        block,
        fragment,
        stamp,
        upload,
        part: numbers[0],
        parts: numbers[1],
        length: numbers[2],
        payload: numbers[3],
        name: Name::new(name).ok(),
    }
}

/// The bytes of a vector, with the zeros behind them.
fn bytes_of(vector: &Vector) -> [u8; LINE] {
    let mut bytes = [0; LINE];
    let begin = vector.8;
    if begin.len() <= LINE {
        bytes[..begin.len()].copy_from_slice(begin);
    }
    bytes
}

#[test]
fn lines_are_spelled(rt: HostRuntime) {
    for vector in &VECTORS {
        let mut out = [9; LINE];
        write_line(&line_of(vector), &mut out);
        assert!(rt; out == bytes_of(vector));
    }
    // a name of as many bytes as it can have
    let mut line = line_of(&VECTORS[4]);
    line.name = Name::new(&[7; 255]).ok();
    let mut out = [9; LINE];
    write_line(&line, &mut out);
    assert_eq!(rt;
        (out[41], out[42], out[296], out[297], out[319]),
        (255, 7, 7, 0, 0)
    );
}

/// The line of a ready record behind as many records of a block each.
fn ready(position: u16) -> Line
    ensures line { IsLine result }
    ensures position { result.position ≡ position }
    ensures block { result.block ≡ position }
    ensures fragment { result.fragment ≡ 0 }
{
    Line {
        position,
        kind: 6,
        block: u32::from(position),
        fragment: 0,
        stamp: 0,
        upload: 0,
        part: 0,
        parts: 0,
        length: 0,
        payload: 0,
        name: None,
    }
}

#[test]
fn lists_are_written_behind_what_is_there(rt: HostRuntime) -> Result<(), Fail> {
    let mut out = Vec::from_slice(rt.alloc(), b"abc")?;
    write_lines(&[], &mut out)?;
    assert_eq!(rt; out.as_slice(), b"abc".as_slice());
    write_lines(&[ready(0), ready(1)], &mut out)?;
    assert_eq!(rt; out.len(), 3 + 2 * LINE);
    assert_eq!(rt; (out[2], out[3], out[4], out[5]), (b'c', 0, 0, 6));
    assert_eq!(rt;
        &out[3 + LINE..10 + LINE],
        b"\0\x01\x06\0\0\0\x01".as_slice()
    );
    Ok(())
}

/// What is done to a catalogue.
#[derive(Clone, Copy)]
enum Step {
    /// A line with this position is added to the set.
    Add(u64, u16),
    /// Of the set only so many lines stay.
    Cut(u64, usize),
    Remove(u64),
}

/// A set and the positions of its lines.
type Positions = (u64, &'static [u16]);

/// Steps, and the sets that are listed then.
const STEPS: [(Step, &[Positions]); 14] = [
    (Step::Add(5, 0), &[(5, &[0])]),
    (Step::Add(5, 1), &[(5, &[0, 1])]),
    // behind the lines of a greater set, and before it in order
    (Step::Add(2, 0), &[(2, &[0]), (5, &[0, 1])]),
    // in the middle of all lines
    (Step::Add(5, 2), &[(2, &[0]), (5, &[0, 1, 2])]),
    (Step::Add(9, 0), &[(2, &[0]), (5, &[0, 1, 2]), (9, &[0])]),
    (Step::Add(2, 1), &[(2, &[0, 1]), (5, &[0, 1, 2]), (9, &[0])]),
    (Step::Cut(5, 1), &[(2, &[0, 1]), (5, &[0]), (9, &[0])]),
    (Step::Cut(2, 0), &[(2, &[]), (5, &[0]), (9, &[0])]),
    (Step::Add(9, 1), &[(2, &[]), (5, &[0]), (9, &[0, 1])]),
    (Step::Add(2, 7), &[(2, &[7]), (5, &[0]), (9, &[0, 1])]),
    (Step::Remove(5), &[(2, &[7]), (9, &[0, 1])]),
    (Step::Remove(5), &[(2, &[7]), (9, &[0, 1])]),
    (Step::Cut(9, 2), &[(2, &[7]), (9, &[0, 1])]),
    (Step::Add(5, 3), &[(2, &[7]), (5, &[3]), (9, &[0, 1])]),
];

fn make(catalogue: &mut Catalogue, step: Step) -> Result<(), Memory> {
    match step {
        Step::Add(set, position) => {
            catalogue.reserve(1, 1)?;
            catalogue.add_line(set, &ready(position));
        }
        Step::Cut(set, lines) => {
            let Some(all) = catalogue.lines(set) else {
                return Ok(());
            };
            if lines <= all.len() {
                catalogue.truncate(set, lines);
            }
        }
        Step::Remove(set) => catalogue.remove(set),
    }
    Ok(())
}

/// Whether these sets are listed with lines of these positions.
fn is_listed(catalogue: &Catalogue, wanted: &[Positions]) -> bool {
    if catalogue.sets().len() != wanted.len() {
        return false;
    }
    for ((set, positions), listed) in wanted.iter().zip(catalogue.sets()) {
        let lines = catalogue.lines(*set).unwrap_or(&[]);
        if set != listed || lines.len() != positions.len() {
            return false;
        }
        for (line, position) in lines.iter().zip(*positions) {
            if line.position != *position {
                return false;
            }
        }
    }
    true
}

#[test]
fn lines_are_listed_by_set(rt: HostRuntime) -> Result<(), Fail> {
    let mut catalogue = Catalogue::new(rt.alloc());
    assert!(rt; is_listed(&catalogue, &[]));
    for (count, (step, listed)) in STEPS.iter().enumerate() {
        make(&mut catalogue, *step)?;
        assert!(rt; is_listed(&catalogue, listed), "after step {count}");
        assert!(rt; catalogue.lines(4).is_none());
    }
    Ok(())
}

/// How many records a set has, and the blocks that its closing takes where k is 2 and a shard has 1022 bytes.
const CLOSINGS: [(u32, u32); 8] = [
    (2, 4),
    (4, 5),
    (42, 23),
    (44, 23),
    (50, 26),
    (51, 26),
    (52, 28),
    (53, 28),
];

#[test]
fn sets_are_closed_in_so_many_blocks(rt: HostRuntime) {
    let geometry = Geometry {
        drives: 4,
        k: 2,
        p: 1,
        zones: 8,
        blocks: 128,
        shard: 1022,
    };
    for (records, blocks) in CLOSINGS {
        assert_eq!(rt; closing(&geometry, records), blocks);
    }
}
