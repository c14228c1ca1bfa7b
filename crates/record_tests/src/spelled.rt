use marker_format::{
    FOOT_BYTES, Foot, LABEL_BYTES, Label, MARKER_BYTES, Marker, read_foot, read_foot_block,
    read_label, read_marker, read_marker_block, write_data_block, write_foot, write_foot_block,
    write_label, write_marker,
};
use smore_base::{Geometry, Name};
use std::test::Fail;

const ARRAY: [u8; 16] = *b"\x00\x01\x02\x03\x04\x05\x06\x07\x08\x09\x0a\x0b\x0c\x0d\x0e\x0f";

/// A marker of kind, index, set, position, fragment, stamp, upload, part, parts, length, payload and name, and the bytes
/// that its spelling begins with. Zeros follow them.
type Vector = (
    u8,
    u8,
    u64,
    u16,
    u16,
    u64,
    u64,
    [u32; 4],
    &'static [u8],
    &'static [u8],
);

const VECTORS: [Vector; 4] = [
    // the head of set 1, index 0
    (
        1,
        0,
        1,
        0,
        0,
        0,
        0,
        [0, 0, 0, 0],
        b"",
        b"SMOREMK1\x01\x00\x02\x03\0\0\0\0\0\0\0\x01\0\0\0\0\0\0\0\0\0\0\0\0\0\0\0\0\0\0\0\0\0\0\0\0\0\0\0\0\0\0\0\0\0\0\0\0\x00\x01\x02\x03\x04\x05\x06\x07\x08\x09\x0a\x0b\x0c\x0d\x0e\x0f\0",
    ),
    // a part of five bytes, index 2
    (
        2,
        2,
        1,
        2,
        3,
        0,
        1,
        [0, 0, 0, 5],
        b"",
        b"SMOREMK1\x02\x02\x02\x03\0\0\0\0\0\0\0\x01\0\x02\0\x03\0\0\0\0\0\0\0\0\0\0\0\0\0\0\0\x01\0\0\0\0\0\0\0\0\0\0\0\0\0\0\0\x05\x00\x01\x02\x03\x04\x05\x06\x07\x08\x09\x0a\x0b\x0c\x0d\x0e\x0f\0",
    ),
    // the put of five bytes under the name a, index 2
    (
        3,
        2,
        1,
        3,
        0,
        1,
        1,
        [0, 1, 5, 0],
        b"a",
        b"SMOREMK1\x03\x02\x02\x03\0\0\0\0\0\0\0\x01\0\x03\0\0\0\0\0\0\0\0\0\x01\0\0\0\0\0\0\0\x01\0\0\0\0\0\0\0\x01\0\0\0\x05\0\0\0\0\x00\x01\x02\x03\x04\x05\x06\x07\x08\x09\x0a\x0b\x0c\x0d\x0e\x0f\x01a",
    ),
    // in set 2, a cut of set 1 to seven records
    (
        5,
        0,
        2,
        1,
        0,
        0,
        1,
        [0, 0, 7, 0],
        b"",
        b"SMOREMK1\x05\x00\x02\x03\0\0\0\0\0\0\0\x02\0\x01\0\0\0\0\0\0\0\0\0\0\0\0\0\0\0\0\0\x01\0\0\0\0\0\0\0\0\0\0\0\x07\0\0\0\0\x00\x01\x02\x03\x04\x05\x06\x07\x08\x09\x0a\x0b\x0c\x0d\x0e\x0f\0",
    ),
];

/// The marker of a vector, with k 2 and n 3.
fn marker_of(vector: &Vector) -> Marker {
    let (kind, index, set, position, fragment, stamp, upload, numbers, name, _) = *vector;
    Marker {
        kind,
        index,
        k: 2,
        n: 3,
        set,
        position,
        fragment,
        stamp,
        upload,
        part: numbers[0],
        parts: numbers[1],
        length: numbers[2],
        payload: numbers[3],
        array: ARRAY,
        name: Name::new(name).ok(),
    }
}

/// The bytes of a vector, with the zeros behind them.
fn bytes_of(vector: &Vector) -> [u8; MARKER_BYTES] {
    let mut bytes = [0; MARKER_BYTES];
    let begin = vector.9;
    if begin.len() <= MARKER_BYTES {
        bytes[..begin.len()].copy_from_slice(begin);
    }
    bytes
}

/// All but the last byte.
fn without_last(bytes: &[u8]) -> &[u8] {
    match bytes {
        [] => bytes,
        [before @ .., _] => before,
    }
}

#[test]
fn markers_are_spelled_and_read(rt: HostRuntime) -> Result<(), Fail> {
    for vector in &VECTORS {
        let spelled = bytes_of(vector);
        let marker = read_marker(&spelled).ok_or("a marker")?;
        let wanted = marker_of(vector);
        assert_eq!(rt; marker.kind, wanted.kind);
        assert_eq!(rt; marker.position, wanted.position);
        assert_eq!(rt; marker.upload, wanted.upload);
        assert_eq!(rt; marker.length, wanted.length);
        assert_eq!(rt; marker.payload, wanted.payload);
        let mut out = [9; MARKER_BYTES];
        write_marker(&marker, &mut out);
        assert!(rt; out == spelled);
        assert!(rt; wanted.is_well_formed());
    }
    Ok(())
}

/// Where the put of the vectors is changed to what is no marker.
const REFUSED: [(usize, &[u8]); 7] = [
    // kind 10
    (8, b"\x0a"),
    // index 3 of 3
    (9, b"\x03"),
    // stamp 2^62
    (24, b"\x40\0\0\0\0\0\0\0"),
    // no parts of 5 bytes
    (44, b"\0\0\0\0"),
    // a second byte of the name
    (74, b"b"),
    // a name of no bytes
    (72, b"\0"),
    // a payload of 1 byte in fragments of none
    (52, b"\0\0\0\x01"),
];

#[test]
fn other_bytes_are_no_marker(rt: HostRuntime) {
    let put = bytes_of(&VECTORS[2]);
    for (at, change) in &REFUSED {
        let mut bytes = put;
        if *at <= MARKER_BYTES && change.len() <= MARKER_BYTES - *at {
            bytes[*at..*at + change.len()].copy_from_slice(change);
        }
        assert!(rt; bytes != put);
        assert!(rt; read_marker(&bytes).is_none(), "changed at {at}");
    }
    assert!(rt; read_marker(&put).is_some());
    assert!(rt; read_marker(without_last(&put)).is_none());
}

#[test]
fn a_foot_is_spelled_and_read(rt: HostRuntime) {
    let foot = Foot {
        set: 1,
        index: 2,
        position: 0x0304,
        block: 0x0506_0708,
        count: 9,
    };
    let spelled = b"SMOREFT1\0\0\0\0\0\0\0\x01\x02\x03\x04\x05\x06\x07\x08\0\0\0\x09";
    let mut out = [9; FOOT_BYTES];
    write_foot(&foot, &mut out);
    assert_eq!(rt; &out, spelled);
    assert!(rt; read_foot(&out) == Some(foot));
    assert!(rt; read_foot(&out[..26]).is_none());
    out[7] = b'2';
    assert!(rt; read_foot(&out).is_none());
}

#[test]
fn a_label_is_spelled_and_read(rt: HostRuntime) {
    let geometry = Geometry {
        drives: 4,
        k: 2,
        p: 1,
        zones: 8,
        blocks: 128,
        shard: 1022,
    };
    let label = Label {
        version: 1,
        device: 3,
        geometry,
        array: *b"0123456789abcdef",
    };
    let spelled =
        b"SMORELB1\x01\x03\x04\x02\x01\x00\x08\x00\x00\x00\x80\x00\x00\x03\xfe0123456789abcdef";
    let mut out = [0; LABEL_BYTES];
    write_label(&label, &mut out);
    assert_eq!(rt; &out, spelled);
    assert!(rt; read_label(&out) == Some(label));
    assert!(rt; read_label(&out[..38]).is_none());
    out[7] = b'2';
    assert!(rt; read_label(&out).is_none());
}

#[test]
fn blocks_hold_one_thing(rt: HostRuntime) {
    let foot = Foot {
        set: 1,
        index: 0,
        position: 4,
        block: 5,
        count: 1,
    };
    let mut block = [9; 512];
    write_foot_block(&foot, &mut block);
    assert_eq!(rt; block[0], 3);
    assert!(rt; read_foot_block(&block) == Some(foot));
    assert!(rt; read_foot_block(without_last(&block)).is_none());
    assert!(rt; read_marker_block(&block).is_none());
    // a byte behind the foot
    block[28] = 1;
    assert!(rt; read_foot_block(&block).is_none());
    // the put of the vectors under each tag
    for tag in [1, 2, 3, 4] {
        let mut block = [0; 512];
        block[0] = tag;
        block[1..1 + MARKER_BYTES].copy_from_slice(&bytes_of(&VECTORS[2]));
        assert_eq!(rt; read_marker_block(&block).is_some(), tag == 1);
    }
    write_data_block(b"hi", &mut block);
    assert_eq!(rt; &block[..4], b"\x02hi\0".as_slice());
}
