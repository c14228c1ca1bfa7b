use super::*;
use std::test::Fail;

/// Drives, k, p, zones, blocks and shard, and the fault: its field and value.
type Case = (u8, u8, u8, u16, u32, u32, Option<(u8, u64)>);

const GEOMETRIES: [Case; 29] = [
    // the least and the greatest of each number
    (2, 1, 1, 4, 128, 511, None),
    (24, 19, 1, 4096, 524_288, 65_408, None),
    (20, 1, 19, 4096, 524_288, 65_408, None),
    (24, 10, 10, 8, 128, 16_352, None),
    // k
    (2, 0, 1, 8, 128, 1022, Some((2, 0))),
    (24, 20, 1, 8, 128, 1022, Some((2, 20))),
    (24, 255, 255, 8, 128, 1022, Some((2, 255))),
    // p
    (2, 1, 0, 8, 128, 1022, Some((3, 0))),
    (24, 19, 2, 8, 128, 1022, Some((3, 2))),
    (24, 1, 20, 8, 128, 1022, Some((3, 20))),
    (24, 1, 255, 8, 128, 1022, Some((3, 255))),
    // drives
    (1, 1, 1, 8, 128, 1022, Some((1, 1))),
    (19, 10, 10, 8, 128, 1022, Some((1, 19))),
    (25, 1, 1, 8, 128, 1022, Some((1, 25))),
    // zones
    (2, 1, 1, 3, 128, 1022, Some((4, 3))),
    (2, 1, 1, 4097, 128, 1022, Some((4, 4097))),
    // blocks
    (2, 1, 1, 8, 127, 1022, Some((5, 127))),
    (2, 1, 1, 8, 524_289, 1022, Some((5, 524_289))),
    // shard: whole blocks of content, and at most a quarter of a zone's
    (2, 1, 1, 8, 128, 0, Some((6, 0))),
    (2, 1, 1, 8, 128, 510, Some((6, 510))),
    (2, 1, 1, 8, 128, 512, Some((6, 512))),
    (2, 1, 1, 8, 128, 16_863, Some((6, 16_863))),
    (2, 1, 1, 8, 524_288, 65_919, Some((6, 65_919))),
    (2, 1, 1, 8, 524_288, u32::MAX, Some((6, 4_294_967_295))),
    // the first of several
    (0, 0, 0, 0, 0, 0, Some((2, 0))),
    (0, 1, 0, 0, 0, 0, Some((3, 0))),
    (0, 1, 1, 0, 0, 0, Some((1, 0))),
    (2, 1, 1, 0, 0, 0, Some((4, 0))),
    (2, 1, 1, 4, 0, 0, Some((5, 0))),
];

#[test]
fn geometries_at_each_limit(rt: HostRuntime) {
    for (drives, k, p, zones, blocks, shard, fault) in GEOMETRIES {
        let geometry = Geometry {
            drives,
            k,
            p,
            zones,
            blocks,
            shard,
        };
        let told = geometry
            .check()
            .err()
            .map(|fault| (fault.field, fault.value));
        assert_eq!(rt; told, fault, "of {geometry:?}");
    }
}

#[test]
fn names_at_each_limit(rt: HostRuntime) {
    let bytes = [b'n'; 256];
    for (length, is_name) in [(0, false), (1, true), (255, true), (256, false)] {
        match Name::new(&bytes[..length]) {
            Ok(name) => {
                assert!(rt; is_name, "of {length} bytes");
                assert_eq!(rt; name.as_slice(), &bytes[..length]);
            }
            Err(NameBad { length: told }) => {
                assert!(rt; !is_name, "of {length} bytes");
                assert_eq!(rt; told, length as u64);
            }
        }
    }
}

#[test]
fn bytes_are_copied(rt: HostRuntime) -> Result<(), Fail> {
    for text in ["", "a", "hello"] {
        let copy = Bytes::of(rt.alloc(), text.as_bytes())?;
        assert_eq!(rt; copy.as_slice(), text.as_bytes());
        assert_eq!(rt;
            (copy.len(), copy.is_empty()),
            (text.len(), text.is_empty())
        );
    }
    let owned = Bytes::from(b"owned".to_vec(rt.alloc())?);
    assert_eq!(rt; owned.as_slice(), b"owned".as_slice());
    Ok(())
}

#[test]
fn names_are_listed_in_order(rt: HostRuntime) -> Result<(), Fail> {
    let mut list = NameList::new(rt.alloc());
    for (i, name) in ["b", "a", "c"].iter().enumerate() {
        assert_eq!(rt; list.names().len(), i);
        list.push(Name::new(name.as_bytes())?)?;
    }
    assert_eq!(rt;
        list.names().first().map(Name::as_slice),
        Some(b"b".as_slice())
    );
    Ok(())
}
