use rs_code::{Blob, Code, Coded, any_fragments, one_code};
use std::test::Fail;

#[test]
fn parity_of_two(rt: HostRuntime) {
    let code = Code::new(2, 1);
    for (fragments, parity) in [([1, 0], 3), ([0, 1], 2), ([0x80, 0], 0x9d)] {
        let mut out = [0];
        code.parity_into(0, &fragments, 1, &mut out);
        assert_eq!(rt; out[0], parity);
    }
}

#[test]
fn parity_of_three(rt: HostRuntime) {
    let code = Code::new(3, 2);
    for (fragments, first, second) in [
        ([1, 0, 0], 0x01, 0x0f),
        ([0, 1, 0], 0x01, 0x08),
        ([0, 0, 1], 0x01, 0x06),
        ([1, 1, 1], 0x01, 0x01),
    ] {
        let mut out = [0];
        code.parity_into(0, &fragments, 1, &mut out);
        assert_eq!(rt; out[0], first);
        code.parity_into(1, &fragments, 1, &mut out);
        assert_eq!(rt; out[0], second);
        let mut both = [0xff; 2];
        code.parities_into(&fragments, 1, &mut both);
        assert_eq!(rt; both, [first, second]);
    }
}

#[test]
fn parity_of_one(rt: HostRuntime) {
    let mut out = [0; 3];
    Code::new(1, 1).parity_into(0, b"abc", 3, &mut out);
    assert_eq!(rt; &out, b"abc");
}

#[test]
fn fragments_of_hello(rt: HostRuntime) -> Result<(), Fail> {
    let coded = Coded::of(rt.alloc(), &Code::new(2, 1), b"hello")?;
    assert_eq!(rt; coded.payload_len(), 5);
    assert_eq!(rt; coded.fragment(0), [0x68, 0x65, 0x6c].as_slice());
    assert_eq!(rt; coded.fragment(1), [0x6c, 0x6f, 0x00].as_slice());
    assert_eq!(rt; coded.fragment(2), [0x60, 0x71, 0xb4].as_slice());
    Ok(())
}

/// What is left of six fragments where two are dropped.
const LEFT: [[u8; 4]; 15] = [
    [2, 3, 4, 5],
    [1, 3, 4, 5],
    [1, 2, 4, 5],
    [1, 2, 3, 5],
    [1, 2, 3, 4],
    [0, 3, 4, 5],
    [0, 2, 4, 5],
    [0, 2, 3, 5],
    [0, 2, 3, 4],
    [0, 1, 4, 5],
    [0, 1, 3, 5],
    [0, 1, 3, 4],
    [0, 1, 2, 5],
    [0, 1, 2, 4],
    [0, 1, 2, 3],
];

#[test]
fn any_four_of_six(rt: HostRuntime) -> Result<(), Fail> {
    let code = Code::new(4, 2);
    let coded = Coded::of(rt.alloc(), &code, b"thirteen byte")?;
    for left in &LEFT {
        let mut rows = Vec::new(rt.alloc());
        for index in left {
            if *index < 6 {
                rows.extend_from_slice(coded.fragment(*index))?;
            }
        }
        assert_eq!(rt; rows.len(), 16);
        for want in 0..6 {
            let mut out = [0xff; 4];
            code.fragment_into(left, rows.as_slice(), 4, want, &mut out);
            assert_eq!(rt;
                out.as_slice(),
                coded.fragment(want),
                "{want} from {left:?}"
            );
        }
    }
    Ok(())
}

#[test]
fn seventeen_of_twenty(rt: HostRuntime) -> Result<(), Fail> {
    let code = Code::new(17, 3);
    let coded = Coded::of(rt.alloc(), &code, b"seventeen is most")?;
    let left = [3, 4, 5, 6, 7, 8, 9, 10, 11, 12, 13, 14, 15, 16, 17, 18, 19];
    let mut rows = Vec::new(rt.alloc());
    for index in 3..20 {
        rows.extend_from_slice(coded.fragment(index))?;
    }
    assert_eq!(rt; rows.len(), 17);
    for want in 0..20 {
        let mut out = [0xff];
        code.fragment_into(&left, rows.as_slice(), 1, want, &mut out);
        assert_eq!(rt; out.as_slice(), coded.fragment(want), "{want}");
    }
    Ok(())
}

#[test]
fn blobs_by_length(rt: HostRuntime) -> Result<(), Fail> {
    let code = Code::new(2, 1);
    for (bytes, parts, last) in [
        (b"".as_slice(), 0, None),
        (b"1", 1, Some(1)),
        (b"123456", 1, Some(6)),
        (b"1234567", 2, Some(1)),
    ] {
        let blob = Blob::of(rt.alloc(), &code, 3, bytes)?;
        assert_eq!(rt; blob.len(), bytes.len() as u64);
        assert_eq!(rt; blob.parts().len(), parts);
        assert_eq!(rt; blob.parts().last().map(|part| part.payload_len()), last);
        let coded = Coded::of(rt.alloc(), &code, bytes)?;
        assert_eq!(rt; coded.payload_len(), bytes.len());
    }
    Ok(())
}

#[test]
fn laws_hold() {
    any_fragments();
    one_code();
}
