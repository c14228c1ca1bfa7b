//! Streams in memory.

use smore_top::{MemorySink, MemorySource, Sink, Source};
use std::test::Fail;

#[test]
fn puts_some_at_once(rt: HostRuntime) -> Result<(), Fail> {
    let mut sink = MemorySink::new(rt.alloc(), 3);
    sink.fail_at(&[2])?;
    let puts: [(&[u8], Option<usize>, &[u8]); 4] = [
        (b"abcd", Some(3), b"abc"),
        (b"d", None, b"abc"),
        (b"", Some(0), b"abc"),
        (b"d", Some(1), b"abcd"),
    ];
    for (bytes, count, held) in puts {
        assert_eq!(rt; sink.put(bytes).ok(), count);
        assert_eq!(rt; sink.held(), held);
    }
    Ok(())
}

#[test]
fn takes_piece_by_piece(rt: HostRuntime) -> Result<(), Fail> {
    let mut pieces = Vec::new(rt.alloc());
    pieces.push(Vec::from_slice(rt.alloc(), b"abc")?)?;
    pieces.push(Vec::from_slice(rt.alloc(), b"de")?)?;
    let mut source = MemorySource::new(rt.alloc(), pieces);
    source.fail_at(&[2])?;
    let takes: [(Option<usize>, &[u8]); 6] = [
        (Some(2), b"ab"),
        (None, b""),
        (Some(1), b"c"),
        (Some(2), b"de"),
        (Some(0), b""),
        (Some(0), b""),
    ];
    for (count, bytes) in takes {
        let mut out = [0; 2];
        let taken = source.take(&mut out).ok();
        assert_eq!(rt; taken, count);
        let taken = taken.unwrap_or(0).min(2);
        assert_eq!(rt; &out[..taken], bytes);
    }
    Ok(())
}
