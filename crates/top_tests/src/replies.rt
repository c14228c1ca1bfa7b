//! Replies as frames.

ghost use Rattle.smore_top.specs.Frames.{HasFrame};

use object_machine::{Refusal, Reply};
use smore_base::{Bytes, Name, NameList};
use smore_top::write_reply;
use std::alloc::Global;
use std::process::Abort;
use std::test::Fail;

fn assert_frame(rt: &impl Abort, alloc: Global, reply: Reply, spelled: &[u8]) -> Result<(), Fail>
    requires { HasFrame reply }
{
    let mut frame = Vec::new(alloc);
    write_reply(&reply, &mut frame)?;
    assert_eq!(rt; frame.as_slice(), spelled);
    Ok(())
}

const REFUSALS: [(Refusal, &[u8]); 7] = [
    (
        Refusal::Memory,
        b"\0\0\0\x12\0\x01\0\0\0\0\0\0\0\0\0\0\0\0\0\0\0\0",
    ),
    (
        Refusal::NameBad { length: 256 },
        b"\0\0\0\x12\0\x14\0\0\0\0\0\0\x01\0\0\0\0\0\0\0\0\0",
    ),
    (
        Refusal::TooLarge { length: 1023 },
        b"\0\0\0\x12\0\x15\0\0\0\0\0\0\x03\xff\0\0\0\0\0\0\0\0",
    ),
    (
        Refusal::Full { need: 1, room: 3 },
        b"\0\0\0\x12\0\x16\0\0\0\0\0\0\0\x01\0\0\0\0\0\0\0\x03",
    ),
    (
        Refusal::TooFewFragments { set: 1, missing: 2 },
        b"\0\0\0\x12\0\x18\0\0\0\0\0\0\0\x01\0\0\0\0\0\0\0\x02",
    ),
    (
        Refusal::Spent,
        b"\0\0\0\x12\0\x1d\0\0\0\0\0\0\0\0\0\0\0\0\0\0\0\0",
    ),
    (
        Refusal::Damaged { upload: 5, part: 1 },
        b"\0\0\0\x12\0\x20\0\0\0\0\0\0\0\x05\0\0\0\0\0\0\0\x01",
    ),
];

#[test]
fn refusals_are_frames(rt: HostRuntime) -> Result<(), Fail> {
    for (why, spelled) in REFUSALS {
        assert_frame(&rt, rt.alloc(), Reply::Refused { why }, spelled)?;
    }
    Ok(())
}

#[test]
fn replies_are_frames(rt: HostRuntime) -> Result<(), Fail> {
    let alloc = rt.alloc();
    assert_frame(&rt, alloc, Reply::Done, b"\0\0\0\x01\x01")?;
    assert_frame(&rt, alloc, Reply::NotFound, b"\0\0\0\x01\x03")?;
    let bytes = Bytes::of(alloc, b"hello")?;
    assert_frame(&rt, alloc, Reply::Object { bytes }, b"\0\0\0\x06\x02hello")?;
    Ok(())
}

#[test]
fn names_are_a_frame(rt: HostRuntime) -> Result<(), Fail> {
    let mut names = NameList::new(rt.alloc());
    names.push(Name::new(b"a")?)?;
    names.push(Name::new(b"b")?)?;
    let spelled = b"\0\0\0\x0a\x04\x01\0\x02\0\x01a\0\x01b";
    assert_frame(&rt, rt.alloc(), Reply::Names { names, more: true }, spelled)
}
