//! Replies as frames: `docs/FORMATS.md`, "Frames".
ghost use Rattle.std.specs.Prelude.{◌≡◌, ◌+◌, ◌*◌, ◌<◌, ◌≤◌, ◌^◌, ◌++◌, length, OnOk};
ghost use Rattle.smore_top.specs.Frames.{frame_head, name_fields, reply_frame, refusal_fields, HasFrame};

use crate::frame_numbers::{
    DAMAGED_NUMBER, DONE_TAG, FULL_NUMBER, MEMORY_NUMBER, NAME_BAD_NUMBER, NAME_LENGTH_BYTES,
    NAMES_TAG, NOT_FOUND_TAG, OBJECT_TAG, REFUSED_TAG, SPENT_NUMBER, TOO_FEW_FRAGMENTS_NUMBER,
    TOO_LARGE_NUMBER,
};
use object_machine::{Refusal, Reply};
use smore_base::{MAX_NAME_BYTES, Memory, Name, NameList};
use std::alloc::AllocError;

/// Bytes of a refusal behind its tag: its number and its two values.
const REFUSAL_BYTES: u32 = 17;

/// Bytes of a list of names behind its tag, without the names.
const LIST_BYTES: u32 = 3;

// The length of a body with so many bytes behind its tag, and the tag.
fn push_head(out: &mut Vec<u8>, tag: u8, fields: u32) -> Result<(), AllocError>
    requires { fields + 1 < 2 ^ 32 }
    ensures { OnOk result (out.new.items ≡ out.old.items ++ frame_head tag fields) }
{
    out.extend_from_slice(&(fields + 1).to_be_bytes())?;
    out.push(tag)?;
    Ok(())
}

// The refusal's number and its two values: `docs/FORMATS.md`, "Refusals".
fn fields_of(why: &Refusal) -> (u8, u64, u64)
    ensures { result ≡ refusal_fields why.now }
{
    match *why {
        Refusal::Memory => (MEMORY_NUMBER, 0, 0),
        Refusal::NameBad { length } => (NAME_BAD_NUMBER, length, 0),
        Refusal::TooLarge { length } => (TOO_LARGE_NUMBER, length, 0),
        Refusal::Full { need, room } => (FULL_NUMBER, u64::from(need), u64::from(room)),
        Refusal::TooFewFragments { set, missing } => {
            (TOO_FEW_FRAGMENTS_NUMBER, set, u64::from(missing))
        }
        Refusal::Spent => (SPENT_NUMBER, 0, 0),
        Refusal::Damaged { upload, part } => (DAMAGED_NUMBER, upload, u64::from(part)),
    }
}

fn push_refusal(out: &mut Vec<u8>, why: &Refusal) -> Result<(), AllocError>
    ensures { OnOk result (out.new.items ≡ out.old.items ++ reply_frame (Reply.Refused why.now)) }
{
    let (number, first, second) = fields_of(why);
    push_head(out, REFUSED_TAG, REFUSAL_BYTES)?;
    out.push(number)?;
    out.extend_from_slice(&first.to_be_bytes())?;
    out.extend_from_slice(&second.to_be_bytes())?;
    Ok(())
}

// How many bytes the names take, with the two of each one's length.
fn bytes_of_names(names: &[Name]) -> u32
    requires { length names.now < 2 ^ 16 }
    ensures sum { result ≡ length (name_fields names.now) }
    ensures few { result ≤ (NAME_LENGTH_BYTES + MAX_NAME_BYTES) * length names.now }
{
    let mut bytes = 0;
    for name in names {
        bytes += (NAME_LENGTH_BYTES + name.as_slice().len()) as u32;
    }
    bytes
}

fn push_names(out: &mut Vec<u8>, names: &[Name]) -> Result<(), AllocError>
    ensures { OnOk result (out.new.items ≡ out.old.items ++ name_fields names.now) }
{
    for name in names {
        let bytes = name.as_slice();
        out.extend_from_slice(&(bytes.len() as u16).to_be_bytes())?;
        out.extend_from_slice(bytes)?;
    }
    Ok(())
}

fn push_list(out: &mut Vec<u8>, names: &NameList, more: bool) -> Result<(), AllocError>
    requires { length names.now < 2 ^ 16 }
    ensures { OnOk result (out.new.items ≡ out.old.items ++ reply_frame (Reply.Names names.now more)) }
{
    let names = names.names();
    push_head(out, NAMES_TAG, LIST_BYTES + bytes_of_names(names))?;
    out.push(u8::from(more))?;
    out.extend_from_slice(&(names.len() as u16).to_be_bytes())?;
    push_names(out, names)
}

/// Appends the reply's frame. Where no memory is found, a prefix of the frame may stand there.
pub fn write_reply(reply: &Reply, out: &mut Vec<u8>) -> Result<(), Memory>
    requires { HasFrame reply.now }
    ensures { OnOk result (out.new.items ≡ out.old.items ++ reply_frame reply.now) }
{
    match reply {
        Reply::Done => push_head(out, DONE_TAG, 0)?,
        Reply::NotFound => push_head(out, NOT_FOUND_TAG, 0)?,
        Reply::Object { bytes } => {
            push_head(out, OBJECT_TAG, bytes.len() as u32)?;
            out.extend_from_slice(bytes.as_slice())?;
        }
        Reply::Names { names, more } => push_list(out, names, *more)?,
        Reply::Refused { why } => push_refusal(out, why)?,
    }
    Ok(())
}
