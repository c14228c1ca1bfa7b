//! Bodies of frames as requests: `docs/FORMATS.md`, "Frames".
ghost use Rattle.std.specs.Prelude.{◌≡◌, IfOk, IfSome, option_map, option_and_then};
ghost use Rattle.smore_top.specs.Frames.{IsSpelledBy};
ghost use Rattle.smore_top.specs.Reading.{name_at, put_of, get_of, delete_of, limit_of, list_of, request_in};

use crate::Request;
use crate::coder::Coder;
use crate::frame_numbers::{DELETE_TAG, GET_TAG, LIST_TAG, PUT_TAG, STOP_TAG};
use object_machine::Op;
use smore_base::{Bytes, Memory};
use std::alloc::Global;

fn name_field(bytes: &[u8]) -> Option<(&[u8], &[u8])>
    ensures { option_map (λ field. (field.0.now, field.1.now)) result ≡ name_at bytes.now }
{
    let [high, low, rest @ ..] = bytes else {
        return None;
    };
    let length = u16::from_be_bytes([*high, *low]) as usize;
    if rest.len() < length {
        return None;
    }
    Some(rest.split_at(length))
}

fn put_request(alloc: Global, coder: &Coder, fields: &[u8]) -> Result<Option<Request>, Memory>
    ensures { IfOk result (λ found. found ≡ option_and_then (put_of coder.now) (name_at fields.now)) }
{
    let Some((name, object)) = name_field(fields) else {
        return Ok(None);
    };
    let name = Bytes::of(alloc, name)?;
    let object = coder.object(object)?;
    Ok(Some(Request::Call {
        op: Op::Put { name, object },
    }))
}

fn get_request(alloc: Global, fields: &[u8]) -> Result<Option<Request>, Memory>
    ensures { IfOk result (λ found. found ≡ option_and_then get_of (name_at fields.now)) }
{
    let Some((name, rest)) = name_field(fields) else {
        return Ok(None);
    };
    if !rest.is_empty() {
        return Ok(None);
    }
    let name = Bytes::of(alloc, name)?;
    Ok(Some(Request::Call {
        op: Op::Get { name },
    }))
}

fn delete_request(alloc: Global, fields: &[u8]) -> Result<Option<Request>, Memory>
    ensures { IfOk result (λ found. found ≡ option_and_then delete_of (name_at fields.now)) }
{
    let Some((name, rest)) = name_field(fields) else {
        return Ok(None);
    };
    if !rest.is_empty() {
        return Ok(None);
    }
    let name = Bytes::of(alloc, name)?;
    Ok(Some(Request::Call {
        op: Op::Delete { name },
    }))
}

fn limit_field(bytes: &[u8]) -> Option<u16>
    ensures { result ≡ limit_of bytes.now }
{
    let [high, low] = bytes else {
        return None;
    };
    Some(u16::from_be_bytes([*high, *low]))
}

fn list_request(alloc: Global, fields: &[u8]) -> Result<Option<Request>, Memory>
    ensures { IfOk result (λ found. found ≡ option_and_then list_of (name_at fields.now)) }
{
    let Some((after, rest)) = name_field(fields) else {
        return Ok(None);
    };
    let Some(limit) = limit_field(rest) else {
        return Ok(None);
    };
    let after = Bytes::of(alloc, after)?;
    Ok(Some(Request::Call {
        op: Op::List { after, limit },
    }))
}

// The request that the body's tag and fields are.
fn request_by_tag(alloc: Global, coder: &Coder, body: &[u8]) -> Result<Option<Request>, Memory>
    ensures { IfOk result (λ found. found ≡ request_in coder.now body.now) }
{
    let Some((tag, fields)) = body.split_first() else {
        return Ok(None);
    };
    if *tag == PUT_TAG {
        return put_request(alloc, coder, fields);
    }
    if *tag == GET_TAG {
        return get_request(alloc, fields);
    }
    if *tag == DELETE_TAG {
        return delete_request(alloc, fields);
    }
    if *tag == LIST_TAG {
        return list_request(alloc, fields);
    }
    if *tag == STOP_TAG && fields.is_empty() {
        return Ok(Some(Request::Stop));
    }
    Ok(None)
}

/// The request whose body these bytes are.
pub(crate) fn request_of(
    alloc: Global,
    coder: &Coder,
    body: &[u8],
) -> Result<Option<Request>, Memory>
    ensures value { IfOk result (λ found. found ≡ request_in coder.now body.now) }
    ensures spelled { IfOk result (λ found. IfSome found (IsSpelledBy coder.now body.now)) }
{
    request_by_tag(alloc, coder, body)
}
