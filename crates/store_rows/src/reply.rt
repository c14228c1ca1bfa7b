//! Replies as words.

use crate::frame::opened;
use crate::request::joined;
use row_player::{Does, Line, word_of};
use std::alloc::{AllocError, Global};

/// The tag of a refusal.
const REFUSED: u8 = 0;

/// The tag of a call that is done.
const DONE: u8 = 1;

/// The tag of an object.
pub(crate) const OBJECT: u8 = 2;

/// The tag of a call of what isn't there.
const NOT_FOUND: u8 = 3;

/// The tag of names.
pub(crate) const NAMES: u8 = 4;

fn is_tagged(frame: &[u8], wanted: u8) -> bool {
    match opened(frame) {
        Some((tag, _)) => tag == wanted,
        None => false,
    }
}

/// Whether the frame is a refusal.
pub(crate) fn is_refusal(frame: &[u8]) -> bool {
    is_tagged(frame, REFUSED)
}

/// Whether the frame says that the call is done.
pub(crate) fn is_done(frame: &[u8]) -> bool {
    is_tagged(frame, DONE)
}

/// The name that a field begins with, behind its length of two bytes, and what is behind it.
pub(crate) fn first_name(fields: &[u8]) -> Option<(&[u8], &[u8])> {
    let (length, rest) = fields.split_first_chunk::<2>()?;
    rest.split_at_checked(u16::from_be_bytes(*length) as usize)
}

/// The names of a listing, behind a byte that says whether there are more and how many they are; `None` where the fields
/// are no listing's.
fn told_names(alloc: Global, fields: &[u8]) -> Result<Option<String>, AllocError> {
    let Some(([more, high, low], names)) = fields.split_first_chunk::<3>() else {
        return Ok(None);
    };
    let mut text = String::from_str(alloc, "names")?;
    let mut rest = names;
    for _ in 0..u16::from_be_bytes([*high, *low]) {
        let Some((name, behind)) = first_name(rest) else {
            return Ok(None);
        };
        text.push(' ')?;
        text.push_str(&word_of(alloc, name)?)?;
        rest = behind;
    }
    write!(text, " more {more}")?;
    Ok(if rest.is_empty() { Some(text) } else { None })
}

/// The values of a refusal; `None` where the fields are none of one.
fn told_refusal(alloc: Global, fields: &[u8]) -> Result<Option<String>, AllocError> {
    let Some((why, values)) = fields.split_first() else {
        return Ok(None);
    };
    let Some((first, rest)) = values.split_first_chunk::<8>() else {
        return Ok(None);
    };
    let Some((second, rest)) = rest.split_first_chunk::<8>() else {
        return Ok(None);
    };
    if !rest.is_empty() {
        return Ok(None);
    }
    let first = u64::from_be_bytes(*first);
    let second = u64::from_be_bytes(*second);
    Ok(Some(format!(in alloc; "refused {why} {first} {second}")?))
}

fn told_object(alloc: Global, object: &[u8]) -> Result<Option<String>, AllocError> {
    let word = word_of(alloc, object)?;
    Ok(Some(format!(in alloc; "object {word}")?))
}

/// A reply without fields.
fn told_alone(alloc: Global, word: &str, fields: &[u8]) -> Result<Option<String>, AllocError> {
    if fields.is_empty() {
        Ok(Some(String::from_str(alloc, word)?))
    } else {
        Ok(None)
    }
}

fn told_frame(alloc: Global, tag: u8, fields: &[u8]) -> Result<Option<String>, AllocError> {
    match tag {
        REFUSED => told_refusal(alloc, fields),
        DONE => told_alone(alloc, "done", fields),
        OBJECT => told_object(alloc, fields),
        NOT_FOUND => told_alone(alloc, "notfound", fields),
        NAMES => told_names(alloc, fields),
        _ => Ok(None),
    }
}

/// A reply's frame in words; bytes that are none as they are. No two are told the same.
pub(crate) fn told(alloc: Global, bytes: &[u8]) -> Result<String, AllocError> {
    if bytes.is_empty() {
        return String::from_str(alloc, "nothing");
    }
    if let Some((tag, fields)) = opened(bytes) {
        if let Some(text) = told_frame(alloc, tag, fields)? {
            return Ok(text);
        }
    }
    let digits = hex::encode(alloc, bytes)?;
    format!(in alloc; "bytes {digits}")
}

/// The reply that a line wants, in words.
pub(crate) fn wanted(alloc: Global, line: &Line) -> Result<String, AllocError> {
    let shown = line.shown.as_str();
    let missing = match line.does {
        Does::ReplyBytes => return told(alloc, &joined(alloc, &line.bytes)?),
        Does::Refused => 3usize.saturating_sub(line.numbers.len()),
        _ => 0,
    };
    match missing {
        0 => String::from_str(alloc, shown),
        1 => format!(in alloc; "{shown} 0"),
        _ => format!(in alloc; "{shown} 0 0"),
    }
}
