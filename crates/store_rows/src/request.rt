//! Requests as bytes.

use crate::frame::{frame, length_of};
use row_player::{Does, Line};
use std::alloc::{AllocError, Global};

fn named(alloc: Global, tag: u8, name: &[u8], rest: &[u8]) -> Result<Vec<u8>, AllocError> {
    frame(alloc, tag, &[&length_of(name), name, rest])
}

/// The bytes of a line, one behind the other.
pub(crate) fn joined(alloc: Global, words: &[Vec<u8>]) -> Result<Vec<u8>, AllocError> {
    let mut bytes = Vec::new(alloc);
    for word in words {
        bytes.extend_from_slice(word)?;
    }
    Ok(bytes)
}

/// The bytes that a request puts to the input; of another line none.
fn request_of(alloc: Global, line: &Line) -> Result<Vec<u8>, AllocError> {
    let name = line.bytes(0);
    let limit = line.number_u16(0).to_be_bytes();
    match line.does {
        Does::Put => named(alloc, 1, name, line.bytes(1)),
        Does::Get => named(alloc, 2, name, &[]),
        Does::Delete => named(alloc, 3, name, &[]),
        Does::List => named(alloc, 4, &[], &limit),
        Does::ListAfter => named(alloc, 4, name, &limit),
        Does::Stop => frame(alloc, 255, &[]),
        Does::Frame => joined(alloc, &line.bytes),
        _ => Ok(Vec::new(alloc)),
    }
}

/// The input of a run.
pub(crate) fn input_of(alloc: Global, lines: &[Line]) -> Result<Vec<u8>, AllocError> {
    let mut input = Vec::new(alloc);
    for line in lines {
        input.extend_from_slice(&request_of(alloc, line)?)?;
    }
    Ok(input)
}
