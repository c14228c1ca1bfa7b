//! Frames, as `docs/FORMATS.md` gives them: a length of 4 bytes, and a tag with fields.

use std::alloc::{AllocError, Global};

/// Bytes of a frame's length.
const LENGTH_BYTES: usize = 4;

/// The frame of a tag with these fields.
pub(crate) fn frame(alloc: Global, tag: u8, fields: &[&[u8]]) -> Result<Vec<u8>, AllocError> {
    let mut body = Vec::new(alloc);
    body.push(tag)?;
    for field in fields {
        body.extend_from_slice(field)?;
    }
    let length = u32::try_from(body.len()).unwrap_or(u32::MAX);
    let mut bytes = Vec::from_slice(alloc, &length.to_be_bytes())?;
    bytes.extend_from_slice(&body)?;
    Ok(bytes)
}

/// The two bytes of a field's length, which stand before it.
pub(crate) fn length_of(field: &[u8]) -> [u8; 2] {
    u16::try_from(field.len()).unwrap_or(u16::MAX).to_be_bytes()
}

/// The first frame of these bytes and what is behind it; where they begin with no whole one, all of them.
pub(crate) fn split_first(bytes: &[u8]) -> (&[u8], &[u8]) {
    let Some((length, body)) = bytes.split_first_chunk::<LENGTH_BYTES>() else {
        return (bytes, &[]);
    };
    let length = u32::from_be_bytes(*length) as usize;
    if length > body.len() {
        return (bytes, &[]);
    }
    bytes.split_at(LENGTH_BYTES + length)
}

/// The tag and the fields of a whole frame.
pub(crate) fn opened(frame: &[u8]) -> Option<(u8, &[u8])> {
    let (length, body) = frame.split_first_chunk::<LENGTH_BYTES>()?;
    let (tag, fields) = body.split_first()?;
    if u32::from_be_bytes(*length) as usize == body.len() {
        Some((*tag, fields))
    } else {
        None
    }
}
