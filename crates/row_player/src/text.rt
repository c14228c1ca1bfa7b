//! Bytes as words: plain letters stand for themselves, `x:` and hex digits for bytes, `#` and a number for so many bytes of
//! a pattern.

use crate::fault::Fault;
use std::alloc::{AllocError, Global};

/// The pattern's bytes go from 0 to one below this number, again and again.
const PERIOD: u32 = 251;

/// A pattern is printed by its length from so many bytes on.
const LONG: usize = 32;

/// So many bytes of the pattern.
fn pattern(alloc: Global, count: u32) -> Result<Vec<u8>, AllocError> {
    let mut bytes = Vec::new(alloc);
    for i in 0..count {
        bytes.push((i % PERIOD) as u8)?;
    }
    Ok(bytes)
}

/// The bytes that pairs of hex digits spell.
pub fn from_hex(alloc: Global, digits: &str) -> Result<Vec<u8>, Fault> {
    match hex::decode(alloc, digits) {
        Ok(bytes) => Ok(bytes),
        Err(hex::FromHexError::OutOfMemory) => Err(Fault::Memory),
        Err(_) => Err(Fault::wanted(alloc, "pairs of hex digits")),
    }
}

/// The bytes that a word stands for.
pub fn bytes_of(alloc: Global, word: &str) -> Result<Vec<u8>, Fault> {
    if let Some(digits) = word.strip_prefix("x:") {
        return from_hex(alloc, digits);
    }
    if let Some(count) = word.strip_prefix('#') {
        let Ok(count) = count.parse::<u32>() else {
            return Err(Fault::wanted(alloc, "# and a number of bytes"));
        };
        return Ok(pattern(alloc, count)?);
    }
    Ok(Vec::from_slice(alloc, word.as_bytes())?)
}

fn is_plain(bytes: &[u8]) -> bool {
    for byte in bytes {
        if !byte.is_ascii_alphanumeric() && !b"-_./".contains(byte) {
            return false;
        }
    }
    !bytes.is_empty()
}

/// The word that stands for the bytes.
pub fn word_of(alloc: Global, bytes: &[u8]) -> Result<String, AllocError> {
    if is_plain(bytes) {
        return Ok(String::from_utf8_lossy(alloc, bytes)?);
    }
    let length = bytes.len();
    if length >= LONG && length <= u32::MAX as usize {
        let same = pattern(alloc, length as u32)?;
        if same.as_slice() == bytes {
            return format!(in alloc; "#{length}");
        }
    }
    let digits = hex::encode(alloc, bytes)?;
    format!(in alloc; "x:{digits}")
}
