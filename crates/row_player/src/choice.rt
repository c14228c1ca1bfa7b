//! Each choice of so many drives.

use std::alloc::{AllocError, Global};

/// The drives that may stand behind those that were chosen.
fn behind(chosen: &[u8], drives: u8) -> u8 {
    match chosen.last() {
        Some(last) => last.saturating_add(1).min(drives),
        None => 0,
    }
}

/// Each of these choices with each drive behind it.
fn longer(alloc: Global, choices: &[Vec<u8>], drives: u8) -> Result<Vec<Vec<u8>>, AllocError> {
    let mut more = Vec::new(alloc);
    for chosen in choices {
        for drive in behind(chosen, drives)..drives {
            let mut with = Vec::from_slice(alloc, chosen)?;
            with.push(drive)?;
            more.push(with)?;
        }
    }
    Ok(more)
}

/// Each choice of so many of the drives, in order: the one of none, where none are to be chosen.
pub fn choices(alloc: Global, drives: u8, count: u8) -> Result<Vec<Vec<u8>>, AllocError> {
    let mut choices = Vec::new(alloc);
    choices.push(Vec::new(alloc))?;
    for _ in 0..count {
        choices = longer(alloc, &choices, drives)?;
    }
    Ok(choices)
}
