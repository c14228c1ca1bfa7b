use crate::fault::Fault;
use crate::line::Line;
use std::alloc::Global;
use std::{fmt, io};

/// A line that differs.
#[derive(Drop)]
pub struct Difference {
    pub line: usize,
    pub wanted: String,
    pub got: String,
    /// With which twists it was found, the first one first; empty where the row stands as it is.
    pub under: String,
}

/// Adds a difference where the texts aren't the same.
pub fn differ(
    alloc: Global,
    found: &mut Vec<Difference>,
    line: &Line,
    wanted: &str,
    got: &str,
) -> Result<(), Fault> {
    if wanted != got {
        found.push(Difference {
            line: line.number,
            wanted: String::from_str(alloc, wanted)?,
            got: String::from_str(alloc, got)?,
            under: String::new(alloc),
        })?;
    }
    Ok(())
}

/// Says of the differences from this one on with what they were found.
pub fn note<T: fmt::Display + Copy>(
    alloc: Global,
    with: T,
    first: usize,
    found: &mut Vec<Difference>,
) -> Result<(), Fault> {
    for difference in found.iter_mut().skip(first) {
        let under = difference.under.as_str();
        let separator = if under.is_empty() { "" } else { ", then " };
        difference.under = format!(in alloc; "{with}{separator}{under}")?;
    }
    Ok(())
}

/// Prints each line that differs, with its file.
pub fn print_differences(
    rt: &impl Print,
    name: &str,
    differences: &[Difference],
) -> io::Result<()> {
    for difference in differences {
        let line = difference.line;
        let wanted = difference.wanted.as_str();
        let got = difference.got.as_str();
        let under = difference.under.as_str();
        if under.is_empty() {
            println!(rt; "{name}:{line}: wanted {wanted}, got {got}")?;
        } else {
            println!(rt; "{name}:{line}: wanted {wanted}, got {got} ({under})")?;
        }
    }
    Ok(())
}

/// How many rows passed, and how many differ.
#[derive(Clone, Copy)]
pub struct Tally {
    pub passed: u64,
    pub differ: u64,
}

impl Tally {
    /// Counts a row, in which so many lines differ.
    pub fn count(&mut self, differences: usize) {
        if differences == 0 {
            self.passed = self.passed.saturating_add(1);
        } else {
            self.differ = self.differ.saturating_add(1);
        }
    }

    /// Prints the numbers.
    pub fn print(self, rt: &impl Print) -> io::Result<()> {
        let Tally { passed, differ } = self;
        println!(rt; "{passed} rows passed")?;
        if differ > 0 {
            println!(rt; "{differ} rows differ")?;
        }
        Ok(())
    }
}
