//! Scenarios of sets over several drives as rows of text: each names an array, calls on sets and the answers that are wanted,
//! and what becomes of the array. `docs/ROWS.md` has the language.
#![tactic(auto)]

mod allowed;
mod player;
mod set_answer;
mod set_life;
mod set_log;
mod set_marker;
mod set_scan;
mod untold;
mod walk;

use row_player::{Fault, Language, Tally, print_differences, rows_of};
use std::process::ExitCode;
use std::{env, fs, io};
use walk::differences_of;

/// A row differs.
const DIFFERS: u8 = 1;

/// A line is none of the language.
const BAD_LINE: u8 = 2;

/// No memory was found.
const NO_MEMORY: u8 = 3;

/// Says why a file's rows aren't played; gives the status that the program ends with.
fn print_fault(rt: &impl Print, name: &str, line: usize, fault: Fault) -> io::Result<u8> {
    match fault {
        Fault::Memory => {
            println!(rt; "{name}: no memory")?;
            Ok(NO_MEMORY)
        }
        Fault::BadLine(wanted) => {
            println!(rt; "{name}:{line}: a bad line: wanted {wanted}")?;
            Ok(BAD_LINE)
        }
    }
}

/// Plays the rows of a text, and prints each line that differs. A status where it isn't played to the end.
fn play_text(
    rt: &(impl Print + AllocGlobal),
    name: &str,
    text: &str,
    tally: &mut Tally,
) -> io::Result<Option<u8>> {
    let alloc = rt.alloc();
    let rows = match rows_of(alloc, Language::Sets, text) {
        Ok(rows) => rows,
        Err((line, fault)) => return Ok(Some(print_fault(rt, name, line, fault)?)),
    };
    for row in &rows {
        match differences_of(alloc, row) {
            Ok(differences) => {
                tally.count(differences.len());
                print_differences(rt, name, &differences)?;
            }
            Err(fault) => return Ok(Some(print_fault(rt, name, 0, fault)?)),
        }
    }
    Ok(None)
}

fn main(rt: HostRuntime) -> io::Result<ExitCode> {
    let mut tally = Tally {
        passed: 0,
        differ: 0,
    };
    for name in env::args(&rt)?.skip(1) {
        let text = fs::read_to_string(&rt, name.as_str())?;
        if let Some(status) = play_text(&rt, name.as_str(), text.as_str(), &mut tally)? {
            return Ok(ExitCode::from(status));
        }
    }
    tally.print(&rt)?;
    if tally.differ > 0 {
        return Ok(ExitCode::from(DIFFERS));
    }
    Ok(ExitCode::SUCCESS)
}
