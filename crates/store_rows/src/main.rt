//! Scenarios of the store as rows of text: each names an array, the calls of some runs and the replies that are wanted, and
//! what becomes of the array. `docs/ROWS.md` has the language.
#![tactic(auto)]

mod dice;
mod frame;
mod maps;
mod objects;
mod player;
mod random;
mod reply;
mod request;
mod run;
mod said;
mod served;
mod walk;

use dice::Dice;
use random::random_row;
use row_player::{Difference, Fault, Language, Tally, print_differences, rows_of};
use std::alloc::Global;
use std::fs::Files;
use std::process::ExitCode;
use std::{env, fs, io};
use walk::differences_of;

/// A row differs.
const DIFFERS: u8 = 1;

/// A line is none of the language.
const BAD_LINE: u8 = 2;

/// No memory was found.
const NO_MEMORY: u8 = 3;

/// The word in place of a file for rows that are made at random.
const RANDOM: &str = "random";

/// Says why a file's rows aren't played; gives the status that the program ends with.
fn print_fault(rt: &impl Print, name: &str, line: usize, fault: Fault) -> io::Result<u8> {
    match fault {
        Fault::Memory => {
            println!(rt; "{name}: no memory")?;
            Ok(NO_MEMORY)
        }
        Fault::BadLine(wanted) => {
            println!(rt; "{name}:{line}: a bad line: wanted {wanted}")?;
            Ok(BAD_LINE)
        }
    }
}

/// Plays the rows of a text, and prints each line that differs. A status where it isn't played to the end.
fn play_text(
    rt: &(impl Print + AllocGlobal),
    name: &str,
    text: &str,
    tally: &mut Tally,
) -> io::Result<Option<u8>> {
    let alloc = rt.alloc();
    let rows = match rows_of(alloc, Language::Store, text) {
        Ok(rows) => rows,
        Err((line, fault)) => return Ok(Some(print_fault(rt, name, line, fault)?)),
    };
    for row in &rows {
        match differences_of(alloc, row) {
            Ok(differences) => {
                tally.count(differences.len());
                print_differences(rt, name, &differences)?;
            }
            Err(fault) => return Ok(Some(print_fault(rt, name, 0, fault)?)),
        }
    }
    Ok(None)
}

/// Plays files.
fn play_files(
    rt: &(impl Print + AllocGlobal + Files),
    names: &[String],
    tally: &mut Tally,
) -> io::Result<Option<u8>> {
    for name in names {
        let text = fs::read_to_string(rt, name.as_str())?;
        let status = play_text(rt, name.as_str(), text.as_str(), tally)?;
        if status.is_some() {
            return Ok(status);
        }
    }
    Ok(None)
}

/// The number that a word says.
fn number_of(word: Option<&String>) -> Option<u64> {
    match word?.as_str().parse::<u64>() {
        Ok(number) => Some(number),
        Err(_) => None,
    }
}

/// The differences of a row that is text.
fn text_differences(alloc: Global, text: &str) -> Result<Vec<Difference>, Fault> {
    let rows = match rows_of(alloc, Language::Store, text) {
        Ok(rows) => rows,
        Err((_, fault)) => return Err(fault),
    };
    let Some(row) = rows.first() else {
        return Ok(Vec::new(alloc));
    };
    differences_of(alloc, row)
}

/// The row of this seed, and what differs in it.
fn played(alloc: Global, seed: u64) -> Result<(String, Vec<Difference>), Fault> {
    let row = random_row(alloc, &mut Dice::new(seed))?;
    let differences = text_differences(alloc, row.as_str())?;
    Ok((row, differences))
}

/// Plays so many rows that are made at random, from this seed and the ones behind it. It ends at the first one that differs,
/// and prints its seed and the row.
fn play_random(
    rt: &(impl Print + AllocGlobal),
    seed: u64,
    count: u64,
    tally: &mut Tally,
) -> io::Result<Option<u8>> {
    let alloc = rt.alloc();
    for at in 0..count {
        let seed = seed.wrapping_add(at);
        let (row, differences) = match played(alloc, seed) {
            Ok(found) => found,
            Err(fault) => return Ok(Some(print_fault(rt, RANDOM, 0, fault)?)),
        };
        tally.count(differences.len());
        if !differences.is_empty() {
            println!(rt; "# The row of the seed {seed}.")?;
            println!(rt; "{row}")?;
            print_differences(rt, RANDOM, &differences)?;
            return Ok(None);
        }
    }
    Ok(None)
}

/// The words behind `random`: a seed, and how many rows.
fn play_seeds(
    rt: &(impl Print + AllocGlobal),
    words: &[String],
    tally: &mut Tally,
) -> io::Result<Option<u8>> {
    let (Some(seed), Some(count)) = (number_of(words.get(1)), number_of(words.get(2))) else {
        println!(rt; "bad words: wanted random SEED COUNT")?;
        return Ok(Some(BAD_LINE));
    };
    play_random(rt, seed, count, tally)
}

fn play(
    rt: &(impl Print + AllocGlobal + Files),
    words: &[String],
    tally: &mut Tally,
) -> io::Result<Option<u8>> {
    match words.first() {
        Some(first) if first.as_str() == RANDOM => play_seeds(rt, words, tally),
        _ => play_files(rt, words, tally),
    }
}

fn main(rt: HostRuntime) -> io::Result<ExitCode> {
    let mut words = Vec::new(rt.alloc());
    for word in env::args(&rt)?.skip(1) {
        words.push(word)?;
    }
    let mut tally = Tally {
        passed: 0,
        differ: 0,
    };
    if let Some(status) = play(&rt, &words, &mut tally)? {
        return Ok(ExitCode::from(status));
    }
    tally.print(&rt)?;
    if tally.differ > 0 {
        return Ok(ExitCode::from(DIFFERS));
    }
    Ok(ExitCode::SUCCESS)
}
