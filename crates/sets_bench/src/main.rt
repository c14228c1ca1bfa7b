//! Appends the same part to a set over six drives for a given number of rounds, and prints how many were appended. With
//! `alone` blocks of as many bytes are appended to the drives with nothing of a set. The array is in memory, or made in a
//! folder. It reads no clock: `tools/speed` times it from outside.
#![tactic(auto)]

mod alone;
mod array;
mod parts;

use alone::append_alone;
use array::{DEVICES, GEOMETRY, ZONES};
use bay_files::FileBay;
use bay_memory::MemoryBay;
use parts::append_parts;
use smore_base::Memory;
use std::alloc::Global;
use std::env::Env;
use std::process::ExitCode;
use std::{env, io};

/// What is asked for.
#[derive(Drop)]
struct Request {
    rounds: u32,
    is_alone: bool,
    folder: Option<String>,
}

fn main(rt: HostRuntime) -> io::Result<ExitCode> {
    let Some(asked) = asked(&rt)? else {
        eprintln!(rt; "usage: sets_bench ROUNDS parts|alone [FOLDER]")?;
        return Ok(ExitCode::from(2));
    };
    let alloc = rt.alloc();
    let appended = match &asked.folder {
        None => in_memory(alloc, &asked),
        Some(folder) => {
            let mut bay = FileBay::create(rt.clone()?, folder.as_str(), &GEOMETRY);
            if asked.is_alone {
                append_alone(alloc, &mut bay, asked.rounds)
            } else {
                append_parts(alloc, &mut bay, asked.rounds)
            }
        }
    };
    match appended {
        Ok(appended) => {
            println!(rt; "{appended}")?;
            Ok(ExitCode::SUCCESS)
        }
        Err(Memory) => {
            eprintln!(rt; "no memory")?;
            Ok(ExitCode::from(1))
        }
    }
}

/// Appends to an array in memory.
fn in_memory(alloc: Global, asked: &Request) -> Result<u32, Memory> {
    let mut bay = MemoryBay::new(alloc, DEVICES, ZONES, GEOMETRY.blocks)?;
    if asked.is_alone {
        append_alone(alloc, &mut bay, asked.rounds)
    } else {
        append_parts(alloc, &mut bay, asked.rounds)
    }
}

/// What the arguments ask for, or `None` where they don't say.
fn asked<R: Env + AllocGlobal>(rt: &R) -> io::Result<Option<Request>> {
    let mut words = env::args(rt)?;
    let _program = words.next();
    let rounds = words.next().and_then(|word| word.as_str().parse().ok());
    let name = words.next();
    let folder = words.next();
    if words.next().is_some() {
        return Ok(None);
    }
    let is_alone = match &name {
        Some(word) if word.as_str() == "alone" => true,
        Some(word) if word.as_str() == "parts" => false,
        _ => return Ok(None),
    };
    Ok(rounds.map(|rounds| Request {
        rounds,
        is_alone,
        folder,
    }))
}
