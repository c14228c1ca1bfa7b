//! Asks a table of 2,000 sets on 24 drives of 4,096 zones the same thing for a given number of rounds, and prints a checksum
//! of what it answers. It reads no clock: `tools/speed` times it from outside.
#![tactic(auto)]

mod rounds;
mod sets;

use rounds::{Asked, asked_of, sum_of};
use sets::{table_of, take_most};
use smore_base::Memory;
use std::alloc::Global;
use std::env::Env;
use std::process::ExitCode;
use std::{env, io};

fn main(rt: HostRuntime) -> io::Result<ExitCode> {
    let Some((rounds, asked)) = words_of(&rt)? else {
        eprintln!(rt;
            "usage: table_bench ROUNDS carrier|missing|lowest_empty|room_sets|with_empty|form_set|form_again"
        )?;
        return Ok(ExitCode::from(2));
    };
    match sum_over(rt.alloc(), asked, rounds) {
        Ok(sum) => {
            println!(rt; "{sum}")?;
            Ok(ExitCode::SUCCESS)
        }
        Err(Memory) => {
            eprintln!(rt; "no memory")?;
            Ok(ExitCode::from(1))
        }
    }
}

/// Asks a new table that many times.
fn sum_over(alloc: Global, asked: Asked, rounds: u32) -> Result<u64, Memory> {
    let mut table = table_of(alloc)?;
    if let Asked::FormAgain = asked {
        take_most(&mut table);
    }
    sum_of(&mut table, asked, rounds)
}

/// The number of rounds and what is asked, or `None` where the arguments don't say.
fn words_of<R: Env + Alloc>(rt: &R) -> io::Result<Option<(u32, Asked)>> {
    let mut words = env::args(rt)?;
    let _program = words.next();
    let rounds = words.next().and_then(|word| word.as_str().parse().ok());
    let asked = words.next().and_then(|word| asked_of(word.as_str()));
    if words.next().is_some() {
        return Ok(None);
    }
    Ok(rounds.zip(asked))
}
