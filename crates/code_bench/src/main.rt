//! Runs the kernel of the code over fixed rows, or one of the uses of the code, for a given number of rounds, and prints a
//! checksum of what comes out. It reads no clock: `tools/speed` times it from outside.
#![tactic(auto)]

mod case;
mod rounds;
mod rows;

use case::{Case, shape_of};
use rounds::{coded_rounds, kernel_rounds, parity_rounds, rebuilt_rounds};
use std::env::Env;
use std::process::ExitCode;
use std::{env, io};

fn main(rt: HostRuntime) -> io::Result<ExitCode> {
    let Some((rounds, case)) = asked(&rt)? else {
        eprintln!(rt; "usage: code_bench ROUNDS [parity|coded|rebuilt K P FRAGMENT]")?;
        return Ok(ExitCode::from(2));
    };
    let alloc = rt.alloc();
    let sum = match case {
        Case::Kernel => kernel_rounds(alloc, rounds)?,
        Case::Parity(shape) => parity_rounds(alloc, shape, rounds)?,
        Case::Coded(shape) => coded_rounds(alloc, shape, rounds)?,
        Case::Rebuilt(shape) => rebuilt_rounds(alloc, shape, rounds)?,
    };
    println!(rt; "{sum:016x}")?;
    Ok(ExitCode::SUCCESS)
}

/// The number of rounds and what is run, or `None` where the arguments don't say.
fn asked<R: Env + Alloc>(rt: &R) -> io::Result<Option<(u32, Case)>> {
    let mut words = env::args(rt)?;
    let _program = words.next();
    let rounds = words.next().and_then(|word| word.as_str().parse().ok());
    let name = words.next();
    let k = words.next();
    let p = words.next();
    let fragment = words.next();
    if words.next().is_some() {
        return Ok(None);
    }
    let case = match (&name, &k, &p, &fragment) {
        (None, _, _, _) => Some(Case::Kernel),
        (Some(name), Some(k), Some(p), Some(fragment)) => {
            case_of(name.as_str(), k.as_str(), p.as_str(), fragment.as_str())
        }
        _ => None,
    };
    Ok(rounds.zip(case))
}

/// The use of the code of that name, at the shape of these numbers.
fn case_of(name: &str, k: &str, p: &str, fragment: &str) -> Option<Case> {
    let shape = shape_of(k.parse().ok()?, p.parse().ok()?, fragment.parse().ok()?)?;
    match name {
        "parity" => Some(Case::Parity(shape)),
        "coded" => Some(Case::Coded(shape)),
        "rebuilt" => Some(Case::Rebuilt(shape)),
        _ => None,
    }
}
