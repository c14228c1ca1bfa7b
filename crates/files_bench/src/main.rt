//! Makes an array in a folder, appends blocks to zones of a drive, each with a flush, and prints how many calls were answered
//! and how many bytes the zones hold. With one more word a zone is reset and the drive replaced then. It reads no clock:
//! `tools/files` times it from outside, and lets the system fail it.
#![tactic(auto)]

mod appends;

use appends::{Answered, append_all, geometry_of, renew};
use bay_files::FileBay;
use std::env::Env;
use std::process::ExitCode;
use std::{env, io};

/// What is asked for.
#[derive(Drop)]
struct Request {
    folder: String,
    appends: u32,
    zones: u16,
    is_renewed: bool,
}

fn main(rt: HostRuntime) -> io::Result<ExitCode> {
    let Some(asked) = asked(&rt)? else {
        eprintln!(rt; "usage: files_bench FOLDER APPENDS ZONES [renew]")?;
        return Ok(ExitCode::from(2));
    };
    let geometry = geometry_of(asked.zones);
    let mut bay = FileBay::create(rt.clone()?, asked.folder.as_str(), &geometry);
    let mut answered = append_all(&mut bay, asked.appends, asked.zones);
    if asked.is_renewed {
        renew(&mut bay, &mut answered);
    }
    print_answered(&rt, answered)?;
    Ok(ExitCode::SUCCESS)
}

fn print_answered(rt: &impl Print, answered: Answered) -> io::Result<()> {
    let Answered {
        appends,
        flushes,
        held,
        resets,
        replacements,
    } = answered;
    println!(rt;
        "appended {appends} flushed {flushes} held {held} reset {resets} replaced {replacements}"
    )
}

/// What the arguments ask for, or `None` where they don't say.
fn asked<R: Env + AllocGlobal>(rt: &R) -> io::Result<Option<Request>> {
    let mut words = env::args(rt)?;
    let _program = words.next();
    let folder = words.next();
    let appends = words.next().and_then(|word| word.as_str().parse().ok());
    let zones = words.next().and_then(|word| word.as_str().parse().ok());
    let renew = words.next();
    if words.next().is_some() {
        return Ok(None);
    }
    let is_renewed = match &renew {
        None => false,
        Some(word) if word.as_str() == "renew" => true,
        Some(_) => return Ok(None),
    };
    match (folder, appends, zones) {
        (Some(folder), Some(appends), Some(zones)) => Ok(Some(Request {
            folder,
            appends,
            zones,
            is_renewed,
        })),
        _ => Ok(None),
    }
}
