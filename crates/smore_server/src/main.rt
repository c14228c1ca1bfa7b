//! The program of the store: it runs the command line that it is started with, over the files of a folder.
#![tactic(auto)]

mod ending;
mod null_files;
mod running;
mod start;
mod std_sink;
mod std_source;

use ending::ended;
use null_files::NullFiles;
use running::run;
use smore_base::Memory;
use smore_top::NO_MEMORY;
use start::{bay_for, gather_words};
use std::io::BufReader;
use std::process::ExitCode;

/// Runs the words that the program was started with over the standard input, the standard output and the folder that they
/// name, and tells the status.
fn run_words(rt: &HostRuntime) -> Result<u8, Memory> {
    let alloc = rt.alloc();
    let words = gather_words(rt)?;
    let Ok(mut reader) = BufReader::new(alloc, rt.stdin()) else {
        return Err(Memory);
    };
    let mut writer = rt.stdout();
    let bay = bay_for(rt, &words)?;
    Ok(run(alloc, &words, &mut reader, &mut writer, bay))
}

/// Runs the program, and tells how it ends.
fn run_program(rt: &HostRuntime) -> ExitCode {
    let _nulls = NullFiles::open(rt);
    let status = match run_words(rt) {
        Ok(status) => status,
        Err(Memory) => NO_MEMORY,
    };
    ended(rt, status)
}

fn main(rt: HostRuntime) -> ExitCode {
    run_program(&rt)
}

#[cfg(test)]
mod tests {
    use super::*;
    use smore_top::BAD_WORDS;

    /// A test is started without words, which are no command line.
    #[test]
    fn ends_with_the_status(rt: HostRuntime) {
        assert_eq!(rt; run_program(&rt), ExitCode::from(BAD_WORDS));
    }
}
