ghost use Rattle.std.specs.Prelude.{MatchResult};
ghost use Rattle.smore_top.specs.Words.{Spell, RefusedFor};

use crate::task::{Task, read_task};
use crate::words::Words;
use smore_base::{Bytes, Geometry};
use std::alloc::Global;
use thiserror::Error;

/// A command line, read.
#[derive(Debug, Drop)]
pub enum Command {
    /// `format F ID D K P Z B S`: a new array is made.
    Format {
        folder: Bytes,
        geometry: Geometry,
        array: [u8; 16],
    },
    /// `batch F`: the calls of the input are answered.
    Batch {
        folder: Bytes,
    },
}

/// Why no command is read.
#[derive(Clone, Copy, Debug, PartialEq, Eq, Error)]
pub enum WordFault {
    /// No memory was found.
    #[error("no memory for the words")]
    Memory,
    /// The words are no command line.
    #[error("the words are no command line")]
    Words,
}

/// The command that the words spell. `docs/FORMATS.md`, "Command lines", has each of them.
pub fn read_words(alloc: Global, words: &Words) -> Result<Command, WordFault>
    ensures { MatchResult result (λ command. Spell words.now command) (λ fault. RefusedFor fault words.now) }
{
    let Some(task) = read_task(words) else {
        return Err(WordFault::Words);
    };
    let Some(folder) = words.get(1) else {
        return Err(WordFault::Words);
    };
    let Ok(folder) = Bytes::of(alloc, folder.as_bytes()) else {
        return Err(WordFault::Memory);
    };
    match task {
        Task::Format(new) => {
            let geometry = new.geometry;
            let array = new.id;
            Ok(Command::Format {
                folder,
                geometry,
                array,
            })
        }
        Task::Batch => Ok(Command::Batch { folder }),
    }
}
