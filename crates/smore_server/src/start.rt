//! What a run starts with: its words, and the bay that they name.
ghost use Rattle.std.specs.Prelude.{IfOk};
ghost use Rattle.zone_bay.specs.Contents.{Shape};
ghost use Rattle.smore_top.specs.Words.{IsCommandLine};

use bay_files::FileBay;
use smore_base::{Bytes, Memory};
use smore_top::{Command, WordFault, Words, read_words};
use std::env;
use std::fs::File;
use std::io::ErrorKind;
use std::rt::{Env, Files};
use zone_bay::Bay;

/// The words that the program was started with, without its own name. Where one of them is no text there are none, so that they
/// are no command line.
pub(crate) fn gather_words<R: Env + AllocGlobal>(rt: &R) -> Result<Words, Memory> {
    let mut words = Words::new(rt.alloc());
    match env::args(rt) {
        Ok(args) => {
            for word in args.skip(1) {
                words.append_word(word.as_str())?;
            }
        }
        Err(error) if error.kind() == ErrorKind::InvalidData => {}
        Err(_) => return Err(Memory),
    }
    Ok(words)
}

/// The name of a folder. Words are text, so it is one.
fn text_of(folder: &Bytes) -> &str {
    str::from_utf8(folder.as_slice()).unwrap_or("")
}

/// The bay that the words name: for `format` a folder is made, with the devices, zones and blocks of the geometry, so that words
/// that are a command line over some bay are one over this. Where they are no command line there is none.
pub(crate) fn bay_for<R: Files<File = File> + AllocGlobal + Clone + Drop>(
    rt: &R,
    words: &Words,
) -> Result<FileBay<R>, Memory>
    ensures shape { IfOk result (λ bay. (shape : Shape) → IsCommandLine shape words.now
        → IsCommandLine (⟦<FileBay<R> as Bay>⟧.state bay).shape words.now) }
{
    let command = match read_words(rt.alloc(), words) {
        Ok(command) => command,
        Err(WordFault::Words) => return Ok(FileBay::none()),
        Err(WordFault::Memory) => return Err(Memory),
    };
    let own = rt.clone()?;
    Ok(match command {
        Command::Format {
            folder,
            geometry,
            array: _,
        } => FileBay::create(own, text_of(&folder), &geometry),
        Command::Batch { folder } => FileBay::at(own, text_of(&folder)),
    })
}
