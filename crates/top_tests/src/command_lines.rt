//! Command lines, and what is said of them.

use smore_top::{FormatFailed, WordFault, Words, read_words};
use std::alloc::Global;
use std::test::Fail;

/// What a command line is read as.
fn shown(alloc: Global, words: &Words) -> Result<String, Fail> {
    Ok(match read_words(alloc, words) {
        Ok(command) => format!(in alloc; "{command:?}")?,
        Err(fault) => format!(in alloc; "{fault}")?,
    })
}

const FORMAT: &str =
    "Format { folder: Bytes { items: [102, 45] }, geometry: Geometry { drives: 2, k: 1, p: 1, zones: 8, blocks: 128, shard: 1022 }, array: [0, 1, 2, 3, 4, 5, 6, 7, 8, 9, 10, 11, 12, 13, 14, 255] }";

const BATCH: &str = "Batch { folder: Bytes { items: [98] } }";

const NONE: &str = "the words are no command line";

#[test]
fn reads_command_lines(rt: HostRuntime) -> Result<(), Fail> {
    let alloc = rt.alloc();
    let lines = [
        ("batch b", BATCH),
        (
            "format f- 000102030405060708090a0b0c0d0eff 2 1 1 8 128 1022",
            FORMAT,
        ),
        ("", NONE),
        ("batch", NONE),
        ("batch -b", NONE),
        ("batch b more", NONE),
        ("scan b", NONE),
        (
            "format -f 000102030405060708090a0b0c0d0eff 2 1 1 8 128 1022",
            NONE,
        ),
        (
            "format f- 000102030405060708090A0b0c0d0eff 2 1 1 8 128 1022",
            NONE,
        ),
        (
            "format f- 000102030405060708090a0b0c0d0e 2 1 1 8 128 1022",
            NONE,
        ),
        (
            "format f- 000102030405060708090a0b0c0d0eff +2 1 1 8 128 1022",
            NONE,
        ),
        (
            "format f- 000102030405060708090a0b0c0d0eff 2 1 1 08 128 1022",
            NONE,
        ),
        (
            "format f- 000102030405060708090a0b0c0d0eff 258 1 1 8 128 1022",
            NONE,
        ),
        (
            "format f- 000102030405060708090a0b0c0d0eff 3 2 1 8 128 1022",
            NONE,
        ),
        (
            "format f- 000102030405060708090a0b0c0d0eff 2 1 1 8 127 1022",
            NONE,
        ),
        (
            "format f- 000102030405060708090a0b0c0d0eff 2 1 1 8 128",
            NONE,
        ),
    ];
    for (line, read) in lines {
        let mut words = Words::new(alloc);
        for word in line.split_whitespace() {
            words.append_word(word)?;
        }
        assert_eq!(rt; shown(alloc, &words)?.as_str(), read, "of {line}");
    }
    Ok(())
}

#[test]
fn says_what_failed(rt: HostRuntime) -> Result<(), Fail> {
    let alloc = rt.alloc();
    let memory = WordFault::Memory;
    let formatting = FormatFailed { device: 2 };
    let said = format!(in alloc; "{memory}, {formatting}")?;
    assert_eq!(rt;
        said.as_str(),
        "no memory for the words, device 2 failed while it was formatted"
    );
    Ok(())
}
