//! One run of the store.

ghost use Rattle.std.specs.Prelude.{◌<◌, ◌≤◌, All, IfOk, vec_len};

use bay_memory::MemoryBay;
use row_player::{Does, Fault, Line};
use smore_top::{MemorySink, MemorySource, Outcome, Words, run_batch};
use std::alloc::Global;

/// How the next run's streams behave.
#[derive(Drop)]
pub(crate) struct Streams {
    source_fails: Vec<u64>,
    source_gives: usize,
    sink_fails: Vec<u64>,
    sink_takes: usize,
    ghost gives: { 1 ≤ source_gives },
    ghost takes: { 1 ≤ sink_takes },
}

impl Streams {
    /// Streams that never fail, and give and take all at once.
    pub(crate) fn new(alloc: Global) -> Streams {
        Streams {
            source_fails: Vec::new(alloc),
            source_gives: usize::MAX,
            sink_fails: Vec::new(alloc),
            sink_takes: usize::MAX,
        }
    }

    /// Sets what the line says.
    pub(crate) fn set(&mut self, line: &Line) -> Result<(), Fault> {
        match line.does {
            Does::SourceFails => self.source_fails.push(line.number(0))?,
            Does::SourceGives => self.source_gives = line.size(0).max(1),
            Does::SinkFails => self.sink_fails.push(line.number(0))?,
            Does::SinkTakes => self.sink_takes = line.size(0).max(1),
            _ => {}
        }
        Ok(())
    }
}

/// Adds the bytes in pieces of at most `size`.
fn add_pieces(
    alloc: Global,
    pieces: &mut Vec<Vec<u8>>,
    bytes: &[u8],
    size: usize,
) -> Result<(), Fault>
    requires { 1 ≤ size }
{
    for chunk in bytes.chunks(size) {
        pieces.push(Vec::from_slice(alloc, chunk)?)?;
    }
    Ok(())
}

/// The input in pieces of at most `size` bytes, with a cut behind the first `cut` bytes.
fn pieces_of(alloc: Global, input: &[u8], size: usize, cut: usize) -> Result<Vec<Vec<u8>>, Fault>
    requires { 1 ≤ size }
    ensures { IfOk result (λ pieces. All (λ piece. 0 < vec_len piece) pieces.items) }
{
    let mut pieces = Vec::new(alloc);
    let (first, second) = input.split_at(cut.min(input.len()));
    add_pieces(alloc, &mut pieces, first, size)?;
    add_pieces(alloc, &mut pieces, second, size)?;
    if pieces.iter().all(|piece| !piece.is_empty()) {
        Ok(pieces)
    } else {
        Err(Fault::wanted(alloc, "pieces with a byte each"))
    }
}

/// What a run gave.
#[derive(Drop)]
pub(crate) struct Ran {
    pub(crate) output: Vec<u8>,
    pub(crate) outcome: Outcome,
}

fn words_of(alloc: Global, texts: &[String]) -> Result<Words, Fault> {
    let mut words = Words::new(alloc);
    for text in texts {
        words.append_word(text.as_str())?;
    }
    Ok(words)
}

/// Runs the words over the bay, on the input cut behind so many bytes.
pub(crate) fn run(
    alloc: Global,
    words: &[String],
    input: &[u8],
    streams: &Streams,
    cut: usize,
    bay: MemoryBay,
) -> Result<(Ran, MemoryBay), Fault> {
    let words = words_of(alloc, words)?;
    let pieces = pieces_of(alloc, input, streams.source_gives, cut)?;
    let mut source = MemorySource::new(alloc, pieces);
    source.fail_at(&streams.source_fails)?;
    let mut sink = MemorySink::new(alloc, streams.sink_takes);
    sink.fail_at(&streams.sink_fails)?;
    let (outcome, bay) = run_batch(alloc, &words, &mut source, &mut sink, bay);
    let output = Vec::from_slice(alloc, sink.held())?;
    Ok((Ran { output, outcome }, bay))
}
