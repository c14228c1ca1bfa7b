ghost use Rattle.std.specs.Prelude.{◌≡◌, ◌≢◌, ◌⊎◌, ◌↔◌, ℕ, [], true, false};
ghost use Rattle.std.specs.List.Sorted.{IsNonDecreasing};
ghost use Rattle.smore_top.specs.declared.end.End.{End};
ghost use Rattle.smore_top.specs.End.{status_of, end_of, SourceCount, SinkCount};
ghost use Rattle.marker_format.specs.Zone.{Array};
ghost use Rattle.zone_bay.specs.Contents.{IsOfBay};
ghost use Rattle.smore_top.specs.Headline.{sides, Runs, RunsBatch, NeverBegan, RunsFormat, AcknowledgeEach, ran_by};
ghost use Rattle.smore_top.specs.Turn.{ran_of};
ghost use Rattle.smore_top.specs.Words.{IsFormat, IsFormatFor, IsCommandLine};

use crate::coder::Coder;
use crate::end::End;
use crate::formatting::{is_of_bay, make_array};
use crate::task::{Task, read_task};
use crate::turn::{Desk, answer_next};
use crate::words::Words;
use crate::{Sink, Source};
use std::alloc::Global;
use store_core::{Core, OpenRefusal};
use zone_bay::Bay;

/// How a run ended.
#[derive(Debug, Drop)]
pub struct Outcome {
    /// `docs/FORMATS.md`, "Statuses": 0 where the run is done.
    pub status: u8,
    /// The calls that were answered, also one whose reply couldn't be put.
    pub calls: u64,
    /// The place of a bad frame; not told yet, and always 0.
    pub at: u64,
    /// The bay's moment after each reply frame that was put whole.
    pub marks: Vec<u64>,
}

/// A run: how it ended, how many calls it answered, and the bay's moment after each reply that was put whole.
#[derive(Drop)]
struct Run {
    end: End,
    calls: u64,
    marks: Vec<u64>,
}

impl Run {
    /// One that never began.
    fn none(alloc: Global, end: End) -> Run
        ensures end { result.end ≡ end }
        ensures calls { result.calls ≡ 0 }
        ensures marks { result.marks.items ≡ [] }
    {
        Run {
            end,
            calls: 0,
            marks: Vec::new(alloc),
        }
    }

    fn outcome(self) -> Outcome
        ensures { result ≡ record { status = status_of self.end; calls = self.calls; at = 0; marks = self.marks } }
    {
        Outcome {
            status: self.end.status(),
            calls: self.calls,
            at: 0,
            marks: self.marks,
        }
    }
}

/// Answers the calls of a source until it ends, or until something fails.
fn answer_all<S: Source, K: Sink, B: Bay>(
    alloc: Global,
    core: &mut Core<B>,
    source: &mut S,
    sink: &mut K,
) -> Run
    ensures runs { Runs B.state (ran_of result)
        (sides (S.left source.old) (K.held sink.old) core.old)
        (sides (S.left source.new) (K.held sink.new) core.new) }
    ensures source { SourceCount result.end (S.faults source.old) (S.faults source.new) }
    ensures sink { SinkCount result.end (K.faults sink.old) (K.faults sink.new) }
{
    let coder = Coder::new(alloc, core.geometry());
    let mut desk = Desk::new(alloc);
    for calls in 0..u64::MAX {
        match answer_next(&coder, core, source, sink, &mut desk) {
            Ok(()) => {}
            Err(halt) => {
                return Run {
                    end: halt.end,
                    calls: calls + halt.calls,
                    marks: desk.marks,
                };
            }
        }
    }
    Run {
        end: End::NoMemory,
        calls: u64::MAX,
        marks: desk.marks,
    }
}

/// Opens the bay and answers the calls of the source, until a Stop or the end of the input.
fn answer_batch<S: Source, K: Sink, B: Bay>(
    alloc: Global,
    source: &mut S,
    sink: &mut K,
    bay: B,
) -> (Run, B)
    ensures batch { (NeverBegan B.state (ran_of result.0) bay result.1 × (source.new ≡ source.old) × (sink.new ≡ sink.old))
        ⊎ RunsBatch ⟦<B as Bay>⟧ (ran_of result.0)
        (sides (S.left source.old) (K.held sink.old) bay)
        (sides (S.left source.new) (K.held sink.new) result.1) }
    ensures words { result.0.end ≢ End.BadWords }
    ensures source { SourceCount result.0.end (S.faults source.old) (S.faults source.new) }
    ensures sink { SinkCount result.0.end (K.faults sink.old) (K.faults sink.new) }
    ensures rising { IsNonDecreasing result.0.marks.items }
{
    let mut core = match Core::open(alloc, bay) {
        Ok(core) => core,
        Err((OpenRefusal::NoLabel, bay)) => return (Run::none(alloc, End::NotOpened), bay),
        Err((OpenRefusal::Memory, bay)) => return (Run::none(alloc, End::NoMemory), bay),
    };
    let run = answer_all(alloc, &mut core, source, sink);
    (run, core.into_bay())
}

/// Runs a command line over a bay. `batch F` opens it, takes frames from the source, answers each call, and puts its
/// reply to the sink, until a Stop or the end of the input: `docs/RULES.md`, "A batch". `format F ..` makes an array of it, and
/// puts a text that says so: `docs/RULES.md`, "Formatting".
pub fn run_batch<S: Source, K: Sink, B: Bay>(
    alloc: Global,
    words: &Words,
    source: &mut S,
    sink: &mut K,
    mut bay: B,
) -> (Outcome, B)
    ensures known { status_of (end_of result.0.status) ≡ result.0.status }
    ensures words { (end_of result.0.status ≡ End.BadWords) ↔ (IsCommandLine (B.state bay).shape words.now → ⊥) }
    ensures batch { (IsFormatFor (B.state bay).shape words.now → ⊥)
        → (NeverBegan B.state (ran_by result.0) bay result.1 × (source.new ≡ source.old) × (sink.new ≡ sink.old))
        ⊎ RunsBatch ⟦<B as Bay>⟧ (ran_by result.0)
        (sides (S.left source.old) (K.held sink.old) bay)
        (sides (S.left source.new) (K.held sink.new) result.1) }
    ensures format { (array : Array) → IsFormat array words.now → IsOfBay array.geometry (B.state bay).shape
        → RunsFormat B.state array (ran_by result.0)
        (sides (S.left source.old) (K.held sink.old) bay)
        (sides (S.left source.new) (K.held sink.new) result.1) × (source.new ≡ source.old) }
    ensures source { SourceCount (end_of result.0.status) (S.faults source.old) (S.faults source.new) }
    ensures sink { SinkCount (end_of result.0.status) (K.faults sink.old) (K.faults sink.new) }
    ensures rising { IsNonDecreasing result.0.marks.items }
    ensures acknowledged { AcknowledgeEach result.0.marks.items }
    ensures place { result.0.at ≡ 0 }
{
    match read_task(words) {
        None => (Run::none(alloc, End::BadWords).outcome(), bay),
        Some(Task::Format(new)) => {
            if !is_of_bay(&new.geometry, &bay) {
                return (Run::none(alloc, End::BadWords).outcome(), bay);
            }
            let end = make_array(&new, sink, &mut bay);
            (Run::none(alloc, end).outcome(), bay)
        }
        Some(Task::Batch) => {
            let (run, bay) = answer_batch(alloc, source, sink, bay);
            (run.outcome(), bay)
        }
    }
}
