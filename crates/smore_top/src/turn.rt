//! One turn of a run: a call is asked for, answered, and its reply sent.
ghost use Rattle.std.specs.Prelude.{◌≡◌, ℕ, ◌≤◌, [], ◌∷◌, ◌++◌, IfErr, MatchResult};
ghost use Rattle.store_core.specs.Core.{geometry_of, coding_of};
ghost use Rattle.smore_top.specs.End.{SourceCount, SinkCount};
ghost use Rattle.smore_top.specs.Headline.{sides, Runs, moment_in};
ghost use Rattle.smore_top.specs.Turn.{Answers, halted};

use crate::asking::next_call;
use crate::coder::Coder;
use crate::end::End;
use crate::sending::send_reply;
use crate::{Sink, Source};
use std::alloc::Global;
use store_core::Core;
use zone_bay::Bay;

/// What a run keeps from turn to turn.
#[derive(Drop)]
pub(crate) struct Desk {
    pub(crate) alloc: Global,
    /// Room for a reply's frame.
    pub(crate) frame: Vec<u8>,
    /// The bay's moment after each reply that was put whole.
    pub(crate) marks: Vec<u64>,
}

impl Desk {
    pub(crate) fn new(alloc: Global) -> Desk
        ensures { result.marks.items ≡ [] }
    {
        Desk {
            alloc,
            frame: Vec::new(alloc),
            marks: Vec::new(alloc),
        }
    }
}

/// How a turn ended the run, and how many calls it had answered.
#[derive(Clone, Copy, Debug)]
pub(crate) struct Halt {
    pub(crate) end: End,
    pub(crate) calls: u64,
}

/// Answers the next call. The room for its mark is taken first, so that each reply that is put whole has one.
#[tactic(auto, using(crate::proofs::Fits::fits_frame))]
pub(crate) fn answer_next<S: Source, K: Sink, B: Bay>(
    coder: &Coder,
    core: &mut Core<B>,
    source: &mut S,
    sink: &mut K,
    desk: &mut Desk,
) -> Result<(), Halt>
    requires { coder.now ≡ coding_of (geometry_of core.old) }
    ensures turn { let before = sides (S.left source.old) (K.held sink.old) core.old in
        let after = sides (S.left source.new) (K.held sink.new) core.new in
        MatchResult result
        (λ _. Answers B.state before after)
        (λ halt. Runs B.state (halted halt) before after) }
    ensures marks { MatchResult result
        (λ _. desk.new.marks.items ≡ desk.old.marks.items ++ moment_in B.state core.new ∷ [])
        (λ _. desk.new.marks.items ≡ desk.old.marks.items) }
    ensures few { IfErr result (λ halt. halt.calls ≤ 1) }
    ensures source { MatchResult result
        (λ _. S.faults source.new ≡ S.faults source.old)
        (λ halt. SourceCount halt.end (S.faults source.old) (S.faults source.new)) }
    ensures sink { MatchResult result
        (λ _. K.faults sink.new ≡ K.faults sink.old)
        (λ halt. SinkCount halt.end (K.faults sink.old) (K.faults sink.new)) }
{
    if desk.marks.reserve(1).is_err() {
        return Err(Halt {
            end: End::NoMemory,
            calls: 0,
        });
    }
    let op = match next_call(desk.alloc, coder, source) {
        Ok(op) => op,
        Err(end) => return Err(Halt { end, calls: 0 }),
    };
    let reply = core.step(op);
    match send_reply(sink, &mut desk.frame, &reply) {
        Ok(()) => {}
        Err(end) => return Err(Halt { end, calls: 1 }),
    }
    desk.marks.push(core.moment()).unwrap();
    Ok(())
}
