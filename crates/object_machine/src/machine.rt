ghost use Rattle.std.specs.Prelude.{◌≡◌, ℕ, Option};
ghost use Rattle.smore_base.specs.Told.{Told};
ghost use Rattle.object_machine.specs.Coding.{Coding, IsMadeFor};
ghost use Rattle.object_machine.specs.State.{State, Step};

use crate::{Op, Reply};

/// A call and its answer, with the number of its caller.
#[derive(Debug, Drop)]
pub struct Entry {
    pub caller: u64,
    pub op: Op,
    pub reply: Reply,
}

/// What answers calls one at a time.
pub trait Machine {
    ghost use Rattle.object_machine.specs.declared.op.Op.{Op};
    ghost use Rattle.object_machine.specs.declared.reply.Reply.{Reply};

    /// The state, where it is told.
    ghost state: { Self → Option State };

    /// How the objects of its calls are cut and coded.
    ghost coding: { Self → Coding };

    /// The machine's own moves: what it may answer, and what it is then.
    ghost moves: { Self → Op → Reply → Self → Type 0 };

    /// Answers a call by a move.
    fn step(&mut self, op: Op) -> Reply
        requires { IsMadeFor (coding self.old) op }
        ensures { moves self.old op result self.new };

    /// Each move is a step of the store machine.
    ghost is_step: { (old new : Self) (op : Op) (reply : Reply) → moves old op reply new → Told (state old) (state new) (λ s t. Step s op reply t) };

    /// No move changes how objects are cut and coded.
    ghost keeps_coding: { (old new : Self) (op : Op) (reply : Reply) → moves old op reply new → coding new ≡ coding old };
}
