//! What the queue keeps, and what each step tells of it.
ghost use Rattle.std.specs.Prelude.{◌≡◌, ◌==◌, ◌∷◌, [], true, false, Some, None};
ghost use Rattle.job_queue.specs.Hands.{owner_hand, spent_hand, new_hand, makes, puts, takes, joined};
ghost use Rattle.job_queue.specs.Rule.{Kept};
ghost use Rattle.job_queue.specs.Ends.{KnowsAll, KnowsOrder};

use crate::hand::{Hand, Job};
use crossbeam_queue::RuledArrayQueue;
use crossbeam_queue::protocol::{Join, Lesson, Outcome, Protocol, Split};

pub(crate) struct Handing;

impl<L> Protocol<Option<(u64, L)>, Hand<L>> for Handing {
    ghost holds = { Kept };

    ghost first = { owner_hand 0 };
}

/// A queue of jobs under its rule.
pub(crate) type Line<L> = RuledArrayQueue<Job<L>, Hand<L>, Handing>;

/// A pass is made of the queue's own.
pub(crate) struct Made;

impl<L> Split<Hand<L>> for Made {
    ghost left = { makes };

    ghost right = { λ v. new_hand (v.made == 0) };
}

/// A pass takes in another.
pub(crate) struct Joined;

impl<L> Join<Hand<L>> for Joined {
    ghost both = { joined };

    ghost spent = { spent_hand };
}

/// A job was put.
pub(crate) struct Put;

impl<L> Outcome<Option<(u64, L)>, Hand<L>> for Put {
    ghost then = { λ v x w. w ≡ puts v x };
}

impl<L> Lesson<Option<(u64, L)>, Hand<L>> for Put {
    ghost fact = { λ v items. Unit {0} };
}

/// A job was taken.
pub(crate) struct Taken;

impl<L> Outcome<Option<(u64, L)>, Hand<L>> for Taken {
    ghost then = { λ v x w. w ≡ takes v x };
}

impl<L> Lesson<Option<(u64, L)>, Hand<L>> for Taken {
    ghost fact = { λ v items. Unit {0} };
}

/// What a pass learns in which all others are.
pub(crate) struct All;

impl<L> Lesson<Option<(u64, L)>, Hand<L>> for All {
    ghost fact = { KnowsAll };
}

/// What a pass learns in which the first one is.
pub(crate) struct InOrder;

impl<L> Lesson<Option<(u64, L)>, Hand<L>> for InOrder {
    ghost fact = { λ v items. KnowsOrder v };
}
