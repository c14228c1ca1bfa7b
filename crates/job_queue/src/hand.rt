//! What a pass knows of the queue.

use std::collections::LinkedList;

/// What the queue carries: a link with its place, or `None`, a closing mark.
pub type Job<L> = Option<(u64, L)>;

/// What a pass knows. Clauses speak of it, and no value of it is made.
pub struct Hand<L> {
    /// Whether it is the queue's own, of which the passes are made.
    pub owner: bool,
    /// How many passes were made of it.
    pub made: u64,
    /// Whether the first pass that was made is in it.
    pub first: bool,
    /// What was put with it, in order.
    pub put: LinkedList<Option<(u64, L)>>,
    /// What was taken with it, in order, and then what each pass that was joined into it took.
    pub taken: LinkedList<LinkedList<Option<(u64, L)>>>,
}
