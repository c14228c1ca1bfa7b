//! A pass, with which one thread puts or takes links.
ghost use Rattle.std.specs.Prelude.{◌≡◌, ◌+◌, ◌%◌, ◌^◌, ◌<◌, false, length};
ghost use Rattle.crossbeam_queue.specs.Passes.{view};
ghost use Rattle.job_queue.specs.Hands.{links_put, links_taken};

use crate::hand::{Hand, Job};
use crossbeam_queue::Pass;

/// What one thread puts or takes links with. It may go to another thread.
#[derive(Drop)]
pub struct JobPass<L> {
    pub(crate) pass: Pass<Job<L>, Hand<L>>,
    /// The links that were put less those that were taken, modulo 2^64.
    pub(crate) ahead: u64,
    ghost counted: { (ahead + links_taken (view pass)) % 2 ^ 64 ≡ links_put (view pass) % 2 ^ 64 },
    ghost takes: { 0 < length (view pass).taken },
    ghost apart: { (view pass).owner ≡ false },
    ghost none_made: { (view pass).made ≡ 0 },
}
