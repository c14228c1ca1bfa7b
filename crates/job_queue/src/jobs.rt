//! The queue of links.
ghost use Rattle.std.specs.Prelude.{◌≡◌, ◌==◌, ◌+◌, ◌<◌, IfOk};
ghost use Rattle.crossbeam_queue.specs.Passes.{view, IsPassOf};
ghost use Rattle.job_queue.specs.Hands.{IsOwner, new_hand, passes_in};
ghost use Rattle.job_queue.specs.Ends.{Ending};

use crate::hand::{Hand, Job};
use crate::links::Links;
use crate::pass::JobPass;
use crate::rule::{All, Joined, Line, Made};
use crossbeam_queue::Pass;
use std::alloc::{AllocError, Global};

/// A bounded queue of links, with the pass of which all others are made. Threads share its `links`.
#[derive(Drop)]
pub struct Jobs<L> {
    links: Links<L>,
    owner: Pass<Job<L>, Hand<L>>,
    ghost its_own: { IsPassOf links.queue owner },
    ghost owns: { IsOwner (view owner) },
}

impl<L> Jobs<L> {
    ghost use Rattle.job_queue.specs.Queues.{capacity_of, made_by, shared_of};
    ghost use Rattle.job_queue.specs.Passes.{hand_of, IsJobPassOf};

    /// A queue with room for `capacity` links and closing marks, of which no pass was made.
    pub fn new(alloc: Global, capacity: usize) -> Result<Jobs<L>, AllocError>
        requires { 0 < capacity }
        ensures { IfOk result (λ jobs. (capacity_of jobs ≡ capacity) × (made_by jobs ≡ 0)) }
    {
        let (queue, owner) = Line::ruled(alloc, capacity)?;
        Ok(Jobs {
            links: Links { queue },
            owner,
        })
    }

    /// Makes a pass. The first one puts, and each of them takes.
    pub fn pass(&mut self) -> JobPass<L>
        ensures queue { shared_of self.new ≡ shared_of self.old }
        ensures made { made_by self.new ≡ made_by self.old + 1 }
        ensures pass { IsJobPassOf (shared_of self.new) result }
        ensures hand { hand_of result ≡ new_hand (made_by self.old == 0) }
    {
        let pass = self.links.queue.another::<Made>(&mut self.owner);
        JobPass { pass, ahead: 0 }
    }

    /// What threads share, to put and take links.
    pub fn links(&self) -> &Links<L>
        ensures { result.now ≡ shared_of self.now }
    {
        &self.links
    }
}

impl<L: Drop> Jobs<L> {
    ghost use Rattle.job_queue.specs.Queues.{made_by, shared_of};
    ghost use Rattle.job_queue.specs.Passes.{hand_of, IsJobPassOf};

    /// Ends the queue, and answers how many links are left in it. They are dropped.
    pub fn end_jobs(self, pass: JobPass<L>) -> u64
        requires queue { IsJobPassOf (shared_of self) pass }
        requires all { passes_in (hand_of pass) ≡ made_by self }
        ensures { Ending (hand_of pass) result }
    {
        let Jobs { links, owner } = self;
        let JobPass { mut pass, ahead } = pass;
        links.queue.absorb::<Joined>(&mut pass, owner);
        links.queue.learn_as::<All>(&mut pass);
        ahead
    }
}
