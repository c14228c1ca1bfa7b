//! What threads share of the queue.
ghost use Rattle.std.specs.Prelude.{◌≡◌, ◌<◌, true, Some, length};
ghost use Rattle.crossbeam_queue.specs.Passes.{view, IsPassOf};
ghost use Rattle.job_queue.specs.Hands.{puts, closes, takes, joined};
ghost use Rattle.job_queue.specs.Lists.{marks_of, MayPut};
ghost use Rattle.job_queue.specs.Ends.{KnowsOrder};

use crate::hand::{Hand, Job};
use crate::pass::JobPass;
use crate::rule::{InOrder, Joined, Line, Put, Taken};
use crossbeam_queue::Pass;
use std::sync::Wait;
use std::thread;

/// The links and closing marks of a queue, which threads share by reference.
#[derive(Drop)]
pub struct Links<L> {
    pub(crate) queue: Line<L>,
}

impl<L> Links<L> {
    ghost use Rattle.job_queue.specs.Passes.{hand_of, IsJobPassOf};

    /// Puts a link with its place behind all that was put, once there is room.
    pub fn put_link<R: Wait>(&self, rt: &R, pass: &mut JobPass<L>, place: u64, link: L)
        requires queue { IsJobPassOf self.now pass.old }
        requires first { (hand_of pass.old).first ≡ true }
        requires open { marks_of (hand_of pass.old).put ≡ 0 }
        ensures queue { IsJobPassOf self.now pass.new }
        ensures put { hand_of pass.new ≡ puts (hand_of pass.old) (Some (place, link)) }
    {
        self.put(rt, &mut pass.pass, Some((place, link)));
        pass.ahead = pass.ahead.wrapping_add(1);
    }

    /// Takes what was put first of all that is left, once there is something. `None` is a closing mark.
    pub fn take_link<R: Wait>(&self, rt: &R, pass: &mut JobPass<L>) -> Option<(u64, L)>
        requires { IsJobPassOf self.now pass.old }
        ensures queue { IsJobPassOf self.now pass.new }
        ensures taken { hand_of pass.new ≡ takes (hand_of pass.old) result }
    {
        let job = self.take(rt, &mut pass.pass);
        if job.is_some() {
            pass.ahead = pass.ahead.wrapping_sub(1);
        }
        job
    }

    /// Puts a closing mark for each taker behind all links.
    pub fn close_jobs<R: Wait>(&self, rt: &R, pass: &mut JobPass<L>, takers: u32)
        requires queue { IsJobPassOf self.now pass.old }
        requires first { (hand_of pass.old).first ≡ true }
        requires open { marks_of (hand_of pass.old).put ≡ 0 }
        ensures queue { IsJobPassOf self.now pass.new }
        ensures marks { hand_of pass.new ≡ closes (hand_of pass.old) takers }
    {
        for _ in 0..takers {
            self.put(rt, &mut pass.pass, None);
        }
    }

    /// Gives `pass` what `other` put and took.
    pub fn join_jobs(&self, pass: &mut JobPass<L>, other: JobPass<L>)
        requires pass { IsJobPassOf self.now pass.old }
        requires other { IsJobPassOf self.now other }
        ensures queue { IsJobPassOf self.now pass.new }
        ensures both { hand_of pass.new ≡ joined (hand_of pass.old) (hand_of other) }
        ensures order { KnowsOrder (hand_of pass.new) }
    {
        pass.ahead = pass.ahead.wrapping_add(other.ahead);
        self.queue.absorb::<Joined>(&mut pass.pass, other.pass);
        self.queue.learn_as::<InOrder>(&mut pass.pass);
    }

    // Puts a job once there is room.
    fn put<R: Wait>(&self, rt: &R, pass: &mut Pass<Job<L>, Hand<L>>, job: Job<L>)
        requires queue { IsPassOf self.now.queue pass.old }
        requires first { (view pass.old).first ≡ true }
        requires behind { MayPut (view pass.old).put job }
        ensures queue { IsPassOf self.now.queue pass.new }
        ensures put { view pass.new ≡ puts (view pass.old) job }
    {
        let mut job = job;
        for _ in rt.forever() {
            match self.queue.push_as::<Put, R>(rt, pass, job) {
                Ok(()) => return,
                Err(back) => job = back,
            }
            thread::yield_now();
        }
        unreachable!()
    }

    // Takes a job once there is one.
    fn take<R: Wait>(&self, rt: &R, pass: &mut Pass<Job<L>, Hand<L>>) -> Job<L>
        requires queue { IsPassOf self.now.queue pass.old }
        requires takes { 0 < length (view pass.old).taken }
        ensures queue { IsPassOf self.now.queue pass.new }
        ensures taken { view pass.new ≡ takes (view pass.old) result }
    {
        for _ in rt.forever() {
            if let Some(job) = self.queue.pop_as::<Taken, R>(rt, pass) {
                return job;
            }
            thread::yield_now();
        }
        unreachable!()
    }
}
