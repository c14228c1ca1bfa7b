ghost use Rattle.std.specs.Prelude.{◌≡◌, ◌+◌, ◌<◌, true};
ghost use Rattle.job_queue.specs.Hands.{passes_in, new_hand};
ghost use Rattle.job_queue.specs.Passes.{hand_of, IsJobPassOf};

use super::*;
use std::alloc::{AllocError, Global};
use std::sync::Wait;
use std::test::*;
use std::thread::{Threads, join};

// What takers saw: how many links, the sum of their places, and whether each came with its place and behind those before.
#[derive(Drop)]
struct Seen {
    links: u64,
    sum: u64,
    in_order: bool,
}

fn both(one: Seen, two: Seen) -> Seen {
    Seen {
        links: one.links.wrapping_add(two.links),
        sum: one.sum.wrapping_add(two.sum),
        in_order: one.in_order && two.in_order,
    }
}

#[tactic(auto, using(crate::proofs::Trials::link_put))]
fn put_all<R: Wait>(
    rt: &R,
    links: &Links<u64>,
    mut pass: JobPass<u64>,
    count: u64,
    takers: u32,
) -> JobPass<u64>
    requires { IsJobPassOf links.now pass × (hand_of pass ≡ new_hand true) }
    ensures { IsJobPassOf links.now result × (passes_in (hand_of result) ≡ 1) }
{
    for place in 0..count {
        links.put_link(rt, &mut pass, place, place.wrapping_mul(7));
    }
    links.close_jobs(rt, &mut pass, takers);
    pass
}

#[tactic(auto, using(crate::proofs::Trials::passes_stay))]
fn take_all<R: Wait>(rt: &R, links: &Links<u64>, mut pass: JobPass<u64>) -> (JobPass<u64>, Seen)
    requires { IsJobPassOf links.now pass }
    ensures { IsJobPassOf links.now result.0 × (passes_in (hand_of result.0) ≡ passes_in (hand_of pass)) }
{
    let mut count = 0u64;
    let mut sum = 0u64;
    let mut in_order = true;
    let mut next = 0u64;
    for _ in rt.forever() {
        let Some((place, link)) = links.take_link(rt, &mut pass) else {
            break;
        };
        in_order = in_order && next <= place && link == place.wrapping_mul(7);
        count = count.wrapping_add(1);
        sum = sum.wrapping_add(place);
        next = place.wrapping_add(1);
    }
    (
        pass,
        Seen {
            links: count,
            sum,
            in_order,
        },
    )
}

fn take_by_two<R: Threads + Wait + Sync>(
    rt: &R,
    links: &Links<u64>,
    one: JobPass<u64>,
    two: JobPass<u64>,
) -> (JobPass<u64>, Seen)
    requires { IsJobPassOf links.now one × IsJobPassOf links.now two }
    ensures { IsJobPassOf links.now result.0 × (passes_in (hand_of result.0) ≡ passes_in (hand_of one) + passes_in (hand_of two)) }
{
    let ((mut pass, first), (other, second)) = join(
        rt,
        move ||
            requires { IsJobPassOf links.now one }
            ensures { IsJobPassOf links.entry.now result.0 × (passes_in (hand_of result.0) ≡ passes_in (hand_of one)) }
        { take_all(rt, links, one) },
        move ||
            requires { IsJobPassOf links.now two }
            ensures { IsJobPassOf links.entry.now result.0 × (passes_in (hand_of result.0) ≡ passes_in (hand_of two)) }
        { take_all(rt, links, two) },
    );
    links.join_jobs(&mut pass, other);
    (pass, both(first, second))
}

fn take_by_three<R: Threads + Wait + Sync>(
    rt: &R,
    links: &Links<u64>,
    one: JobPass<u64>,
    two: JobPass<u64>,
    three: JobPass<u64>,
) -> (JobPass<u64>, Seen)
    requires { IsJobPassOf links.now one × IsJobPassOf links.now two × IsJobPassOf links.now three }
    ensures { IsJobPassOf links.now result.0 × (passes_in (hand_of result.0) ≡ passes_in (hand_of one) + (passes_in (hand_of two) + passes_in (hand_of three))) }
{
    let ((mut pass, first), (other, second)) = join(
        rt,
        move ||
            requires { IsJobPassOf links.now one }
            ensures { IsJobPassOf links.entry.now result.0 × (passes_in (hand_of result.0) ≡ passes_in (hand_of one)) }
        { take_all(rt, links, one) },
        move ||
            requires { IsJobPassOf links.now two × IsJobPassOf links.now three }
            ensures { IsJobPassOf links.entry.now result.0 × (passes_in (hand_of result.0) ≡ passes_in (hand_of two) + passes_in (hand_of three)) }
        { take_by_two(rt, links, two, three) },
    );
    links.join_jobs(&mut pass, other);
    (pass, both(first, second))
}

// Puts so many links for three takers, and answers what they saw and what is left.
fn hand_out<R: Threads + Wait + Sync>(
    rt: &R,
    alloc: Global,
    capacity: usize,
    count: u64,
) -> Result<(Seen, u64), AllocError>
    requires { 0 < capacity }
{
    let mut jobs = Jobs::new(alloc, capacity)?;
    let first = jobs.pass();
    let one = jobs.pass();
    let two = jobs.pass();
    let three = jobs.pass();
    let links = jobs.links();
    let (mut pass, (other, seen)) = join(
        rt,
        move ||
            requires { IsJobPassOf links.now first × (hand_of first ≡ new_hand true) }
            ensures { IsJobPassOf links.entry.now result × (passes_in (hand_of result) ≡ 1) }
        { put_all(rt, links, first, count, 3) },
        move ||
            requires { IsJobPassOf links.now one × IsJobPassOf links.now two × IsJobPassOf links.now three }
            ensures { IsJobPassOf links.entry.now result.0 × (passes_in (hand_of result.0) ≡ passes_in (hand_of one) + (passes_in (hand_of two) + passes_in (hand_of three))) }
        { take_by_three(rt, links, one, two, three) },
    );
    links.join_jobs(&mut pass, other);
    let left = jobs.end_jobs(pass);
    Ok((seen, left))
}

#[test]
fn three_takers_end_at_their_marks(rt: HostRuntime) -> Result<(), Fail> {
    let (seen, left) = hand_out(&rt, rt.alloc(), 8, 1000)?;
    assert!(rt; seen.in_order);
    assert_eq!(rt; (seen.links, seen.sum, left), (1000, 499500, 0));
    let (seen, left) = hand_out(&rt, rt.alloc(), 1, 100)?;
    assert!(rt; seen.in_order);
    assert_eq!(rt; (seen.links, seen.sum, left), (100, 4950, 0));
    Ok(())
}

#[test]
fn links_that_no_pass_took_are_left(rt: HostRuntime) -> Result<(), Fail> {
    let mut jobs = Jobs::new(rt.alloc(), 4)?;
    let mut pass = jobs.pass();
    let links = jobs.links();
    links.put_link(&rt, &mut pass, 1, 'a');
    links.put_link(&rt, &mut pass, 2, 'b');
    links.put_link(&rt, &mut pass, 3, 'c');
    assert_eq!(rt; links.take_link(&rt, &mut pass), Some((1, 'a')));
    assert_eq!(rt; jobs.end_jobs(pass), 2);
    Ok(())
}

#[test]
fn a_taker_puts_once_the_first_pass_is_in_it(rt: HostRuntime) -> Result<(), Fail> {
    let mut jobs = Jobs::new(rt.alloc(), 4)?;
    let mut first = jobs.pass();
    let mut taker = jobs.pass();
    let links = jobs.links();
    links.put_link(&rt, &mut first, 1, 'a');
    links.close_jobs(&rt, &mut first, 0);
    links.join_jobs(&mut taker, first);
    links.put_link(&rt, &mut taker, 2, 'b');
    links.close_jobs(&rt, &mut taker, 2);
    assert_eq!(rt; links.take_link(&rt, &mut taker), Some((1, 'a')));
    assert_eq!(rt; links.take_link(&rt, &mut taker), Some((2, 'b')));
    assert_eq!(rt; links.take_link(&rt, &mut taker), None);
    assert_eq!(rt; jobs.end_jobs(taker), 0);
    Ok(())
}
