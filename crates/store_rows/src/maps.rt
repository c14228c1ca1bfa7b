//! The maps that a bay may have behind a variation.

use crate::objects::{Objects, apply, copied, told};
use crate::player::Answered;
use crate::served::served;
use bay_memory::MemoryBay;
use row_player::{Fault, Line, Segment, Twist};
use std::alloc::Global;
use std::collections::BTreeMap;

/// The maps one of which the bay may have behind the twist, as text. `plain` are the calls that were answered without it,
/// and `varied` those with it.
pub(crate) fn maps_behind(
    alloc: Global,
    start: &MemoryBay,
    segment: &Segment,
    twist: Twist,
    plain: &[Answered],
    varied: &[Answered],
) -> Result<Vec<String>, Fault> {
    let mut before = match served(alloc, start)? {
        Some(objects) => objects,
        None => BTreeMap::new(alloc),
    };
    let (answered, at) = match twist {
        Twist::Stops(call, _) => (plain, answered_by(plain, call)),
        Twist::StopsFirm(call) => (plain, answered_by(plain, call)),
        _ => (varied, first_failed(plain, varied)),
    };
    let count = if twist.is_stop() { at } else { usize::MAX };
    add_calls(alloc, &mut before, segment, answered, count)?;
    let mut after = copied(alloc, &before)?;
    add_call(alloc, &mut after, segment, plain, at)?;
    let mut maps = Vec::new(alloc);
    maps.push(told(alloc, &before)?)?;
    maps.push(told(alloc, &after)?)?;
    Ok(maps)
}

/// How many calls were answered by this moment.
fn answered_by(answered: &[Answered], moment: u64) -> usize {
    let mut count = 0usize;
    for call in answered {
        if call.mark <= moment {
            count = count.saturating_add(1);
        }
    }
    count
}

/// The first call that wasn't done, though it is where no call fails.
fn first_failed(plain: &[Answered], varied: &[Answered]) -> usize {
    let mut at = 0usize;
    for (was, is) in plain.iter().zip(varied) {
        if was.is_done && !is.is_done {
            return at;
        }
        at = at.saturating_add(1);
    }
    usize::MAX
}

/// The requests of a segment that have a reply.
fn requests_of<'a>(alloc: Global, segment: &'a Segment) -> Result<Vec<&'a Line>, Fault> {
    let mut requests = Vec::new(alloc);
    for line in &segment.lines {
        if line.does.is_request() {
            requests.push(line)?;
        }
    }
    Ok(requests)
}

/// Does so many of the calls to the map, each that was done.
fn add_calls(
    alloc: Global,
    objects: &mut Objects,
    segment: &Segment,
    answered: &[Answered],
    count: usize,
) -> Result<(), Fault> {
    let requests = requests_of(alloc, segment)?;
    for (line, call) in requests.iter().zip(answered).take(count) {
        if call.is_done {
            apply(alloc, objects, line)?;
        }
    }
    Ok(())
}

/// Does the call at this place to the map, where it was done.
fn add_call(
    alloc: Global,
    objects: &mut Objects,
    segment: &Segment,
    answered: &[Answered],
    at: usize,
) -> Result<(), Fault> {
    let requests = requests_of(alloc, segment)?;
    if let (Some(line), Some(call)) = (requests.get(at), answered.get(at)) {
        if call.is_done {
            apply(alloc, objects, line)?;
        }
    }
    Ok(())
}
