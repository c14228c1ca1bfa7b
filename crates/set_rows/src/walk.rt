//! A row: each segment is played as it stands, and again for each variation of it, with what stands below.

use crate::player::Player;
use crate::set_log::{Allowed, copied_all};
use bay_memory::{Keep, MemoryBay};
use row_player::{
    ALL, Difference, Fault, Line, Row, Segment, Stage, Twist, bytes_of_bay, choices, differ,
    formatted, image_of, note, twists_of,
};
use smore_base::Geometry;
use std::alloc::Global;
use std::mem;
use zone_bay::Bay;

/// A row is given up behind so many differences.
const MANY: usize = 10;

/// What a segment is played with.
#[derive(Drop)]
struct Given {
    geometry: Geometry,
    /// The sets that the bay may have.
    allowed: Vec<Allowed>,
    /// The drives that are chosen.
    chosen: Vec<u8>,
}

/// The row's lines that differ.
pub(crate) fn differences_of(alloc: Global, row: &Row) -> Result<Vec<Difference>, Fault> {
    let start = formatted(alloc, &row.geometry)?;
    let given = Given {
        geometry: row.geometry,
        allowed: Vec::new(alloc),
        chosen: Vec::new(alloc),
    };
    let mut found = Vec::new(alloc);
    play_all(alloc, &start, &row.segments, given, &mut found)?;
    Ok(found)
}

/// Plays the segments from this bay on, with each choice of drives.
fn play_all(
    alloc: Global,
    start: &MemoryBay,
    segments: &[Segment],
    mut given: Given,
    found: &mut Vec<Difference>,
) -> Result<(), Fault> {
    let Some((segment, rest)) = segments.split_first() else {
        return Ok(());
    };
    for chosen in choices(alloc, given.geometry.drives, segment.chosen())? {
        if found.len() >= MANY {
            break;
        }
        given.chosen = chosen;
        let first = found.len();
        let plain = played(alloc, start, segment, &given, Twist::Plain, found)?;
        for twist in twists(alloc, start, segment, &given, &plain)? {
            if found.len() >= MANY {
                break;
            }
            let first = found.len();
            let mut varied = played(alloc, start, segment, &given, twist, found)?;
            let next_given = Given {
                geometry: given.geometry,
                allowed: next_allowed(alloc, &varied)?,
                chosen: Vec::new(alloc),
            };
            if let Some(next) = next_bay(alloc, segment, &mut varied, found)? {
                play_all(alloc, &next, rest, next_given, found)?;
            }
            note(alloc, twist, first, found)?;
        }
        note_choice(alloc, &given.chosen, first, found)?;
    }
    Ok(())
}

/// The sets that the bay may have behind the twist.
fn next_allowed(alloc: Global, varied: &Player<'_>) -> Result<Vec<Allowed>, Fault> {
    let mut allowed = copied_all(alloc, varied.allowed)?;
    let log = &varied.log;
    let more = match varied.stage.twist {
        Twist::Stops(call, _) => log.allowed(log.steps_by(call), false)?,
        Twist::StopsFirm(call) => log.allowed(log.steps_by(call), true)?,
        _ => log.now()?,
    };
    for set in more {
        allowed.push(set)?;
    }
    Ok(allowed)
}

/// Says of these differences which drives were chosen, if any were.
fn note_choice(
    alloc: Global,
    chosen: &[u8],
    first: usize,
    found: &mut Vec<Difference>,
) -> Result<(), Fault> {
    if chosen.is_empty() {
        return Ok(());
    }
    let mut text = String::from_str(alloc, "drives")?;
    for drive in chosen {
        write!(text, " {drive}")?;
    }
    note(alloc, text.as_str(), first, found)
}

/// Plays a segment once over a copy of the bay, and adds what differs.
fn played<'a>(
    alloc: Global,
    start: &MemoryBay,
    segment: &Segment,
    given: &'a Given,
    twist: Twist,
    found: &mut Vec<Difference>,
) -> Result<Player<'a>, Fault> {
    let stage = Stage::new(alloc, given.geometry, twist, &given.chosen, start)?;
    let mut player = Player::new(stage, &given.allowed);
    player.play(segment)?;
    for difference in mem::replace(&mut player.stage.differences, Vec::new(alloc)) {
        found.push(difference)?;
    }
    Ok(player)
}

/// The bay as the twist leaves it; `None` where what was firm was asked for at a call that no set made.
fn next_bay(
    alloc: Global,
    segment: &Segment,
    varied: &mut Player<'_>,
    found: &mut Vec<Difference>,
) -> Result<Option<MemoryBay>, Fault> {
    let is_firm = matches!(varied.stage.twist, Twist::StopsFirm(_));
    let image = if is_firm {
        varied.firm.take()
    } else {
        varied.stage.bay.taken()
    };
    if let Some(image) = image {
        return Ok(Some(MemoryBay::from_image(alloc, image)));
    }
    if is_firm {
        return Ok(None);
    }
    if let Some(line) = &segment.variation {
        if varied.stage.twist.is_stop() {
            differ(alloc, found, line, "a call to stop in", "no such call")?;
        }
    }
    Ok(Some(image_of(alloc, &varied.stage.bay, Keep::All, &[])?))
}

/// The ways in which a variation plays the segment again.
fn twists(
    alloc: Global,
    start: &MemoryBay,
    segment: &Segment,
    given: &Given,
    plain: &Player<'_>,
) -> Result<Vec<Twist>, Fault> {
    let Some(variation) = &segment.variation else {
        return Ok(Vec::new(alloc));
    };
    let mut appends = Vec::new(alloc);
    for call in 0..plain.stage.bay.moment() {
        appends.push(appended(alloc, start, segment, given, variation, call)?)?;
    }
    twists_of(alloc, variation, &appends, &plain.log.marks, 0)
}

/// How many bytes the call appends, where the variation asks for it.
fn appended(
    alloc: Global,
    start: &MemoryBay,
    segment: &Segment,
    given: &Given,
    variation: &Line,
    call: u64,
) -> Result<u64, Fault> {
    if !variation.does.stops() {
        return Ok(0);
    }
    let none = bytes_at(alloc, start, segment, given, Twist::Stops(call, 0))?;
    let all = bytes_at(alloc, start, segment, given, Twist::Stops(call, ALL))?;
    Ok(all.saturating_sub(none))
}

/// The bytes that the bay holds when it stops in this call.
fn bytes_at(
    alloc: Global,
    start: &MemoryBay,
    segment: &Segment,
    given: &Given,
    twist: Twist,
) -> Result<u64, Fault> {
    let mut unheard = Vec::new(alloc);
    let mut varied = played(alloc, start, segment, given, twist, &mut unheard)?;
    match varied.stage.bay.taken() {
        Some(image) => Ok(bytes_of_bay(&MemoryBay::from_image(alloc, image))),
        None => Ok(0),
    }
}
