//! The rounds of each question. Each gives a sum of what was answered, so that none of them is for nothing.

use crate::sets::{SETS, form, release};
use set_table::SetTable;
use smore_base::Memory;

/// What is asked in each round.
#[derive(Clone, Copy)]
pub(crate) enum Asked {
    Carrier,
    Missing,
    LowestEmpty,
    RoomSets,
    WithEmpty,
    FormSet,
    FormAgain,
}

/// What is asked by this name.
pub(crate) fn asked_of(name: &str) -> Option<Asked> {
    match name {
        "carrier" => Some(Asked::Carrier),
        "missing" => Some(Asked::Missing),
        "lowest_empty" => Some(Asked::LowestEmpty),
        "room_sets" => Some(Asked::RoomSets),
        "with_empty" => Some(Asked::WithEmpty),
        "form_set" => Some(Asked::FormSet),
        "form_again" => Some(Asked::FormAgain),
        _ => None,
    }
}

/// A set of the table, another one in each round, far from the last.
fn set_of(round: u32) -> u64 {
    u64::from(round) * 797 % SETS + 1
}

/// Releases the zones of the first set, or of the one formed on them last, and forms the next set on them.
fn form_again(table: &mut SetTable, round: u32) -> Result<u64, Memory> {
    let last = if round == 0 {
        1
    } else {
        SETS + u64::from(round)
    };
    release(table, last);
    form(table, SETS + 1 + u64::from(round))
}

/// Asks once, in each round of another set, index or drive.
fn ask(table: &mut SetTable, asked: Asked, round: u32) -> Result<u64, Memory> {
    Ok(match asked {
        Asked::Carrier => match table.carrier(set_of(round), (round % 14) as u8) {
            Some((device, zone)) => u64::from(device) + u64::from(zone),
            None => 0,
        },
        Asked::Missing => u64::from(table.missing(set_of(round))),
        Asked::LowestEmpty => match table.lowest_empty((round % 24) as u8) {
            Some(zone) => u64::from(zone),
            None => 0,
        },
        Asked::RoomSets => u64::from(table.room_sets()),
        Asked::WithEmpty => u64::from(table.with_empty()),
        Asked::FormSet => form(table, SETS + 1 + u64::from(round))?,
        Asked::FormAgain => form_again(table, round)?,
    })
}

/// Asks that many times.
pub(crate) fn sum_of(table: &mut SetTable, asked: Asked, rounds: u32) -> Result<u64, Memory> {
    let mut sum = 0u64;
    for round in 0..rounds {
        sum = sum.wrapping_add(ask(table, asked, round)?);
    }
    Ok(sum)
}
