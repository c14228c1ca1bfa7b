//! What a command line asks for, but for its folder. It is read without memory.
ghost use Rattle.std.specs.Prelude.{◌≡◌, ◌↔◌, ℕ, List, IsTrue, MatchOption};
ghost use Rattle.marker_format.specs.Zone.{Array};
ghost use Rattle.smore_base.specs.declared.geometry.Geometry.{Geometry};
ghost use Rattle.smore_top.specs.Words.{IsMadeGeometry, IsFormat, ReadsId, HasGeometry, BeginsFormat};
ghost use Rattle.smore_top.specs.Task.{array_of, Ask, AskNothing};

use crate::numeral::{byte_at, number_at, short_at};
use crate::words::{Words, is_batch, is_option};
use smore_base::Geometry;

/// The words of `format F ID D K P Z B S`.
const FORMAT_WORDS: usize = 9;

/// An array that is to be made.
#[derive(Clone, Copy)]
pub(crate) struct NewArray {
    pub(crate) geometry: Geometry,
    pub(crate) id: [u8; 16],
}

/// What is to be done.
#[derive(Clone, Copy)]
pub(crate) enum Task {
    Format(NewArray),
    Batch,
}

/// The number that 32 hexadecimal digits in lower case spell.
fn read_id(word: &str) -> Option<[u8; 16]>
    ensures { ReadsId word.now result }
{
    let mut id = [0; 16];
    if hex::decode_to_slice(word, &mut id).is_err() {
        return None;
    }
    let mut digits = [0; 32];
    if hex::encode_to_slice(id.as_slice(), &mut digits).is_err() {
        return None;
    }
    if digits.as_slice() != word.as_bytes() {
        return None;
    }
    Some(id)
}

/// The number of the array, where the words begin as those of `format` do, and are as many.
fn read_beginning(words: &Words) -> Option<[u8; 16]>
    ensures { MatchOption result ((id : List ℕ) → BeginsFormat words.now id → ⊥) (λ id. BeginsFormat words.now id) }
{
    let (Some(command), Some(folder), Some(id)) = (words.get(0), words.get(1), words.get(2)) else {
        return None;
    };
    if words.len() != FORMAT_WORDS || command != "format" || is_option(folder) {
        return None;
    }
    read_id(id)
}

/// Whether an array of this geometry can be made: it is within the limits, with k 1 and p 1.
fn is_made(geometry: &Geometry) -> bool
    ensures { IsTrue result ↔ IsMadeGeometry geometry.now }
{
    geometry.check().is_ok() && geometry.k == 1 && geometry.p == 1
}

fn read_geometry(words: &Words) -> Option<Geometry>
    ensures { MatchOption result ((geometry : Geometry) → HasGeometry words.now geometry → ⊥) (λ geometry. HasGeometry words.now geometry) }
{
    let geometry = Geometry {
        drives: byte_at(words, 3)?,
        k: byte_at(words, 4)?,
        p: byte_at(words, 5)?,
        zones: short_at(words, 6)?,
        blocks: number_at(words, 7)?,
        shard: number_at(words, 8)?,
    };
    if !is_made(&geometry) {
        return None;
    }
    Some(geometry)
}

fn read_format(words: &Words) -> Option<NewArray>
    ensures { MatchOption result ((array : Array) → IsFormat array words.now → ⊥) (λ new. IsFormat (array_of new) words.now) }
{
    let Some(id) = read_beginning(words) else {
        return None;
    };
    let Some(geometry) = read_geometry(words) else {
        return None;
    };
    Some(NewArray { geometry, id })
}

/// What the words ask for.
pub(crate) fn read_task(words: &Words) -> Option<Task>
    ensures { MatchOption result (AskNothing words.now) (λ task. Ask words.now task) }
{
    if is_batch(words) {
        return Some(Task::Batch);
    }
    match read_format(words) {
        Some(new) => Some(Task::Format(new)),
        None => None,
    }
}
