//! The map that a bay serves: each name that is listed, with the object that is got.

use crate::frame::{frame, length_of, opened, split_first};
use crate::objects::Objects;
use crate::reply::{NAMES, OBJECT, first_name};
use crate::run::{Streams, run};
use bay_memory::{Keep, MemoryBay};
use row_player::{Fault, image_of};
use std::alloc::Global;
use std::collections::BTreeMap;

/// Names asked for at once: more than any row has.
const LIMIT: u16 = 1000;

/// What the store answers to this input over a copy of the bay.
fn answers(alloc: Global, bay: &MemoryBay, input: &[u8]) -> Result<Vec<u8>, Fault> {
    let copy = image_of(alloc, bay, Keep::All, &[])?;
    let mut words = Vec::new(alloc);
    words.push(String::from_str(alloc, "batch")?)?;
    words.push(String::from_str(alloc, "f")?)?;
    let (ran, _) = run(alloc, &words, input, &Streams::new(alloc), 0, copy)?;
    Ok(ran.output)
}

/// The frames of a get of each name that the fields of a listing give.
fn gets(alloc: Global, names: &[u8]) -> Result<Vec<u8>, Fault> {
    let mut input = Vec::new(alloc);
    let mut rest = names;
    for _ in 0..names.len() {
        let Some((name, behind)) = first_name(rest) else {
            break;
        };
        input.extend_from_slice(&frame(alloc, 2, &[&length_of(name), name])?)?;
        rest = behind;
    }
    Ok(input)
}

/// The names with the objects that the replies give; a name of which the reply gives none isn't there.
fn objects_of(alloc: Global, names: &[u8], replies: &[u8]) -> Result<Objects, Fault> {
    let mut objects = BTreeMap::new(alloc);
    let mut rest = names;
    let mut behind = replies;
    for _ in 0..names.len() {
        let Some((name, more)) = first_name(rest) else {
            break;
        };
        let (reply, later) = split_first(behind);
        if let Some((OBJECT, object)) = opened(reply) {
            let name = Vec::from_slice(alloc, name)?;
            objects.insert(name, Vec::from_slice(alloc, object)?)?;
        }
        rest = more;
        behind = later;
    }
    Ok(objects)
}

/// The map that the bay serves, which stays as it is; `None` where no listing is answered.
pub(crate) fn served(alloc: Global, bay: &MemoryBay) -> Result<Option<Objects>, Fault> {
    let ask = frame(alloc, NAMES, &[&[0, 0], &LIMIT.to_be_bytes()])?;
    let listing = answers(alloc, bay, &ask)?;
    let Some((NAMES, fields)) = opened(&listing) else {
        return Ok(None);
    };
    let Some((_, names)) = fields.split_first_chunk::<3>() else {
        return Ok(None);
    };
    let asks = gets(alloc, names)?;
    let replies = answers(alloc, bay, &asks)?;
    Ok(Some(objects_of(alloc, names, &replies)?))
}
