//! The map that calls leave.

use row_player::{Does, Line, word_of};
use std::alloc::{AllocError, Global};
use std::collections::BTreeMap;

/// Names with their objects.
pub(crate) type Objects = BTreeMap<Vec<u8>, Vec<u8>>;

/// Puts a copy of an object.
fn put(alloc: Global, objects: &mut Objects, name: &[u8], object: &[u8]) -> Result<(), AllocError> {
    let name = Vec::from_slice(alloc, name)?;
    let object = Vec::from_slice(alloc, object)?;
    objects.insert(name, object)?;
    Ok(())
}

/// What a call that is done does to the map.
pub(crate) fn apply(alloc: Global, objects: &mut Objects, line: &Line) -> Result<(), AllocError> {
    match line.does {
        Does::Put => put(alloc, objects, line.bytes(0), line.bytes(1)),
        Does::Delete => {
            let name = Vec::from_slice(alloc, line.bytes(0))?;
            objects.remove(&name);
            Ok(())
        }
        _ => Ok(()),
    }
}

/// A copy of the map.
pub(crate) fn copied(alloc: Global, objects: &Objects) -> Result<Objects, AllocError> {
    let mut copy = BTreeMap::new(alloc);
    for (name, object) in objects.iter() {
        put(alloc, &mut copy, name, object)?;
    }
    Ok(copy)
}

/// The map that a line says: a name and an object by turns.
pub(crate) fn objects_of(alloc: Global, line: &Line) -> Result<Objects, AllocError> {
    let mut objects = BTreeMap::new(alloc);
    let mut rest = line.bytes.as_slice();
    for _ in 0..line.bytes.len() {
        let Some((name, behind)) = rest.split_first() else {
            break;
        };
        let Some((object, behind)) = behind.split_first() else {
            break;
        };
        put(alloc, &mut objects, name, object)?;
        rest = behind;
    }
    Ok(objects)
}

/// The map in words.
pub(crate) fn told(alloc: Global, objects: &Objects) -> Result<String, AllocError> {
    if objects.is_empty() {
        return String::from_str(alloc, "empty");
    }
    let mut text = String::new(alloc);
    for (name, object) in objects.iter() {
        if !text.is_empty() {
            text.push(' ')?;
        }
        text.push_str(&word_of(alloc, name)?)?;
        text.push(' ')?;
        text.push_str(&word_of(alloc, object)?)?;
    }
    Ok(text)
}
