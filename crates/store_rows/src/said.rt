//! The map that an array says, by the plain scan of its bytes.

ghost use Rattle.array_scan.specs.Scan.{IsInBay};

use crate::objects::Objects;
use array_scan::{Object, Scan, ScanRefusal, scan};
use bay_memory::{Keep, MemoryBay};
use row_player::{Fault, image_of};
use std::alloc::Global;
use std::collections::BTreeMap;
use zone_bay::Bay;

/// No device of a copy fails.
fn refused(_: ScanRefusal) -> Fault {
    Fault::Memory
}

/// The names with their objects. A broken object isn't there.
fn objects_of<B: Bay>(alloc: Global, scan: &Scan, bay: &mut B) -> Result<Objects, Fault>
    requires { IsInBay (B.state bay.old).shape scan.now }
{
    let mut objects = BTreeMap::new(alloc);
    let names = scan.map(alloc)?;
    for (name, _) in names.iter() {
        match scan.object(alloc, bay, name) {
            Ok(Some(Object::Whole { bytes })) => {
                objects.insert(Vec::from_slice(alloc, name)?, bytes)?;
            }
            Ok(_) => {}
            Err(refusal) => return Err(refused(refusal)),
        }
    }
    Ok(objects)
}

fn map_of<B: Bay>(alloc: Global, bay: &mut B) -> Result<Objects, Fault> {
    match scan(alloc, bay, &[]) {
        Ok(scan) => objects_of(alloc, &scan, bay),
        Err(refusal) => Err(refused(refusal)),
    }
}

/// The map of the array.
pub(crate) fn said(alloc: Global, bay: &MemoryBay) -> Result<Objects, Fault> {
    let mut copy = image_of(alloc, bay, Keep::All, &[])?;
    map_of(alloc, &mut copy)
}
