//! What `format` does.
ghost use Rattle.std.specs.Prelude.{◌≡◌, ◌↔◌, List, ℕ, Option, length, IsTrue};
ghost use Rattle.zone_bay.specs.Contents.{IsOfBay};
ghost use Rattle.smore_top.specs.End.{SinkCount};
ghost use Rattle.smore_top.specs.Words.{IsId, IsMadeGeometry};
ghost use Rattle.smore_top.specs.Task.{array_of};
ghost use Rattle.smore_top.specs.Headline.{sides, FormatsBy};

use crate::Sink;
use crate::end::End;
use crate::sink::put_all;
use crate::task::NewArray;
use smore_base::Geometry;
use store_core::Core;
use zone_bay::{Bay, Failed};

/// What is put once an array is made.
const FORMATTED: &[u8] = b"formatted\n";

/// Whether the bay has the devices, zones and blocks of this geometry.
pub(crate) fn is_of_bay<B: Bay>(geometry: &Geometry, bay: &B) -> bool
    ensures { IsTrue result ↔ IsOfBay geometry.now (B.state bay.now).shape }
{
    u16::from(geometry.drives) + 1 == u16::from(bay.devices())
        && geometry.zones == bay.zones()
        && geometry.blocks == bay.blocks()
}

/// Makes the array of the bay, and puts the text that says so.
pub(crate) fn make_array<K: Sink, B: Bay>(new: &NewArray, sink: &mut K, bay: &mut B) -> End
    requires id { IsId new.now.id }
    requires geometry { IsMadeGeometry new.now.geometry }
    requires shaped { IsOfBay new.now.geometry (B.state bay.old).shape }
    ensures formats { (left : Option (List ℕ)) → FormatsBy B.state (array_of new.now) result
        (sides left (K.held sink.old) bay.old)
        (sides left (K.held sink.new) bay.new) }
    ensures sink { SinkCount result (K.faults sink.old) (K.faults sink.new) }
{
    let id = new.id;
    match Core::format(bay, &new.geometry, id) {
        Ok(()) => match put_all(sink, FORMATTED) {
            Ok(()) => End::Done,
            Err(Failed) => End::SinkFailed,
        },
        Err(_) => End::NotFormatted,
    }
}
