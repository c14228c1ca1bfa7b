//! The records on which carriers agree.
ghost use Rattle.std.specs.Prelude.{◌≡◌, ◌≤◌, ◌↔◌, length, take, IsTrue};
ghost use Rattle.array_model.specs.Reading.{aside, common};
ghost use Rattle.array_scan.specs.Agree.{StandAlike, SayAlike};
ghost use Rattle.array_scan.specs.SetRead.{AreMarkers, markers_of};

use crate::set_read::RecordAt;
use marker_format::{Kind, Marker};
use smore_base::Name;

/// The part that a marker tells, but for a head's rebuilt mark.
fn part_beside_mark(marker: &Marker) -> u32
    ensures { result ≡ (aside marker.now).part }
{
    if marker.kind == Kind::Head.number() {
        0
    } else {
        marker.part
    }
}

fn is_same_name(one: &Option<Name>, other: &Option<Name>) -> bool
    ensures { IsTrue result ↔ (one.now ≡ other.now) }
{
    match (one, other) {
        (None, None) => true,
        (Some(one), Some(other)) => one.as_slice() == other.as_slice(),
        _ => false,
    }
}

/// Whether the markers are of records at one place in sets of one code.
fn stand_alike(one: &Marker, other: &Marker) -> bool
    ensures { IsTrue result ↔ StandAlike one.now other.now }
{
    one.kind == other.kind
        && one.k == other.k
        && one.n == other.n
        && one.set == other.set
        && one.position == other.position
        && one.fragment == other.fragment
        && one.array == other.array
}

/// Whether they say the same, but for the index and a head's rebuilt mark.
fn say_alike(one: &Marker, other: &Marker) -> bool
    ensures { IsTrue result ↔ SayAlike one.now other.now }
{
    one.stamp == other.stamp
        && one.upload == other.upload
        && part_beside_mark(one) == part_beside_mark(other)
        && one.parts == other.parts
        && one.length == other.length
        && one.payload == other.payload
        && is_same_name(&one.name, &other.name)
}

/// Whether the markers are the same, but for the index and a head's rebuilt mark.
fn agree(one: &Marker, other: &Marker) -> bool
    ensures { IsTrue result ↔ (aside one.now ≡ aside other.now) }
{
    stand_alike(one, other) && say_alike(one, other)
}

/// How many of the first records are on both lists.
pub(crate) fn common_len(one: &[RecordAt], other: &[RecordAt]) -> usize
    ensures within { result ≤ length one.now }
    ensures common { AreMarkers one.now → AreMarkers other.now
        → markers_of (take result one.now) ≡ common (markers_of one.now) (markers_of other.now) }
{
    let most = one.len().min(other.len());
    for i in 0..most {
        if !agree(&one[i].marker, &other[i].marker) {
            return i;
        }
    }
    most
}
