//! The whole heads of zones, and the carriers that they make.
ghost use Rattle.std.specs.Prelude.{◌≡◌, ◌<◌, ◌++◌, map, IfSome, IfOk};
ghost use Rattle.std.specs.List.{AllByRecursion};
ghost use Rattle.zone_bay.specs.Contents.{Shape};
ghost use Rattle.array_model.specs.Drives.{places_on};
ghost use Rattle.array_scan.specs.Calls.{OnlyRead, lost_by};
ghost use Rattle.array_scan.specs.SetRead.{array_by, carrier_of, IsPlaceIn, IsCarrierIn, RiseBelow};
ghost use Rattle.array_scan.specs.Heads.{IsHeadIn, heads_at, place_found, ids_of, carriers_in, places_of};

use crate::refusal::ScanRefusal;
use crate::set_read::{Carrier, ZonePlace};
use crate::zone::read_head;
use marker_format::Label;
use smore_base::Memory;
use std::alloc::Global;
use std::collections::BTreeSet;
use zone_bay::Bay;

/// The first set zone of a drive: the one before holds nothing, and zone 0 the label.
const FIRST_SET_ZONE: u16 = 2;

/// Where a whole head stands, and of which set and index.
#[derive(Clone, Copy, Debug)]
pub(crate) struct HeadAt {
    pub(crate) place: ZonePlace,
    pub(crate) set: u64,
    pub(crate) index: u8,
}

/// Adds the whole heads of a drive.
fn read_drive_heads<B: Bay>(
    bay: &mut B,
    label: &Label,
    device: u8,
    heads: &mut Vec<HeadAt>,
) -> Result<(), ScanRefusal>
    requires device { device < (B.state bay.old).shape.devices }
    requires within { AllByRecursion (IsHeadIn (B.state bay.old).shape) heads.old.items }
    ensures within { AllByRecursion (IsHeadIn (B.state bay.old).shape) heads.new.items }
    ensures heads { IfSome (B.state bay.old).contents (λ held. IfOk result (λ _.
        heads.new.items ≡ heads.old.items
        ++ heads_at (array_by label.now) held (places_of (B.state bay.old).shape device))) }
    ensures reads { OnlyRead (B.state bay.old) (B.state bay.new) (lost_by result) }
{
    for zone in FIRST_SET_ZONE..bay.zones() {
        let place = ZonePlace { device, zone };
        if let Some(head) = read_head(bay, label, place)? {
            heads.push(HeadAt {
                place,
                set: head.set,
                index: head.index,
            })?;
        }
    }
    Ok(())
}

/// The whole heads of the drives, by drive and zone.
pub(crate) fn read_heads<B: Bay>(
    alloc: Global,
    bay: &mut B,
    label: &Label,
    drives: &[u8],
) -> Result<Vec<HeadAt>, ScanRefusal>
    requires { AllByRecursion (λ d. d < (B.state bay.old).shape.devices) drives.now }
    ensures within { IfOk result (λ heads.
        AllByRecursion (IsHeadIn (B.state bay.old).shape) heads.items) }
    ensures heads { IfSome (B.state bay.old).contents (λ held. IfOk result (λ heads. heads.items
        ≡ heads_at (array_by label.now) held (places_on (B.state bay.old).shape drives.now))) }
    ensures reads { OnlyRead (B.state bay.old) (B.state bay.new) (lost_by result) }
{
    let mut heads = Vec::new(alloc);
    for drive in drives {
        read_drive_heads(bay, label, *drive, &mut heads)?;
    }
    Ok(heads)
}

/// The numbers of the sets of which there are heads.
pub(crate) fn set_ids(alloc: Global, heads: &[HeadAt]) -> Result<BTreeSet<u64>, Memory>
    ensures { IfOk result (λ ids. ids.keys ≡ ids_of heads.now) }
{
    let mut ids = BTreeSet::new(alloc);
    let count = heads.len();
    for i in 0..count {
        ids.insert(heads[count - 1 - i].set)?;
    }
    Ok(ids)
}

/// The lowest place with a head of the set and the index.
fn find_place(heads: &[HeadAt], set: u64, index: u8) -> Option<ZonePlace>
    ensures found { result ≡ place_found heads.now set index }
    ensures within { (shape : Shape) → AllByRecursion (IsHeadIn shape) heads.now
        → IfSome result (IsPlaceIn shape) }
{
    heads
        .iter()
        .find(|head| head.set == set && head.index == index)
        .map(|head| head.place)
}

/// The carriers of a set with so many indexes.
pub(crate) fn find_carriers(
    alloc: Global,
    heads: &[HeadAt],
    set: u64,
    indexes: u8,
) -> Result<Vec<Carrier>, Memory>
    ensures found { IfOk result (λ carriers.
        map carrier_of carriers.items ≡ carriers_in heads.now set indexes) }
    ensures rising { IfOk result (λ carriers. RiseBelow 0 indexes carriers.items) }
    ensures within { (shape : Shape) → AllByRecursion (IsHeadIn shape) heads.now
        → IfOk result (λ carriers. AllByRecursion (IsCarrierIn shape) carriers.items) }
{
    let mut carriers = Vec::new(alloc);
    for index in 0..indexes {
        if let Some(place) = find_place(heads, set, index) {
            carriers.push(Carrier { index, place })?;
        }
    }
    Ok(carriers)
}
