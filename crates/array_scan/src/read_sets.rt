//! Sets as their carriers have them.
ghost use Rattle.std.specs.Prelude.{◌≡◌, ◌+◌, ◌≤◌, ◌&&◌, List, map, IfSome, IfOk};
ghost use Rattle.std.specs.List.{AllByRecursion};
ghost use Rattle.marker_format.specs.declared.marker.Marker.{Marker};
ghost use Rattle.marker_format.specs.Marker.{IsMarker};
ghost use Rattle.marker_format.specs.Zone.{placed_from};
ghost use Rattle.array_model.specs.Drives.{Place};
ghost use Rattle.array_model.specs.Reading.{common, agreed, are_closed, ids_at};
ghost use Rattle.array_scan.specs.Calls.{OnlyRead, lost_by};
ghost use Rattle.array_scan.specs.SetRead.{array_by, carrier_of, placed_of, IsCarrierIn, FitsBay, seen_of, seen_at};
ghost use Rattle.array_scan.specs.Heads.{IsHeadIn, heads_at};

use crate::agree::common_len;
use crate::heads::{HeadAt, find_carriers, set_ids};
use crate::refusal::ScanRefusal;
use crate::set_read::{Carrier, SetRead};
use crate::zone::{ZoneRecords, read_zone};
use marker_format::Label;
use smore_base::MAX_FRAGMENTS;
use std::alloc::Global;
use zone_bay::Bay;

/// The first records of the zone, as far as the others agree.
fn shared(zone: ZoneRecords, others: &ZoneRecords) -> ZoneRecords
    ensures records { (ms more : List Marker)
        → AllByRecursion IsMarker ms → AllByRecursion IsMarker more
        → map placed_of zone.records.items ≡ placed_from 0 ms
        → map placed_of others.now.records.items ≡ placed_from 0 more
        → map placed_of result.records.items ≡ placed_from 0 (common ms more) }
    ensures closed { result.closed ≡ (zone.closed && others.now.closed) }
{
    let ZoneRecords {
        mut records,
        closed,
    } = zone;
    let count = common_len(&records, &others.records);
    records.truncate(count);
    ZoneRecords {
        records,
        closed: closed && others.closed,
    }
}

/// The agreed list of carriers, and whether each of them has a whole foot.
fn read_agreed<B: Bay>(
    alloc: Global,
    bay: &mut B,
    label: &Label,
    carriers: &[Carrier],
) -> Result<ZoneRecords, ScanRefusal>
    requires { AllByRecursion (IsCarrierIn (B.state bay.old).shape) carriers.now }
    ensures records { IfSome (B.state bay.old).contents (λ held. IfOk result (λ zone.
        map placed_of zone.records.items
        ≡ placed_from 0 (agreed (array_by label.now) held (map carrier_of carriers.now)))) }
    ensures closed { IfSome (B.state bay.old).contents (λ held. IfOk result (λ zone.
        zone.closed ≡ are_closed (array_by label.now) held (map carrier_of carriers.now))) }
    ensures reads { OnlyRead (B.state bay.old) (B.state bay.new) (lost_by result) }
{
    let count = carriers.len();
    if count == 0 {
        return Ok(ZoneRecords {
            records: Vec::new(alloc),
            closed: true,
        });
    }
    let mut agreed = read_zone(alloc, bay, label, carriers[count - 1].place)?;
    for i in 1..count {
        let zone = read_zone(alloc, bay, label, carriers[count - 1 - i].place)?;
        agreed = shared(zone, &agreed);
    }
    Ok(agreed)
}

/// A set, from its carriers among the heads.
pub(crate) fn read_set<B: Bay>(
    alloc: Global,
    bay: &mut B,
    label: &Label,
    heads: &[HeadAt],
    id: u64,
) -> Result<SetRead, ScanRefusal>
    requires few { label.now.geometry.k + label.now.geometry.p ≤ MAX_FRAGMENTS }
    requires within { AllByRecursion (IsHeadIn (B.state bay.old).shape) heads.now }
    ensures seen { IfSome (B.state bay.old).contents (λ held. (places : List Place)
        → heads.now ≡ heads_at (array_by label.now) held places
        → IfOk result (λ set. seen_of set ≡ seen_at (array_by label.now) held places id)) }
    ensures fits { let indexes = label.now.geometry.k + label.now.geometry.p in
        IfOk result (FitsBay (B.state bay.old).shape indexes) }
    ensures reads { OnlyRead (B.state bay.old) (B.state bay.new) (lost_by result) }
{
    let indexes = label.geometry.k + label.geometry.p;
    let carriers = find_carriers(alloc, heads, id, indexes)?;
    let agreed = read_agreed(alloc, bay, label, &carriers)?;
    Ok(SetRead {
        id,
        carriers,
        records: agreed.records,
        closed: agreed.closed,
    })
}

/// The sets of which there are heads, by rising number.
pub(crate) fn read_sets<B: Bay>(
    alloc: Global,
    bay: &mut B,
    label: &Label,
    heads: &[HeadAt],
) -> Result<Vec<SetRead>, ScanRefusal>
    requires few { label.now.geometry.k + label.now.geometry.p ≤ MAX_FRAGMENTS }
    requires within { AllByRecursion (IsHeadIn (B.state bay.old).shape) heads.now }
    ensures seen { IfSome (B.state bay.old).contents (λ held. (places : List Place)
        → let array = array_by label.now in heads.now ≡ heads_at array held places
        → IfOk result (λ sets. map seen_of sets.items
        ≡ map (seen_at array held places) (ids_at array held places))) }
    ensures fits { let indexes = label.now.geometry.k + label.now.geometry.p in IfOk result (λ sets.
        AllByRecursion (FitsBay (B.state bay.old).shape indexes) sets.items) }
    ensures reads { OnlyRead (B.state bay.old) (B.state bay.new) (lost_by result) }
{
    let ids = set_ids(alloc, heads)?;
    let mut sets = Vec::new(alloc);
    for id in &ids {
        sets.push(read_set(alloc, bay, label, heads, *id)?)?;
    }
    Ok(sets)
}
