//! The records of one zone.
ghost use Rattle.std.specs.Prelude.{◌≡◌, ◌+◌, ◌^◌, ◌<◌, length, IfSome, IfOk, map};
ghost use Rattle.marker_format.specs.Zone.{blocks_of, placed_records, has_foot};
ghost use Rattle.array_model.specs.Drives.{bytes_at, head_at};
ghost use Rattle.array_scan.specs.Calls.{OnlyRead, lost_by};
ghost use Rattle.array_scan.specs.SetRead.{array_by, place_of, placed_of};
ghost use Rattle.array_scan.specs.Zones.{IsAt, IsFresh};

use crate::refusal::ScanRefusal;
use crate::set_read::{RecordAt, ZonePlace};
use marker_format::{Label, Marker};
use smore_base::CONTENT_BYTES;
use std::alloc::Global;
use zone_bay::Bay;
use zone_parse::ZoneReader;

/// The whole records of a zone, and whether a whole foot follows them.
#[derive(Drop)]
pub(crate) struct ZoneRecords {
    pub(crate) records: Vec<RecordAt>,
    pub(crate) closed: bool,
}

/// How many bytes the zone holds.
pub(crate) fn written<B: Bay>(bay: &mut B, place: ZonePlace) -> Result<u32, ScanRefusal>
    requires device { place.device < (B.state bay.old).shape.devices }
    requires zone { place.zone < (B.state bay.old).shape.zones }
    ensures bytes { IfSome (B.state bay.old).contents
        (λ held. IfOk result (λ bytes. bytes ≡ length (held place.device place.zone))) }
    ensures reads { OnlyRead (B.state bay.old) (B.state bay.new) (lost_by result) }
{
    match bay.written(place.device, place.zone) {
        Ok(bytes) => Ok(bytes),
        Err(_) => Err(ScanRefusal::Lost {
            device: place.device,
        }),
    }
}

/// A reader at the front of the zone.
fn reader_of<B: Bay>(
    bay: &mut B,
    label: &Label,
    place: ZonePlace,
) -> Result<ZoneReader, ScanRefusal>
    requires device { place.device < (B.state bay.old).shape.devices }
    requires zone { place.zone < (B.state bay.old).shape.zones }
    ensures at { IfOk result (λ reader. IsAt reader (B.state bay.new) (place_of place)) }
    ensures fresh { IfOk result (IsFresh (array_by label.now)) }
    ensures short { IfSome (B.state bay.old).contents
        (λ held. IfOk result (λ _. length (bytes_at held (place_of place)) < 2 ^ 32)) }
    ensures reads { OnlyRead (B.state bay.old) (B.state bay.new) (lost_by result) }
{
    let written = written(bay, place)?;
    Ok(ZoneReader::new(
        place.device,
        place.zone,
        written,
        label.geometry,
        label.array,
    ))
}

/// The whole head of the zone.
pub(crate) fn read_head<B: Bay>(
    bay: &mut B,
    label: &Label,
    place: ZonePlace,
) -> Result<Option<Marker>, ScanRefusal>
    requires device { place.device < (B.state bay.old).shape.devices }
    requires zone { place.zone < (B.state bay.old).shape.zones }
    ensures head { IfSome (B.state bay.old).contents
        (λ held. IfOk result (λ head. head ≡ head_at (array_by label.now) held (place_of place))) }
    ensures reads { OnlyRead (B.state bay.old) (B.state bay.new) (lost_by result) }
{
    let mut reader = reader_of(bay, label, place)?;
    Ok(reader.next(bay)?)
}

/// How many blocks the record takes.
fn blocks_of(marker: &Marker) -> u32
    ensures { result ≡ blocks_of marker.now }
{
    1 + u32::from(marker.fragment).div_ceil(CONTENT_BYTES)
}

/// The whole records of the zone.
pub(crate) fn read_zone<B: Bay>(
    alloc: Global,
    bay: &mut B,
    label: &Label,
    place: ZonePlace,
) -> Result<ZoneRecords, ScanRefusal>
    requires device { place.device < (B.state bay.old).shape.devices }
    requires zone { place.zone < (B.state bay.old).shape.zones }
    ensures records { IfSome (B.state bay.old).contents (λ held. IfOk result (λ zone.
        map placed_of zone.records.items
        ≡ placed_records (array_by label.now) (bytes_at held (place_of place)))) }
    ensures foot { IfSome (B.state bay.old).contents (λ held. IfOk result (λ zone.
        zone.closed ≡ has_foot (array_by label.now) (bytes_at held (place_of place)))) }
    ensures reads { OnlyRead (B.state bay.old) (B.state bay.new) (lost_by result) }
{
    let mut reader = reader_of(bay, label, place)?;
    let mut records = Vec::new(alloc);
    let mut block = 0u32;
    while let Some(marker) = reader.next(bay)? {
        let behind = block.saturating_add(blocks_of(&marker));
        records.push(RecordAt { marker, block })?;
        block = behind;
    }
    Ok(ZoneRecords {
        records,
        closed: reader.has_foot(),
    })
}
