//! The records of an open set's zone, as they are read one after another.
ghost use Rattle.std.specs.Prelude.{◌≡◌, ◌<◌, ◌≤◌, ◌↔◌, ◌||◌, Some, IsTrue};
ghost use Rattle.marker_format.specs.Zone.{has_kind};
ghost use Rattle.marker_format.specs.declared.kind.Kind.TheVariants.{Ready};
ghost use Rattle.marker_format.specs.Kind.{kind_of};
ghost use Rattle.marker_format.specs.declared.marker.TheConstants.{COUNTER_END};
ghost use Rattle.store_core.specs.OpenZone.{IsOfSet, is_open_record};
ghost use Rattle.store_core.specs.Zone.{counter_of};
ghost use Rattle.store_core.specs.Sound.{IsSoundIndex};

use crate::said::Said;
use crate::zone::OpenZone;
use marker_format::{Kind, Marker};
use smore_base::{BLOCK_BYTES, CONTENT_BYTES, Memory};
use std::alloc::Global;

/// What the records of a zone say, as far as they were read.
#[derive(Drop)]
pub(crate) struct ZoneRecords {
    pub(crate) zone: OpenZone,
    pub(crate) next_stamp: u64,
    pub(crate) said: Said,
    /// A ready record is among them.
    pub(crate) is_ready: bool,
    /// Blocks of the zone, at most.
    pub(crate) blocks: u32,
    /// Bytes of a part, at most.
    pub(crate) shard: u32,
    ghost within: { zone.blocks ≤ blocks },
    ghost few: { zone.records ≤ zone.blocks },
    ghost placed: { 0 < zone.records → IsOfSet zone },
    ghost stamp_from: { 1 ≤ next_stamp },
    ghost stamp_to: { next_stamp ≤ COUNTER_END },
    ghost sound: { ∥ IsSoundIndex blocks shard next_stamp said.index ∥₁ },
}

impl ZoneRecords {
    ghost use Rattle.std.specs.Prelude.{◌*◌, ◌==◌, not, List, [], ◌∷◌, ◌++◌, IfOk};
    ghost use Rattle.marker_format.specs.declared.marker.Marker.{Marker};
    ghost use Rattle.store_core.specs.ZoneRecords.{HasRead, CanBeAdded};

    /// No record, of a zone with so many blocks and parts of so many bytes.
    pub(crate) fn new(alloc: Global, blocks: u32, shard: u32) -> ZoneRecords
        ensures read { HasRead result [] }
        ensures limits { (result.blocks ≡ blocks) × (result.shard ≡ shard) }
    {
        ZoneRecords {
            zone: OpenZone::START,
            next_stamp: 1,
            said: Said::new(alloc),
            is_ready: false,
            blocks,
            shard,
        }
    }

    /// Adds a record. `false` where it is none of an open set's zone.
    pub(crate) fn add(&mut self, alloc: Global, marker: &Marker) -> Result<bool, Memory>
        ensures added { IfOk result (λ added. IsTrue added ↔ CanBeAdded self.old marker.now) }
        ensures read { IfOk result (λ added. IsTrue added → (ms : List Marker) → HasRead self.old ms → HasRead self.new (ms ++ marker.now ∷ [])) }
        ensures limits { (self.new.blocks ≡ self.old.blocks) × (self.new.shard ≡ self.old.shard) }
    {
        if !is_open(marker, self.shard) {
            return Ok(false);
        }
        let Some(kind) = Kind::from_number(marker.kind) else {
            return Ok(false);
        };
        let blocks = 1 + u32::from(marker.fragment).div_ceil(CONTENT_BYTES);
        if blocks > self.blocks - self.zone.blocks {
            return Ok(false);
        }
        self.next_stamp = self.next_stamp.max(counter_of(kind, marker) + 1);
        self.said.add(alloc, kind, marker, self.zone.blocks)?;
        self.is_ready = is_ready_with(self.is_ready, marker);
        self.zone = self.zone.with(marker, blocks);
        Ok(true)
    }

    /// These records, of a zone that holds so many bytes.
    pub(crate) fn within(mut self, written: u32) -> ZoneRecords
        ensures read { (ms : List Marker) → HasRead self ms → HasRead result ms }
        ensures torn { result.zone.is_torn ≡ not (BLOCK_BYTES * result.zone.blocks == written) }
        ensures limits { (result.blocks ≡ self.blocks) × (result.shard ≡ self.shard) }
    {
        let bytes = u64::from(self.zone.blocks) * u64::from(BLOCK_BYTES);
        self.zone.is_torn = bytes != u64::from(written);
        self
    }
}

/// Whether it is a record of an open set's zone, of k 1 and p 1, with a part of so many bytes at most: any but one of a digest
/// and the head of a rebuilt zone.
fn is_open(marker: &Marker, shard: u32) -> bool
    ensures { result ≡ is_open_record shard marker.now }
{
    marker.is_well_formed()
        && marker.k == 1
        && marker.n == 2
        && marker.payload <= shard
        && marker.kind != Kind::Digest.number()
        && !(marker.kind == Kind::Head.number() && marker.part == 1)
}

/// Whether a ready record is among some, or this is one.
fn is_ready_with(is_ready: bool, marker: &Marker) -> bool
    ensures { result ≡ (is_ready || has_kind Ready marker.now) }
{
    is_ready || marker.kind == Kind::Ready.number()
}

/// The greater of the record's stamp and its upload. A cut's upload is a set.
fn counter_of(kind: Kind, marker: &Marker) -> u64
    requires { kind_of marker.now.kind ≡ Some kind }
    ensures { result ≡ counter_of marker.now }
{
    if kind == Kind::Cut {
        marker.stamp
    } else {
        marker.stamp.max(marker.upload)
    }
}
