ghost use Rattle.std.specs.Prelude.{◌≡◌, ◌≤◌, ◌<◌, ◌+◌, ◌*◌, length, IfSome};
ghost use Rattle.smore_base.specs.declared.limits.TheConstants.{BLOCK_BYTES};
ghost use Rattle.smore_base.specs.Geometry.{IsWithinLimits};
ghost use Rattle.marker_format.specs.declared.marker.TheConstants.{COUNTER_END};
ghost use Rattle.object_machine.specs.Coding.{IsMadeFor};
ghost use Rattle.marker_format.specs.Fragment.{blocks_of};
ghost use Rattle.zone_bay.specs.Contents.{IsOfBay};
ghost use Rattle.store_core.specs.OpenZone.{IsOfSet};
ghost use Rattle.store_core.specs.Sound.{IsSoundIndex};
ghost use Rattle.store_core.specs.Held.{IsHeld, IsFull};

use crate::index::Index;
use crate::opening::{Fault, OpenRefusal, begin, find_opening};
use crate::zone::OpenZone;
use object_machine::{Op, Reply};
use smore_base::Geometry;
use std::alloc::Global;
use zone_bay::Bay;

/// The drive whose zone has the store's records.
pub const DRIVE: u8 = 0;

/// The zone of that drive which has them.
pub const ZONE: u16 = 2;

/// The first zone of a drive that may belong to a set.
pub(crate) const FIRST_SET_ZONE: u16 = 2;

/// Fragments of each record that are missing where the drive is lost: it alone has the set, of one source fragment and one
/// of parity.
pub(crate) const LOST_FRAGMENTS: u8 = 2;

/// What a refusal for want of room tells: one more set would be needed, and there is room for none.
pub(crate) const FULL_NEED: u32 = 1;

/// The room that it tells.
pub(crate) const FULL_ROOM: u32 = 0;

/// The set that an opening begins in a blank zone.
pub(crate) const FIRST_SET: u64 = 1;

/// The store over one bay: it answers calls, and keeps which object lies where.
pub struct Core<B: Bay> {
    pub(crate) alloc: Global,
    pub(crate) bay: B,
    pub(crate) geometry: Geometry,
    pub(crate) array: [u8; 16],
    /// Where the next record goes.
    pub(crate) zone: OpenZone,
    /// The stamp of the next note.
    pub(crate) next_stamp: u64,
    pub(crate) index: Index,
    /// Room for the records of a step.
    pub(crate) buffer: Vec<u8>,
    pub(crate) is_lost: bool,
    ghost limits: { IsWithinLimits geometry },
    ghost of_bay: { IsOfBay geometry (B.state bay).shape },
    ghost one_source: { geometry.k ≡ 1 },
    ghost one_parity: { geometry.p ≡ 1 },
    ghost id: { length array ≡ 16 },
    ghost of_set: { IsOfSet zone },
    ghost within: { zone.blocks ≤ geometry.blocks },
    ghost few: { zone.records ≤ zone.blocks },
    ghost stamp_from: { 1 ≤ next_stamp },
    ghost stamp_to: { next_stamp ≤ COUNTER_END },
    ghost room: { length buffer.items ≡ BLOCK_BYTES * (blocks_of geometry.shard + 2) },
    ghost sound: { ∥ IsSoundIndex geometry.blocks geometry.shard next_stamp index ∥₁ },
    ghost told: { ∥ IfSome (B.state bay).contents
        (λ held. IsHeld (record { geometry = geometry; id = array }) zone next_stamp index (B.state bay).shape held) ∥₁ },
    ghost full: { ∥ IfSome (B.state bay).contents (λ held. IsFull (record { geometry = geometry; id = array }) is_lost zone held) ∥₁ },
}

impl<B: Bay> Core<B> {
    ghost use Rattle.store_core.specs.Core.{bay_of, geometry_of, coding_of, HoldsMap, Steps, Opens};

    /// Opens a bay by drive 0: it has a label of this bay with k 1 and p 1, its zone 2 is blank or has an open set's zone, and
    /// no other set zone of any drive is written. In a blank zone a set is begun. `docs/RULES.md`, "Opening", has the rest.
    pub fn open(alloc: Global, mut bay: B) -> Result<Core<B>, (OpenRefusal, B)>
        ensures { Opens B.state bay result }
    {
        match find_opening(alloc, &mut bay) {
            Ok(Some(opening)) => begin(alloc, bay, opening),
            Ok(None) => Err((OpenRefusal::NoLabel, bay)),
            Err(Fault::Lost) => Err((OpenRefusal::NoLabel, bay)),
            Err(Fault::Memory) => Err((OpenRefusal::Memory, bay)),
        }
    }

    /// Answers a call. `docs/RULES.md` has a section on each.
    pub fn step(&mut self, op: Op) -> Reply
        requires { IsMadeFor (coding_of (geometry_of self.old)) op }
        ensures { Steps B.state self.old op result self.new }
    {
        match op {
            Op::Put { name, object } => self.put(&name, &object),
            Op::Get { name } => self.get(&name),
            Op::Delete { name } => self.delete(&name),
            Op::List { after, limit } => self.list(&after, limit),
        }
    }

    /// The array's geometry. Its k, p and shard are those of the objects that are put.
    pub fn geometry(&self) -> &Geometry
        ensures same { result.now ≡ geometry_of self.now }
        ensures within { IsWithinLimits result.now }
    {
        &self.geometry
    }

    /// The bay's moment.
    pub fn moment(&self) -> u64
        ensures { result ≡ (B.state (bay_of self.now)).moment }
    {
        self.bay.moment()
    }

    /// Gives the bay back.
    pub fn into_bay(self) -> B
        ensures same { result ≡ bay_of self }
        ensures map { HoldsMap B.state self }
    {
        let Core {
            alloc: _,
            bay,
            geometry: _,
            array: _,
            zone: _,
            next_stamp: _,
            index: _,
            buffer: _,
            is_lost: _,
        } = self;
        bay
    }
}
