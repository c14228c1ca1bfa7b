ghost use Rattle.std.specs.Prelude.{◌≡◌, ◌≢◌, ◌⊎◌, ℕ, ◌+◌, ◌-◌, ◌<◌, ◌≤◌, false, true, length, None, Some, IsSome, IsNone, IfOk, MatchResult, option_map, is_some, OnOk, IsSomeAnd};
ghost use Rattle.std.specs.List.{slice_set};
ghost use Rattle.smore_base.specs.Geometry.{IsWithinLimits};
ghost use Rattle.set_table.specs.declared.zone_use.ZoneUse.TheVariants.{Empty, Taken, Carrier};
ghost use Rattle.set_table.specs.Zones.{lowest_empty, blank};
ghost use Rattle.set_table.specs.Rows.{row_of};
ghost use Rattle.smore_base.specs.declared.limits.TheConstants.{MAX_FRAGMENTS};
ghost use Rattle.set_table.specs.Table.{use_at, put_use, zones_of, IsSetZone, is_live, TellsCarrier, missing_of, empty_on, has_empty, with_empty_of, room_of, marks_of, is_marked, IsNextSet, Changes, blank_table, lost_bits, taken, Adds, HasPlace, KeepsCarried, Leaves, Stays, IsBare, without, Marked, marked, or_unmarked, HangsTogether};

use crate::drive_zones::DriveZones;
use crate::rows::{Place, Row, Rows};
use crate::zone_use::ZoneUse;
use smore_base::{Geometry, MAX_FRAGMENTS, Memory};
use std::alloc::Global;
use std::marker::Model;

/// Which zones of an array carry which sets, which are empty, and which devices are lost.
///
/// Devices are counted from 0, drives first, and the flash is the last. A set zone is one from 2 on, of a drive.
#[derive(Drop)]
pub struct SetTable {
    pub(crate) geometry: Geometry,
    pub(crate) array: [u8; 16],
    /// By device.
    pub(crate) lost: Vec<bool>,
    /// By drive.
    pub(crate) drives: Vec<DriveZones>,
    pub(crate) rows: Rows,
}

impl Model for SetTable {
    ghost use Rattle.std.specs.Prelude.{◌-◌, length, map};
    ghost use Rattle.set_table.specs.Table.{Table, IsTable, marked};

    ghost Value = { Table };

    ghost view = { λ t. record {
      geometry = t.geometry;
      array = t.array;
      lost = t.lost.items;
      zones = t.drives.items;
      sets = map marked t.rows.rows;
      spare = t.rows.capacity - length t.rows.rows;
    } };

    ghost invariant = { λ t. IsTable t.geometry t.lost.items t.drives.items t.rows.rows };
}

impl SetTable {
    /// All devices live, all set zones empty, no set.
    pub fn new(alloc: Global, geometry: Geometry, array: [u8; 16]) -> Result<SetTable, Memory>
        requires { IsWithinLimits geometry }
        ensures { IfOk result (λ t. t ≡ blank_table geometry array t.spare) }
    {
        let lost = vec![in alloc; false; geometry.drives as usize + 1]?;
        let mut drives = Vec::with_capacity(alloc, geometry.drives as usize)?;
        for _ in 0..geometry.drives {
            drives.push(DriveZones::new(alloc, geometry.zones)?)?;
        }
        Ok(SetTable {
            geometry,
            array,
            lost,
            drives,
            rows: Rows::new(alloc),
        })
    }

    /// Finds room for so many sets more.
    pub fn reserve(&mut self, sets: usize) -> Result<(), Memory>
        ensures room { OnOk result (sets ≤ self.new.spare) }
        ensures kept { self.new ≡ record self.old { spare = self.new.spare } }
        ensures no_less { self.old.spare ≤ self.new.spare }
    {
        self.rows.reserve(sets)
    }

    /// The array's geometry.
    pub fn geometry(&self) -> &Geometry
        ensures same { result.now ≡ self.now.geometry }
        ensures within { IsWithinLimits result.now }
        ensures together { HangsTogether self.now }
    {
        &self.geometry
    }

    /// The array's number.
    pub fn array(&self) -> [u8; 16]
        ensures { result ≡ self.now.array }
    {
        self.array
    }

    /// The lost devices: bit d for device d.
    pub fn lost(&self) -> u32
        ensures { result ≡ lost_bits self.now.lost }
    {
        let devices = self.lost.len();
        let mut bits = 0;
        for count in 0..devices {
            bits = 2 * bits + u32::from(self.lost[devices - 1 - count]);
        }
        bits
    }

    /// Whether the device isn't lost.
    pub(crate) fn is_live(&self, device: u8) -> bool
        ensures { result ≡ is_live self.now device }
    {
        !self.lost.get(device as usize).copied().unwrap_or(true)
    }

    /// How many zones of the drive are empty, where it is live; 0 of any other device.
    pub fn empty_zones(&self, device: u8) -> u16
        ensures { result ≡ empty_on self.now device }
    {
        match self.drives.get(device as usize) {
            Some(drive) if self.is_live(device) => drive.empty(),
            _ => 0,
        }
    }

    /// The lowest empty zone of a drive. None exactly where the drive is lost or has no empty zone, or it is no drive.
    pub fn lowest_empty(&self, device: u8) -> Option<u16>
        ensures live { is_live self.now device ≡ true → result ≡ lowest_empty (zones_of self.now.zones device) }
        ensures lost { is_live self.now device ≡ false → result ≡ None }
    {
        if !self.is_live(device) {
            return None;
        }
        self.drives.get(device as usize)?.lowest_empty()
    }

    /// Whether the set is in the table.
    pub fn contains(&self, set: u64) -> bool
        ensures there { result ≡ true → IsSome (marks_of set self.now.sets) }
        ensures absent { result ≡ false → marks_of set self.now.sets ≡ None }
    {
        match self.rows.get(set) {
            Some(_) => true,
            None => false,
        }
    }

    /// The least set in the table above this one.
    pub fn set_after(&self, set: u64) -> Option<u64>
        ensures { IsNextSet set self.now.sets result }
    {
        self.rows.after(set)
    }

    /// How many live drives have an empty zone.
    pub fn with_empty(&self) -> u8
        ensures { result ≡ with_empty_of self.now }
    {
        let mut drives = 0;
        for device in 0..self.geometry.drives {
            if self.empty_zones(device) > 0 {
                drives += 1;
            }
        }
        drives
    }

    /// What the zone is used for.
    pub(crate) fn use_of(&self, place: Place) -> ZoneUse
        ensures { result ≡ use_at self.now.zones place.device place.zone }
    {
        use_in(&self.drives, place)
    }

    /// The zone of a live drive that carries the index of the set.
    pub fn carrier(&self, set: u64, index: u8) -> Option<(u8, u16)>
        ensures { TellsCarrier self.now set index result }
    {
        let Some(row) = self.rows.get(set) else {
            return None;
        };
        if index >= MAX_FRAGMENTS {
            return None;
        }
        let place = row.places[index as usize];
        if !self.is_live(place.device) {
            return None;
        }
        if !self.use_of(place).carries(set, index) {
            return None;
        }
        Some((place.device, place.zone))
    }

    /// How many indexes of the set no live drive carries: all of them, where the set isn't in the table.
    pub fn missing(&self, set: u64) -> u8
        ensures { result ≡ missing_of self.now set }
    {
        let mut count = 0;
        for index in 0..self.geometry.k + self.geometry.p {
            if self.carrier(set, index).is_none() {
                count += 1;
            }
        }
        count
    }

    /// From now on the zone carries the index of the set. A zone of a lost drive that carried it carries nothing any more.
    pub fn add_carrier(&mut self, set: u64, index: u8, device: u8, zone: u16)
        requires zone { IsSetZone self.old.geometry device zone }
        requires index { index < self.old.geometry.k + self.old.geometry.p }
        requires free { TellsCarrier self.old set index None }
        requires taken { use_at self.old.zones device zone ≡ Taken }
        requires room { IsSome (marks_of set self.old.sets) ⊎ (1 ≤ self.old.spare) }
        ensures { Adds self.old set index device zone self.new }
    {
        self.put_carrier(set, index, Place { device, zone });
    }

    /// The same, of an empty zone too.
    pub(crate) fn put_carrier(&mut self, set: u64, index: u8, place: Place)
        requires zone { IsSetZone self.old.geometry place.device place.zone }
        requires index { index < self.old.geometry.k + self.old.geometry.p }
        requires bare { IsBare (use_at self.old.zones place.device place.zone) }
        requires room { IsSome (marks_of set self.old.sets) ⊎ (1 ≤ self.old.spare) }
        ensures { Adds self.old set index place.device place.zone self.new }
    {
        let mut row = self.row_or_new(set);
        forget(&mut self.drives, row.places[index as usize], set, index);
        row.places[index as usize] = place;
        self.rows.put(row);
        self.drives[place.device as usize].put(place.zone, ZoneUse::Carrier { set, index });
    }

    /// The set's row, or one of a set that nothing carries.
    fn row_or_new(&self, set: u64) -> Row
        ensures set { result.set ≡ set }
        ensures places { (index d z : ℕ) → use_at self.now.zones d z ≡ Carrier set index → HasPlace result index d z }
        ensures length { length result.places ≡ MAX_FRAGMENTS }
        ensures marks { marked result ≡ or_unmarked set (marks_of set self.now.sets) }
    {
        match self.rows.get(set) {
            Some(row) => *row,
            None => Row::new(set),
        }
    }

    /// From now on the zone isn't empty.
    pub fn take_zone(&mut self, device: u8, zone: u16)
        requires zone { IsSetZone self.old.geometry device zone }
        ensures { self.new ≡ record self.old { zones = put_use device zone (taken (use_at self.old.zones device zone)) self.old.zones } }
    {
        if !self.use_of(Place { device, zone }).is_empty() {
            return;
        }
        self.drives[device as usize].put(zone, ZoneUse::Taken);
    }

    /// From now on the zone is empty, and carries nothing.
    pub fn release(&mut self, device: u8, zone: u16)
        requires zone { IsSetZone self.old.geometry device zone }
        ensures zones { self.new.zones ≡ put_use device zone Empty self.old.zones }
        ensures lost { self.new.lost ≡ self.old.lost }
        ensures sets { KeepsCarried self.old self.new }
    {
        let was = self.use_of(Place { device, zone });
        self.drives[device as usize].put(zone, ZoneUse::Empty);
        let ZoneUse::Carrier { set, .. } = was else {
            return;
        };
        leave(&mut self.rows, &self.drives, set);
    }

    /// The set is settled from now on.
    pub fn mark_settled(&mut self, set: u64)
        requires { IsSome (marks_of set self.old.sets) }
        ensures sets { Changes (λ m. record m { is_settled = true }) set self.old.sets self.new.sets }
        ensures others { self.new ≡ record self.old { sets = self.new.sets } }
    {
        if let Some(row) = self.rows.get(set) {
            let row = Row {
                is_settled: true,
                ..*row
            };
            self.rows.put(row);
        }
    }

    /// The set is dropped from now on.
    pub fn drop_set(&mut self, set: u64)
        requires { IsSome (marks_of set self.old.sets) }
        ensures sets { Changes (λ m. record m { is_dropped = true }) set self.old.sets self.new.sets }
        ensures others { self.new ≡ record self.old { sets = self.new.sets } }
    {
        if let Some(row) = self.rows.get(set) {
            let row = Row {
                is_dropped: true,
                ..*row
            };
            self.rows.put(row);
        }
    }

    /// Whether the set is in the table and settled.
    pub fn settled(&self, set: u64) -> bool
        ensures { result ≡ is_marked (λ m. m.is_settled) (marks_of set self.now.sets) }
    {
        match self.rows.get(set) {
            Some(row) => row.is_settled,
            None => false,
        }
    }

    /// Whether the set is in the table and dropped.
    pub fn dropped(&self, set: u64) -> bool
        ensures { result ≡ is_marked (λ m. m.is_dropped) (marks_of set self.now.sets) }
    {
        match self.rows.get(set) {
            Some(row) => row.is_dropped,
            None => false,
        }
    }

    /// The device is lost from now on.
    pub fn lose(&mut self, device: u8)
        requires { device ≤ self.old.geometry.drives }
        ensures { self.new ≡ record self.old { lost = slice_set self.old.lost device true } }
    {
        self.lost[device as usize] = true;
    }

    /// The device is live from now on. If it is a drive, its set zones are empty.
    pub fn revive(&mut self, device: u8)
        requires { device ≤ self.old.geometry.drives }
        ensures lost { self.new.lost ≡ slice_set self.old.lost device false }
        ensures drive { device < self.old.geometry.drives → self.new.zones ≡ slice_set self.old.zones device (blank self.old.geometry.zones) }
        ensures flash { device ≡ self.old.geometry.drives → self.new.zones ≡ self.old.zones }
        ensures sets { KeepsCarried self.old self.new }
    {
        self.lost[device as usize] = false;
        if device == self.geometry.drives {
            return;
        }
        self.drives[device as usize].clear();
        leave_all(&mut self.rows, &self.drives);
    }
}

/// What the zone of one of these drives is used for.
fn use_in(drives: &[DriveZones], place: Place) -> ZoneUse
    ensures { result ≡ use_at drives.now place.device place.zone }
{
    match drives.get(place.device as usize) {
        Some(drive) => drive.get(place.zone),
        None => ZoneUse::Taken,
    }
}

/// The place, and no other zone, may carry the index of the set; no zone does any more.
fn forget(drives: &mut Vec<DriveZones>, place: Place, set: u64, index: u8)
    requires { (d z : ℕ) → use_at drives.old.items d z ≡ Carrier set index → place ≡ record { device = d; zone = z } }
    ensures { drives.new.items ≡ without set index drives.old.items }
{
    if !use_in(drives, place).carries(set, index) {
        return;
    }
    drives[place.device as usize].put(place.zone, ZoneUse::Taken);
}

/// Takes the set's row out where none of these zones carries the set.
fn leave(rows: &mut Rows, drives: &[DriveZones], set: u64)
    requires places { (d z index : ℕ) → use_at drives.now d z ≡ Carrier set index → IsSomeAnd (row_of set rows.old.rows) (λ row. HasPlace row index d z) }
    requires indexes { (d z index : ℕ) → use_at drives.now d z ≡ Carrier set index → index < MAX_FRAGMENTS }
    ensures rows { Leaves drives.now set rows.old.rows rows.new.rows }
    ensures capacity { rows.new.capacity ≡ rows.old.capacity }
    ensures length { length rows.new.rows ≤ length rows.old.rows }
{
    let Some(row) = rows.get(set) else {
        return;
    };
    for index in 0..MAX_FRAGMENTS {
        if use_in(drives, row.places[index as usize]).carries(set, index) {
            return;
        }
    }
    rows.remove(set);
}

/// The same, of each set.
fn leave_all(rows: &mut Rows, drives: &[DriveZones])
    requires places { (d z set index : ℕ) → use_at drives.now d z ≡ Carrier set index → IsSomeAnd (row_of set rows.old.rows) (λ row. HasPlace row index d z) }
    requires indexes { (d z set index : ℕ) → use_at drives.now d z ≡ Carrier set index → index < MAX_FRAGMENTS }
    ensures rows { Stays drives.now rows.old.rows rows.new.rows }
    ensures capacity { rows.new.capacity ≡ rows.old.capacity }
    ensures length { length rows.new.rows ≤ length rows.old.rows }
{
    leave(rows, drives, 0);
    let mut set = 0;
    while let Some(next) = rows.after(set) {
        leave(rows, drives, next);
        set = next;
    }
}
