//! Which drives a new set is formed on, and how many sets can be formed.
ghost use Rattle.std.specs.Prelude.{◌≡◌, ◌⊎◌, ◌+◌, ◌*◌, ◌<◌, ◌≤◌, ℕ, true, false, MatchResult, None, IsSome};
ghost use Rattle.std.specs.List.{slice_index_or};
ghost use Rattle.set_table.specs.Zones.{before_empty};
ghost use Rattle.set_table.specs.Table.{zones_of, has_empty, with_empty_of, sum_to_of, room_of, marks_of, Adds, IsBest, IsChoice, Forms};

use crate::members::{Member, Members, TooFew};
use crate::rows::Place;
use crate::table::SetTable;
use smore_base::MAX_DRIVES;

/// By drive, whether it is chosen.
type Chosen = [bool; MAX_DRIVES as usize];

impl SetTable {
    /// Forms a set on the live drives with the most empty zones, the lower of two with as many. Each gives its lowest empty
    /// zone, and carries an index from then on; indexes rise with the drive.
    pub fn form_set(&mut self, set: u64, least: u8) -> Result<Members, TooFew>
        requires absent { marks_of set self.old.sets ≡ None }
        requires room { 1 ≤ self.old.spare }
        ensures { MatchResult result
            (λ members. (least ≤ with_empty_of self.old) × Forms self.old set members.items self.new)
            (λ few. (few.live ≡ with_empty_of self.old) × (few.live < least) × (self.new ≡ self.old)) }
    {
        let live = self.with_empty();
        if live < least {
            return Err(TooFew { live });
        }
        let chosen = self.choose();
        let drives = self.geometry.drives;
        let mut members = Members::new();
        for device in 0..drives {
            if !chosen[device as usize] {
                continue;
            }
            let index = members.len() as u8;
            members.push(self.take_lowest(set, index, device));
        }
        Ok(members)
    }

    /// The drive's lowest empty zone carries the index of the set from now on.
    fn take_lowest(&mut self, set: u64, index: u8, device: u8) -> Member
        requires drive { device < self.old.geometry.drives }
        requires empty { has_empty self.old device ≡ true }
        requires index { index < self.old.geometry.k + self.old.geometry.p }
        requires room { IsSome (marks_of set self.old.sets) ⊎ (1 ≤ self.old.spare) }
        ensures member { result ≡ record { index = index; device = device; zone = before_empty (zones_of self.old.zones device) } }
        ensures adds { Adds self.old set index device result.zone self.new }
    {
        let zone = self.drives[device as usize].lowest_empty().unwrap_or(0);
        self.put_carrier(set, index, Place { device, zone });
        Member {
            index,
            device,
            zone,
        }
    }

    /// The drives that a set is formed on.
    fn choose(&self) -> Chosen
        ensures { IsChoice self.now (λ d. slice_index_or result d false) }
    {
        let mut chosen = [false; MAX_DRIVES as usize];
        for _ in 0..self.geometry.k + self.geometry.p {
            let Some(device) = self.best(&chosen) else {
                return chosen;
            };
            chosen[device as usize] = true;
        }
        chosen
    }

    /// The drive that is rather taken than any other that isn't chosen yet, is live and has an empty zone.
    fn best(&self, chosen: &Chosen) -> Option<u8>
        ensures { IsBest self.now (λ d. slice_index_or chosen.now d false) result }
    {
        let mut best = None;
        let mut most = 0;
        for device in 0..self.geometry.drives {
            let empty = self.empty_zones(device);
            if !chosen[device as usize] && empty > most {
                best = Some(device);
                most = empty;
            }
        }
        best
    }

    /// How many sets of all their members can be formed.
    pub fn room_sets(&self) -> u32
        ensures { result ≡ room_of self.now }
    {
        let members = u32::from(self.geometry.k + self.geometry.p);
        let mut sets = self.sum_to(u32::from(u16::MAX)) / members;
        let mut zones = self.sum_to(sets);
        while zones < members * sets {
            sets = zones / members;
            zones = self.sum_to(sets);
        }
        sets
    }

    /// The empty zones of the live drives, of each so many at most.
    fn sum_to(&self, most: u32) -> u32
        ensures sum { result ≡ sum_to_of self.now most }
        ensures all { 65535 ≤ most → (other : ℕ) → sum_to_of self.now other ≤ result }
        ensures few { result ≤ 24 * 65535 }
    {
        let mut sum = 0;
        for device in 0..self.geometry.drives {
            sum += most.min(u32::from(self.empty_zones(device)));
        }
        sum
    }
}
