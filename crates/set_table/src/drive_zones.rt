//! The zones of one drive.
ghost use Rattle.std.specs.Prelude.{◌≡◌, ◌+◌, ◌≤◌, ◌<◌, ◌^◌, List, length, drop, IfOk};
ghost use Rattle.std.specs.List.{slice_index_or, slice_set};
ghost use Rattle.set_table.specs.declared.zone_use.ZoneUse.{ZoneUse};
ghost use Rattle.set_table.specs.declared.zone_use.ZoneUse.TheVariants.{Taken};
ghost use Rattle.set_table.specs.Zones.{count_empty, before_empty, lowest_empty, blank, IsGrouped};

use crate::zone_use::ZoneUse;
use smore_base::Memory;
use std::alloc::Global;
use std::marker::Model;

/// Zones of a group, whose empty ones are counted: zones 0 to 63, 64 to 127 and so on.
const GROUP: usize = 64;

/// What each zone of a drive is used for. Contracts see a list of it, from zone 0 on.
#[derive(Drop)]
pub(crate) struct DriveZones {
    uses: Vec<ZoneUse>,
    /// How many zones of each group are empty, so that a group with none is passed at one step.
    groups: Vec<u8>,
    /// How many zones are empty.
    empty: u16,
    /// The lowest empty zone, or the number of zones.
    lowest: u16,
}

impl Model for DriveZones {
    ghost Value = { List ZoneUse };

    ghost view = { λ d. d.uses.items };

    ghost invariant = { λ d. (length d.uses.items < 2 ^ 16) × (d.empty ≡ count_empty d.uses.items) × (d.lowest ≡ before_empty d.uses.items) × IsGrouped d.uses.items d.groups.items };
}

impl DriveZones {
    /// So many zones, all empty but 0 and 1, which are no set zones.
    pub(crate) fn new(alloc: Global, zones: u16) -> Result<DriveZones, Memory>
        requires { 2 ≤ zones }
        ensures { IfOk result (λ d. d ≡ blank zones) }
    {
        let uses = vec![in alloc; ZoneUse::Taken; zones as usize]?;
        let groups = vec![in alloc; 0u8; zones as usize / GROUP + 1]?;
        let mut drive = DriveZones {
            uses,
            groups,
            empty: 0,
            lowest: zones,
        };
        drive.clear();
        Ok(drive)
    }

    /// What the zone is used for. A zone that isn't there counts as taken.
    pub(crate) fn get(&self, zone: u16) -> ZoneUse
        ensures { result ≡ slice_index_or self.now zone Taken }
    {
        match self.uses.get(zone as usize) {
            Some(zone_use) => *zone_use,
            None => ZoneUse::Taken,
        }
    }

    /// From now on the zone is used for this.
    pub(crate) fn put(&mut self, zone: u16, to: ZoneUse)
        requires { zone < length self.old }
        ensures { self.new ≡ slice_set self.old zone to }
    {
        let at = zone as usize;
        let group = at / GROUP;
        // one for an empty zone
        let was = u8::from(self.uses[at].is_empty());
        let now = u8::from(to.is_empty());
        self.empty = self.empty - u16::from(was) + u16::from(now);
        self.groups[group] = self.groups[group] - was + now;
        self.uses[at] = to;
        if to.is_empty() {
            self.lowest = self.lowest.min(zone);
        } else if zone == self.lowest {
            self.lowest = next_empty(&self.uses, &self.groups, zone);
        }
    }

    /// From now on all zones but 0 and 1 are empty.
    pub(crate) fn clear(&mut self)
        requires { 2 ≤ length self.old }
        ensures { self.new ≡ blank (length self.old) }
    {
        let zones = self.uses.len() as u16;
        self.put(0, ZoneUse::Taken);
        self.put(1, ZoneUse::Taken);
        for zone in 2..zones {
            self.put(zone, ZoneUse::Empty);
        }
    }

    /// How many zones are empty.
    pub(crate) fn empty(&self) -> u16
        ensures { result ≡ count_empty self.now }
    {
        self.empty
    }

    /// The lowest empty zone.
    pub(crate) fn lowest_empty(&self) -> Option<u16>
        ensures { result ≡ lowest_empty self.now }
    {
        if (self.lowest as usize) < self.uses.len() {
            Some(self.lowest)
        } else {
            None
        }
    }
}

/// The first empty zone from this one on, or the number of zones.
fn next_empty(uses: &[ZoneUse], groups: &[u8], first: u16) -> u16
    requires few { length uses.now < 2 ^ 16 }
    requires first { first ≤ length uses.now }
    requires groups { IsGrouped uses.now groups.now }
    ensures { result ≡ first + before_empty (drop first uses.now) }
{
    let zones = uses.len();
    let mut zone = first as usize;
    while zone < zones {
        let group = zone / GROUP;
        if groups[group] == 0 {
            zone = (group + 1) * GROUP;
        } else if uses[zone].is_empty() {
            return zone as u16;
        } else {
            zone += 1;
        }
    }
    zones as u16
}
