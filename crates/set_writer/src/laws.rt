//! What the zones of a set say, once its records were written. These functions do nothing: their contracts are the theorems.

ghost use Rattle.std.specs.Prelude.{ℕ, ◌+◌, ◌*◌, ◌≤◌};
ghost use Rattle.set_table.specs.Table.{Table};
ghost use Rattle.set_writer.specs.Fit.{live_of};
ghost use Rattle.set_writer.specs.Rounds.{InRounds};
ghost use Rattle.set_writer.specs.Laws.{ZoneHasRecords, CutZoneHasFirst, ClosedZoneHasFoot, MembersHaveRecords, AgreedAreThose};

use zone_bay::Bay;

/// The zones of an open set have just the records that were written. Where less is left of a zone, closed or not, it has the
/// first ones of them.
pub fn zones_have_the_records()
    ensures all { ZoneHasRecords }
    ensures first { CutZoneHasFirst }
{}

/// The zones of a closed set have the digest behind those records, and a whole foot.
pub fn closed_zones_have_a_foot()
    ensures { ClosedZoneHasFoot }
{}

/// So each live member has just the records of the set, and all that a scan finds of them agree on these.
pub fn members_agree_on_the_records()
    ensures members { MembersHaveRecords }
    ensures agreed { AgreedAreThose }
{}

/// Calls in so many rounds are no more than so many for each member that was live before them.
pub fn rounds_are_few<B: Bay>()
    ensures { (set rounds : ℕ) (t t' : Table) (old new : B) → InRounds set rounds t t' (B.state old) (B.state new)
        → (B.state new).moment ≤ (B.state old).moment + rounds * live_of t set }
{}
