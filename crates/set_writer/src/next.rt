ghost use Rattle.std.specs.Prelude.{◌≡◌, ◌≢◌, ◌+◌, ◌≤◌, ◌<◌, [], true, false, None, length, IfSome, OnOk, MatchResult};
ghost use Rattle.marker_format.specs.declared.marker.TheConstants.{COUNTER_END};
ghost use Rattle.set_table.specs.Table.{marks_of, HangsTogether};
ghost use Rattle.set_writer.specs.Members.{MembersFirm, OthersStay, HoldBlocks};
ghost use Rattle.set_writer.specs.Writer.{array_by, begun, opening, spare_of, EmptyHold, CanDigest};
ghost use Rattle.set_writer.specs.Fit.{has_enough};
ghost use Rattle.set_writer.specs.Rounds.{InRounds};
ghost use Rattle.set_writer.specs.Refusal.{ShortRefusal};
ghost use Rattle.set_writer.specs.Calls.{IsOf, FitsSome, Began, Ends, Follows, NextRefusal, StillFits, OldHolds, closes_first, ended};

use crate::append::check_live;
use crate::open::check_array;
use crate::refusal::WriteRefusal;
use crate::writer::{SetWriter, live_members};
use set_table::SetTable;
use zone_bay::Bay;

impl SetWriter {
    /// Closes the set, where it has at least k live members and isn't closed, and opens the next one: its head and a ready
    /// record are written on each member and made firm. `Short` of the old set where the closing leaves fewer than k of
    /// its members, and then no set is formed.
    pub fn next_set<B: Bay>(
        &mut self,
        bay: &mut B,
        table: &mut SetTable,
        id: u64,
        least: u8,
    ) -> Result<(), WriteRefusal>
        requires of { IsOf self.old table.old (B.state bay.old) }
        requires id { (1 ≤ id) × (id < COUNTER_END) }
        requires absent { marks_of id table.old.sets ≡ None }
        requires room { 1 ≤ table.old.spare }
        requires held { FitsSome self.old table.old (B.state bay.old) }
        ensures answer { MatchResult result
            (λ _. Follows id least self.old self.new table.old table.new (B.state bay.old) (B.state bay.new)
            × (has_enough table.new id ≡ true))
            (NextRefusal id least self.old self.new table.old table.new (B.state bay.old) (B.state bay.new)) }
        ensures spare { spare_of self.old ≤ spare_of self.new }
        ensures of { IsOf self.new table.new (B.state bay.new) }
        ensures held { FitsSome self.new table.new (B.state bay.new) }
        ensures can { closes_first self.old table.old ≡ true → CanDigest self.old }
        ensures old { self.old.set ≢ id → OldHolds self.old table.old table.new (B.state bay.old) (B.state bay.new) }
        ensures room { table.old.spare ≤ table.new.spare + 1 }
        ensures own { OnOk result ((self.new.set ≡ id) × (self.new.is_closed ≡ false)) }
        ensures array { length table.old.array ≡ 16 }
    {
        check_array(table);
        if let Err(refusal) = self.end(bay, table) {
            return Err(refusal);
        }
        if let Err(few) = table.form_set(id, least) {
            return Err(WriteRefusal::TooFew { live: few.live });
        }
        self.start(bay, table, id);
        check_live(table, self.set)
    }

    /// Closes the set, where it has at least k live members and isn't closed.
    fn end<B: Bay>(&mut self, bay: &mut B, table: &mut SetTable) -> Result<(), WriteRefusal>
        requires of { IsOf self.old table.old (B.state bay.old) }
        requires held { FitsSome self.old table.old (B.state bay.old) }
        ensures answer { MatchResult result
            (λ _. closes_first self.old table.old ≡ true → has_enough table.new self.old.set ≡ true)
            (λ refusal. (closes_first self.old table.old ≡ true) × ShortRefusal table.new self.old.set refusal) }
        ensures writer { self.new ≡ ended self.old table.old }
        ensures ends { Ends self.old table.old table.new (B.state bay.old) (B.state bay.new) }
        ensures of { IsOf self.new table.new (B.state bay.new) }
        ensures together { HangsTogether table.old }
        ensures held { StillFits self.old self.new table.old table.new (B.state bay.old) (B.state bay.new) }
        ensures can { closes_first self.old table.old ≡ true → CanDigest self.old }
    {
        let live = live_members(table, self.set);
        if self.is_closed || live < self.code.k {
            return Ok(());
        }
        self.close_with_digest(bay, table)
    }

    /// Starts over with an empty set of this number, and writes its first records.
    fn start<B: Bay>(&mut self, bay: &mut B, table: &mut SetTable, id: u64)
        requires of { IsOf self.old table.old (B.state bay.old) }
        requires id { (1 ≤ id) × (id < COUNTER_END) }
        requires held { IfSome (B.state bay.old).contents (HoldBlocks table.old id 0) }
        ensures began { Began (begun self.old id) (opening (array_by self.old) id []) self.new
            table.old table.new (B.state bay.old) (B.state bay.new) }
        ensures firm { MembersFirm id table.new (B.state bay.new) }
        ensures others { OthersStay id table.old (B.state bay.old) (B.state bay.new) }
        ensures calls { InRounds id 3 table.old table.new (B.state bay.old) (B.state bay.new) }
    {
        self.set = id;
        self.used = 0;
        self.records = 0;
        self.is_closed = false;
        self.lines.clear();
        self.begin(bay, table, &[]);
    }
}
