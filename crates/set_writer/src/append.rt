ghost use Rattle.std.specs.Prelude.{◌≡◌, ◌+◌, ◌*◌, ◌≤◌, ◌<◌, false, true, length, IfSome, MatchResult, List, [], ◌∷◌, ◌++◌, ℕ};
ghost use Rattle.smore_base.specs.Room.{record_blocks};
ghost use Rattle.set_writer.specs.Fit.{live_of, has_enough};
ghost use Rattle.set_writer.specs.Refusal.{ShortRefusal};

use crate::body::Body;
use crate::line::spelled_line;
use crate::members::flush_all;
use crate::record::{Record, put_all};
use crate::refusal::WriteRefusal;
use crate::writer::{SetWriter, live_members};
use marker_format::Marker;
use rs_code::Coded;
use set_table::SetTable;
use smore_base::{MAX_RECORDS, Place, closing, digest_records, record_blocks};
use zone_bay::Bay;

/// Refuses where fewer than k members of the set are live.
pub(crate) fn check_live(table: &SetTable, set: u64) -> Result<(), WriteRefusal>
    ensures { MatchResult result (λ _. has_enough table.now set ≡ true) (ShortRefusal table.now set) }
{
    let geometry = table.geometry();
    if live_members(table, set) >= geometry.k {
        return Ok(());
    }
    Err(WriteRefusal::Short {
        set,
        missing: table.missing(set),
    })
}

impl SetWriter {
    ghost use Rattle.marker_format.specs.Zone.{blocks_of};
    ghost use Rattle.set_digest.specs.Line.{spelling_of};
    ghost use Rattle.set_writer.specs.Entry.{Entry, at_index, IsEntry, HasBytes, entry_bytes};
    ghost use Rattle.set_writer.specs.Body.{entry_of, IsBody};
    ghost use Rattle.set_writer.specs.Members.{Spreads, Flushes, HoldBlocks};
    ghost use Rattle.set_writer.specs.Writer.{Writer, array_by, behind, spare_of, listed_of, IsAppended, Fits};
    ghost use Rattle.set_writer.specs.Fit.{fits_in, IsLeft};
    ghost use Rattle.set_writer.specs.Refusal.{AppendRefusal};
    ghost use Rattle.set_writer.specs.Calls.{IsOf, FitsIn, FitsSome};

    /// The most blocks of a record that fits, or 0 where none does.
    fn left(&self) -> u32
        requires { self.now.is_closed ≡ false }
        ensures { IsLeft self.now result }
    {
        let records = self.records + 1;
        if records + digest_records(&self.geometry, records) > MAX_RECORDS {
            return 0;
        }
        let closing = closing(&self.geometry, records);
        self.geometry
            .blocks
            .saturating_sub(self.used)
            .saturating_sub(closing)
    }

    /// Puts the record on the members, behind the last one, and its line behind theirs.
    pub(crate) fn push<B: Bay>(&mut self, bay: &mut B, table: &mut SetTable, item: Record)
        requires of { IsOf self.old table.old (B.state bay.old) }
        requires open { self.old.is_closed ≡ false }
        requires room { listed_of self.old + 1 ≤ self.old.room }
        requires fits { fits_in self.old (blocks_of item.marker.now) ≡ true }
        requires entry { IsEntry (array_by self.old) (entry_of item) }
        requires set { item.marker.now.set ≡ self.old.set }
        requires body { IsBody self.old.geometry.k self.old.geometry.p item.body }
        requires held { IfSome (B.state bay.old).contents (HoldBlocks table.old self.old.set self.old.used) }
        ensures bytes { HasBytes (entry_of item.entry) }
        ensures writer { self.new ≡ behind self.old item.entry.marker.now }
        ensures spread { Spreads self.old.set (entry_bytes self.old.geometry.k (entry_of item.entry))
            table.old table.new (B.state bay.old) (B.state bay.new) }
        ensures held { IfSome (B.state bay.new).contents (HoldBlocks table.new self.new.set self.new.used) }
        ensures calls { (B.state bay.new).moment ≤ (B.state bay.old).moment + live_of table.old self.old.set }
    {
        put_all(bay, table, &self.code, item, self.out.as_mut_slice());
        let line = spelled_line(item.marker, self.used);
        let _ = self.lines.extend_from_slice(&line);
        self.used += record_blocks(u32::from(item.marker.fragment));
        self.records += 1;
    }

    /// Appends a record to the set: to each live member by one call. `NoFit` comes before anything is written. `Short`
    /// comes where fewer than k members are live then; the record counts as appended.
    pub fn append_record<B: Bay>(
        &mut self,
        bay: &mut B,
        table: &mut SetTable,
        m: &Marker,
        body: &Coded,
    ) -> Result<Place, WriteRefusal>
        requires of { IsOf self.old table.old (B.state bay.old) }
        requires open { self.old.is_closed ≡ false }
        requires spare { 1 ≤ spare_of self.old }
        requires record { IsAppended self.old m.now body.now }
        requires held { FitsSome self.old table.old (B.state bay.old) }
        ensures answer { MatchResult result
            (λ place. (fits_in self.old (record_blocks m.now.fragment) ≡ true)
            × (place ≡ record { set = self.old.set; position = self.old.records; block = self.old.used })
            × (has_enough table.new self.old.set ≡ true))
            (AppendRefusal self.old (record_blocks m.now.fragment) table.new) }
        ensures refused { fits_in self.old (record_blocks m.now.fragment) ≡ false
            → (self.new ≡ self.old) × (table.new ≡ table.old) × (bay.new ≡ bay.old) }
        ensures writer { fits_in self.old (record_blocks m.now.fragment) ≡ true → self.new ≡ behind self.old m.now }
        ensures spread { fits_in self.old (record_blocks m.now.fragment) ≡ true
            → Spreads self.old.set (entry_bytes self.old.geometry.k (record { marker = m.now; payload = body.now.payload }))
            table.old table.new (B.state bay.old) (B.state bay.new) }
        ensures calls { (B.state bay.new).moment ≤ (B.state bay.old).moment + live_of table.old self.old.set }
        ensures spare { spare_of self.old ≤ spare_of self.new + 1 }
        ensures of { IsOf self.new table.new (B.state bay.new) }
        ensures held { fits_in self.old (record_blocks m.now.fragment) ≡ true → (es : List Entry)
            → FitsIn self.old es table.old (B.state bay.old)
            → FitsIn self.new (es ++ record { marker = at_index 0 m.now; payload = body.now.payload } ∷ [])
            table.new (B.state bay.new) }
    {
        let blocks = record_blocks(u32::from(m.fragment));
        let left = self.left();
        if blocks > left {
            return Err(WriteRefusal::NoFit { blocks, left });
        }
        let place = Place {
            set: self.set,
            position: self.records as u16,
            block: self.used,
        };
        let item = Record {
            marker: m,
            body: Body::Whole(body),
        };
        self.push(bay, table, item);
        match check_live(table, self.set) {
            Ok(()) => Ok(place),
            Err(refusal) => Err(refusal),
        }
    }

    /// Makes firm all that the live members hold. Refused where fewer than k are live then.
    pub fn flush<B: Bay>(&mut self, bay: &mut B, table: &mut SetTable) -> Result<(), WriteRefusal>
        requires of { IsOf self.old table.old (B.state bay.old) }
        requires held { FitsSome self.old table.old (B.state bay.old) }
        ensures answer { MatchResult result (λ _. has_enough table.new self.old.set ≡ true)
            (ShortRefusal table.new self.old.set) }
        ensures writer { self.new ≡ self.old }
        ensures flushed { Flushes self.old.set table.old table.new (B.state bay.old) (B.state bay.new) }
        ensures of { IsOf self.new table.new (B.state bay.new) }
        ensures calls { (B.state bay.new).moment ≤ (B.state bay.old).moment + live_of table.old self.old.set }
        ensures held { (es : List Entry) → FitsIn self.old es table.old (B.state bay.old)
            → FitsIn self.new es table.new (B.state bay.new) }
    {
        flush_all(bay, table, self.set);
        check_live(table, self.set)
    }
}
