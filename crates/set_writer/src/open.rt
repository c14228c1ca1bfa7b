ghost use Rattle.std.specs.Prelude.{◌≡◌, ◌+◌, ◌*◌, ◌≤◌, ◌<◌, ℕ, [], false, true, None, length, IfSome, IfOk, MatchResult, List, All};
ghost use Rattle.smore_base.specs.Geometry.{IsWithinLimits};
ghost use Rattle.zone_bay.specs.Contents.{IsOfBay};
ghost use Rattle.marker_format.specs.declared.marker.TheConstants.{COUNTER_END};
ghost use Rattle.set_table.specs.Table.{marks_of, with_empty_of, HangsTogether};
ghost use Rattle.set_writer.specs.Entry.{entry_bytes, entries_bytes};
ghost use Rattle.set_writer.specs.Members.{Grows, Spreads, MembersFirm, OthersStay, HoldBlocks};
ghost use Rattle.set_table.specs.Table.{array_of};
ghost use Rattle.marker_format.specs.Plain.{plain_of};
ghost use Rattle.set_writer.specs.Writer.{array_by, begun, behind, written, opening, first_marker, first_record, EmptyHold};
ghost use Rattle.set_writer.specs.Fit.{live_of, has_enough};
ghost use Rattle.set_writer.specs.Rounds.{InRounds};
ghost use Rattle.set_writer.specs.Calls.{IsOf, FitsIn, IsCuts, MayBegin, Began, Opens, OpenRefusal, WereEnough, KeepsRoom};

use crate::append::check_live;
use crate::body::Body;
use crate::first::First;
use crate::line::LINE;
use crate::members::flush_all;
use crate::record::Record;
use crate::refusal::WriteRefusal;
use crate::writer::{FIRST_LINES, SetWriter};
use marker_format::{Kind, Marker};
use rs_code::Code;
use set_table::SetTable;
use smore_base::{BLOCK_BYTES, CONTENT_BYTES, Memory};
use std::alloc::Global;
use zone_bay::Bay;

/// Cuts that a set begins with, at most.
pub const MOST_CUTS: usize = 32;

/// Forms a set of at least so many members on the live drives with the most empty zones, and opens it: its head, cuts of
/// earlier sets (the set, and how many of its records are kept) and a ready record are written on each member and made
/// firm.
pub fn open_set<B: Bay>(
    alloc: Global,
    bay: &mut B,
    table: &mut SetTable,
    id: u64,
    least: u8,
    cuts: &[(u64, u16)],
) -> Result<SetWriter, WriteRefusal>
    requires id { (1 ≤ id) × (id < COUNTER_END) }
    requires cuts { IsCuts id cuts.now }
    requires absent { marks_of id table.old.sets ≡ None }
    requires shape { IsOfBay table.old.geometry (B.state bay.old).shape }
    requires empty { IfSome (B.state bay.old).contents (EmptyHold table.old) }
    ensures answer { MatchResult result
        (λ w. (w ≡ written w id (opening (array_of table.old) id cuts.now)) × (array_by w ≡ array_of table.old)
        × ((room : ℕ) × Opens id cuts.now (record table.old { spare = room }) table.new
        (B.state bay.old) (B.state bay.new))
        × (has_enough table.new id ≡ true))
        (OpenRefusal id least cuts.now table.old table.new (B.state bay.old) (B.state bay.new)) }
    ensures drives { MatchResult result (λ _. least ≤ with_empty_of table.old) (WereEnough least table.old) }
    ensures of { IfOk result (λ w. IsOf w table.new (B.state bay.new)) }
    ensures shape { IsOfBay table.new.geometry (B.state bay.new).shape }
    ensures empty { IfSome (B.state bay.new).contents (EmptyHold table.new) }
    ensures room { KeepsRoom table.old table.new result }
    ensures held { IfOk result (λ w. FitsIn w (opening (array_of table.old) id cuts.now) table.new (B.state bay.new)) }
    ensures own { IfOk result (λ w. (w.set ≡ id) × (w.is_closed ≡ false)) }
    ensures kept { All (λ cut. cut.1 < 65536) cuts.now }
    ensures array { length table.old.array ≡ 16 }
{
    check_cuts(cuts);
    check_array(table);
    let Ok(mut writer) = SetWriter::for_table(alloc, table, id, cuts.len()) else {
        return Err(WriteRefusal::Memory);
    };
    if table.reserve(1).is_err() {
        return Err(WriteRefusal::Memory);
    }
    if let Err(few) = table.form_set(id, least) {
        return Err(WriteRefusal::TooFew { live: few.live });
    }
    writer.begin(bay, table, cuts);
    match check_live(table, id) {
        Ok(()) => Ok(writer),
        Err(refusal) => Err(refusal),
    }
}

/// Each cut keeps so few records that their number has a place in its marker: this only says so.
fn check_cuts(cuts: &[(u64, u16)])
    ensures { All (λ cut. cut.1 < 65536) cuts.now }
{
    for cut in cuts {
        let _ = First::of_cut(*cut);
    }
}

/// The array's number has 16 bytes: this only says so.
pub(crate) fn check_array(table: &SetTable)
    ensures { length table.now.array ≡ 16 }
{
    let _array = table.array();
}

impl SetWriter {
    /// A writer of a set without records, with room for so many cuts.
    fn for_table(
        alloc: Global,
        table: &SetTable,
        set: u64,
        cuts: usize,
    ) -> Result<SetWriter, Memory>
        requires { (1 ≤ set) × (set < COUNTER_END) }
        ensures begun { IfOk result (λ w. w ≡ begun w set) }
        ensures array { IfOk result (λ w. array_by w ≡ array_of table.now) }
        ensures room { IfOk result (λ w. 2 + cuts ≤ w.room) }
        ensures together { HangsTogether table.now }
    {
        let geometry = *table.geometry();
        let code = Code::new(geometry.k, geometry.p);
        let Some(lines) = cuts.checked_add(FIRST_LINES) else {
            return Err(Memory);
        };
        let Some(bytes) = lines.checked_mul(LINE) else {
            return Err(Memory);
        };
        let blocks = 1 + geometry.shard / CONTENT_BYTES;
        let pieces = code.n() as usize * geometry.shard as usize;
        Ok(SetWriter {
            geometry,
            array: table.array(),
            code,
            set,
            used: 0,
            records: 0,
            is_closed: false,
            lines: Vec::with_capacity(alloc, bytes)?,
            room: lines,
            out: vec![in alloc; 0; (BLOCK_BYTES * blocks) as usize]?,
            pieces: vec![in alloc; 0; pieces]?,
        })
    }

    /// A marker without what only some kinds have.
    pub(crate) fn plain_marker(&self, kind: Kind) -> Marker
        requires { self.now.records < 65536 }
        ensures { result ≡ plain_of (array_by self.now) self.now.set kind self.now.records }
    {
        let n = self.geometry.k + self.geometry.p;
        Marker::plain(
            kind,
            self.geometry.k,
            n,
            self.set,
            self.records as u16,
            self.array,
        )
    }

    /// Writes the first records of a set on its members, and makes them firm.
    pub(crate) fn begin<B: Bay>(&mut self, bay: &mut B, table: &mut SetTable, cuts: &[(u64, u16)])
        requires of { IsOf self.old table.old (B.state bay.old) }
        requires begun { self.old ≡ begun self.old self.old.set }
        requires set { (1 ≤ self.old.set) × (self.old.set < COUNTER_END) }
        requires cuts { IsCuts self.old.set cuts.now }
        requires room { 2 + length cuts.now ≤ self.old.room }
        requires held { IfSome (B.state bay.old).contents (HoldBlocks table.old self.old.set 0) }
        ensures began { Began self.old (opening (array_by self.old) self.old.set cuts.now) self.new
            table.old table.new (B.state bay.old) (B.state bay.new) }
        ensures firm { MembersFirm self.old.set table.new (B.state bay.new) }
        ensures others { OthersStay self.old.set table.old (B.state bay.old) (B.state bay.new) }
        ensures calls { InRounds self.old.set (length cuts.now + 3) table.old table.new (B.state bay.old) (B.state bay.new) }
    {
        let _ = &self.geometry;
        self.push_first(bay, table, First::Opens);
        for cut in cuts {
            self.push_first(bay, table, First::of_cut(*cut));
        }
        self.push_first(bay, table, First::IsReady);
        flush_all(bay, table, self.set);
    }

    fn first_marker(&self, first: First) -> Marker
        requires { self.now.records < 65536 }
        ensures { result ≡ first_marker (array_by self.now) self.now.set self.now.records first }
    {
        match first {
            First::Opens => self.plain_marker(Kind::Head),
            First::Keeps { target, kept } => Marker {
                upload: target,
                length: u32::from(kept),
                ..self.plain_marker(Kind::Cut)
            },
            First::IsReady => self.plain_marker(Kind::Ready),
        }
    }

    /// Puts a first record on the members.
    fn push_first<B: Bay>(&mut self, bay: &mut B, table: &mut SetTable, first: First)
        requires of { IsOf self.old table.old (B.state bay.old) }
        requires open { self.old.is_closed ≡ false }
        requires blocks { self.old.used ≡ self.old.records }
        requires few { self.old.records ≤ 33 }
        requires room { self.old.records + 1 ≤ self.old.room }
        requires set { (1 ≤ self.old.set) × (self.old.set < COUNTER_END) }
        requires first { MayBegin self.old.set self.old.records first }
        requires held { IfSome (B.state bay.old).contents (HoldBlocks table.old self.old.set self.old.used) }
        ensures writer { self.new ≡ behind self.old (first_marker (array_by self.old) self.old.set self.old.records first) }
        ensures spread { Spreads self.old.set (entry_bytes self.old.geometry.k
            (first_record (array_by self.old) self.old.set self.old.records first))
            table.old table.new (B.state bay.old) (B.state bay.new) }
        ensures held { IfSome (B.state bay.new).contents (HoldBlocks table.new self.new.set self.new.used) }
        ensures calls { (B.state bay.new).moment ≤ (B.state bay.old).moment + live_of table.old self.old.set }
    {
        let _ = &self.geometry;
        let marker = self.first_marker(first);
        let item = Record {
            marker: &marker,
            body: Body::Empty,
        };
        self.push(bay, table, item);
    }
}
