ghost use Rattle.std.specs.Prelude.{◌≡◌, ◌+◌, ◌*◌, ◌≤◌, ◌<◌, false, length, OnOk, List};
ghost use Rattle.smore_base.specs.declared.limits.TheConstants.{BLOCK_BYTES};
ghost use Rattle.zone_bay.specs.Contents.{Contents};
ghost use Rattle.set_writer.specs.Entry.{Entry};
ghost use Rattle.set_writer.specs.Writer.{Writer, CanDigest, spare_of, Fits};
ghost use Rattle.set_writer.specs.Fit.{live_of, has_enough};
ghost use Rattle.set_table.specs.Table.{Table, HangsTogether};

use crate::line::LINE;
use rs_code::Code;
use set_table::SetTable;
use smore_base::{Geometry, Memory};
use std::marker::Model;

/// The lines that each set begins with: those of its head and its ready record.
pub(crate) const FIRST_LINES: usize = 2;

/// Writes a set: records are appended to the zones of its members, and it is closed by a digest.
///
/// A member whose call fails is lost in the table, and the set goes on with the others. Of the calls `open_set` and
/// `reserve` alone take memory.
#[derive(Drop)]
pub struct SetWriter {
    pub(crate) geometry: Geometry,
    pub(crate) array: [u8; 16],
    pub(crate) code: Code,
    pub(crate) set: u64,
    pub(crate) used: u32,
    pub(crate) records: u32,
    pub(crate) is_closed: bool,
    /// The spelled lines of the records so far.
    pub(crate) lines: Vec<u8>,
    /// For how many lines there is room.
    pub(crate) room: usize,
    /// The blocks of a record in one zone.
    pub(crate) out: Vec<u8>,
    /// The fragments of a digest record.
    pub(crate) pieces: Vec<u8>,
}

impl Model for SetWriter {
    ghost use Rattle.std.specs.Prelude.{length};
    ghost use Rattle.std.specs.Vec.{vec_capacity};
    ghost use Rattle.set_writer.specs.Writer.{Writer};
    ghost use Rattle.set_writer.specs.Inside.{KeepsWriter};

    ghost Value = { Writer };

    ghost view = { λ w. record {
      geometry = w.geometry;
      id = w.array;
      set = w.set;
      used = w.used;
      records = w.records;
      lines = w.lines.items;
      is_closed = w.is_closed;
      room = w.room;
    } };

    ghost invariant = { λ w. KeepsWriter w.geometry w.code.k w.code.p
        (record { out = length w.out.items; pieces = length w.pieces.items; room = w.room; capacity = vec_capacity w.lines })
        (record { set = w.set; used = w.used; records = w.records; lines = length w.lines.items; is_closed = w.is_closed }) };
}

impl SetWriter {
    /// Finds room for so many records more, and for the closing of each set that they may fill.
    pub fn reserve(&mut self, records: usize) -> Result<(), Memory>
        ensures room { OnOk result (records ≤ spare_of self.new) }
        ensures kept { self.new ≡ record self.old { room = self.new.room } }
        ensures no_less { self.old.room ≤ self.new.room }
        ensures held { (es : List Entry) (t : Table) (held : Contents) → Fits self.old es t held → Fits self.new es t held }
    {
        let Some(lines) = records.checked_add(FIRST_LINES) else {
            return Err(Memory);
        };
        let Some(bytes) = lines.checked_mul(LINE) else {
            return Err(Memory);
        };
        self.lines.reserve(bytes)?;
        let room = self.lines.len() / LINE + lines;
        if room > self.room {
            self.room = room;
        }
        Ok(())
    }

    /// The set's number.
    pub fn set(&self) -> u64
        ensures { result ≡ self.now.set }
    {
        self.set
    }

    /// The blocks that the set has used in each zone.
    pub fn used(&self) -> u32
        ensures { result ≡ self.now.used }
    {
        self.used
    }

    /// How many records the set has.
    pub fn records(&self) -> u16
        ensures { result ≡ self.now.records }
    {
        self.records as u16
    }

    /// Whether the set is closed.
    pub fn closed(&self) -> bool
        ensures { result ≡ self.now.is_closed }
    {
        self.is_closed
    }

    /// Does nothing. Its contract says that a set which isn't closed can be: its digest, a foot and a trailer fit it.
    pub fn can_be_closed(&self)
        ensures { self.now.is_closed ≡ false → CanDigest self.now }
    {
        let id: &[u8] = &self.array;
        let bytes = id.len();
        prove!(bytes == 16);
    }

    /// How many of the set's members are live.
    pub fn live(&self, table: &SetTable) -> u8
        ensures { result ≡ live_of table.now self.now.set }
    {
        live_members(table, self.set)
    }
}

/// How many members of the set are live.
pub(crate) fn live_members(table: &SetTable, set: u64) -> u8
    ensures live { result ≡ live_of table.now set }
    ensures together { HangsTogether table.now }
{
    let geometry = table.geometry();
    geometry.k + geometry.p - table.missing(set)
}
