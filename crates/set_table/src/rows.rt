//! The sets of a table, by rising number.
ghost use Rattle.std.specs.Prelude.{◌≡◌, ◌⊎◌, ◌+◌, ◌≤◌, ◌<◌, ◌^◌, [], length, IfOk, IfErr, OnOk, IsSome, is_some, if◌then◌else◌};
ghost use Rattle.std.specs.Option.{option_copied};
ghost use Rattle.set_table.specs.Rows.{row_of, no_row, IsRising, IsAt, IsGapFor, IsAbove, PutsRow, TakesRow, IsLeastAbove};

use smore_base::{MAX_FRAGMENTS, Memory};
use std::alloc::Global;
use std::marker::Model;

/// A zone of a drive.
#[derive(Clone, Copy, Debug, PartialEq, Eq)]
pub(crate) struct Place {
    pub(crate) device: u8,
    pub(crate) zone: u16,
}

/// No set zone.
const NOWHERE: Place = Place { device: 0, zone: 0 };

/// A set of a table.
#[derive(Clone, Copy, Debug)]
pub(crate) struct Row {
    pub(crate) set: u64,
    pub(crate) is_settled: bool,
    pub(crate) is_dropped: bool,
    /// By index, the zone that carried it last.
    pub(crate) places: [Place; MAX_FRAGMENTS as usize],
}

impl Row {
    /// A set that nothing carries, which isn't settled nor dropped.
    pub(crate) fn new(set: u64) -> Row
        ensures { result ≡ record no_row { set = set; places = result.places } }
    {
        Row {
            set,
            is_settled: false,
            is_dropped: false,
            places: [NOWHERE; MAX_FRAGMENTS as usize],
        }
    }
}

/// Rows by rising set, with room for more. Contracts see a list of them, and for how many there is room.
#[derive(Drop)]
pub(crate) struct Rows {
    rows: Vec<Row>,
}

impl Model for Rows {
    ghost use Rattle.std.specs.Vec.{vec_capacity};
    ghost use Rattle.set_table.specs.Rows.{RowList, IsRising};

    ghost Value = { RowList };

    ghost view = { λ r. record { rows = r.rows.items; capacity = vec_capacity r.rows } };

    ghost invariant = { λ r. IsRising r.rows.items };
}

impl Rows {
    /// No row.
    pub(crate) fn new(alloc: Global) -> Rows
        ensures { result.rows ≡ [] }
    {
        Rows {
            rows: Vec::new(alloc),
        }
    }

    /// Finds room for so many rows more.
    pub(crate) fn reserve(&mut self, rows: usize) -> Result<(), Memory>
        ensures kept { self.new.rows ≡ self.old.rows }
        ensures room { OnOk result (length self.old.rows + rows ≤ self.new.capacity) }
        ensures no_less { self.old.capacity ≤ self.new.capacity }
    {
        self.rows.reserve(rows)?;
        Ok(())
    }

    /// The set's row.
    pub(crate) fn get(&self, set: u64) -> Option<&Row>
        ensures { option_copied result ≡ row_of set self.now.rows }
    {
        match self.search(set) {
            Ok(at) => Some(&self.rows[at]),
            Err(_) => None,
        }
    }

    /// Puts a row in, in the place of the set's own where it has one.
    pub(crate) fn put(&mut self, row: Row)
        requires { IsSome (row_of row.set self.old.rows) ⊎ (length self.old.rows < self.old.capacity) }
        ensures rows { PutsRow row self.old.rows self.new.rows }
        ensures capacity { self.new.capacity ≡ self.old.capacity }
        ensures length { length self.new.rows ≡ length self.old.rows + (if is_some (row_of row.set self.old.rows) then 0 else 1) }
    {
        match self.search(row.set) {
            Ok(at) => self.rows[at] = row,
            Err(at) => {
                let _ = self.rows.insert(at, row);
            }
        }
    }

    /// Takes the set's row out.
    pub(crate) fn remove(&mut self, set: u64)
        ensures rows { TakesRow set self.old.rows self.new.rows }
        ensures capacity { self.new.capacity ≡ self.old.capacity }
        ensures length { length self.new.rows ≤ length self.old.rows }
    {
        if let Ok(at) = self.search(set) {
            self.rows.remove(at);
        }
    }

    /// The least set above this one.
    pub(crate) fn after(&self, set: u64) -> Option<u64>
        ensures { IsLeastAbove set self.now.rows result }
    {
        let at = self.above(set);
        if at < self.rows.len() {
            Some(self.rows[at].set)
        } else {
            None
        }
    }

    /// Where the rows of greater sets begin.
    fn above(&self, set: u64) -> usize
        ensures { IsAbove self.now.rows set result }
    {
        match self.search(set) {
            Ok(at) => at + 1,
            Err(at) => at,
        }
    }

    /// Where the set's row stands, or would stand.
    fn search(&self, set: u64) -> Result<usize, usize>
        ensures found { IfOk result (IsAt self.now.rows set) }
        ensures absent { IfErr result (IsGapFor self.now.rows set) }
        ensures rising { IsRising self.now.rows }
        ensures few { length self.now.rows < 2 ^ 63 }
    {
        self.rows.binary_search_by_key(&set, |row| row.set)
    }
}
