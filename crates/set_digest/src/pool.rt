//! The lines of many sets in one list.
ghost use Rattle.std.specs.Prelude.{◌≡◌, ◌+◌, ◌<◌, ◌≤◌, ◌^◌, ◌++◌, ℕ, [], length, map, take, drop, OnOk};
ghost use Rattle.std.specs.Vec.{vec_capacity};
ghost use Rattle.std.specs.List.{slice_index_or, slice_set, insert, remove};
ghost use Rattle.set_digest.specs.Catalogue.{lengthened, shortened, begun_by};
ghost use Rattle.set_digest.specs.Pool.{listed_at, begin_of, moved_up, moved_down, KeepsRows};

use crate::line::Line;
use smore_base::Memory;
use std::alloc::Global;
use std::marker::Model;

/// Where the lines of a set stand.
#[derive(Clone, Copy, Debug)]
pub(crate) struct Row {
    set: u64,
    start: usize,
    count: usize,
}

impl Row {
    /// Where its lines begin, once it has one more: behind all others where it has none yet.
    fn begin(self, behind: usize) -> usize
        ensures { result ≡ begin_of behind self }
    {
        if self.count == 0 { behind } else { self.start }
    }

    /// One line later, where it has lines, and they begin there or behind it.
    fn moved_up(self, from: usize) -> Row
        requires { self.start + 1 < 2 ^ 64 }
        ensures { result ≡ moved_up from self }
    {
        if self.count == 0 || self.start < from {
            return self;
        }
        Row {
            start: self.start + 1,
            ..self
        }
    }

    /// So many lines earlier, where its lines begin there or behind it.
    fn moved_down(self, end: usize, count: usize) -> Row
        requires { count ≤ end }
        ensures { result ≡ moved_down end count self }
    {
        if self.start < end {
            return self;
        }
        Row {
            start: self.start - count,
            ..self
        }
    }
}

/// Rows of sets, in an order that the caller chooses, and their lines. Contracts see a list of the sets with their lines, and
/// for how many more rows and lines there is room.
///
/// The lines of a row stand together, and those of different rows in the order in which they got their first line. So a line of
/// the row that got the last one is put at the end, and nothing is moved.
#[derive(Drop)]
pub(crate) struct Pool {
    rows: Vec<Row>,
    lines: Vec<Line>,
}

impl Model for Pool {
    ghost use Rattle.std.specs.Prelude.{◌-◌, length, map};
    ghost use Rattle.std.specs.Vec.{vec_capacity};
    ghost use Rattle.set_digest.specs.Pool.{Pooled, listed_by, KeepsRows};

    ghost Value = { Pooled };

    ghost view = { λ p. record {
      listed = map (listed_by p.lines.items) p.rows.items;
      spare_rows = vec_capacity p.rows - length p.rows.items;
      spare_lines = vec_capacity p.lines - length p.lines.items;
    } };

    ghost invariant = { λ p. KeepsRows p.rows.items p.lines.items };
}

impl Pool {
    /// No row.
    pub(crate) fn new(alloc: Global) -> Pool
        ensures { result.listed ≡ [] }
    {
        Pool {
            rows: Vec::new(alloc),
            lines: Vec::new(alloc),
        }
    }

    /// Finds room for so many rows and lines more.
    pub(crate) fn reserve(&mut self, rows: usize, lines: usize) -> Result<(), Memory>
        ensures kept { self.new.listed ≡ self.old.listed }
        ensures rows { OnOk result (rows ≤ self.new.spare_rows) }
        ensures lines { OnOk result (lines ≤ self.new.spare_lines) }
        ensures no_fewer_rows { self.old.spare_rows ≤ self.new.spare_rows }
        ensures no_fewer_lines { self.old.spare_lines ≤ self.new.spare_lines }
    {
        self.rows.reserve(rows)?;
        self.lines.reserve(lines)?;
        Ok(())
    }

    /// Puts a line at the end of the row's lines.
    pub(crate) fn put_line(&mut self, at: usize, line: Line)
        requires row { at < length self.old.listed }
        requires room { 1 ≤ self.old.spare_lines }
        ensures listed { self.new.listed ≡ slice_set self.old.listed at (lengthened line (listed_at self.old.listed at)) }
        ensures rows { self.new.spare_rows ≡ self.old.spare_rows }
        ensures lines { self.new.spare_lines + 1 ≡ self.old.spare_lines }
    {
        let row = self.rows[at];
        let start = row.begin(self.lines.len());
        let end = start + row.count;
        move_up(&mut self.rows, end, &self.lines);
        self.rows[at] = Row {
            set: row.set,
            start,
            count: row.count + 1,
        };
        let _ = self.lines.insert(end, line);
    }

    /// Puts a row of one line in, before the row of that number.
    pub(crate) fn put_row(&mut self, at: usize, set: u64, line: Line)
        requires row { at ≤ length self.old.listed }
        requires room { 1 ≤ self.old.spare_rows }
        requires line_room { 1 ≤ self.old.spare_lines }
        ensures listed { self.new.listed ≡ insert self.old.listed at (begun_by set line) }
        ensures rows { self.new.spare_rows + 1 ≡ self.old.spare_rows }
        ensures lines { self.new.spare_lines + 1 ≡ self.old.spare_lines }
    {
        let start = self.lines.len();
        let row = Row {
            set,
            start,
            count: 1,
        };
        let _ = self.rows.insert(at, row);
        let _ = self.lines.insert(start, line);
    }

    /// Keeps only the first so many of the row's lines.
    pub(crate) fn cut_row(&mut self, at: usize, count: usize)
        requires row { at < length self.old.listed }
        requires has { count ≤ length (listed_at self.old.listed at).lines }
        ensures listed { self.new.listed ≡ slice_set self.old.listed at (shortened count (listed_at self.old.listed at)) }
        ensures rows { self.new.spare_rows ≡ self.old.spare_rows }
        ensures lines { self.new.spare_lines + count ≡ self.old.spare_lines + length (listed_at self.old.listed at).lines }
    {
        let row = self.rows[at];
        if count == row.count {
            return;
        }
        let end = row.start + row.count;
        move_down(&mut self.rows, end, row.count - count);
        let cut = Row { count, ..row };
        self.rows[at] = Row {
            start: cut.begin(0),
            ..cut
        };
        take_out(&mut self.lines, row.start + count, end);
    }

    /// Takes the row out, and its lines.
    pub(crate) fn take_row(&mut self, at: usize)
        requires { at < length self.old.listed }
        ensures listed { self.new.listed ≡ remove self.old.listed at }
        ensures rows { self.new.spare_rows ≡ self.old.spare_rows + 1 }
        ensures lines { self.new.spare_lines ≡ self.old.spare_lines + length (listed_at self.old.listed at).lines }
    {
        self.cut_row(at, 0);
        self.rows.remove(at);
    }

    /// The row's lines.
    pub(crate) fn lines(&self, at: usize) -> &[Line]
        requires { at < length self.now.listed }
        ensures { result.now ≡ (listed_at self.now.listed at).lines }
    {
        let row = self.rows[at];
        &self.lines[row.start..row.start + row.count]
    }
}

/// A line is to be put in there among these: rows whose lines begin there or behind it begin one line later. There are none
/// where it is put at the end.
fn move_up(rows: &mut [Row], from: usize, lines: &[Line])
    requires { KeepsRows rows.old lines.now }
    ensures { rows.new ≡ map (moved_up from) rows.old }
{
    if from >= lines.len() {
        return;
    }
    for row in rows {
        *row = row.moved_up(from);
    }
}

/// So many lines that ended there were taken out: rows that begin there or behind it begin as many lines earlier.
fn move_down(rows: &mut [Row], end: usize, count: usize)
    requires { count ≤ end }
    ensures { rows.new ≡ map (moved_down end count) rows.old }
{
    for row in rows {
        *row = row.moved_down(end, count);
    }
}

/// Takes out the lines from one place to another.
fn take_out(lines: &mut Vec<Line>, from: usize, to: usize)
    requires rising { from ≤ to }
    requires within { to ≤ length lines.old.items }
    ensures items { lines.new.items ≡ take from lines.old.items ++ drop to lines.old.items }
    ensures capacity { vec_capacity lines.new ≡ vec_capacity lines.old }
{
    lines.drain(from..to);
}
