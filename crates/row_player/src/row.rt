//! Files of rows.

use crate::does::{Does, Language};
use crate::fault::Fault;
use crate::line::Line;
use crate::reading::{line_of, words_of};
use smore_base::Geometry;
use std::alloc::Global;
use std::mem;

/// Lines up to a variation, or to the row's end.
#[derive(Drop)]
pub struct Segment {
    pub lines: Vec<Line>,
    /// How what stands above is played again, for what stands below.
    pub variation: Option<Line>,
}

impl Segment {
    /// How many drives are chosen for it.
    pub fn chosen(&self) -> u8 {
        for line in &self.lines {
            if line.does.chooses() {
                return line.number_u8(0);
            }
        }
        0
    }

    /// The place behind the last line at which the bay becomes an image; 0 where none does.
    pub fn last_image(&self) -> usize {
        let mut behind = 0usize;
        for (at, line) in self.lines.iter().enumerate() {
            if line.does.is_image() {
                behind = at.saturating_add(1);
            }
        }
        behind
    }
}

/// A scenario over a fresh array of this geometry.
#[derive(Drop)]
pub struct Row {
    pub geometry: Geometry,
    pub segments: Vec<Segment>,
}

/// What each field of a geometry has to be, by its number.
const LIMITS: [&str; 7] = [
    "array DRIVES K P ZONES BLOCKS SHARD within the limits",
    "array DRIVES K P ZONES BLOCKS SHARD, with DRIVES from K + P to 24",
    "array DRIVES K P ZONES BLOCKS SHARD, with K from 1 to 19",
    "array DRIVES K P ZONES BLOCKS SHARD, with P from 1 to 20 - K",
    "array DRIVES K P ZONES BLOCKS SHARD, with ZONES from 4 to 4096",
    "array DRIVES K P ZONES BLOCKS SHARD, with BLOCKS from 128 to 524288",
    "array DRIVES K P ZONES BLOCKS SHARD, with SHARD a multiple of 511 to 65408 and 511 * BLOCKS / 4",
];

fn geometry_of(alloc: Global, line: &Line) -> Result<Geometry, Fault> {
    let geometry = Geometry {
        drives: line.number_u8(0),
        k: line.number_u8(1),
        p: line.number_u8(2),
        zones: line.number_u16(3),
        blocks: line.number_u32(4),
        shard: line.number_u32(5),
    };
    let Err(fault) = geometry.check() else {
        return Ok(geometry);
    };
    let wanted = match LIMITS.get(usize::from(fault.field)) {
        Some(wanted) => *wanted,
        None => "array DRIVES K P ZONES BLOCKS SHARD within the limits",
    };
    Err(Fault::wanted(alloc, wanted))
}

/// Rows as far as they were read.
#[derive(Drop)]
struct Reader {
    alloc: Global,
    language: Language,
    rows: Vec<Row>,
    /// The geometry and the whole segments of the row that is being read.
    row: Option<Row>,
    lines: Vec<Line>,
    in_run: bool,
    /// Behind a call on a set its answer is owed.
    owes_answer: bool,
}

/// The place of the `=` behind other words.
fn answer_at(words: &[&str]) -> Option<usize> {
    for (at, word) in words.iter().enumerate() {
        if *word == "=" && at > 0 {
            return Some(at);
        }
    }
    None
}

impl Reader {
    /// Takes the words of the next line, by its number. What stands behind a `=` is a line of its own.
    fn take(&mut self, number: usize, words: &[&str]) -> Result<(), Fault> {
        match answer_at(words) {
            Some(at) if !self.in_run => {
                let (call, answer) = words.split_at(at.min(words.len()));
                self.take_line(number, call)?;
                self.take_line(number, answer)
            }
            _ => self.take_line(number, words),
        }
    }

    fn take_line(&mut self, number: usize, words: &[&str]) -> Result<(), Fault> {
        if words.is_empty() {
            return Ok(());
        }
        let line = line_of(self.alloc, number, words, self.language, self.in_run)?;
        if matches!(line.does, Does::Array) {
            return self.begin(&line);
        }
        if self.row.is_none() {
            return Err(Fault::wanted(self.alloc, "array, with which a row begins"));
        }
        if line.does.is_variation() {
            return self.end_segment(Some(line));
        }
        self.add(line)
    }

    fn begin(&mut self, line: &Line) -> Result<(), Fault> {
        let geometry = geometry_of(self.alloc, line)?;
        self.end_row()?;
        self.row = Some(Row {
            geometry,
            segments: Vec::new(self.alloc),
        });
        Ok(())
    }

    fn has_choice(&self) -> bool {
        for line in &self.lines {
            if line.does.chooses() {
                return true;
            }
        }
        false
    }

    fn add(&mut self, line: Line) -> Result<(), Fault> {
        let is_answer = line.does.is_reply() && !self.in_run;
        if is_answer != self.owes_answer {
            return Err(Fault::wanted(self.alloc, "= and an answer behind a call on a set"));
        }
        if line.does.chooses() && self.has_choice() {
            let wanted = "a variation before the next line with each";
            return Err(Fault::wanted(self.alloc, wanted));
        }
        self.owes_answer = line.does.is_set_call();
        match line.does {
            Does::Run => self.in_run = true,
            Does::Status => self.in_run = false,
            Does::StatusAt => self.in_run = false,
            _ => {}
        }
        self.lines.push(line)?;
        Ok(())
    }

    fn end_segment(&mut self, variation: Option<Line>) -> Result<(), Fault> {
        let lines = mem::replace(&mut self.lines, Vec::new(self.alloc));
        if self.owes_answer {
            return Err(Fault::wanted(self.alloc, "= and an answer behind the call"));
        }
        if let Some(row) = &mut self.row {
            row.segments.push(Segment { lines, variation })?;
        }
        Ok(())
    }

    fn end_row(&mut self) -> Result<(), Fault> {
        self.end_segment(None)?;
        if let Some(row) = self.row.take() {
            self.rows.push(row)?;
        }
        Ok(())
    }

    /// The rows that were read. A run without its `status` has no end.
    fn end(mut self) -> Result<Vec<Row>, Fault> {
        if self.in_run {
            return Err(Fault::wanted(self.alloc, "status, with which a run ends"));
        }
        self.end_row()?;
        let Reader { rows, .. } = self;
        Ok(rows)
    }
}

/// Takes a line as it stands.
fn take_text(reader: &mut Reader, number: usize, text: &str) -> Result<(), Fault> {
    let words = words_of(reader.alloc, text)?;
    reader.take(number, &words)
}

/// The rows of a file's text; at a fault the number of its line.
pub fn rows_of(alloc: Global, language: Language, text: &str) -> Result<Vec<Row>, (usize, Fault)> {
    let mut reader = Reader {
        alloc,
        language,
        rows: Vec::new(alloc),
        row: None,
        lines: Vec::new(alloc),
        in_run: false,
        owes_answer: false,
    };
    let mut number = 0usize;
    for line in text.lines() {
        number = number.saturating_add(1);
        if let Err(fault) = take_text(&mut reader, number, line) {
            return Err((number, fault));
        }
    }
    match reader.end() {
        Ok(rows) => Ok(rows),
        Err(fault) => Err((number, fault)),
    }
}
