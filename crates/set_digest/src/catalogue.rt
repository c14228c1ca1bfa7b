ghost use Rattle.std.specs.Prelude.{◌≡◌, ◌⊎◌, ◌+◌, ◌-◌, ◌≤◌, ◌<◌, [], length, OnOk, IfOk, IfErr, IsSome, option_map, is_some, if◌then◌else◌};
ghost use Rattle.set_digest.specs.Catalogue.{sets_of, lines_of, count_of, with_line, cut_to, without, AreRising, IsAt, IsGapFor};

use crate::line::Line;
use crate::pool::Pool;
use smore_base::Memory;
use std::alloc::Global;
use std::marker::Model;

/// The lines of sets, with room for more. Contracts see a list of the sets by rising number, each with its lines, and for how
/// many more sets and lines there is room.
#[derive(Drop)]
pub struct Catalogue {
    /// By rising number.
    sets: Vec<u64>,
    /// A row of each set, in the same order.
    pool: Pool,
}

impl Model for Catalogue {
    ghost use Rattle.std.specs.Prelude.{◌≡◌, ◌-◌, length, min};
    ghost use Rattle.std.specs.Vec.{vec_capacity};
    ghost use Rattle.set_digest.specs.Catalogue.{Catalogued, sets_of, AreRising};

    ghost Value = { Catalogued };

    ghost view = { λ c. record {
      listed = c.pool.listed;
      spare_sets = min (vec_capacity c.sets - length c.sets.items) c.pool.spare_rows;
      spare_lines = c.pool.spare_lines;
    } };

    ghost invariant = { λ c. (c.sets.items ≡ sets_of c.pool.listed) × AreRising c.sets.items };
}

impl Catalogue {
    /// No set.
    pub fn new(alloc: Global) -> Catalogue
        ensures { result.listed ≡ [] }
    {
        Catalogue {
            sets: Vec::new(alloc),
            pool: Pool::new(alloc),
        }
    }

    /// Finds room for so many sets and lines more.
    pub fn reserve(&mut self, sets: usize, lines: usize) -> Result<(), Memory>
        ensures kept { self.new.listed ≡ self.old.listed }
        ensures sets { OnOk result (sets ≤ self.new.spare_sets) }
        ensures lines { OnOk result (lines ≤ self.new.spare_lines) }
        ensures no_fewer_sets { self.old.spare_sets ≤ self.new.spare_sets }
        ensures no_fewer_lines { self.old.spare_lines ≤ self.new.spare_lines }
    {
        self.sets.reserve(sets)?;
        self.pool.reserve(sets, lines)
    }

    /// Adds a line at the end of the set's lines. A set that wasn't listed is from now on.
    pub fn add_line(&mut self, set: u64, line: &Line)
        requires room { 1 ≤ self.old.spare_lines }
        requires set_room { IsSome (lines_of set self.old.listed) ⊎ (1 ≤ self.old.spare_sets) }
        ensures listed { self.new.listed ≡ with_line set line.now self.old.listed }
        ensures sets { self.new.spare_sets ≡ self.old.spare_sets - (if is_some (lines_of set self.old.listed) then 0 else 1) }
        ensures lines { self.new.spare_lines + 1 ≡ self.old.spare_lines }
    {
        match self.search(set) {
            Ok(at) => self.pool.put_line(at, line.copied()),
            Err(at) => {
                let _ = self.sets.insert(at, set);
                self.pool.put_row(at, set, line.copied());
            }
        }
    }

    /// Keeps only the first so many of the set's lines.
    pub fn truncate(&mut self, set: u64, lines: usize)
        requires listed { IsSome (lines_of set self.old.listed) }
        requires has { lines ≤ count_of (lines_of set self.old.listed) }
        ensures listed { self.new.listed ≡ cut_to set lines self.old.listed }
        ensures sets { self.new.spare_sets ≡ self.old.spare_sets }
        ensures lines { self.new.spare_lines + lines ≡ self.old.spare_lines + count_of (lines_of set self.old.listed) }
    {
        match self.search(set) {
            Ok(at) => self.pool.cut_row(at, lines),
            Err(_) => {}
        }
    }

    /// Takes the set out with its lines, where it is listed.
    pub fn remove(&mut self, set: u64)
        ensures listed { self.new.listed ≡ without set self.old.listed }
        ensures sets { self.new.spare_sets ≡ self.old.spare_sets + (if is_some (lines_of set self.old.listed) then 1 else 0) }
        ensures lines { self.new.spare_lines ≡ self.old.spare_lines + count_of (lines_of set self.old.listed) }
    {
        match self.search(set) {
            Ok(at) => {
                self.sets.remove(at);
                self.pool.take_row(at);
            }
            Err(_) => {}
        }
    }

    /// The sets, by rising number.
    pub fn sets(&self) -> &[u64]
        ensures same { result.now ≡ sets_of self.now.listed }
        ensures rising { AreRising result.now }
    {
        &self.sets
    }

    /// The set's lines. None exactly where the set isn't listed.
    pub fn lines(&self, set: u64) -> Option<&[Line]>
        ensures { option_map (λ lines. lines.now) result ≡ lines_of set self.now.listed }
    {
        match self.search(set) {
            Ok(at) => Some(self.pool.lines(at)),
            Err(_) => None,
        }
    }

    /// Where the set stands among the others, or would stand.
    fn search(&self, set: u64) -> Result<usize, usize>
        ensures found { IfOk result (IsAt self.now.listed set) }
        ensures absent { IfErr result (IsGapFor self.now.listed set) }
        ensures rising { AreRising (sets_of self.now.listed) }
    {
        self.sets.binary_search(&set)
    }
}
