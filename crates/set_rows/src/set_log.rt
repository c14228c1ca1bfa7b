//! The sets that a row has written, step by step: so what a crash may leave of them can be told.

use crate::set_marker::{of_digest, of_opening};
use marker_format::Marker;
use smore_base::Geometry;
use std::alloc::{AllocError, Global};

/// The drives that carry a set, and those that are lost, a bit each.
#[derive(Clone, Copy)]
pub(crate) struct Reach {
    pub(crate) members: u32,
    pub(crate) lost: u32,
}

/// How a set stands behind a step.
#[derive(Clone, Copy)]
struct State {
    /// How many steps came before this one.
    step: usize,
    /// So many records are there, whatever is read of the drives.
    least: usize,
    /// So many were put.
    put: usize,
    /// So many are firm.
    firm: usize,
    is_closed: bool,
    reach: Reach,
}

impl State {
    /// So many records are there, where only what is firm is sure to be, or all.
    fn least_of(&self, is_firm: bool) -> usize {
        if is_firm {
            self.least.min(self.firm)
        } else {
            self.least
        }
    }
}

/// A set that was written.
#[derive(Drop)]
struct WrittenSet {
    set: u64,
    /// The set that was closed before this one was opened.
    behind: Option<u64>,
    /// How many records it begins with.
    first: usize,
    records: Vec<Marker>,
    states: Vec<State>,
}

/// What may be there of a set.
#[derive(Drop)]
pub(crate) struct Allowed {
    pub(crate) set: u64,
    /// Where this set is there, that one is closed.
    pub(crate) behind: Option<u64>,
    /// How many records it begins with.
    pub(crate) first: usize,
    /// The records that may be there.
    pub(crate) records: Vec<Marker>,
    /// So many of the first are there.
    pub(crate) least: usize,
    /// Whether it was opened: all its members carry it.
    pub(crate) is_opened: bool,
    pub(crate) is_closed: bool,
    pub(crate) may_be_closed: bool,
    pub(crate) reach: Reach,
}

/// The same markers.
fn copied(alloc: Global, markers: &[Marker]) -> Result<Vec<Marker>, AllocError> {
    let mut copy = Vec::new(alloc);
    for marker in markers {
        copy.push(marker.at_index(marker.index))?;
    }
    Ok(copy)
}

/// The first so many of the markers.
fn first_of(alloc: Global, markers: &[Marker], count: usize) -> Result<Vec<Marker>, AllocError> {
    match markers.get(..count) {
        Some(first) => copied(alloc, first),
        None => copied(alloc, markers),
    }
}

/// The same sets.
pub(crate) fn copied_all(alloc: Global, allowed: &[Allowed]) -> Result<Vec<Allowed>, AllocError> {
    let mut copy = Vec::new(alloc);
    for set in allowed {
        copy.push(Allowed {
            records: copied(alloc, &set.records)?,
            ..*set
        })?;
    }
    Ok(copy)
}

impl WrittenSet {
    /// The last state that comes before so many steps are done.
    fn state(&self, steps: usize) -> Option<State> {
        for state in self.states.iter().rev() {
            if state.step < steps {
                return Some(*state);
            }
        }
        None
    }

    /// How it stands now.
    fn now(&self) -> State {
        match self.states.last() {
            Some(state) => *state,
            None => State {
                step: 0,
                least: 0,
                put: 0,
                firm: 0,
                is_closed: false,
                reach: Reach {
                    members: 0,
                    lost: 0,
                },
            },
        }
    }

    /// What may be there of it when so many steps are done, and one more is being done. `is_firm` where only what was firm
    /// is sure to be there.
    fn allowed(
        &self,
        alloc: Global,
        steps: usize,
        is_firm: bool,
    ) -> Result<Option<Allowed>, AllocError> {
        let Some(after) = self.state(steps.saturating_add(1)) else {
            return Ok(None);
        };
        let (is_opened, is_closed, least) = match self.state(steps) {
            Some(state) => (state.least > 0, state.is_closed, state.least_of(is_firm)),
            None => (false, false, 0),
        };
        let most = after.put.min(self.records.len());
        Ok(Some(Allowed {
            set: self.set,
            behind: self.behind,
            first: self.first,
            records: first_of(alloc, &self.records, most)?,
            least,
            is_opened,
            is_closed,
            may_be_closed: after.is_closed,
            reach: after.reach,
        }))
    }
}

impl WrittenSet {
    fn put(&mut self, marker: &Marker, step: usize, reach: Reach) -> Result<(), AllocError> {
        let now = self.now();
        self.records.push(marker.at_index(0))?;
        let put = self.records.len();
        self.states.push(State {
            step,
            least: put,
            put,
            reach,
            ..now
        })?;
        Ok(())
    }

    fn flushed(&mut self, step: usize, reach: Reach) -> Result<(), AllocError> {
        let now = self.now();
        self.states.push(State {
            step,
            firm: now.put,
            reach,
            ..now
        })?;
        Ok(())
    }

    fn closed(
        &mut self,
        alloc: Global,
        geometry: &Geometry,
        step: usize,
        reach: Reach,
    ) -> Result<(), AllocError> {
        let records = u16::try_from(self.records.len()).unwrap_or(u16::MAX);
        for marker in of_digest(alloc, geometry, self.set, records)? {
            self.records.push(marker)?;
        }
        let put = self.records.len();
        self.states.push(State {
            step,
            least: put,
            put,
            firm: put,
            is_closed: true,
            reach,
        })?;
        Ok(())
    }

    /// A crash left what was firm, or all.
    fn crashed(&mut self, step: usize, keeps_all: bool) -> Result<(), AllocError> {
        let now = self.now();
        let least = now.least_of(!keeps_all);
        self.states.push(State { step, least, ..now })?;
        Ok(())
    }
}

/// The sets that were written.
#[derive(Drop)]
pub(crate) struct SetLog {
    alloc: Global,
    geometry: Geometry,
    /// The bay's moment behind each step.
    pub(crate) marks: Vec<u64>,
    sets: Vec<WrittenSet>,
}

impl SetLog {
    pub(crate) fn new(alloc: Global, geometry: Geometry) -> SetLog {
        SetLog {
            alloc,
            geometry,
            marks: Vec::new(alloc),
            sets: Vec::new(alloc),
        }
    }

    /// A step ends at this moment.
    pub(crate) fn end_step(&mut self, moment: u64) -> Result<(), AllocError> {
        self.marks.push(moment)?;
        Ok(())
    }

    /// How many steps had ended when the call of this moment was made.
    pub(crate) fn steps_by(&self, moment: u64) -> usize {
        let mut count = 0usize;
        for mark in &self.marks {
            if *mark <= moment {
                count = count.saturating_add(1);
            }
        }
        count
    }

    /// The set is opened, with these cuts.
    pub(crate) fn opened(
        &mut self,
        set: u64,
        behind: Option<u64>,
        cuts: &[(u64, u16)],
        reach: Reach,
    ) -> Result<(), AllocError> {
        let records = of_opening(self.alloc, &self.geometry, set, cuts)?;
        let put = records.len();
        self.add(set, behind, records, put, reach)
    }

    /// The opening of the set was given up: any of its first records may be there.
    pub(crate) fn begun(&mut self, set: u64, cuts: &[(u64, u16)]) -> Result<(), AllocError> {
        let records = of_opening(self.alloc, &self.geometry, set, cuts)?;
        let reach = Reach {
            members: u32::MAX,
            lost: 0,
        };
        self.add(set, None, records, 0, reach)
    }

    /// A set that has these records, the first so many of them firm.
    fn add(
        &mut self,
        set: u64,
        behind: Option<u64>,
        records: Vec<Marker>,
        firm: usize,
        reach: Reach,
    ) -> Result<(), AllocError> {
        let put = records.len();
        let mut states = Vec::new(self.alloc);
        states.push(State {
            step: self.marks.len(),
            least: firm,
            put,
            firm,
            is_closed: false,
            reach,
        })?;
        self.sets.push(WrittenSet {
            set,
            behind,
            first: put,
            records,
            states,
        })?;
        Ok(())
    }

    /// A record is put.
    pub(crate) fn put(&mut self, marker: &Marker, reach: Reach) -> Result<(), AllocError> {
        let step = self.marks.len();
        for other in self.sets.iter_mut() {
            if other.set == marker.set {
                return other.put(marker, step, reach);
            }
        }
        Ok(())
    }

    /// All records of the set are made firm.
    pub(crate) fn flushed(&mut self, set: u64, reach: Reach) -> Result<(), AllocError> {
        let step = self.marks.len();
        for other in self.sets.iter_mut() {
            if other.set == set {
                return other.flushed(step, reach);
            }
        }
        Ok(())
    }

    /// The set is closed, by a digest behind its records.
    pub(crate) fn closed(&mut self, set: u64, reach: Reach) -> Result<(), AllocError> {
        let step = self.marks.len();
        let alloc = self.alloc;
        let geometry = self.geometry;
        for other in self.sets.iter_mut() {
            if other.set == set {
                return other.closed(alloc, &geometry, step, reach);
            }
        }
        Ok(())
    }

    /// A crash left what was firm, or all. The steps so far came before it.
    pub(crate) fn crashed(&mut self, keeps_all: bool) -> Result<(), AllocError> {
        let step = self.marks.len();
        for set in self.sets.iter_mut() {
            set.crashed(step, keeps_all)?;
        }
        self.marks.push(0)?;
        for mark in self.marks.iter_mut() {
            *mark = 0;
        }
        Ok(())
    }

    /// What may be there when so many steps are done, and one more is being done.
    pub(crate) fn allowed(&self, steps: usize, is_firm: bool) -> Result<Vec<Allowed>, AllocError> {
        let mut allowed = Vec::new(self.alloc);
        for set in &self.sets {
            if let Some(set) = set.allowed(self.alloc, steps, is_firm)? {
                allowed.push(set)?;
            }
        }
        Ok(allowed)
    }

    /// What is there now.
    pub(crate) fn now(&self) -> Result<Vec<Allowed>, AllocError> {
        self.allowed(self.marks.len(), false)
    }
}
