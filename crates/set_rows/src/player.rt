//! A segment of a row, played once over a bay.

ghost use Rattle.marker_format.proofs.MarkerRules.{Widths};

use crate::allowed::{fault_of, lost, told as told_allowed};
use crate::set_answer::{SetAnswer, told as told_answer};
use crate::set_life::{Life, opened, table_of};
use crate::set_log::{Allowed, Reach, SetLog, copied_all};
use crate::set_scan::{may_be, scan_without, told as told_scan};
use crate::untold::UntoldBay;
use bay_memory::{Image, MemoryBay};
use marker_format::Marker;
use row_player::{Does, Fault, Line, Segment, Stage};
use smore_base::{Name, closing};
use std::alloc::{AllocError, Global};
use std::mem;
use zone_bay::Bay;

/// The drives of the set, and those that are lost.
fn reach_of(life: &Life, set: u64) -> Reach {
    Reach {
        members: life.members(set),
        lost: life.lost(),
    }
}

fn no_set() -> SetAnswer {
    SetAnswer::Barred("no set is open")
}

/// The cuts of an opening, behind its set and its least: a set and how many records are kept, by turns.
fn cuts_of(alloc: Global, line: &Line) -> Result<Vec<(u64, u16)>, AllocError> {
    let mut cuts = Vec::new(alloc);
    let mut at = 2usize;
    for _ in 0..line.numbers.len() {
        if at >= line.numbers.len() {
            break;
        }
        cuts.push((line.number(at), line.number_u16(at.saturating_add(1))))?;
        at = at.saturating_add(2);
    }
    Ok(cuts)
}

/// A bay in the course of a segment.
#[derive(Drop)]
pub(crate) struct Player<'a> {
    pub(crate) stage: Stage,
    /// The sets that the bay may have.
    pub(crate) allowed: &'a [Allowed],
    /// The set that is written. A crash leaves nothing of it in memory.
    life: Option<Life>,
    /// The sets that were written, step by step.
    pub(crate) log: SetLog,
    /// What was firm at the call that was asked for.
    pub(crate) firm: Option<Image>,
}

impl<'a> Player<'a> {
    pub(crate) fn new(stage: Stage, allowed: &'a [Allowed]) -> Player<'a> {
        let alloc = stage.alloc;
        let geometry = stage.geometry;
        Player {
            stage,
            allowed,
            life: None,
            log: SetLog::new(alloc, geometry),
            firm: None,
        }
    }

    /// Plays the segment's lines in order. A call that fails or stops is one of those since the bay last became an image.
    pub(crate) fn play(&mut self, segment: &Segment) -> Result<(), Fault> {
        let image = segment.last_image();
        for (at, line) in segment.lines.iter().enumerate() {
            if at == image {
                self.stage.twist()?;
            }
            self.act(line, segment.lines.get(at.saturating_add(1)))?;
        }
        Ok(())
    }

    /// Plays a line. An answer stands behind each call on a set.
    fn act(&mut self, line: &Line, behind: Option<&Line>) -> Result<(), Fault> {
        if let Some(answer) = behind {
            if answer.does.is_reply() {
                return self.call(line, answer);
            }
        }
        match line.does {
            Does::SetIs => self.set_is(line),
            Does::Scan => self.scan(line),
            Does::ScanBeforeOrAfter => self.scan(line),
            Does::Closing => self.closing(line),
            Does::CrashAll => self.crash(line, true),
            Does::Without => self.crash(line, true),
            Does::WithoutEach => self.crash(line, true),
            Does::CrashFirm => self.crash(line, false),
            Does::CrashShort => self.crash(line, false),
            _ => self.stage.act(line),
        }
    }

    /// The bay becomes an image: nothing of the set that is written is left in memory.
    fn crash(&mut self, line: &Line, keeps_all: bool) -> Result<(), Fault> {
        self.life = None;
        self.log.crashed(keeps_all)?;
        self.stage.act(line)
    }

    /// A call on a set. What it writes is noted, as a step of the row.
    fn call(&mut self, line: &Line, wanted: &Line) -> Result<(), Fault> {
        let alloc = self.stage.alloc;
        let array = mem::replace(&mut self.stage.bay, MemoryBay::new(alloc, 0, 0, 0)?);
        let mut bay = UntoldBay::new(array, self.stage.asked);
        let answer = self.make(&mut bay, line)?;
        let (array, kept) = bay.into_parts();
        self.stage.bay = array;
        if kept.is_some() {
            self.firm = kept;
        }
        self.log.end_step(self.stage.bay.moment())?;
        if self.may_be(line, wanted, &answer) {
            return Ok(());
        }
        let got = told_answer(alloc, &answer)?;
        self.stage.differ(wanted, wanted.shown.as_str(), &got)
    }

    /// Whether the answer may come in place of the one that is wanted: where a call failed, a member may be missing.
    fn may_be(&self, call: &Line, wanted: &Line, got: &SetAnswer) -> bool {
        if !self.stage.twist.is_failure() {
            return false;
        }
        match got {
            SetAnswer::Done { live } => {
                matches!(wanted.does, Does::AnswerOk) && u64::from(*live) + 1 == wanted.number(0)
            }
            SetAnswer::TooFew(count) => self.may_be_few(call, wanted, *count),
            SetAnswer::Short { missing, .. } => *missing > self.stage.geometry.p,
            SetAnswer::Barred(_) => self.life.is_none(),
            _ => false,
        }
    }

    /// Whether so few drives may be live, or so many indexes missing, where a call failed.
    fn may_be_few(&self, call: &Line, wanted: &Line, count: u8) -> bool {
        if matches!(wanted.does, Does::AnswerBytes) {
            return count > self.stage.geometry.p;
        }
        match call.does {
            Does::SetOpen => count < call.number_u8(1),
            Does::SetNext => count < call.number_u8(1),
            _ => false,
        }
    }

    fn make(&mut self, bay: &mut UntoldBay, call: &Line) -> Result<SetAnswer, Fault> {
        match call.does {
            Does::SetOpen => self.open(bay, call),
            Does::SetNext => self.next(bay, call.number(0), call.number_u8(1)),
            Does::SetPart => self.part(bay, call.bytes(0)),
            Does::SetNote => self.put_note(bay, call.bytes(0)),
            Does::SetFlush => self.flush(bay),
            Does::SetClose => self.close(bay),
            Does::SetReserve => self.reserve(call.size(0)),
            Does::SetReadOf => self.read(bay, call.number_u16(0), Some(call.number(1))),
            _ => self.read(bay, call.number_u16(0), None),
        }
    }

    /// A set that falls short is given up, with what was known of the array: it may have any members.
    fn open(&mut self, bay: &mut UntoldBay, call: &Line) -> Result<SetAnswer, Fault> {
        let alloc = self.stage.alloc;
        let set = call.number(0);
        let cuts = cuts_of(alloc, call)?;
        let table = table_of(alloc, &self.stage.geometry, bay.array(), self.life.take())?;
        let (answer, life) = opened(alloc, bay, table, set, call.number_u8(1), &cuts)?;
        if let Some(life) = &life {
            let reach = reach_of(life, set);
            self.log.opened(set, None, &cuts, reach)?;
        } else if matches!(answer, SetAnswer::Short { .. }) {
            self.log.begun(set, &cuts)?;
        }
        self.life = life;
        Ok(answer)
    }

    fn part(&mut self, bay: &mut UntoldBay, bytes: &[u8]) -> Result<SetAnswer, Fault> {
        let Some(life) = &self.life else {
            return Ok(no_set());
        };
        let marker = life.part(bytes);
        self.append(bay, &marker, bytes)
    }

    fn put_note(&mut self, bay: &mut UntoldBay, name: &[u8]) -> Result<SetAnswer, Fault> {
        let Some(life) = &self.life else {
            return Ok(no_set());
        };
        let Ok(name) = Name::new(name) else {
            return Ok(SetAnswer::Barred("no name"));
        };
        let marker = life.note(name);
        self.append(bay, &marker, &[])
    }

    fn append(
        &mut self,
        bay: &mut UntoldBay,
        marker: &Marker,
        payload: &[u8],
    ) -> Result<SetAnswer, Fault>
        requires { Widths marker.now }
    {
        let Some(life) = &mut self.life else {
            return Ok(no_set());
        };
        let answer = life.append(self.stage.alloc, bay, marker, payload)?;
        let reach = reach_of(life, marker.set);
        if matches!(answer, SetAnswer::At(_) | SetAnswer::Short { .. }) {
            self.log.put(marker, reach)?;
        }
        Ok(answer)
    }

    fn flush(&mut self, bay: &mut UntoldBay) -> Result<SetAnswer, Fault> {
        let Some(life) = &mut self.life else {
            return Ok(no_set());
        };
        let answer = life.flush(bay)?;
        let set = life.set();
        let reach = reach_of(life, set);
        if !answer.is_barred() {
            self.log.flushed(set, reach)?;
        }
        Ok(answer)
    }

    fn close(&mut self, bay: &mut UntoldBay) -> Result<SetAnswer, Fault> {
        let Some(life) = &mut self.life else {
            return Ok(no_set());
        };
        let answer = life.close(bay)?;
        let set = life.set();
        let reach = reach_of(life, set);
        if !answer.is_barred() {
            self.log.closed(set, reach)?;
        }
        Ok(answer)
    }

    fn reserve(&mut self, records: usize) -> Result<SetAnswer, Fault> {
        match &mut self.life {
            Some(life) => life.reserve(records),
            None => Ok(no_set()),
        }
    }

    fn read(
        &mut self,
        bay: &mut UntoldBay,
        position: u16,
        set: Option<u64>,
    ) -> Result<SetAnswer, Fault> {
        let alloc = self.stage.alloc;
        let Some(life) = &mut self.life else {
            return Ok(no_set());
        };
        let set = match set {
            Some(set) => set,
            None => life.set(),
        };
        life.read(alloc, bay, set, position)
    }

    fn next(&mut self, bay: &mut UntoldBay, set: u64, least: u8) -> Result<SetAnswer, Fault> {
        let Some(life) = &mut self.life else {
            return Ok(no_set());
        };
        let before = life.set();
        let was_closed = life.is_closed();
        let closes = !was_closed && life.has_enough();
        let answer = life.next(bay, set, least)?;
        if answer.is_barred() {
            return Ok(answer);
        }
        if closes {
            let reach = reach_of(life, before);
            self.log.closed(before, reach)?;
        }
        if life.set() == set {
            let behind = if closes || was_closed {
                Some(before)
            } else {
                None
            };
            let reach = reach_of(life, set);
            self.log.opened(set, behind, &[], reach)?;
        }
        Ok(answer)
    }

    /// Compares how the set that is written stands. Where a call failed, one more member may be missing.
    fn set_is(&mut self, line: &Line) -> Result<(), Fault> {
        let alloc = self.stage.alloc;
        let is_failure = self.stage.twist.is_failure();
        let Some(life) = &self.life else {
            if is_failure {
                return Ok(());
            }
            return self
                .stage
                .differ(line, line.shown.as_str(), "no set is open");
        };
        let got = told_set(alloc, life, life.live())?;
        let one_more = told_set(alloc, life, life.live().saturating_add(1))?;
        if is_failure && one_more.as_str() == line.shown.as_str() {
            return Ok(());
        }
        self.stage.differ(line, line.shown.as_str(), &got)
    }

    /// Compares what the plain scan says of the drives that aren't lost. A call whose image is kept changes nothing else. Where
    /// a call failed and the set was given up, it may say what its steps allow.
    fn scan(&mut self, line: &Line) -> Result<(), Fault> {
        if self.stage.twist.is_stop() {
            return Ok(());
        }
        let is_given_up = self.stage.twist.is_failure() && self.life.is_none();
        match line.does {
            Does::Scan if !is_given_up => self.scan_is(line),
            _ => self.scan_may_be(line),
        }
    }

    fn scan_is(&mut self, line: &Line) -> Result<(), Fault> {
        let alloc = self.stage.alloc;
        let away = match &self.life {
            Some(life) => life.lost(),
            None => 0,
        };
        let scan = scan_without(alloc, &self.stage.bay, away)?;
        if self.stage.twist.is_failure() && may_be(&scan, self.stage.geometry.k, &line.numbers) {
            return Ok(());
        }
        let got = told_scan(alloc, &scan)?;
        self.stage.differ(line, line.shown.as_str(), &got)
    }

    fn scan_may_be(&mut self, line: &Line) -> Result<(), Fault> {
        let alloc = self.stage.alloc;
        let allowed = self.allowed_now()?;
        let scan = scan_without(alloc, &self.stage.bay, lost(&allowed))?;
        let Some((set, why)) = fault_of(&allowed, &scan) else {
            return Ok(());
        };
        let got = told_scan(alloc, &scan)?;
        let got = format!(in alloc; "{got}: set {set}: {why}")?;
        let wanted = told_allowed(alloc, &allowed)?;
        self.stage.differ(line, &wanted, &got)
    }

    /// What may be there of the sets: of those above the variation, and of those that were written since.
    fn allowed_now(&self) -> Result<Vec<Allowed>, Fault> {
        let mut allowed = copied_all(self.stage.alloc, self.allowed)?;
        for set in self.log.now()? {
            allowed.push(set)?;
        }
        Ok(allowed)
    }

    fn closing(&mut self, line: &Line) -> Result<(), Fault> {
        let alloc = self.stage.alloc;
        let geometry = self.stage.geometry;
        if geometry.check().is_err() {
            return Err(Fault::wanted(alloc, "a geometry within the limits"));
        }
        let records = line.number_u16(0);
        let blocks = closing(&geometry, u32::from(records));
        let got = format!(in alloc; "closing {records} is {blocks}")?;
        self.stage.differ(line, line.shown.as_str(), &got)
    }
}

/// How the set stands with so many live members, as a line has it.
fn told_set(alloc: Global, life: &Life, live: u8) -> Result<String, AllocError> {
    let set = life.set();
    let blocks = life.used();
    let records = life.records();
    let closed = if life.is_closed() { " closed" } else { "" };
    format!(in alloc; "set is {set} blocks {blocks} records {records} live {live}{closed}")
}
