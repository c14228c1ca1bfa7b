//! A segment of a row, played once over a bay.

use crate::frame::split_first;
use crate::objects::{objects_of, told as told_objects};
use crate::reply::{is_done, is_refusal, told, wanted};
use crate::request::input_of;
use crate::run::{Ran, Streams, run};
use crate::said::said;
use crate::served::served;
use bay_memory::MemoryBay;
use row_player::{Does, Fault, Line, Segment, Stage, Twist};
use std::mem;

/// The status of a bay that can't be opened.
const NOT_OPENED: u8 = 6;

/// A call of a run, and whether it was done.
#[derive(Clone, Copy)]
pub(crate) struct Answered {
    pub(crate) is_done: bool,
    /// The bay's moment when the reply was put.
    pub(crate) mark: u64,
}

/// A bay in the course of a segment.
#[derive(Drop)]
pub(crate) struct Player<'a> {
    pub(crate) stage: Stage,
    /// The maps one of which is the bay's, as text.
    maps: &'a [String],
    streams: Streams,
    /// The calls that were answered.
    pub(crate) answered: Vec<Answered>,
    /// Where the lines of the run begin that is read.
    begin: usize,
}

impl<'a> Player<'a> {
    pub(crate) fn new(stage: Stage, maps: &'a [String]) -> Player<'a> {
        let alloc = stage.alloc;
        Player {
            stage,
            maps,
            streams: Streams::new(alloc),
            answered: Vec::new(alloc),
            begin: 0,
        }
    }

    /// Plays the segment's lines in order. A call that fails or stops is one of those since the bay last became an image.
    pub(crate) fn play(&mut self, segment: &Segment) -> Result<(), Fault> {
        let image = segment.last_image();
        for (at, line) in segment.lines.iter().enumerate() {
            if at == image {
                self.stage.twist()?;
            }
            self.act(&segment.lines, at, line)?;
        }
        Ok(())
    }

    /// Plays the line at this place.
    fn act(&mut self, lines: &[Line], at: usize, line: &Line) -> Result<(), Fault> {
        match line.does {
            Does::Run => {
                self.begin = at;
                Ok(())
            }
            Does::Status => self.end_run(lines, at, line),
            Does::StatusAt => self.end_run(lines, at, line),
            Does::Map => self.map(line),
            Does::MapEmpty => self.map(line),
            Does::MapBeforeOrAfter => self.map(line),
            Does::SourceFails => self.streams.set(line),
            Does::SourceGives => self.streams.set(line),
            Does::SinkFails => self.streams.set(line),
            Does::SinkTakes => self.streams.set(line),
            Does::CrashFirm => self.crash(line),
            Does::CrashAll => self.crash(line),
            Does::CrashShort => self.crash(line),
            Does::Without => self.crash(line),
            Does::WithoutEach => self.crash(line),
            _ => self.stage.act(line),
        }
    }

    /// The bay becomes an image: the calls that were answered so far came before its calls.
    fn crash(&mut self, line: &Line) -> Result<(), Fault> {
        for call in &mut self.answered {
            call.mark = 0;
        }
        self.stage.act(line)
    }

    /// Runs the lines from the run's beginning on.
    fn end_run(&mut self, lines: &[Line], at: usize, end: &Line) -> Result<(), Fault> {
        match lines.get(self.begin..at) {
            Some(lines) => self.run(lines, end),
            None => Ok(()),
        }
    }

    fn run(&mut self, lines: &[Line], end: &Line) -> Result<(), Fault> {
        let alloc = self.stage.alloc;
        let Some((head, calls)) = lines.split_first() else {
            return Ok(());
        };
        let Some((_, words)) = head.words.as_slice().split_first() else {
            return Ok(());
        };
        let cut = match self.stage.twist {
            Twist::Cut(bytes) => bytes,
            _ => 0,
        };
        let input = input_of(alloc, calls)?;
        let streams = mem::replace(&mut self.streams, Streams::new(alloc));
        let bay = mem::replace(&mut self.stage.bay, MemoryBay::new(alloc, 0, 0, 0)?);
        let (ran, bay) = run(alloc, words, &input, &streams, cut, bay)?;
        self.stage.bay = bay;
        self.ended(end, &ran)?;
        self.replies(calls, end, &ran.output)?;
        self.note(calls, &ran)
    }

    /// Compares how the run ended.
    fn ended(&mut self, end: &Line, ran: &Ran) -> Result<(), Fault> {
        let alloc = self.stage.alloc;
        let status = ran.outcome.status;
        if self.stage.twist.is_failure() && status == NOT_OPENED {
            return Ok(());
        }
        let at = ran.outcome.at;
        let calls = ran.outcome.calls;
        let marks = ran.outcome.marks.len();
        let got = match end.does {
            Does::Status => {
                if at == 0 {
                    format!(in alloc; "status {status} calls {calls} marks {marks}")?
                } else {
                    format!(in alloc; "status {status} at {at} calls {calls} marks {marks}")?
                }
            }
            _ => format!(in alloc; "status {status} at {at} calls {calls} marks {marks}")?,
        };
        self.stage.differ(end, end.shown.as_str(), &got)
    }

    /// Compares each reply.
    fn replies(&mut self, calls: &[Line], end: &Line, output: &[u8]) -> Result<(), Fault> {
        let mut rest = output;
        let mut last = end;
        for line in calls {
            if line.does.is_reply() {
                let (got, behind) = split_first(rest);
                self.reply(line, got)?;
                rest = behind;
                last = line;
            }
        }
        if rest.is_empty() {
            return Ok(());
        }
        let got = told(self.stage.alloc, rest)?;
        self.stage.differ(last, "no more replies", &got)
    }

    fn reply(&mut self, line: &Line, got: &[u8]) -> Result<(), Fault> {
        if matches!(line.does, Does::AnyReply) {
            return Ok(());
        }
        if self.stage.twist.is_failure() && (got.is_empty() || is_refusal(got)) {
            return Ok(());
        }
        let wanted = wanted(self.stage.alloc, line)?;
        let got = told(self.stage.alloc, got)?;
        self.stage.differ(line, &wanted, &got)
    }

    /// Notes for each call whether it was done.
    fn note(&mut self, calls: &[Line], ran: &Ran) -> Result<(), Fault> {
        let mut rest: &[u8] = &ran.output;
        let mut at = 0usize;
        for line in calls {
            if line.does.is_request() {
                let (reply, behind) = split_first(rest);
                let mark = match ran.outcome.marks.get(at) {
                    Some(mark) => *mark,
                    None => u64::MAX,
                };
                self.answered.push(Answered {
                    is_done: is_done(reply),
                    mark,
                })?;
                rest = behind;
                at = at.saturating_add(1);
            }
        }
        Ok(())
    }

    /// Compares the map that the array says with what a store opened over it serves, and both with what is wanted. A call
    /// whose image is kept changes nothing else, so its map was compared without it.
    fn map(&mut self, line: &Line) -> Result<(), Fault> {
        if self.stage.twist.is_stop() {
            return Ok(());
        }
        let alloc = self.stage.alloc;
        let text = told_objects(alloc, &said(alloc, &self.stage.bay)?)?;
        let others = match served(alloc, &self.stage.bay)? {
            Some(objects) => told_objects(alloc, &objects)?,
            None => String::from_str(alloc, "not opened")?,
        };
        let wanted = self.wanted_map(line, &text)?;
        if others.as_str() == text.as_str() {
            return self.stage.differ(line, &wanted, &text);
        }
        let got = format!(in alloc; "{text}, served as {others}")?;
        self.stage.differ(line, &wanted, &got)
    }

    /// The map that a line wants, as text: this one, where it is one of several.
    fn wanted_map(&self, line: &Line, said: &str) -> Result<String, Fault> {
        let alloc = self.stage.alloc;
        match line.does {
            Does::Map => Ok(told_objects(alloc, &objects_of(alloc, line)?)?),
            Does::MapEmpty => Ok(String::from_str(alloc, "empty")?),
            _ => self.one_of_maps(said),
        }
    }

    fn one_of_maps(&self, said: &str) -> Result<String, Fault> {
        let mut text = String::new(self.stage.alloc);
        for map in self.maps {
            if map.as_str() == said {
                return Ok(String::from_str(self.stage.alloc, said)?);
            }
            if !text.is_empty() {
                text.push_str(" or ")?;
            }
            text.push_str(map)?;
        }
        Ok(text)
    }
}
