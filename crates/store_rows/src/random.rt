//! Rows that are made at random: calls of runs, with the replies that a map of the objects gives, and a way in which the array
//! goes on.

use crate::dice::Dice;
use row_player::Fault;
use std::alloc::Global;

/// The names that objects have.
const NAMES: [&str; 4] = ["a", "b", "c", "d"];

/// The most bytes of an object.
const MOST: u64 = 1022;

/// A row as text, as far as it is made.
#[derive(Drop)]
struct Draft {
    alloc: Global,
    text: String,
    /// The bytes of the object of each name, where it is there.
    objects: [Option<u64>; 4],
    /// The names whose object may be got or deleted: none that was put since the last variation.
    settled: [bool; 4],
    /// Replies are to be any: calls fail.
    is_loose: bool,
    /// The blocks that puts and deletes may take still.
    left: u64,
}

impl Draft {
    fn line(&mut self, line: &str) -> Result<(), Fault> {
        self.text.push_str(line)?;
        self.text.push('\n')?;
        Ok(())
    }

    /// Adds the reply that is wanted.
    fn reply(&mut self, reply: &str) -> Result<(), Fault> {
        if self.is_loose {
            return self.line("= any");
        }
        self.line(reply)
    }

    fn put(&mut self, name: usize, dice: &mut Dice) -> Result<(), Fault> {
        let bytes = dice.below(MOST + 1);
        let blocks = bytes.div_ceil(511).saturating_add(2);
        let Some(word) = NAMES.get(name) else {
            return Ok(());
        };
        if blocks > self.left {
            return Ok(());
        }
        self.left = self.left.saturating_sub(blocks);
        let line = format!(in self.alloc; "put {word} #{bytes}")?;
        if let Some(object) = self.objects.get_mut(name) {
            *object = Some(bytes);
        }
        if let Some(settled) = self.settled.get_mut(name) {
            *settled = false;
        }
        self.line(&line)?;
        self.reply("= done")
    }

    /// The bytes of the object of this name.
    fn object(&self, name: usize) -> Option<u64> {
        match self.objects.get(name) {
            Some(object) => *object,
            None => None,
        }
    }

    fn get(&mut self, name: usize) -> Result<(), Fault> {
        let Some(word) = NAMES.get(name) else {
            return Ok(());
        };
        let line = format!(in self.alloc; "get {word}")?;
        self.line(&line)?;
        match self.object(name) {
            Some(bytes) => {
                let reply = format!(in self.alloc; "= object #{bytes}")?;
                self.reply(&reply)
            }
            None => self.reply("= notfound"),
        }
    }

    /// Where calls fail, only what was there before is deleted: else a put that was refused is found missing.
    fn delete(&mut self, name: usize) -> Result<(), Fault> {
        let Some(word) = NAMES.get(name) else {
            return Ok(());
        };
        let is_settled = match self.settled.get(name) {
            Some(settled) => *settled,
            None => false,
        };
        if self.left == 0 || (self.is_loose && !is_settled) {
            return Ok(());
        }
        let line = format!(in self.alloc; "delete {word}")?;
        self.line(&line)?;
        let was_there = self.object(name).is_some();
        if let Some(object) = self.objects.get_mut(name) {
            *object = None;
        }
        if was_there {
            self.left = self.left.saturating_sub(1);
            self.reply("= done")
        } else {
            self.reply("= notfound")
        }
    }

    fn list(&mut self) -> Result<(), Fault> {
        self.line("list 9")?;
        let mut reply = String::from_str(self.alloc, "= names")?;
        for (name, object) in NAMES.iter().zip(&self.objects) {
            if object.is_some() {
                reply.push(' ')?;
                reply.push_str(name)?;
            }
        }
        reply.push_str(" more 0")?;
        self.reply(&reply)
    }

    fn call(&mut self, dice: &mut Dice) -> Result<(), Fault> {
        let name = dice.below(4) as usize;
        match dice.below(10) {
            0 => self.get(name),
            1 => self.list(),
            2 => self.delete(name),
            3 => self.delete(name),
            _ => self.put(name, dice),
        }
    }

    /// How many lines of the text begin so.
    fn count(&self, with: &str) -> u64 {
        let mut count = 0u64;
        for line in self.text.as_str().lines() {
            if line.starts_with(with) {
                count = count.saturating_add(1);
            }
        }
        count
    }

    fn run(&mut self, dice: &mut Dice) -> Result<(), Fault> {
        let before = self.count("= ");
        self.line("run batch f")?;
        for _ in 0..dice.below(6) {
            self.call(dice)?;
        }
        self.line("stop")?;
        let calls = self.count("= ").saturating_sub(before);
        let end = format!(in self.alloc; "status 0 calls {calls} marks {calls}")?;
        self.line(&end)
    }

    /// A run of one put.
    fn put_alone(&mut self) -> Result<(), Fault> {
        self.line("run batch f\nput a again\n= any\nstop\nstatus 0 calls 1 marks 1")
    }

    /// The map, as a line.
    fn map(&mut self) -> Result<(), Fault> {
        let mut line = String::from_str(self.alloc, "map")?;
        let mut is_empty = true;
        for (name, object) in NAMES.iter().zip(&self.objects) {
            if let Some(bytes) = object {
                write!(line, " {name} #{bytes}")?;
                is_empty = false;
            }
        }
        if is_empty {
            line.push_str(" empty")?;
        }
        self.line(&line)
    }

    /// What the array becomes, with all objects that are there.
    fn image(&mut self, dice: &mut Dice) -> Result<(), Fault> {
        match dice.below(3) {
            0 => self.line("crash firm")?,
            1 => self.line("crash all")?,
            _ => self.line("without 1 2")?,
        }
        self.settled = [true; 4];
        self.map()
    }

    /// A stop in one of the first appends: each put makes one at least.
    fn stop(&mut self, puts: u64, dice: &mut Dice) -> Result<(), Fault> {
        let append = dice.below(puts).saturating_add(1);
        let bytes = dice.below(2048);
        let line = format!(in self.alloc; "stop in append {append} bytes {bytes}")?;
        self.line(&line)
    }

    /// The row's end: what is left where a call stops or fails, or where a drive is lost.
    fn end(&mut self, dice: &mut Dice) -> Result<(), Fault> {
        match dice.below(4) {
            0 => self.line("lose 0\nrun batch f\nget a\nstatus 6 calls 0 marks 0"),
            1 => {
                self.line("crash all")?;
                self.settled = [true; 4];
                self.is_loose = true;
                self.run(dice)?;
                self.line("each call fails\nmap before or after")
            }
            2 => {
                let before = self.count("put ");
                self.run(dice)?;
                self.put_alone()?;
                self.stop(self.count("put ").saturating_sub(before), dice)?;
                self.line("map before or after\nrun batch f\nstop\nstatus 0 calls 0 marks 0")?;
                self.line("each call stops\nmap before or after")
            }
            _ => {
                self.run(dice)?;
                self.line("each call stops\nmap before or after\nwithout 1 2\nmap before or after")
            }
        }
    }
}

/// A row as text.
pub(crate) fn random_row(alloc: Global, dice: &mut Dice) -> Result<String, Fault> {
    let mut draft = Draft {
        alloc,
        text: String::from_str(alloc, "array 2 1 1 8 128 1022\n")?,
        objects: [None; 4],
        settled: [true; 4],
        is_loose: false,
        left: 120,
    };
    for _ in 0..dice.below(4) {
        draft.run(dice)?;
        draft.map()?;
        if dice.below(2) == 0 {
            draft.image(dice)?;
        }
    }
    draft.end(dice)?;
    let Draft { text, .. } = draft;
    Ok(text)
}
