//! Words against the forms of lines.

use crate::does::{Does, Language};
use crate::fault::Fault;
use crate::forms::{FORMS, Form, NUMBERS};
use crate::line::Line;
use crate::text::{bytes_of, from_hex, word_of};
use std::alloc::Global;

/// The words of a line, without its comment.
pub(crate) fn words_of(alloc: Global, line: &str) -> Result<Vec<&str>, Fault> {
    let mut words = Vec::new(alloc);
    for word in line.split_whitespace() {
        if word == "#" {
            break;
        }
        words.push(word)?;
    }
    Ok(words)
}

/// Whether a form's word stands for a value.
fn is_value(word: &str) -> bool {
    match word.as_bytes().first() {
        Some(first) => first.is_ascii_uppercase(),
        None => false,
    }
}

/// How many values stand at the end of these words of a form, one behind the other.
fn values_at_end(words: &[&str]) -> usize {
    let mut count = 0usize;
    for word in words.iter().rev() {
        if !is_value(word) {
            break;
        }
        count = count.saturating_add(1);
    }
    count
}

/// The place of the form's `..`.
fn dots_of(words: &[&str]) -> Option<usize> {
    for (at, word) in words.iter().enumerate() {
        if *word == ".." {
            return Some(at);
        }
    }
    None
}

/// A form's words, without `..`, as many as so many words of a line may have; `None` where they aren't so many.
fn drawn_out<'a>(
    alloc: Global,
    form: &'a str,
    count: usize,
) -> Result<Option<Vec<&'a str>>, Fault> {
    let mut words = words_of(alloc, form)?;
    let Some(dots) = dots_of(&words) else {
        return Ok(if words.len() == count {
            Some(words)
        } else {
            None
        });
    };
    let (front, rest) = words.split_at(dots.min(words.len()));
    let (_, behind) = rest.split_at(rest.len().min(1));
    let values = values_at_end(front);
    let (_, again) = front.split_at(front.len().saturating_sub(values));
    let mut drawn = Vec::from_slice(alloc, front)?;
    for _ in 0..count {
        if again.is_empty() || drawn.len().saturating_add(behind.len()) >= count {
            break;
        }
        drawn.extend_from_slice(again)?;
    }
    drawn.extend_from_slice(behind)?;
    Ok(if drawn.len() == count {
        Some(drawn)
    } else {
        None
    })
}

/// Whether the words are those of the form, whatever stands for its values.
fn is_of(form: &[&str], words: &[&str]) -> bool {
    for (at, word) in form.iter().zip(words) {
        if !is_value(at) && at != word {
            return false;
        }
    }
    true
}

/// The least and the most that a number may be; `None` where the value is no number.
fn limits_of(value: &str) -> Option<(u64, u64)> {
    for (name, least, most) in &NUMBERS {
        if *name == value {
            return Some((*least, *most));
        }
    }
    None
}

/// The number that a word stands for; `None` where it is outside the limits, or none.
fn number_of(word: &str, limits: (u64, u64)) -> Option<u64> {
    let Ok(number) = word.parse::<u64>() else {
        return None;
    };
    let (least, most) = limits;
    if least <= number && number <= most {
        Some(number)
    } else {
        None
    }
}

fn not_a_value(alloc: Global, form: &str, value: &str, wanted: &str) -> Fault {
    match format!(in alloc; "{form}, with {wanted} for {value}") {
        Ok(text) => Fault::BadLine(text),
        Err(_) => Fault::Memory,
    }
}

fn not_a_number(alloc: Global, form: &str, value: &str, limits: (u64, u64)) -> Fault {
    let (least, most) = limits;
    match format!(in alloc; "{form}, with a number from {least} to {most} for {value}") {
        Ok(text) => Fault::BadLine(text),
        Err(_) => Fault::Memory,
    }
}

/// What was wrong with a word that stands for bytes, told with the form.
fn not_bytes(alloc: Global, form: &str, value: &str, fault: Fault) -> Fault {
    match fault {
        Fault::Memory => Fault::Memory,
        Fault::BadLine(wanted) => not_a_value(alloc, form, value, wanted.as_str()),
    }
}

impl Line {
    fn new(alloc: Global, number: usize, does: Does) -> Line {
        Line {
            number,
            does,
            words: Vec::new(alloc),
            numbers: Vec::new(alloc),
            bytes: Vec::new(alloc),
            shown: String::new(alloc),
        }
    }

    fn show(&mut self, word: &str) -> Result<(), Fault> {
        if !self.shown.is_empty() {
            self.shown.push(' ')?;
        }
        self.shown.push_str(word)?;
        Ok(())
    }

    /// Takes a number.
    fn take_number(
        &mut self,
        alloc: Global,
        form: &str,
        value: &str,
        limits: (u64, u64),
        word: &str,
    ) -> Result<(), Fault> {
        let Some(number) = number_of(word, limits) else {
            return Err(not_a_number(alloc, form, value, limits));
        };
        self.numbers.push(number)?;
        let shown = format!(in alloc; "{number}")?;
        self.show(&shown)
    }

    fn take_settled(&mut self, alloc: Global, form: &str, word: &str) -> Result<(), Fault> {
        let number = match word {
            "settled" => 1,
            "unsettled" => 0,
            _ => return Err(not_a_value(alloc, form, "SETTLED", "settled or unsettled")),
        };
        self.numbers.push(number)?;
        self.show(word)
    }

    fn take_hex(&mut self, alloc: Global, form: &str, word: &str) -> Result<(), Fault> {
        match from_hex(alloc, word) {
            Ok(bytes) => self.bytes.push(bytes)?,
            Err(fault) => return Err(not_bytes(alloc, form, "HEX", fault)),
        }
        self.show(word)
    }

    fn take_bytes(
        &mut self,
        alloc: Global,
        form: &str,
        value: &str,
        word: &str,
    ) -> Result<(), Fault> {
        match bytes_of(alloc, word) {
            Ok(bytes) => {
                let shown = word_of(alloc, &bytes)?;
                self.bytes.push(bytes)?;
                self.show(&shown)
            }
            Err(fault) => Err(not_bytes(alloc, form, value, fault)),
        }
    }

    /// Takes the word that stands for a value of the form.
    fn take_value(
        &mut self,
        alloc: Global,
        form: &str,
        value: &str,
        word: &str,
    ) -> Result<(), Fault> {
        if let Some(limits) = limits_of(value) {
            return self.take_number(alloc, form, value, limits, word);
        }
        match value {
            "WORD" => self.show(word),
            "SETTLED" => self.take_settled(alloc, form, word),
            "HEX" => self.take_hex(alloc, form, word),
            _ => self.take_bytes(alloc, form, value, word),
        }
    }

    /// Takes the next word of the line.
    fn take_word(
        &mut self,
        alloc: Global,
        form: &str,
        value: &str,
        word: &str,
    ) -> Result<(), Fault> {
        self.words.push(String::from_str(alloc, word)?)?;
        if is_value(value) {
            return self.take_value(alloc, form, value, word);
        }
        if word == "=" {
            return Ok(());
        }
        self.show(word)
    }
}

/// The line that these words are by the form; `None` where they are none of it.
fn line_by(
    alloc: Global,
    number: usize,
    words: &[&str],
    form: &Form,
) -> Result<Option<Line>, Fault> {
    let Some(drawn) = drawn_out(alloc, form.1, words.len())? else {
        return Ok(None);
    };
    if !is_of(&drawn, words) {
        return Ok(None);
    }
    let mut line = Line::new(alloc, number, form.2);
    for (value, word) in drawn.iter().zip(words) {
        line.take_word(alloc, form.1, value, word)?;
    }
    Ok(Some(line))
}

/// How many of the first words are those of the form: 2 at most are counted.
fn shared(alloc: Global, form: &str, words: &[&str]) -> Result<usize, Fault> {
    let mut count = 0usize;
    for (at, word) in words_of(alloc, form)?.iter().zip(words) {
        if at != word || count >= 2 {
            break;
        }
        count = count.saturating_add(1);
    }
    Ok(count)
}

/// The forms that may stand here and share so many words with the line, as text.
fn forms_with(
    alloc: Global,
    words: &[&str],
    least: usize,
    language: Language,
    in_run: bool,
) -> Result<String, Fault> {
    let mut text = String::new(alloc);
    for form in &FORMS {
        if form.0.is_in(language, in_run) && shared(alloc, form.1, words)? >= least {
            if !text.is_empty() {
                text.push_str(", or ")?;
            }
            text.push_str(form.1)?;
        }
    }
    Ok(text)
}

/// What the line would have to be: a form with the same first words, or any that may stand here.
fn wanted_in_place(
    alloc: Global,
    words: &[&str],
    language: Language,
    in_run: bool,
) -> Result<Fault, Fault> {
    for least in [2usize, 1, 0] {
        let text = forms_with(alloc, words, least, language, in_run)?;
        if !text.is_empty() {
            return Ok(Fault::BadLine(text));
        }
    }
    Ok(Fault::wanted(alloc, "nothing"))
}

/// The line that these words are.
pub(crate) fn line_of(
    alloc: Global,
    number: usize,
    words: &[&str],
    language: Language,
    in_run: bool,
) -> Result<Line, Fault> {
    for form in &FORMS {
        if form.0.is_in(language, in_run) {
            if let Some(line) = line_by(alloc, number, words, form)? {
                return Ok(line);
            }
        }
    }
    Err(wanted_in_place(alloc, words, language, in_run)?)
}
