ghost use Rattle.std.specs.Prelude.{◌≡◌, ◌++◌, ◌∷◌, [], ◌↔◌, length, slice_get, IsTrue, OnOk, OnErr};
ghost use Rattle.std.specs.Option.{option_copied};
ghost use Rattle.smore_top.specs.Words.{IsBatch, IsOption};

use smore_base::Memory;
use std::alloc::Global;
use std::marker::Model;

/// The words of a command line, without the program's name. Contracts see each as its bytes.
#[derive(Drop)]
pub struct Words {
    alloc: Global,
    texts: Vec<String>,
}

impl Model for Words {
    ghost use Rattle.std.specs.Prelude.{List, ℕ, map, string_bytes};

    ghost Value = { List (List ℕ) };

    ghost view = { λ w. map string_bytes w.texts.items };
}

impl Words {
    /// No words.
    pub fn new(alloc: Global) -> Words
        ensures { result ≡ [] }
    {
        Words {
            alloc,
            texts: Vec::new(alloc),
        }
    }

    /// Adds a word at the end.
    pub fn append_word(&mut self, word: &str) -> Result<(), Memory>
        ensures ok { OnOk result (self.new ≡ self.old ++ word.now ∷ []) }
        ensures err { OnErr result (self.new ≡ self.old) }
    {
        let text = String::from_str(self.alloc, word)?;
        self.texts.push(text)?;
        Ok(())
    }

    /// How many there are.
    pub fn len(&self) -> usize
        ensures { result ≡ length self.now }
    {
        self.texts.len()
    }

    /// Whether there are none.
    pub fn is_empty(&self) -> bool
        ensures { IsTrue result ↔ (self.now ≡ []) }
    {
        self.texts.is_empty()
    }

    /// The word at this index, from 0.
    pub fn get(&self, index: usize) -> Option<&str>
        ensures { option_copied result ≡ slice_get self.now index }
    {
        match self.texts.get(index) {
            Some(text) => Some(text.as_str()),
            None => None,
        }
    }
}

pub(crate) fn is_option(word: &str) -> bool
    ensures { IsTrue result ↔ IsOption word.now }
{
    matches!(word.as_bytes(), [b'-', ..])
}

/// Whether they are `batch F`.
pub(crate) fn is_batch(words: &Words) -> bool
    ensures { IsTrue result ↔ IsBatch words.now }
{
    let (Some(command), Some(folder)) = (words.get(0), words.get(1)) else {
        return false;
    };
    if words.len() != 2 || command != "batch" {
        return false;
    }
    !is_option(folder)
}
