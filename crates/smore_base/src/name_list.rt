ghost use Rattle.std.specs.Prelude.{◌≡◌, ◌++◌, ◌∷◌, [], MatchResult};

use crate::{Memory, Name};
use std::alloc::Global;
use std::marker::Model;

/// Names, in the order in which they were added. Contracts see a list of them.
#[derive(Debug, Drop)]
pub struct NameList {
    names: Vec<Name>,
}

impl Model for NameList {
    ghost use Rattle.std.specs.Prelude.{List, ℕ};

    ghost Value = { List (List ℕ) };

    ghost view = { λ l. l.names.items };
}

impl NameList {
    /// No name.
    pub fn new(alloc: Global) -> NameList
        ensures { result ≡ [] }
    {
        NameList {
            names: Vec::new(alloc),
        }
    }

    /// Adds a name behind the others.
    pub fn push(&mut self, name: Name) -> Result<(), Memory>
        ensures { MatchResult result (λ _. self.new ≡ self.old ++ name ∷ []) (λ _. self.new ≡ self.old) }
    {
        self.names.push(name)?;
        Ok(())
    }

    /// The names, lent.
    pub fn names(&self) -> &[Name]
        ensures { result.now ≡ self.now }
    {
        &self.names
    }
}
