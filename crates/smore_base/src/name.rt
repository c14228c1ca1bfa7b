ghost use Rattle.std.specs.Prelude.{◌≡◌, ◌<◌, ◌≤◌, length, IfOk, IfErr};
ghost use Rattle.smore_base.specs.Name.{IsName};

use crate::MAX_NAME_BYTES;
use std::marker::Model;

/// The name of an object: 1 to 255 bytes, kept inline. Contracts see it as a list.
#[derive(Debug, Drop)]
pub struct Name {
    inline: [u8; MAX_NAME_BYTES],
    length: usize,
}

/// A length that no name has: 0, or above 255.
#[derive(Clone, Copy, Debug, PartialEq, Eq)]
pub struct NameBad {
    pub length: u64,
}

impl Model for Name {
    ghost use Rattle.std.specs.Prelude.{List, ℕ, take, ◌≤◌};

    ghost Value = { List ℕ };

    ghost view = { λ n. take n.length n.inline };

    ghost invariant = { λ n. (1 ≤ n.length) × (n.length ≤ 255) };
}

impl Name {
    /// The name of these bytes. It is refused exactly where no name has so many.
    pub fn new(bytes: &[u8]) -> Result<Name, NameBad>
        ensures name { IfOk result (λ name. (name ≡ bytes.now) × IsName bytes.now) }
        ensures bad { IfErr result (λ bad. (bad.length ≡ length bytes.now) × (IsName bytes.now → ⊥)) }
    {
        let length = bytes.len();
        if length == 0 || length > MAX_NAME_BYTES {
            return Err(NameBad {
                length: length as u64,
            });
        }
        let mut inline = [0; MAX_NAME_BYTES];
        inline[..length].copy_from_slice(bytes);
        Ok(Name { inline, length })
    }

    /// The bytes, lent.
    pub fn as_slice(&self) -> &[u8]
        ensures same { result.now ≡ self.now }
        ensures name { IsName self.now }
    {
        &self.inline[..self.length]
    }
    /// The same name. Takes no memory.
    pub fn copied(&self) -> Name
        ensures { result ≡ self.now }
    {
        Name {
            inline: self.inline,
            length: self.length,
        }
    }
}

/// The same name, where there is one. Takes no memory.
pub fn copied_name(name: &Option<Name>) -> Option<Name>
    ensures { result ≡ name.now }
{
    match name {
        Some(name) => Some(name.copied()),
        None => None,
    }
}
