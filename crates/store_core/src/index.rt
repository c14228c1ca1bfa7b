//! Which object each name stands for, and where the parts of objects lie.
use crate::extent::Extent;
use smore_base::{Memory, Name, NameList};
use std::alloc::Global;
use std::collections::BTreeMap;
use std::ops::Bound;

/// The newest note of a name that stands for an object: the object's upload, its parts and its bytes.
#[derive(Clone, Copy, Debug, PartialEq, Eq)]
pub(crate) struct Note {
    pub(crate) upload: u64,
    pub(crate) parts: u32,
    pub(crate) length: u32,
}

impl Note {
    ghost use Rattle.std.specs.Prelude.{◌≡◌};
    ghost use Rattle.store_core.specs.Index.{note_of};

    /// The note of a put of so many bytes.
    pub(crate) fn of(upload: u64, bytes: u32) -> Note
        ensures { result ≡ note_of upload bytes }
    {
        Note {
            upload,
            parts: if bytes == 0 { 0 } else { 1 },
            length: bytes,
        }
    }
}

/// A part of an upload: the block of its marker, and its bytes.
#[derive(Clone, Copy, Debug, PartialEq, Eq)]
pub(crate) struct Part {
    pub(crate) block: u32,
    pub(crate) bytes: u32,
}

/// The newest note of each name that stands for an object, and the first copy of each part of each upload.
#[derive(Drop)]
pub(crate) struct Index {
    pub(crate) names: BTreeMap<Vec<u8>, Note>,
    pub(crate) parts: BTreeMap<(u64, u32), Part>,
}

impl Index {
    ghost use Rattle.std.specs.Prelude.{◌≡◌, ◌<◌, ◌↔◌, ℕ, List, None, take, length, IfOk, OnErr, OnOk, IsSome, IsTrue};
    ghost use Rattle.std.specs.FinMap as finmap;
    ghost use Rattle.smore_base.specs.Name.{IsName};
    ghost use Rattle.store_core.specs.Extent.{names_above};
    ghost use Rattle.store_core.specs.Index.{notes_in, parts_in, extent_in, with_note, with_part, note_of, with_part_of};

    /// No name.
    pub(crate) fn new(alloc: Global) -> Index
        ensures notes { notes_in result ≡ finmap.empty }
        ensures parts { parts_in result ≡ finmap.empty }
    {
        Index {
            names: BTreeMap::new(alloc),
            parts: BTreeMap::new(alloc),
        }
    }

    /// The note of the name.
    pub(crate) fn note(&self, name: &[u8]) -> Option<Note>
        ensures { result ≡ finmap.get (notes_in self.now) name.now }
    {
        self.names.get(name).copied()
    }

    /// Where the part stands.
    pub(crate) fn part(&self, upload: u64, part: u32) -> Option<Part>
        ensures { result ≡ finmap.get (parts_in self.now) (upload, part) }
    {
        self.parts.get(&(upload, part)).copied()
    }

    /// What the note says of its object.
    pub(crate) fn extent(&self, note: &Note) -> Extent
        ensures { result ≡ extent_in (parts_in self.now) note.now }
    {
        let mut bytes: u64 = 0;
        for number in 0..note.parts {
            match self.part(note.upload, number) {
                Some(part) => bytes += u64::from(part.bytes),
                None => {
                    return Extent::Broken {
                        upload: note.upload,
                        part: number,
                    };
                }
            }
        }
        if bytes == u64::from(note.length) {
            Extent::Sized { bytes: note.length }
        } else {
            Extent::Broken {
                upload: note.upload,
                part: note.parts,
            }
        }
    }

    /// Gives the name this note, and answers the one that it had.
    pub(crate) fn set_note(
        &mut self,
        alloc: Global,
        name: &[u8],
        note: Note,
    ) -> Result<Option<Note>, Memory>
        ensures old { IfOk result (λ old. old ≡ finmap.get (notes_in self.old) name.now) }
        ensures notes { OnOk result (notes_in self.new ≡ finmap.insert (notes_in self.old) name.now note) }
        ensures kept { OnErr result (notes_in self.new ≡ notes_in self.old) }
        ensures parts { parts_in self.new ≡ parts_in self.old }
    {
        let name = Vec::from_slice(alloc, name)?;
        Ok(self.names.insert(name, note)?)
    }

    /// Takes the name's note out.
    pub(crate) fn remove_note(&mut self, name: &[u8])
        ensures notes { notes_in self.new ≡ finmap.remove (notes_in self.old) name.now }
        ensures parts { parts_in self.new ≡ parts_in self.old }
    {
        let _ = self.names.remove(name);
    }

    /// Gives the name this note, or none.
    pub(crate) fn change_note(
        &mut self,
        alloc: Global,
        name: &[u8],
        note: Option<Note>,
    ) -> Result<(), Memory>
        ensures notes { OnOk result (notes_in self.new ≡ with_note name.now note (notes_in self.old)) }
        ensures kept { OnErr result (notes_in self.new ≡ notes_in self.old) }
        ensures parts { parts_in self.new ≡ parts_in self.old }
    {
        match note {
            None => self.remove_note(name),
            Some(note) => {
                self.set_note(alloc, name, note)?;
            }
        }
        Ok(())
    }

    /// Gives the name, which has a note, this one instead, or none.
    pub(crate) fn restore_note(&mut self, name: &[u8], note: Option<Note>)
        requires { IsSome (finmap.get (notes_in self.old) name.now) }
        ensures notes { notes_in self.new ≡ with_note name.now note (notes_in self.old) }
        ensures parts { parts_in self.new ≡ parts_in self.old }
    {
        match note {
            None => self.remove_note(name),
            Some(note) => {
                if let Some(slot) = self.names.get_mut(name) {
                    *slot = note;
                }
            }
        }
    }

    /// Adds a part, unless one of its upload and number is there already.
    pub(crate) fn add_part(&mut self, upload: u64, number: u32, part: Part) -> Result<(), Memory>
        ensures added { OnOk result (parts_in self.new ≡ with_part (upload, number) part (parts_in self.old)) }
        ensures kept { OnErr result (parts_in self.new ≡ parts_in self.old) }
        ensures notes { notes_in self.new ≡ notes_in self.old }
    {
        if !self.parts.contains_key(&(upload, number)) {
            self.parts.insert((upload, number), part)?;
        }
        Ok(())
    }

    /// Takes a part out.
    pub(crate) fn remove_part(&mut self, upload: u64, number: u32)
        ensures parts { parts_in self.new ≡ finmap.remove (parts_in self.old) (upload, number) }
        ensures notes { notes_in self.new ≡ notes_in self.old }
    {
        let _ = self.parts.remove(&(upload, number));
    }

    /// Adds the note of a put and, where its object has bytes, its one part. It answers the note that the name had, and
    /// changes nothing for want of memory.
    pub(crate) fn add_put(
        &mut self,
        alloc: Global,
        name: &[u8],
        upload: u64,
        part: Part,
    ) -> Result<Option<Note>, Memory>
        requires fresh { finmap.get (parts_in self.old) (upload, 0) ≡ None }
        ensures old { IfOk result (λ old. old ≡ finmap.get (notes_in self.old) name.now) }
        ensures notes { OnOk result (notes_in self.new ≡ finmap.insert (notes_in self.old) name.now (note_of upload part.bytes)) }
        ensures parts { OnOk result (parts_in self.new ≡ with_part_of upload part (parts_in self.old)) }
        ensures kept_notes { OnErr result (notes_in self.new ≡ notes_in self.old) }
        ensures kept_parts { OnErr result (parts_in self.new ≡ parts_in self.old) }
    {
        let note = Note::of(upload, part.bytes);
        if part.bytes == 0 {
            return self.set_note(alloc, name, note);
        }
        self.add_part(upload, 0, part)?;
        let old = self.set_note(alloc, name, note);
        if old.is_err() {
            self.remove_part(upload, 0);
        }
        old
    }

    /// Takes a put back that was added: the name has the note again that it had.
    pub(crate) fn take_back(&mut self, name: &[u8], upload: u64, old: Option<Note>)
        requires { IsSome (finmap.get (notes_in self.old) name.now) }
        ensures notes { notes_in self.new ≡ with_note name.now old (notes_in self.old) }
        ensures parts { parts_in self.new ≡ finmap.remove (parts_in self.old) (upload, 0) }
    {
        self.remove_part(upload, 0);
        self.restore_note(name, old);
    }

    /// The first names above this one, so many of them at most, and whether others follow.
    pub(crate) fn names_above(
        &self,
        alloc: Global,
        after: &[u8],
        most: u16,
    ) -> Result<(NameList, bool), Memory>
        requires { (name : List ℕ) → IsSome (finmap.get (notes_in self.now) name) → IsName name }
        ensures names { IfOk result (λ r. r.0 ≡ take most (names_above (notes_in self.now) after.now)) }
        ensures more { IfOk result (λ r. IsTrue r.1 ↔ (most < length (names_above (notes_in self.now) after.now))) }
    {
        let after = Vec::from_slice(alloc, after)?;
        let mut list = NameList::new(alloc);
        let mut above = self
            .names
            .range((Bound::Excluded(&after), Bound::Unbounded));
        for _ in 0..most {
            let Some((key, _)) = above.next() else {
                return Ok((list, false));
            };
            if let Ok(name) = Name::new(key) {
                list.push(name)?;
            }
        }
        Ok((list, above.next().is_some()))
    }
}
