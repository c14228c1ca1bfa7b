//! What the records of a zone say of names and parts.
use crate::index::{Index, Note, Part};
use marker_format::{Kind, Marker};
use smore_base::Memory;
use std::alloc::Global;
use std::collections::BTreeMap;

/// What records say, one after another.
#[derive(Drop)]
pub(crate) struct Said {
    pub(crate) index: Index,
    /// The greatest stamp of each name's notes.
    pub(crate) stamps: BTreeMap<Vec<u8>, u64>,
}

impl Said {
    ghost use Rattle.std.specs.Prelude.{◌≡◌, ◌<◌, ℕ, [], ◌∷◌, ◌++◌, List, IfSome, OnOk, Some, true};
    ghost use Rattle.std.specs.FinMap as finmap;
    ghost use Rattle.marker_format.specs.declared.marker.Marker.{Marker};
    ghost use Rattle.marker_format.specs.Kind.{kind_of};
    ghost use Rattle.marker_format.specs.Marker.{is_well_formed};
    ghost use Rattle.marker_format.specs.Zone.{end_from};
    ghost use Rattle.store_core.specs.Index.{parts_in};
    ghost use Rattle.store_core.specs.Sound.{IsSoundIndex, HasPlace};
    ghost use Rattle.store_core.specs.Said.{stamps_in, HasSaid, Noted};

    /// Nothing.
    pub(crate) fn new(alloc: Global) -> Said
        ensures said { HasSaid result [] }
        ensures sound { (blocks shard stamp : ℕ) → IsSoundIndex blocks shard stamp result.index }
    {
        Said {
            index: Index::new(alloc),
            stamps: BTreeMap::new(alloc),
        }
    }

    /// Adds what a record says whose marker stands at this block.
    pub(crate) fn add(
        &mut self,
        alloc: Global,
        kind: Kind,
        marker: &Marker,
        block: u32,
    ) -> Result<(), Memory>
        requires well { is_well_formed marker.now ≡ true }
        requires kind { kind_of marker.now.kind ≡ Some kind }
        ensures said { OnOk result ((ms : List Marker) → HasSaid self.old ms → block ≡ end_from 0 ms → HasSaid self.new (ms ++ marker.now ∷ [])) }
        ensures sound { (blocks shard stamp : ℕ) → IsSoundIndex blocks shard stamp self.old.index → HasPlace blocks shard stamp block marker.now → IsSoundIndex blocks shard stamp self.new.index }
    {
        match kind {
            Kind::Part => {
                let part = Part {
                    block,
                    bytes: marker.payload,
                };
                self.index.add_part(marker.upload, marker.part, part)
            }
            Kind::Put => {
                let note = Note {
                    upload: marker.upload,
                    parts: marker.parts,
                    length: marker.length,
                };
                self.add_note(alloc, marker, Some(note))
            }
            Kind::Delete => self.add_note(alloc, marker, None),
            _ => Ok(()),
        }
    }

    /// Adds a note, by which its name stands for this object or for none, unless the name has a note with a greater stamp.
    fn add_note(&mut self, alloc: Global, marker: &Marker, note: Option<Note>) -> Result<(), Memory>
        ensures noted { OnOk result ((name : List ℕ) → marker.now.name ≡ Some name → Noted name marker.now.stamp note self.old self.new) }
        ensures sound { (blocks shard stamp : ℕ) → IfSome note (λ n. n.upload < stamp)
            → IsSoundIndex blocks shard stamp self.old.index → IsSoundIndex blocks shard stamp self.new.index }
    {
        let Some(name) = &marker.name else {
            return Ok(());
        };
        let name = name.as_slice();
        if let Some(newest) = self.stamp(name) {
            if newest > marker.stamp {
                return Ok(());
            }
        }
        self.index.change_note(alloc, name, note)?;
        self.set_stamp(alloc, name, marker.stamp)
    }

    /// The greatest stamp of the name's notes.
    fn stamp(&self, name: &[u8]) -> Option<u64>
        ensures { result ≡ finmap.get (stamps_in self.now) name.now }
    {
        self.stamps.get(name).copied()
    }

    /// Keeps a stamp as the greatest of the name's notes.
    fn set_stamp(&mut self, alloc: Global, name: &[u8], stamp: u64) -> Result<(), Memory>
        ensures stamps { OnOk result (stamps_in self.new ≡ finmap.insert (stamps_in self.old) name.now stamp) }
        ensures index { self.new.index ≡ self.old.index }
    {
        let name = Vec::from_slice(alloc, name)?;
        self.stamps.insert(name, stamp)?;
        Ok(())
    }
}
