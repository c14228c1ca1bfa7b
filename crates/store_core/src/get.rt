ghost use Rattle.std.specs.Prelude.{◌≡◌, ◌≤◌, ◌<◌, ℕ, List, length, IfSome, OnOk, Some};
ghost use Rattle.std.specs.FinMap as finmap;
ghost use Rattle.smore_base.specs.declared.limits.TheConstants.{MAX_BLOCKS};
ghost use Rattle.smore_base.specs.Name.{IsName};
ghost use Rattle.object_machine.specs.declared.op.Op.TheVariants.{Get};
ghost use Rattle.store_core.specs.declared.extent.Extent.TheVariants.{Sized};
ghost use Rattle.zone_bay.specs.OneDevice.{ReadsOn};
ghost use Rattle.store_core.specs.Index.{notes_in, parts_in, extent_in};
ghost use Rattle.store_core.specs.Get.{parts_at, AllCanBeRead, AllLieIn};

use crate::append::refused;
use crate::extent::Extent;
use crate::index::{Index, Note};
use crate::store::{Core, DRIVE, ZONE};
use crate::zone_calls::read_record;
use object_machine::{MAX_OBJECT_BYTES, Refusal, Reply};
use smore_base::{Bytes, Name, NameBad};
use zone_bay::{Bay, Failed};

/// Fills `out` with the bytes of the note's parts. The buffer has room for the blocks of each.
fn read_parts<B: Bay>(
    bay: &mut B,
    index: &Index,
    note: &Note,
    buffer: &mut [u8],
    out: &mut [u8],
) -> Result<(), Failed>
    requires drive { DRIVE < (B.state bay.old).shape.devices }
    requires zone { ZONE < (B.state bay.old).shape.zones }
    requires few { (B.state bay.old).shape.blocks ≤ MAX_BLOCKS }
    requires sized { extent_in (parts_in index.now) note.now ≡ Sized (length out.old) }
    requires room { AllCanBeRead (B.state bay.old).shape.blocks (length buffer.old) (parts_in index.now) note.now.upload }
    requires written { IfSome (B.state bay.old).contents
        (λ held. AllLieIn (held DRIVE ZONE) (parts_in index.now) note.now.upload) }
    ensures bytes { IfSome (B.state bay.old).contents
        (λ held. OnOk result (out.new ≡ parts_at (parts_in index.now) (held DRIVE ZONE) note.now.upload 0 note.now.parts)) }
    ensures room { length buffer.new ≡ length buffer.old }
    ensures length { length out.new ≡ length out.old }
    ensures reads { ReadsOn DRIVE (B.state bay.old) (B.state bay.new) result }
{
    let mut at = 0;
    for number in 0..note.parts {
        let Some(part) = index.part(note.upload, number) else {
            return Ok(());
        };
        let end = at + part.bytes as usize;
        read_record(bay, part.block, buffer, &mut out[at..end])?;
        at = end;
    }
    Ok(())
}

impl<B: Bay> Core<B> {
    ghost use Rattle.store_core.specs.Core.{Steps};

    /// Gives the name's object.
    pub(crate) fn get(&mut self, name: &Bytes) -> Reply
        ensures { Steps B.state self.old (Get name.now) result self.new }
    {
        if let Err(NameBad { length }) = Name::new(name.as_slice()) {
            return refused(Refusal::NameBad { length });
        }
        let Some(note) = self.index.note(name.as_slice()) else {
            return Reply::NotFound;
        };
        match self.index.extent(&note) {
            Extent::Broken { upload, part } => refused(Refusal::Damaged { upload, part }),
            Extent::Sized { bytes } if u64::from(bytes) > MAX_OBJECT_BYTES => {
                refused(Refusal::TooLarge {
                    length: u64::from(bytes),
                })
            }
            Extent::Sized { .. } => self.read(&note),
        }
    }

    /// Reads the object of a name with this note, all parts of which are there. One without bytes needs no drive.
    fn read(&mut self, note: &Note) -> Reply
        requires sized { extent_in (parts_in self.old.index) note.now ≡ Sized note.now.length }
        requires small { note.now.length ≤ MAX_OBJECT_BYTES }
        ensures { (name : List ℕ) → IsName name → finmap.get (notes_in self.old.index) name ≡ Some note.now
            → Steps B.state self.old (Get name) result self.new }
    {
        if note.length == 0 {
            return Reply::Object {
                bytes: Bytes::from(Vec::new(self.alloc)),
            };
        }
        if self.is_lost {
            return refused(self.lost_refusal());
        }
        let Ok(mut bytes) = vec![in self.alloc; 0; note.length as usize] else {
            return refused(Refusal::Memory);
        };
        match read_parts(
            &mut self.bay,
            &self.index,
            note,
            &mut self.buffer,
            &mut bytes,
        ) {
            Ok(()) => Reply::Object {
                bytes: Bytes::from(bytes),
            },
            Err(Failed) => {
                self.is_lost = true;
                refused(self.lost_refusal())
            }
        }
    }
}
