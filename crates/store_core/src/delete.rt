ghost use Rattle.std.specs.Prelude.{◌≡◌, IsSome};
ghost use Rattle.std.specs.FinMap as finmap;
ghost use Rattle.object_machine.specs.declared.op.Op.TheVariants.{Delete};
ghost use Rattle.store_core.specs.Store.{MayDelete};

use crate::append::refused;
use crate::store::Core;
use crate::zone::Load;
use crate::zone_calls::append_firm;
use marker_format::write_record;
use object_machine::{Refusal, Reply};
use smore_base::{Bytes, Name, NameBad};
use zone_bay::Bay;

/// A note alone.
const NOTE: Load = Load {
    blocks: 1,
    records: 1,
};

impl<B: Bay> Core<B> {
    ghost use Rattle.store_core.specs.Core.{case_of, Steps};

    /// Takes the name's object out.
    pub(crate) fn delete(&mut self, name: &Bytes) -> Reply
        ensures { Steps B.state self.old (Delete name.now) result self.new }
    {
        let key = name.as_slice();
        let name = match Name::new(key) {
            Ok(name) => name,
            Err(NameBad { length }) => return refused(Refusal::NameBad { length }),
        };
        if self.index.note(key).is_none() {
            return Reply::NotFound;
        }
        if let Some(why) = self.append_refusal(NOTE) {
            return refused(why);
        }
        self.append_delete(key, name)
    }

    /// Appends the note that the name has no object, and then takes it out of the index.
    fn append_delete(&mut self, key: &[u8], name: Name) -> Reply
        requires name { name ≡ key.now }
        requires may { MayDelete (case_of self.old self.old) key.now }
        ensures { Steps B.state self.old (Delete key.now) result self.new }
    {
        let note = self.place().delete_note(self.next_stamp, name);
        let bytes = write_record(&note, &[], &mut self.buffer);
        self.next_stamp += 1;
        if append_firm(&mut self.bay, &self.buffer[..bytes]).is_err() {
            self.is_lost = true;
            return refused(self.lost_refusal());
        }
        self.zone = self.zone.behind(NOTE);
        self.index.remove_note(key);
        Reply::Done
    }
}
