ghost use Rattle.std.specs.Prelude.{◌≡◌, ℕ, ◌*◌, ◌≤◌, ◌≢◌, List, length, take, true};
ghost use Rattle.smore_base.specs.declared.limits.TheConstants.{BLOCK_BYTES, MAX_SHARD_BYTES};
ghost use Rattle.smore_base.specs.Name.{IsName};
ghost use Rattle.object_machine.specs.Coding.{IsMadeFor, IsCodedFor};
ghost use Rattle.object_machine.specs.declared.op.Op.TheVariants.{Put};
ghost use Rattle.store_core.specs.Records.{HasPlaces, IsStamp, put_bytes};
ghost use Rattle.store_core.specs.Store.{put_load, MayPut};

use crate::append::refused;
use crate::index::Part;
use crate::records::RecordPlace;
use crate::store::Core;
use crate::zone::Load;
use crate::zone_calls::append_firm;
use marker_format::{blocks_of, write_record};
use object_machine::{Refusal, Reply};
use rs_code::Blob;
use smore_base::{Bytes, Name, NameBad};
use zone_bay::Bay;

/// Blocks and records of a put of so many bytes: its note, and in front of it a part, where there are any.
fn put_load(bytes: u32) -> Load
    ensures { result ≡ put_load bytes }
{
    if bytes == 0 {
        return Load {
            blocks: 1,
            records: 1,
        };
    }
    Load {
        blocks: blocks_of(bytes) + 2,
        records: 2,
    }
}

/// Writes the records of a put at the front, and answers how many bytes they are.
fn write_put(place: RecordPlace, stamp: u64, name: Name, object: &Blob, out: &mut [u8]) -> usize
    requires place { HasPlaces place (put_load (length object.now.bytes)).records }
    requires stamp { IsStamp stamp }
    requires name { IsName name }
    requires coded { IsCodedFor (record { k = 1; p = 1; shard = object.now.shard }) object.now }
    requires small { (length object.now.bytes ≤ object.now.shard) × (object.now.shard ≤ MAX_SHARD_BYTES) }
    requires room { BLOCK_BYTES * (put_load (length object.now.bytes)).blocks ≤ length out.old }
    ensures end { result ≡ BLOCK_BYTES * (put_load (length object.now.bytes)).blocks }
    ensures written { take result out.new ≡ put_bytes place stamp name object.now.bytes }
    ensures room { length out.new ≡ length out.old }
{
    let length = object.len() as u32;
    match object.parts() {
        [] => write_record(&place.put_note(stamp, length, name), &[], out),
        [part, ..] => {
            let fragment = part.fragment(place.index);
            let marker = place.part(stamp, fragment.len() as u16);
            let end = write_record(&marker, fragment, out);
            let note = place.next().put_note(stamp, length, name);
            end + write_record(&note, &[], &mut out[end..])
        }
    }
}

impl<B: Bay> Core<B> {
    ghost use Rattle.store_core.specs.Core.{coding_of, geometry_of, is_lost_in, case_of, Steps};

    /// Gives the name the object.
    pub(crate) fn put(&mut self, name: &Bytes, object: &Blob) -> Reply
        requires { IsMadeFor (coding_of (geometry_of self.old)) (Put name.now object.now) }
        ensures { Steps B.state self.old (Put name.now object.now) result self.new }
    {
        let key = name.as_slice();
        let name = match Name::new(key) {
            Ok(name) => name,
            Err(NameBad { length }) => return refused(Refusal::NameBad { length }),
        };
        let length = object.len();
        if length > u64::from(self.geometry.shard) {
            return refused(Refusal::TooLarge { length });
        }
        let load = put_load(length as u32);
        if let Some(why) = self.append_refusal(load) {
            return refused(why);
        }
        self.append_put(key, name, object, load)
    }

    /// Takes a put's name and part into the index, and then appends its records, so that want of memory comes before that.
    fn append_put(&mut self, key: &[u8], name: Name, object: &Blob, load: Load) -> Reply
        requires coded { IsMadeFor (coding_of (geometry_of self.old)) (Put key.now object.now) }
        requires name { name ≡ key.now }
        requires load { load ≡ put_load (length object.now.bytes) }
        requires may { MayPut (case_of self.old self.old) key.now (length object.now.bytes) }
        ensures { Steps B.state self.old (Put key.now object.now) result self.new }
    {
        let upload = self.next_stamp;
        let part = Part {
            block: self.zone.blocks,
            bytes: object.len() as u32,
        };
        let place = self.place();
        let Ok(old) = self.index.add_put(self.alloc, key, upload, part) else {
            return refused(Refusal::Memory);
        };
        let bytes = write_put(place, upload, name, object, &mut self.buffer);
        self.next_stamp += 1;
        if append_firm(&mut self.bay, &self.buffer[..bytes]).is_err() {
            self.index.take_back(key, upload, old);
            self.is_lost = true;
            return refused(self.lost_refusal());
        }
        self.zone = self.zone.behind(load);
        Reply::Done
    }
}
