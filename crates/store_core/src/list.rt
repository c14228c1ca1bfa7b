ghost use Rattle.object_machine.specs.declared.op.Op.TheVariants.{List as ListNames};

use crate::append::refused;
use crate::store::Core;
use object_machine::{MAX_NAMES, Refusal, Reply};
use smore_base::{Bytes, MAX_NAME_BYTES};
use zone_bay::Bay;

impl<B: Bay> Core<B> {
    ghost use Rattle.store_core.specs.Core.{Steps};

    /// Gives the first names above this one.
    pub(crate) fn list(&mut self, after: &Bytes, limit: u16) -> Reply
        ensures { Steps B.state self.old (ListNames after.now limit) result self.new }
    {
        let length = after.len();
        if length > MAX_NAME_BYTES {
            return refused(Refusal::NameBad {
                length: length as u64,
            });
        }
        match self
            .index
            .names_above(self.alloc, after.as_slice(), limit.min(MAX_NAMES))
        {
            Ok((names, more)) => Reply::Names { names, more },
            Err(_) => refused(Refusal::Memory),
        }
    }
}
