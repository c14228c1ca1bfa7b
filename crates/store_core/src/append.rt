ghost use Rattle.std.specs.Prelude.{◌≡◌, ◌≤◌, MatchOption, false};
ghost use Rattle.object_machine.specs.declared.reply.Reply.TheVariants.{Refused};

use crate::records::RecordPlace;
use crate::store::{Core, FULL_NEED, FULL_ROOM, LOST_FRAGMENTS};
use crate::zone::Load;
use marker_format::COUNTER_END;
use object_machine::{Refusal, Reply};
use smore_base::MAX_RECORDS;
use zone_bay::Bay;

/// The answer with this refusal.
pub(crate) fn refused(why: Refusal) -> Reply
    ensures { result ≡ Reply.Refused why }
{
    Reply::Refused { why }
}

impl<B: Bay> Core<B> {
    ghost use Rattle.store_core.specs.Store.{AppendCause, MayAppend};
    ghost use Rattle.store_core.specs.Core.{is_lost_in, standing_of, case_of, place_of};

    /// Why a step that reads or appends is refused where drive 0 is lost.
    pub(crate) fn lost_refusal(&self) -> Refusal
        ensures { result ≡ Refusal.TooFewFragments (standing_of self.now).set LOST_FRAGMENTS }
    {
        Refusal::TooFewFragments {
            set: self.zone.set,
            missing: LOST_FRAGMENTS,
        }
    }

    /// Why a step that is to append so much is refused.
    pub(crate) fn append_refusal(&self, load: Load) -> Option<Refusal>
        requires few { load.records ≤ 2 }
        ensures { MatchOption result
            (MayAppend (case_of self.now self.now) load × (is_lost_in self.now ≡ false))
            (λ why. AppendCause (case_of self.now self.now) load (Refused why)) }
    {
        if self.next_stamp == COUNTER_END {
            return Some(Refusal::Spent);
        }
        let is_full = self.zone.is_torn
            || load.blocks >= self.geometry.blocks - self.zone.blocks
            || self.zone.records + load.records > MAX_RECORDS;
        if is_full {
            return Some(Refusal::Full {
                need: FULL_NEED,
                room: FULL_ROOM,
            });
        }
        if self.is_lost {
            return Some(self.lost_refusal());
        }
        None
    }

    /// Where the next record goes.
    pub(crate) fn place(&self) -> RecordPlace
        requires { (standing_of self.now).records ≤ MAX_RECORDS }
        ensures { result ≡ place_of self.now }
    {
        RecordPlace {
            set: self.zone.set,
            index: self.zone.index,
            position: self.zone.records as u16,
            array: self.array,
        }
    }
}
