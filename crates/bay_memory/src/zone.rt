ghost use Rattle.std.specs.Prelude.{◌+◌, ◌<◌, ◌≤◌, ◌≡◌, ◌++◌, length, vec_len, IfOk, OnOk, OnErr};
ghost use Rattle.std.specs.Vec.{vec_capacity};
ghost use Rattle.bay_memory.specs.Past.{LieWithin};

use crate::change::Change;
use crate::was::Was;
use std::alloc::{AllocError, Global};

/// An append is noted, and a flush and a reset that may come after it.
const NOTES_OF_AN_APPEND: usize = 3;

/// All of a copy is firm, so that only a reset of it may come to be noted.
const NOTES_OF_A_COPY: usize = 1;

/// A zone, with what it held before each change, so that a contract can speak of each moment. It keeps all the bytes
/// that were ever put there, and takes the room to note a flush and a reset when bytes are put there: only that needs
/// memory.
#[derive(Drop)]
pub(crate) struct Zone {
    /// All the bytes that were ever put there.
    bytes: Vec<u8>,
    /// The zone holds those from here on.
    start: usize,
    /// How many of the bytes that it holds are firm.
    firm: usize,
    /// What it held before each change, the oldest first.
    past: Vec<Was>,
    ghost firm_in: { start + firm ≤ length bytes.items },
    ghost past_in: { LieWithin past.items (length bytes.items) },
    ghost room_to_reset: { start < length bytes.items → vec_len past < vec_capacity past },
    ghost room_to_flush: { start + firm < length bytes.items → vec_len past + 1 < vec_capacity past },
}

impl Zone {
    ghost use Rattle.bay_memory.specs.Past.{blank_track, now, IsSteady, Goes, with_more, all_gone, all_firm, IsFresh, changed_by};
    ghost use Rattle.bay_memory.specs.Zone.{track_of};

    /// A zone that holds nothing.
    pub fn blank(alloc: Global) -> Zone
        ensures { track_of result ≡ blank_track }
    {
        Zone {
            bytes: Vec::new(alloc),
            start: 0,
            firm: 0,
            past: Vec::new(alloc),
        }
    }

    /// A zone that has held both pieces, one behind the other, from the start, all of them firm.
    pub fn of(alloc: Global, bytes: &[u8], more: &[u8]) -> Result<Zone, AllocError>
        ensures { IfOk result (λ zone. IsFresh (bytes.now ++ more.now) (track_of zone)) }
    {
        let mut bytes = bytes.to_vec(alloc)?;
        bytes.extend_from_slice(more)?;
        let firm = bytes.len();
        let past = Vec::with_capacity(alloc, NOTES_OF_A_COPY)?;
        Ok(Zone {
            bytes,
            start: 0,
            firm,
            past,
        })
    }

    /// The bytes that it holds.
    pub fn held(&self) -> &[u8]
        ensures { result.now ≡ (now (track_of self.now)).bytes }
    {
        &self.bytes[self.start..]
    }

    /// How many of them are firm.
    pub fn firm(&self) -> usize
        ensures { result ≡ (now (track_of self.now)).firm }
    {
        self.firm
    }

    /// What it holds, as it stands until the call at this moment.
    fn was(&self, moment: u64) -> Was
        ensures { result ≡ record { moment = moment; start = self.now.start; end = length self.now.bytes.items; firm = self.now.firm } }
    {
        Was {
            moment,
            start: self.start,
            end: self.bytes.len(),
            firm: self.firm,
        }
    }

    /// Puts the bytes at the end, all of them or none.
    pub fn append(&mut self, moment: u64, bytes: &[u8]) -> Result<(), AllocError>
        requires { IsSteady moment (track_of self.old) }
        ensures ok { OnOk result (Goes moment (with_more bytes.now) (track_of self.old) (track_of self.new)) }
        ensures err { OnErr result (track_of self.new ≡ track_of self.old) }
    {
        self.past.reserve(NOTES_OF_AN_APPEND)?;
        let was = self.was(moment);
        self.bytes.extend_from_slice(bytes)?;
        self.past.push_reserved(was);
        Ok(())
    }

    /// Changes all that it holds.
    pub fn change(&mut self, moment: u64, change: Change)
        requires { IsSteady moment (track_of self.old) }
        ensures { Goes moment (changed_by change) (track_of self.old) (track_of self.new) }
    {
        match change {
            Change::Flush => self.flush(moment),
            Change::Reset => self.reset(moment),
        }
    }

    /// Empties it.
    fn reset(&mut self, moment: u64)
        requires { IsSteady moment (track_of self.old) }
        ensures { Goes moment all_gone (track_of self.old) (track_of self.new) }
    {
        if self.start == self.bytes.len() {
            return;
        }
        let was = self.was(moment);
        self.past.push_reserved(was);
        self.start = self.bytes.len();
        self.firm = 0;
    }

    /// Makes all that it holds firm.
    fn flush(&mut self, moment: u64)
        requires { IsSteady moment (track_of self.old) }
        ensures { Goes moment all_firm (track_of self.old) (track_of self.new) }
    {
        let held = self.bytes.len() - self.start;
        if self.firm == held {
            return;
        }
        let was = self.was(moment);
        self.past.push_reserved(was);
        self.firm = held;
    }
}
