ghost use Rattle.std.specs.Prelude.{◌≡◌, ◌≤◌, ◌++◌, ◌↔◌, Contains, IsErr, OnOk, OnErr};
ghost use Rattle.zone_bay.specs.Outside.{counted, HasCause, Rose};
ghost use Rattle.smore_top.specs.MemoryStreams.{no_calls};

use smore_base::Memory;
use std::alloc::Global;
use std::marker::Model;
use zone_bay::Failed;

/// The calls of a stream in memory. Those whose numbers are listed fail.
#[derive(Drop)]
pub(crate) struct StreamCalls {
    made: u64,
    faults: u64,
    failing: Vec<u64>,
}

impl Model for StreamCalls {
    ghost use Rattle.smore_top.specs.MemoryStreams.{CallCount};

    ghost Value = { CallCount };

    ghost view = { λ c. record { made = c.made; faults = c.faults; failing = c.failing.items } };
}

impl StreamCalls {
    pub(crate) fn new(alloc: Global) -> StreamCalls
        ensures { result ≡ no_calls }
    {
        StreamCalls {
            made: 0,
            faults: 0,
            failing: Vec::new(alloc),
        }
    }

    /// Lists more calls that fail.
    pub(crate) fn fail_at(&mut self, calls: &[u64]) -> Result<(), Memory>
        ensures ok { OnOk result (self.new ≡ record self.old { failing = self.old.failing ++ calls.now }) }
        ensures err { OnErr result (self.new ≡ self.old) }
    {
        self.failing.extend_from_slice(calls)?;
        Ok(())
    }

    /// Counts a call. It fails where its number is listed.
    pub(crate) fn count(&mut self) -> Result<(), Failed>
        ensures listed { IsErr result ↔ Contains self.old.failing (counted self.old.made) }
        ensures ok { OnOk result (self.new ≡ record self.old { made = counted self.old.made }) }
        ensures err { OnErr result (self.new ≡ record self.old { made = counted self.old.made; faults = counted self.old.faults }) }
        ensures cause { HasCause result self.old.faults self.new.faults }
    {
        self.made = self.made.saturating_add(1);
        if self.failing.contains(&self.made) {
            self.faults = self.faults.saturating_add(1);
            return Err(Failed);
        }
        Ok(())
    }

    /// Counts the fault of a call that was counted already.
    pub(crate) fn fault(&mut self) -> Failed
        ensures after { self.new ≡ record self.old { faults = counted self.old.faults } }
        ensures keeps { self.old.faults ≤ self.new.faults }
        ensures rose { Rose self.old.faults self.new.faults }
    {
        self.faults = self.faults.saturating_add(1);
        Failed
    }
}
