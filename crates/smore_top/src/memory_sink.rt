ghost use Rattle.std.specs.Prelude.{◌≡◌, ◌<◌, ◌≤◌, ◌++◌, [], length, min, Contains, IsErr, IfOk, OnOk, OnErr};
ghost use Rattle.zone_bay.specs.Outside.{counted, HasCause};
ghost use Rattle.smore_top.specs.Streams.{Puts};
ghost use Rattle.smore_top.specs.MemoryStreams.{no_calls};

use crate::sink::Sink;
use crate::stream_calls::StreamCalls;
use smore_base::Memory;
use std::alloc::Global;
use std::marker::Model;
use zone_bay::Failed;

/// A sink that keeps in memory what is put.
#[derive(Drop)]
pub struct MemorySink {
    held: Vec<u8>,
    most: usize,
    calls: StreamCalls,
}

impl Model for MemorySink {
    ghost use Rattle.std.specs.Prelude.{◌≤◌};
    ghost use Rattle.smore_top.specs.MemoryStreams.{SinkState};

    ghost Value = { SinkState };

    ghost view = { λ s. record { held = s.held.items; most = s.most; calls = s.calls } };

    ghost invariant = { λ s. 1 ≤ s.most };
}

impl MemorySink {
    /// A sink that holds nothing, and takes at most `most` bytes at once.
    pub fn new(alloc: Global, most: usize) -> MemorySink
        requires { 1 ≤ most }
        ensures { result ≡ record { held = []; most = most; calls = no_calls } }
    {
        MemorySink {
            held: Vec::new(alloc),
            most,
            calls: StreamCalls::new(alloc),
        }
    }

    /// Lets these of its puts fail too. They are counted from 1.
    pub fn fail_at(&mut self, calls: &[u64]) -> Result<(), Memory>
        ensures ok { OnOk result (self.new ≡ record self.old
            { calls = record self.old.calls { failing = self.old.calls.failing ++ calls.now } }) }
        ensures err { OnErr result (self.new ≡ self.old) }
    {
        self.calls.fail_at(calls)
    }

    /// The bytes that were put so far.
    pub fn held(&self) -> &[u8]
        ensures { result.now ≡ self.now.held }
    {
        &self.held
    }
}

impl Sink for MemorySink {
    ghost use Rattle.std.specs.Prelude.{Some};

    ghost held = { λ s. Some s.held };

    ghost faults = { λ s. s.calls.faults };

    /// Puts as many bytes as it takes at once. Beside the listed calls, one fails where memory runs out.
    fn put(&mut self, bytes: &[u8]) -> Result<usize, Failed>
        ensures within { IfOk result (λ count. count ≤ length bytes.now) }
        ensures some { IfOk result (λ count. 0 < length bytes.now → 0 < count) }
        ensures put { IfOk result (λ count. Puts count bytes.now self.old.held self.new.held) }
        ensures err { OnErr result (self.new.held ≡ self.old.held) }
        ensures cause { HasCause result self.old.calls.faults self.new.calls.faults }
        ensures count { IfOk result (λ count. count ≡ min (length bytes.now) self.old.most) }
        ensures most { self.new.most ≡ self.old.most }
        ensures listed { Contains self.old.calls.failing (counted self.old.calls.made) → IsErr result }
        ensures made { self.new.calls.made ≡ counted self.old.calls.made }
        ensures failing { self.new.calls.failing ≡ self.old.calls.failing }
    {
        self.calls.count()?;
        let count = bytes.len().min(self.most);
        if self.held.extend_from_slice(&bytes[..count]).is_err() {
            return Err(self.calls.fault());
        }
        Ok(count)
    }
}
