ghost use Rattle.std.specs.Prelude.{◌≡◌, ◌<◌, ◌≤◌, ◌++◌, ◌↔◌, [], length, min, take, All, Contains, IsErr, IfOk, OnOk, OnErr, vec_len};
ghost use Rattle.zone_bay.specs.Outside.{counted, HasCause};
ghost use Rattle.smore_top.specs.Streams.{Takes};
ghost use Rattle.smore_top.specs.MemoryStreams.{no_calls, joined};

use crate::source::Source;
use crate::stream_calls::StreamCalls;
use smore_base::Memory;
use std::alloc::Global;
use std::marker::Model;
use zone_bay::Failed;

/// A source of pieces in memory. Each take gives bytes of the front piece alone.
#[derive(Drop)]
pub struct MemorySource {
    pieces: Vec<Vec<u8>>,
    front: usize,
    at: usize,
    calls: StreamCalls,
}

impl Model for MemorySource {
    ghost use Rattle.smore_top.specs.MemoryStreams.{SourceState, left_of, IsAmongPieces};

    ghost Value = { SourceState };

    ghost view = { λ s. record { left = left_of s.pieces.items s.front s.at; calls = s.calls } };

    ghost invariant = { λ s. IsAmongPieces s.pieces.items s.front s.at };
}

/// Copies as many bytes as there are and fit.
fn copy_front(bytes: &[u8], out: &mut [u8]) -> usize
    ensures count { result ≡ min (length bytes.now) (length out.new) }
    ensures copied { take result out.new ≡ take result bytes.now }
{
    let count = bytes.len().min(out.len());
    out[..count].copy_from_slice(&bytes[..count]);
    count
}

impl MemorySource {
    /// A source of these pieces, in order.
    pub fn new(alloc: Global, pieces: Vec<Vec<u8>>) -> MemorySource
        requires { All (λ piece. 0 < vec_len piece) pieces.items }
        ensures { result ≡ record { left = joined pieces.items; calls = no_calls } }
    {
        MemorySource {
            pieces,
            front: 0,
            at: 0,
            calls: StreamCalls::new(alloc),
        }
    }

    /// Lets these of its takes fail too. They are counted from 1.
    pub fn fail_at(&mut self, calls: &[u64]) -> Result<(), Memory>
        ensures ok { OnOk result (self.new ≡ record self.old
            { calls = record self.old.calls { failing = self.old.calls.failing ++ calls.now } }) }
        ensures err { OnErr result (self.new ≡ self.old) }
    {
        self.calls.fail_at(calls)
    }
}

impl Source for MemorySource {
    ghost use Rattle.std.specs.Prelude.{Some};

    ghost left = { λ s. Some s.left };

    ghost faults = { λ s. s.calls.faults };

    /// Takes bytes of the front piece. A call fails where it is listed, and else never.
    fn take(&mut self, out: &mut [u8]) -> Result<usize, Failed>
        ensures within { IfOk result (λ count. count ≤ length out.new) }
        ensures taken { IfOk result (λ count. Takes count out.new self.old.left self.new.left) }
        ensures end { IfOk result (λ count. count ≡ 0 → 0 < length out.new → self.old.left ≡ []) }
        ensures err { OnErr result (self.new.left ≡ self.old.left) }
        ensures cause { HasCause result self.old.calls.faults self.new.calls.faults }
        ensures listed { IsErr result ↔ Contains self.old.calls.failing (counted self.old.calls.made) }
        ensures made { self.new.calls.made ≡ counted self.old.calls.made }
        ensures failing { self.new.calls.failing ≡ self.old.calls.failing }
    {
        self.calls.count()?;
        if self.front >= self.pieces.len() {
            return Ok(0);
        }
        let piece = &self.pieces[self.front];
        let count = copy_front(&piece[self.at..], out);
        let ends = count == piece.len() - self.at;
        if ends {
            self.front += 1;
            self.at = 0;
        } else {
            self.at += count;
        }
        Ok(count)
    }
}
