//! Calls from a source of frames.
ghost use Rattle.std.specs.Prelude.{◌≡◌, ℕ, ◌<◌, ◌≤◌, length, IfOk, IfSome, IfErr, MatchResult};
ghost use Rattle.std.specs.Int.{w32, to_be_bytes, from_be_bytes};
ghost use Rattle.smore_base.specs.Told.{Told};
ghost use Rattle.object_machine.specs.Coding.{IsMadeFor};
ghost use Rattle.smore_top.specs.End.{SourceCount, EndsAsking};
ghost use Rattle.smore_top.specs.Answering.{IsMadeRequest, ReadsRequest, AsksCall};

use crate::coder::Coder;
use crate::end::End;
use crate::frame_numbers::{LENGTH_BYTES, MAX_BODY_BYTES};
use crate::request_body::request_of;
use crate::source::fill;
use crate::{Request, Source};
use object_machine::Op;
use smore_base::Memory;
use std::alloc::Global;
use zone_bay::Failed;

// The length that a frame begins with.
fn body_length(header: &[u8; LENGTH_BYTES]) -> u32
    ensures value { result ≡ from_be_bytes w32 header.now }
    ensures spelled { to_be_bytes w32 result ≡ header.now }
{
    u32::from_be_bytes(*header)
}

/// Reads the next request. None at the end between two frames.
pub(crate) fn read_request<S: Source>(
    alloc: Global,
    coder: &Coder,
    source: &mut S,
) -> Result<Option<Request>, End>
    ensures read { Told (S.left source.old) (S.left source.new) (ReadsRequest coder.now result) }
    ensures made { IfOk result (λ found. IfSome found (IsMadeRequest coder.now)) }
    ensures end { IfErr result EndsAsking }
    ensures count { MatchResult result
        (λ _. S.faults source.new ≡ S.faults source.old)
        (λ end. SourceCount end (S.faults source.old) (S.faults source.new)) }
{
    let mut header = [0; LENGTH_BYTES];
    let count = match fill(source, &mut header) {
        Ok(count) => count,
        Err(Failed) => return Err(End::SourceFailed),
    };
    if count == 0 {
        return Ok(None);
    }
    let length = body_length(&header);
    if count < LENGTH_BYTES || length == 0 || length > MAX_BODY_BYTES {
        return Err(End::BadFrame);
    }
    let Ok(mut body) = vec![in alloc; 0; length as usize] else {
        return Err(End::NoMemory);
    };
    match fill(source, &mut body) {
        Err(Failed) => return Err(End::SourceFailed),
        Ok(count) if count < body.len() => return Err(End::BadFrame),
        Ok(_) => {}
    }
    match request_of(alloc, coder, &body) {
        Err(Memory) => Err(End::NoMemory),
        Ok(None) => Err(End::BadFrame),
        Ok(Some(request)) => Ok(Some(request)),
    }
}

/// Asks for the next call, or tells how the run ends where none follows.
pub(crate) fn next_call<S: Source>(alloc: Global, coder: &Coder, source: &mut S) -> Result<Op, End>
    ensures asked { Told (S.left source.old) (S.left source.new) (AsksCall coder.now result) }
    ensures made { IfOk result (IsMadeFor coder.now) }
    ensures end { IfErr result EndsAsking }
    ensures count { MatchResult result
        (λ _. S.faults source.new ≡ S.faults source.old)
        (λ end. SourceCount end (S.faults source.old) (S.faults source.new)) }
{
    match read_request(alloc, coder, source) {
        Err(end) => Err(end),
        Ok(Some(Request::Call { op })) => Ok(op),
        Ok(Some(Request::Stop)) => Err(End::Done),
        Ok(None) => Err(End::Done),
    }
}
