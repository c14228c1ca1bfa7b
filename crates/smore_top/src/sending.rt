//! Replies to a sink of frames.
ghost use Rattle.std.specs.Prelude.{◌≡◌, ℕ, IfErr, MatchResult};
ghost use Rattle.smore_base.specs.Told.{Told};
ghost use Rattle.smore_top.specs.End.{SinkCount, EndsSending};
ghost use Rattle.smore_top.specs.Frames.{HasFrame};
ghost use Rattle.smore_top.specs.Answering.{SendsReply};

use crate::Sink;
use crate::end::End;
use crate::reply_frame::write_reply;
use crate::sink::put_all;
use object_machine::Reply;
use zone_bay::Failed;

/// Puts the reply's frame whole, or tells how the run ends. What `frame` had is lost.
pub(crate) fn send_reply<K: Sink>(
    sink: &mut K,
    frame: &mut Vec<u8>,
    reply: &Reply,
) -> Result<(), End>
    requires { HasFrame reply.now }
    ensures sent { Told (K.held sink.old) (K.held sink.new) (SendsReply reply.now result) }
    ensures end { IfErr result EndsSending }
    ensures count { MatchResult result
        (λ _. K.faults sink.new ≡ K.faults sink.old)
        (λ end. SinkCount end (K.faults sink.old) (K.faults sink.new)) }
{
    frame.clear();
    if write_reply(reply, frame).is_err() {
        return Err(End::NoMemory);
    }
    match put_all(sink, frame) {
        Ok(()) => Ok(()),
        Err(Failed) => Err(End::SinkFailed),
    }
}
