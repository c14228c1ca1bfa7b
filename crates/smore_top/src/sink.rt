ghost use Rattle.std.specs.Prelude.{◌≡◌, ℕ, ◌<◌, ◌≤◌, List, length, Option, IfOk, OnOk, OnErr};
ghost use Rattle.smore_base.specs.Told.{Told};
ghost use Rattle.zone_bay.specs.Outside.{HasCause};
ghost use Rattle.smore_top.specs.Streams.{Puts, PutsAll, PutsPart};

use zone_bay::Failed;

/// Where bytes go to.
pub trait Sink {
    /// The bytes that it holds, where they are told.
    ghost held: { Self → Option (List ℕ) };

    /// How often it has failed. It never falls.
    ghost faults: { Self → ℕ };

    /// Puts bytes of the front of `bytes` behind those that it holds, and answers how many: of some, any number from
    /// 1. Where it fails, none is put.
    fn put(&mut self, bytes: &[u8]) -> Result<usize, Failed>
        ensures within { IfOk result (λ count. count ≤ length bytes.now) }
        ensures some { IfOk result (λ count. 0 < length bytes.now → 0 < count) }
        ensures put { IfOk result (λ count. Told (held self.old) (held self.new) (Puts count bytes.now)) }
        ensures err { OnErr result (held self.new ≡ held self.old) }
        ensures cause { HasCause result (faults self.old) (faults self.new) };
}

/// Puts all the bytes. Where the sink fails, it has got some first of them, and not all.
pub(crate) fn put_all<K: Sink>(sink: &mut K, bytes: &[u8]) -> Result<(), Failed>
    ensures ok { OnOk result (Told (K.held sink.old) (K.held sink.new) (PutsAll bytes.now)) }
    ensures err { OnErr result (Told (K.held sink.old) (K.held sink.new) (PutsPart bytes.now)) }
    ensures cause { HasCause result (K.faults sink.old) (K.faults sink.new) }
{
    let mut rest = bytes;
    while !rest.is_empty() {
        let count = sink.put(rest)?;
        rest = &rest[count..];
    }
    Ok(())
}
