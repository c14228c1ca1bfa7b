ghost use Rattle.std.specs.Prelude.{◌≡◌, ℕ, ◌<◌, ◌≤◌, List, [], length, Option, IfSome, IfOk, OnErr};
ghost use Rattle.smore_base.specs.Told.{Told};
ghost use Rattle.zone_bay.specs.Outside.{HasCause};
ghost use Rattle.smore_top.specs.Streams.{Takes, Fills};

use zone_bay::Failed;

/// Where bytes come from.
pub trait Source {
    /// The bytes that are left, where they are told.
    ghost left: { Self → Option (List ℕ) };

    /// How often it has failed. It never falls.
    ghost faults: { Self → ℕ };

    /// Takes bytes to the front of `out`, and answers how many: any number from 1, or 0 where none is left or `out`
    /// has no room. Where it fails, none is taken.
    fn take(&mut self, out: &mut [u8]) -> Result<usize, Failed>
        ensures within { IfOk result (λ count. count ≤ length out.new) }
        ensures taken { IfOk result (λ count. Told (left self.old) (left self.new) (Takes count out.new)) }
        ensures end { IfOk result (λ count. count ≡ 0 → 0 < length out.new → IfSome (left self.old) (λ left. left ≡ [])) }
        ensures err { OnErr result (left self.new ≡ left self.old) }
        ensures cause { HasCause result (faults self.old) (faults self.new) };
}

/// Takes bytes until the buffer is full or the source has no more, and answers how many.
pub(crate) fn fill<S: Source>(source: &mut S, out: &mut [u8]) -> Result<usize, Failed>
    ensures within { IfOk result (λ count. count ≤ length out.old) }
    ensures length { length out.new ≡ length out.old }
    ensures taken { Told (S.left source.old) (S.left source.new) (Fills (length out.old) result out.new) }
    ensures cause { HasCause result (S.faults source.old) (S.faults source.new) }
{
    let mut filled = 0;
    while filled < out.len() {
        let count = source.take(&mut out[filled..])?;
        if count == 0 {
            return Ok(filled);
        }
        filled += count;
    }
    Ok(filled)
}
