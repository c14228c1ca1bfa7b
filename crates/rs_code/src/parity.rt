//! The parity behind the source fragments.

ghost use Rattle.std.specs.Prelude.{◌≡◌, ◌+◌, ◌*◌, length, take};
ghost use Rattle.rs_code.specs.Fragments.{IsCode};
ghost use Rattle.rs_code.specs.Coded.{pieces};

use crate::Code;

/// Writes the parity of the k fragments of `f` bytes that `bytes` begins with behind them.
pub fn add_parity(code: &Code, f: usize, bytes: &mut [u8])
    requires { length bytes.old ≡ (code.now.k + code.now.p) * f }
    ensures code { let n = code.now.k + code.now.p in IsCode code.now.k n f (pieces n f bytes.new) }
    ensures sources { take (code.now.k * f) bytes.new ≡ take (code.now.k * f) bytes.old }
{
    let size = code.k as usize * f;
    let (fragments, parity) = bytes.split_at_mut(size);
    code.parities_into(fragments, f, parity);
}
