ghost use Rattle.std.specs.Prelude.{◌≡◌, ◌+◌, ◌<◌, length, take, IfOk};
ghost use Rattle.rs_code.specs.Fragments.{IsFragment, fragment_len};
ghost use Rattle.rs_code.specs.Coded.{KeepsFragments};

use crate::Code;
use crate::parity::add_parity;
use smore_base::Memory;
use std::alloc::Global;
use std::marker::Model;

/// A payload with its fragments: `docs/FORMATS.md`, "The code". Contracts see it as the payload with the k and p that it
/// was made for.
#[derive(Debug, Drop)]
pub struct Coded {
    k: u8,
    p: u8,
    payload_len: usize,
    fragment_len: usize,
    fragments: Vec<u8>,
}

impl Model for Coded {
    ghost use Rattle.std.specs.Prelude.{take};
    ghost use Rattle.rs_code.specs.Coded.{CodedPayload, KeepsFragments};

    ghost Value = { CodedPayload };

    ghost view = { λ c. record { payload = take c.payload_len c.fragments.items; k = c.k; p = c.p } };

    ghost invariant = { λ c. KeepsFragments c.k c.p c.payload_len c.fragment_len c.fragments.items };
}

impl Coded {
    /// The payload, padded with zeros to k fragments of the least length, and p parity fragments.
    pub fn of(alloc: Global, code: &Code, payload: &[u8]) -> Result<Coded, Memory>
        ensures { IfOk result
            (λ coded. coded ≡ record { payload = payload.now; k = code.now.k; p = code.now.p }) }
    {
        let fragment_len = payload.len().div_ceil(code.k as usize);
        let fragments = fragments_of(alloc, code, payload, fragment_len)?;
        Ok(Coded {
            k: code.k,
            p: code.p,
            payload_len: payload.len(),
            fragment_len,
            fragments,
        })
    }

    /// The fragment of that index: the source fragments come first.
    pub fn fragment(&self, index: u8) -> &[u8]
        requires { index < self.now.k + self.now.p }
        ensures { IsFragment self.now.k (self.now.k + self.now.p) self.now.payload index result.now }
    {
        let fragments = self.fragments.as_slice();
        let from = index as usize * self.fragment_len;
        &fragments[from..from + self.fragment_len]
    }

    /// How many bytes the payload has, without the zeros after it.
    pub fn payload_len(&self) -> usize
        ensures { result ≡ length self.now.payload }
    {
        self.payload_len
    }
}

/// The fragments of the payload, of `f` bytes each, in order of index.
fn fragments_of(alloc: Global, code: &Code, payload: &[u8], f: usize) -> Result<Vec<u8>, Memory>
    requires { f ≡ fragment_len code.now.k (length payload.now) }
    ensures payload { IfOk result (λ bytes. take (length payload.now) bytes.items ≡ payload.now) }
    ensures fragments { IfOk result
        (λ bytes. KeepsFragments code.now.k code.now.p (length payload.now) f bytes.items) }
{
    let Some(size) = (code.n() as usize).checked_mul(f) else {
        return Err(Memory);
    };
    let mut bytes = Vec::with_capacity(alloc, size)?;
    bytes.extend_from_slice(payload)?;
    bytes.resize(size, 0)?;
    add_parity(code, f, bytes.as_mut_slice());
    Ok(bytes)
}
