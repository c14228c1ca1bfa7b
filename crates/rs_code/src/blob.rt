ghost use Rattle.std.specs.Prelude.{◌≡◌, ◌*◌, ◌≤◌, length, IfOk};
ghost use Rattle.rs_code.specs.Blob.{AreParts};

use crate::{Code, Coded};
use smore_base::Memory;
use std::alloc::Global;
use std::marker::Model;

/// Bytes cut into parts of k shards, each with its fragments. Contracts see it as the bytes with the k, p and shard that it
/// was made for.
#[derive(Debug, Drop)]
pub struct Blob {
    k: u8,
    p: u8,
    shard: u32,
    len: u64,
    parts: Vec<Coded>,
}

impl Model for Blob {
    ghost use Rattle.rs_code.specs.Blob.{CutBytes, joined, KeepsParts};

    ghost Value = { CutBytes };

    ghost view = { λ b. record { bytes = joined b.parts.items; k = b.k; p = b.p; shard = b.shard } };

    ghost invariant = { λ b. KeepsParts b.k b.p b.shard b.len b.parts.items };
}

impl Blob {
    /// Cuts the bytes at each multiple of k shards of `shard` bytes, and codes each part.
    pub fn of(alloc: Global, code: &Code, shard: u32, bytes: &[u8]) -> Result<Blob, Memory>
        requires { 1 ≤ shard }
        ensures { IfOk result
            (λ blob. blob ≡ record { bytes = bytes.now; k = code.now.k; p = code.now.p; shard = shard }) }
    {
        let parts = parts_of(alloc, code, code.k as usize * shard as usize, bytes)?;
        Ok(Blob {
            k: code.k,
            p: code.p,
            shard,
            len: bytes.len() as u64,
            parts,
        })
    }

    /// How many bytes there are.
    pub fn len(&self) -> u64
        ensures { result ≡ length self.now.bytes }
    {
        self.len
    }

    /// The parts, in order. Of no bytes there are none.
    pub fn parts(&self) -> &[Coded]
        ensures { let cut = self.now in AreParts cut.k cut.p (cut.k * cut.shard) cut.bytes result.now }
    {
        &self.parts
    }
}

/// The parts of `size` bytes, of which the last may be shorter.
fn parts_of(alloc: Global, code: &Code, size: usize, bytes: &[u8]) -> Result<Vec<Coded>, Memory>
    requires { 1 ≤ size }
    ensures { IfOk result (λ parts. AreParts code.now.k code.now.p size bytes.now parts.items) }
{
    let mut parts = Vec::new(alloc);
    let mut rest = bytes;
    while rest.len() > size {
        let (part, later) = rest.split_at(size);
        parts.push(Coded::of(alloc, code, part)?)?;
        rest = later;
    }
    if !rest.is_empty() {
        parts.push(Coded::of(alloc, code, rest)?)?;
    }
    Ok(parts)
}
