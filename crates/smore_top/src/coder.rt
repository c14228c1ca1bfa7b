ghost use Rattle.std.specs.Prelude.{◌≡◌, IfOk};
ghost use Rattle.smore_base.specs.Geometry.{IsWithinLimits};
ghost use Rattle.store_core.specs.Core.{coding_of};
ghost use Rattle.smore_top.specs.Reading.{coded};

use rs_code::{Blob, Code};
use smore_base::{Geometry, Memory};
use std::alloc::Global;
use std::marker::Model;

/// Cuts and codes the objects of requests, before their calls are answered.
#[derive(Debug, Drop)]
pub(crate) struct Coder {
    alloc: Global,
    code: Code,
    shard: u32,
}

impl Model for Coder {
    ghost use Rattle.std.specs.Prelude.{◌≤◌};
    ghost use Rattle.object_machine.specs.Coding.{Coding};

    ghost Value = { Coding };

    ghost view = { λ c. record { k = c.code.k; p = c.code.p; shard = c.shard } };

    ghost invariant = { λ c. 1 ≤ c.shard };
}

impl Coder {
    /// For an array of this geometry.
    pub(crate) fn new(alloc: Global, geometry: &Geometry) -> Coder
        requires { IsWithinLimits geometry.now }
        ensures { result ≡ coding_of geometry.now }
    {
        Coder {
            alloc,
            code: Code::new(geometry.k, geometry.p),
            shard: geometry.shard,
        }
    }

    /// The bytes as an object, cut and coded.
    pub(crate) fn object(&self, bytes: &[u8]) -> Result<Blob, Memory>
        ensures { IfOk result (λ object. object ≡ coded self.now bytes.now) }
    {
        Blob::of(self.alloc, &self.code, self.shard, bytes)
    }
}
