//! The source fragments of a record, from any k fragments.
ghost use Rattle.std.specs.Prelude.{◌≡◌, ◌+◌, ◌*◌, ◌<◌, ◌≤◌, ◌↔◌, ℕ, IsTrue, true, length, take, IfSome, IfErr, OnOk};
ghost use Rattle.std.specs.List.{AllByRecursion, Contains};
ghost use Rattle.smore_base.specs.Geometry.{IsWithinLimits};
ghost use Rattle.smore_base.specs.declared.limits.TheConstants.{MAX_BLOCKS, MAX_SHARD_BYTES};
ghost use Rattle.rs_code.specs.Fragments.{AreIndexes, GivesFragment, piece};
ghost use Rattle.set_reader.specs.Calls.{ReadsUntil, failed_by};
ghost use Rattle.set_reader.specs.Rows.{IsInBay, HasBlocks, AreSources, devices_of, given_by, indexes_of, sources_from, space_of};

use crate::rows::read_rows;
use rs_code::Code;
use set_table::Member;
use smore_base::{Geometry, MAX_FRAGMENTS};
use zone_bay::Bay;

/// Indexes of members.
type Indexes = [u8; MAX_FRAGMENTS as usize];

/// Whether these are the source fragments, in order.
pub(crate) fn are_sources(members: &[Member]) -> bool
    ensures { IsTrue result ↔ AreSources members.now }
{
    for (at, member) in members.iter().enumerate() {
        if usize::from(member.index) != at {
            return false;
        }
    }
    true
}

/// The indexes of the members, and zeros behind them.
fn indexes(members: &[Member]) -> Indexes
    requires { length members.now ≤ MAX_FRAGMENTS }
    ensures { take (length members.now) result ≡ indexes_of members.now }
{
    let mut indexes = [0; MAX_FRAGMENTS as usize];
    for (at, member) in members.iter().enumerate() {
        indexes[at] = member.index;
    }
    indexes
}

/// Writes the k source fragments. `rows` are those of the indexes in `have`.
fn decode(code: &Code, have: &[u8], rows: &[u8], f: usize, out: &mut [u8])
    requires have { AreIndexes code.now.k (code.now.k + code.now.p) have.now }
    requires size { length rows.now ≡ code.now.k * f }
    requires room { length out.old ≡ code.now.k * f }
    ensures fragments { let code = code.now in (i : ℕ) → i < code.k
        → GivesFragment code.k (code.k + code.p) f have.now rows.now i (piece out.new f i) }
{
    for index in 0..code.k {
        let from = index as usize * f;
        code.fragment_into(have, rows, f, index, &mut out[from..from + f]);
    }
}

/// Fills the front of the space with the k source fragments of a record whose marker stands at this block, from k members. Where
/// they are the source fragments, they are only read: `plain`.
pub(crate) fn fill<B: Bay>(
    bay: &mut B,
    geometry: &Geometry,
    members: &[Member],
    block: u32,
    f: usize,
    plain: bool,
    space: &mut [u8],
) -> Result<(), u8>
    requires within { IsWithinLimits geometry.now }
    requires indexes { let g = geometry.now in AreIndexes g.k (g.k + g.p) (indexes_of members.now) }
    requires sources { plain ≡ true → AreSources members.now }
    requires zones { AllByRecursion (IsInBay (B.state bay.old).shape) members.now }
    requires few { block < MAX_BLOCKS }
    requires short { f ≤ MAX_SHARD_BYTES }
    requires room { length space.old ≡ space_of plain (length members.now * f) f }
    requires written { IfSome (B.state bay.old).contents (λ held. AllByRecursion (HasBlocks held block f) members.now) }
    ensures sources { IfSome (B.state bay.old).contents (λ held. let k = geometry.now.k in OnOk result
        (take (k * f) space.new ≡ sources_from k f (given_by held block f members.now))) }
    ensures device { IfErr result (Contains (devices_of members.now)) }
    ensures reads { ReadsUntil geometry.now.k (failed_by result) (B.state bay.old) (B.state bay.new) }
{
    let size = members.len() * f;
    let (sources, rest) = space.split_at_mut(size);
    if plain {
        return read_rows(bay, members, block, f, rest, sources);
    }
    let (rows, buffer) = rest.split_at_mut(size);
    read_rows(bay, members, block, f, buffer, rows)?;
    let have = indexes(members);
    let code = Code::new(geometry.k, geometry.p);
    decode(&code, &have[..members.len()], rows, f, sources);
    Ok(())
}
