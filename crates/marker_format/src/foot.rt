ghost use Rattle.std.specs.Prelude.{◌≡◌, length, IfSome, IfNone};
ghost use Rattle.marker_format.specs.declared.foot.Foot.{Foot};
ghost use Rattle.marker_format.specs.Foot.{IsFoot, spelling_of, foot_at};

use crate::magic::has_frame;
use smore_base::{
    read_u8, read_u16, read_u32, read_u64, write_bytes, write_u8, write_u16, write_u32, write_u64,
};

/// Bytes of a foot.
pub const FOOT_BYTES: usize = 27;

/// The bytes that a foot begins with.
const MAGIC: &[u8; 8] = b"SMOREFT1";

/// Where a zone's digest stands, as `docs/FORMATS.md`, "Foot", spells it.
#[derive(Clone, Copy, Debug, PartialEq, Eq)]
pub struct Foot {
    pub set: u64,
    pub index: u8,
    /// The position of the first digest record.
    pub position: u16,
    /// The number of its block in the zone.
    pub block: u32,
    /// The number of digest records.
    pub count: u32,
}

/// Writes the one spelling of the foot.
pub fn write_foot(foot: &Foot, out: &mut [u8])
    requires { length out.old ≡ FOOT_BYTES }
    ensures { out.new ≡ spelling_of foot.now }
{
    let at = write_bytes(out, 0, MAGIC);
    let at = write_u64(out, at, foot.set);
    let at = write_u8(out, at, foot.index);
    let at = write_u16(out, at, foot.position);
    let at = write_u32(out, at, foot.block);
    let _ = write_u32(out, at, foot.count);
}

fn foot_of(bytes: &[u8]) -> Foot
    requires { length bytes.now ≡ FOOT_BYTES }
    ensures { result ≡ foot_at bytes.now }
{
    Foot {
        set: read_u64(bytes, 8),
        index: read_u8(bytes, 16),
        position: read_u16(bytes, 17),
        block: read_u32(bytes, 19),
        count: read_u32(bytes, 23),
    }
}

/// The foot that the bytes spell: any values of its fields.
pub fn read_foot(bytes: &[u8]) -> Option<Foot>
    ensures found { IfSome result (λ foot. IsFoot foot × (bytes.now ≡ spelling_of foot)) }
    ensures none { IfNone result ((foot : Foot) → IsFoot foot → bytes.now ≡ spelling_of foot → ⊥) }
{
    if !has_frame(bytes, MAGIC, FOOT_BYTES) {
        return None;
    }
    Some(foot_of(bytes))
}
