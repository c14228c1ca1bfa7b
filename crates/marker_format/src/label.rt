ghost use Rattle.std.specs.Prelude.{◌≡◌, length, IfSome, IfNone};
ghost use Rattle.marker_format.specs.declared.label.Label.{Label};
ghost use Rattle.marker_format.specs.Label.{IsLabel, spelling_of, label_at};

use crate::magic::has_frame;
use smore_base::{
    Geometry, read_bytes, read_u8, read_u16, read_u32, write_bytes, write_u8, write_u16, write_u32,
};

/// Bytes of a label.
pub const LABEL_BYTES: usize = 39;

/// The first version of a label, and so far the only one.
pub const LABEL_VERSION: u8 = 1;

/// The bytes that a label begins with.
const MAGIC: &[u8; 8] = b"SMORELB1";

/// Which device of which array a device is, as `docs/FORMATS.md`, "Label", spells it.
#[derive(Clone, Copy, Debug, PartialEq, Eq)]
pub struct Label {
    pub version: u8,
    pub device: u8,
    pub geometry: Geometry,
    pub array: [u8; 16],
}

/// Writes the one spelling of the label.
pub fn write_label(label: &Label, out: &mut [u8])
    requires { length out.old ≡ LABEL_BYTES }
    ensures { out.new ≡ spelling_of label.now }
{
    let geometry = &label.geometry;
    let at = write_bytes(out, 0, MAGIC);
    let at = write_u8(out, at, label.version);
    let at = write_u8(out, at, label.device);
    let at = write_u8(out, at, geometry.drives);
    let at = write_u8(out, at, geometry.k);
    let at = write_u8(out, at, geometry.p);
    let at = write_u16(out, at, geometry.zones);
    let at = write_u32(out, at, geometry.blocks);
    let at = write_u32(out, at, geometry.shard);
    let _ = write_bytes(out, at, &label.array);
}

fn label_of(bytes: &[u8]) -> Label
    requires { length bytes.now ≡ LABEL_BYTES }
    ensures { result ≡ label_at bytes.now }
{
    let geometry = Geometry {
        drives: read_u8(bytes, 10),
        k: read_u8(bytes, 11),
        p: read_u8(bytes, 12),
        zones: read_u16(bytes, 13),
        blocks: read_u32(bytes, 15),
        shard: read_u32(bytes, 19),
    };
    Label {
        version: read_u8(bytes, 8),
        device: read_u8(bytes, 9),
        geometry,
        array: read_bytes(bytes, 23),
    }
}

/// The label that the bytes spell: any version and any geometry.
pub fn read_label(bytes: &[u8]) -> Option<Label>
    ensures found { IfSome result (λ label. IsLabel label × (bytes.now ≡ spelling_of label)) }
    ensures none { IfNone result ((label : Label) → IsLabel label → bytes.now ≡ spelling_of label → ⊥) }
{
    if !has_frame(bytes, MAGIC, LABEL_BYTES) {
        return None;
    }
    Some(label_of(bytes))
}
