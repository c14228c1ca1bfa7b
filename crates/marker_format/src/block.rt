//! Blocks of 512 bytes: a tag, and 511 bytes of content with zeros at their end.

ghost use Rattle.std.specs.Prelude.{◌≡◌, ◌≤◌, ℕ, List, length, IfSome, IfNone};
ghost use Rattle.smore_base.specs.declared.limits.TheConstants.{CONTENT_BYTES};
ghost use Rattle.marker_format.specs.declared.marker.Marker.{Marker};
ghost use Rattle.marker_format.specs.declared.foot.Foot.{Foot};
ghost use Rattle.marker_format.specs.declared.label.Label.{Label};
ghost use Rattle.marker_format.specs.Marker.{IsMarker};
ghost use Rattle.marker_format.specs.Foot.{IsFoot};
ghost use Rattle.marker_format.specs.Label.{IsLabel};
ghost use Rattle.marker_format.specs.Block.{block_of, marker_block, foot_block, label_block, data_block};

use crate::foot::{FOOT_BYTES, Foot, read_foot, write_foot};
use crate::label::{LABEL_BYTES, Label, read_label, write_label};
use crate::magic::are_zeros;
use crate::marker::{MARKER_BYTES, Marker, read_marker, write_marker};
use crate::tag::Tag;
use smore_base::{BLOCK_BYTES, write_bytes, write_u8, write_zeros};

/// Bytes of a block, as an index.
pub(crate) const BLOCK: usize = BLOCK_BYTES as usize;

/// Writes the block that holds the marker.
pub fn write_marker_block(marker: &Marker, out: &mut [u8])
    requires marker { IsMarker marker.now }
    requires long { length out.old ≡ BLOCK }
    ensures { out.new ≡ marker_block marker.now }
{
    let at = write_u8(out, 0, Tag::Marker.number());
    write_marker(marker, &mut out[at..at + MARKER_BYTES]);
    write_zeros(out, at + MARKER_BYTES);
}

/// Writes the block that holds the foot.
pub fn write_foot_block(foot: &Foot, out: &mut [u8])
    requires { length out.old ≡ BLOCK }
    ensures { out.new ≡ foot_block foot.now }
{
    let at = write_u8(out, 0, Tag::Foot.number());
    write_foot(foot, &mut out[at..at + FOOT_BYTES]);
    write_zeros(out, at + FOOT_BYTES);
}

/// Writes the block that holds the label.
pub fn write_label_block(label: &Label, out: &mut [u8])
    requires { length out.old ≡ BLOCK }
    ensures { out.new ≡ label_block label.now }
{
    let at = write_u8(out, 0, Tag::Label.number());
    write_label(label, &mut out[at..at + LABEL_BYTES]);
    write_zeros(out, at + LABEL_BYTES);
}

/// Writes the block that holds these bytes of a fragment, 511 at most.
pub fn write_data_block(piece: &[u8], out: &mut [u8])
    requires short { length piece.now ≤ CONTENT_BYTES }
    requires long { length out.old ≡ BLOCK }
    ensures { out.new ≡ data_block piece.now }
{
    let at = write_u8(out, 0, Tag::Data.number());
    let at = write_bytes(out, at, piece);
    write_zeros(out, at);
}

/// The text of so many bytes that the block holds under this tag.
fn text_of(block: &[u8], tag: Tag, bytes: usize) -> Option<&[u8]>
    requires { bytes ≤ CONTENT_BYTES }
    ensures found { IfSome result (λ text. (length text.now ≡ bytes) × (block.now ≡ block_of tag text.now)) }
    ensures none { IfNone result ((text : List ℕ) → length text ≡ bytes → block.now ≡ block_of tag text → ⊥) }
{
    if block.len() != BLOCK || block[0] != tag.number() || !are_zeros(&block[1 + bytes..]) {
        return None;
    }
    Some(&block[1..1 + bytes])
}

/// The well formed marker that the block holds.
pub fn read_marker_block(block: &[u8]) -> Option<Marker>
    ensures found { IfSome result (λ m. IsMarker m × (block.now ≡ marker_block m)) }
    ensures none { IfNone result ((m : Marker) → IsMarker m → block.now ≡ marker_block m → ⊥) }
{
    read_marker(text_of(block, Tag::Marker, MARKER_BYTES)?)
}

/// The foot that the block holds: any values of its fields.
pub fn read_foot_block(block: &[u8]) -> Option<Foot>
    ensures found { IfSome result (λ foot. IsFoot foot × (block.now ≡ foot_block foot)) }
    ensures none { IfNone result ((foot : Foot) → IsFoot foot → block.now ≡ foot_block foot → ⊥) }
{
    read_foot(text_of(block, Tag::Foot, FOOT_BYTES)?)
}

/// The label that the block holds: any version and any geometry.
pub fn read_label_block(block: &[u8]) -> Option<Label>
    ensures found { IfSome result (λ label. IsLabel label × (block.now ≡ label_block label)) }
    ensures none { IfNone result ((label : Label) → IsLabel label → block.now ≡ label_block label → ⊥) }
{
    read_label(text_of(block, Tag::Label, LABEL_BYTES)?)
}
