//! The line that a digest has of a record.
ghost use Rattle.std.specs.Prelude.{◌≡◌, length};
ghost use Rattle.gf_field.specs.Field.{AreBytes};
ghost use Rattle.marker_format.specs.Marker.{bytes_of_name};
ghost use Rattle.set_digest.specs.Line.{spelling_of};
ghost use Rattle.set_digest.specs.Records.{line_of};
ghost use Rattle.smore_base.specs.declared.limits.TheConstants.{LINE_BYTES};

use marker_format::Marker;
use set_digest::{Line, write_line};
use smore_base::LINE_BYTES;

/// Bytes of a line.
pub(crate) const LINE: usize = LINE_BYTES as usize;

/// Writes the line of the record.
fn spell(marker: &Marker, block: u32, out: &mut [u8])
    requires { length out.old ≡ LINE_BYTES }
    ensures line { out.new ≡ spelling_of (line_of block marker.now) }
    ensures name { AreBytes (bytes_of_name marker.now.name) }
{
    write_line(&Line::of(block, marker), out);
}

/// The spelled line.
pub(crate) fn spelled_line(marker: &Marker, block: u32) -> [u8; LINE]
    ensures line { result ≡ spelling_of (line_of block marker.now) }
    ensures name { AreBytes (bytes_of_name marker.now.name) }
{
    let mut out = [0; LINE];
    spell(marker, block, &mut out);
    out
}
