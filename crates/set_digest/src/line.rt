ghost use Rattle.std.specs.Prelude.{◌≡◌, ◌+◌, ◌≤◌, ◌++◌, length, take};
ghost use Rattle.smore_base.specs.BigEndian.{IsWritten, spelled};
ghost use Rattle.marker_format.specs.Marker.{bytes_of_name};
ghost use Rattle.set_digest.specs.declared.line.Line.{Line};
ghost use Rattle.set_digest.specs.Line.{fields_of, spelling_of, name_and_zeros};

use marker_format::{Kind, Marker};
use smore_base::{
    LINE_BYTES, MAX_NAME_BYTES, Name, copied_name, write_bytes, write_u8, write_u16, write_u32,
    write_u64, write_zeros,
};

/// What the digest of a set, and a catalogue, say of a record: the fields of its marker that don't depend on the zone, and
/// where the marker stands, as `docs/FORMATS.md`, "Lines of a catalogue", spells them.
#[derive(Debug, Drop)]
pub struct Line {
    /// How many records of the set stand before it.
    pub position: u16,
    /// The number of its `Kind`.
    pub kind: u8,
    /// The number of its marker's block, in each zone of the set.
    pub block: u32,
    /// Bytes of each fragment.
    pub fragment: u16,
    pub stamp: u64,
    pub upload: u64,
    /// Of a head always 0.
    pub part: u32,
    pub parts: u32,
    pub length: u32,
    /// Bytes of the payload.
    pub payload: u32,
    pub name: Option<Name>,
}

impl Line {
    ghost use Rattle.set_digest.specs.Records.{line_of};

    /// The line of a record whose marker stands at this block of its zone. Takes no memory.
    pub fn of(block: u32, marker: &Marker) -> Line
        ensures { result ≡ line_of block marker.now }
    {
        let is_head = marker.kind == Kind::Head.number();
        Line {
            position: marker.position,
            kind: marker.kind,
            block,
            fragment: marker.fragment,
            stamp: marker.stamp,
            upload: marker.upload,
            part: if is_head { 0 } else { marker.part },
            parts: marker.parts,
            length: marker.length,
            payload: marker.payload,
            name: copied_name(&marker.name),
        }
    }

    /// A line with the same fields.
    pub fn copied(&self) -> Line
        ensures { result ≡ self.now }
    {
        Line {
            position: self.position,
            kind: self.kind,
            block: self.block,
            fragment: self.fragment,
            stamp: self.stamp,
            upload: self.upload,
            part: self.part,
            parts: self.parts,
            length: self.length,
            payload: self.payload,
            name: copied_name(&self.name),
        }
    }
}

fn bytes_of(name: &Option<Name>) -> &[u8]
    ensures bytes { result.now ≡ bytes_of_name name.now }
    ensures short { length result.now ≤ MAX_NAME_BYTES }
{
    match name {
        Some(name) => name.as_slice(),
        None => &[],
    }
}

fn write_fields(line: &Line, out: &mut [u8]) -> usize
    requires { 41 ≤ length out.old }
    ensures end { result ≡ 41 }
    ensures written { IsWritten 0 result (spelled (fields_of line.now)) out.old out.new }
{
    let at = write_u16(out, 0, line.position);
    let at = write_u8(out, at, line.kind);
    let at = write_u32(out, at, line.block);
    let at = write_u16(out, at, line.fragment);
    let at = write_u64(out, at, line.stamp);
    let at = write_u64(out, at, line.upload);
    let at = write_u32(out, at, line.part);
    let at = write_u32(out, at, line.parts);
    let at = write_u32(out, at, line.length);
    write_u32(out, at, line.payload)
}

fn write_name(name: &[u8], out: &mut [u8], at: usize)
    requires short { length name.now ≤ MAX_NAME_BYTES }
    requires room { length out.old ≡ at + 279 }
    ensures { out.new ≡ take at out.old ++ name_and_zeros name.now }
{
    let at = write_u8(out, at, name.len() as u8);
    let at = write_bytes(out, at, name);
    write_zeros(out, at);
}

/// Writes the one spelling of the line. Takes no memory.
pub fn write_line(line: &Line, out: &mut [u8])
    requires { length out.old ≡ LINE_BYTES }
    ensures { out.new ≡ spelling_of line.now }
{
    let at = write_fields(line, out);
    write_name(bytes_of(&line.name), out, at);
}
