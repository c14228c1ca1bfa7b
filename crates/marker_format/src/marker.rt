ghost use Rattle.std.specs.Prelude.{◌≡◌, ◌+◌, ◌≤◌, ◌↔◌, ◌++◌, length, take, drop, IsTrue, IfSome, IfNone};
ghost use Rattle.std.specs.Int.{w8};
ghost use Rattle.smore_base.specs.BigEndian.{IsWritten, spelled, number_at};
ghost use Rattle.marker_format.specs.declared.marker.Marker.{Marker};
ghost use Rattle.marker_format.specs.Marker.{IsMarker, fields_of, bytes_of_name, name_field, spelling_of, marker_at, name_of, IsPadded, is_used, is_named, is_coded, uses, counts, is_well_formed};
ghost use Rattle.marker_format.specs.Plain.{plain_marker};

use crate::Kind;
use crate::magic::{are_zeros, has_frame};
use smore_base::{
    MAX_FRAGMENTS, MAX_NAME_BYTES, MAX_RECORDS, MAX_SHARD_BYTES, Name, copied_name, read_bytes,
    read_u8, read_u16, read_u32, read_u64, write_bytes, write_u8, write_u16, write_u32, write_u64,
    write_zeros,
};

/// Bytes of a marker.
pub const MARKER_BYTES: usize = 328;

/// Sets, stamps and uploads are below this number.
pub const COUNTER_END: u64 = 1 << 62;

/// The bytes that a marker begins with.
const MAGIC: &[u8; 8] = b"SMOREMK1";

/// Where the name's length stands, and behind it the name.
const NAME_AT: usize = 72;

/// What a record is, and of which set, as `docs/FORMATS.md`, "Marker", spells it.
#[derive(Debug, Drop)]
pub struct Marker {
    /// The number of its `Kind`.
    pub kind: u8,
    /// Which fragment of the payload follows.
    pub index: u8,
    /// Source fragments of a payload.
    pub k: u8,
    /// Source and parity fragments of a payload.
    pub n: u8,
    pub set: u64,
    /// How many records of the set stand before it.
    pub position: u16,
    /// Bytes of each fragment.
    pub fragment: u16,
    pub stamp: u64,
    pub upload: u64,
    pub part: u32,
    pub parts: u32,
    pub length: u32,
    /// Bytes of the payload.
    pub payload: u32,
    pub array: [u8; 16],
    pub name: Option<Name>,
}

impl Marker {
    /// A marker of index 0 without what only some kinds have.
    pub fn plain(kind: Kind, k: u8, n: u8, set: u64, position: u16, array: [u8; 16]) -> Marker
        ensures { result ≡ plain_marker array k n set kind position }
    {
        Marker {
            kind: kind.number(),
            index: 0,
            k,
            n,
            set,
            position,
            fragment: 0,
            stamp: 0,
            upload: 0,
            part: 0,
            parts: 0,
            length: 0,
            payload: 0,
            array,
            name: None,
        }
    }

    /// The marker of the same record in the zone of another index. Takes no memory.
    pub fn at_index(&self, index: u8) -> Marker
        ensures { result ≡ record self.now { index = index } }
    {
        Marker {
            kind: self.kind,
            index,
            k: self.k,
            n: self.n,
            set: self.set,
            position: self.position,
            fragment: self.fragment,
            stamp: self.stamp,
            upload: self.upload,
            part: self.part,
            parts: self.parts,
            length: self.length,
            payload: self.payload,
            array: self.array,
            name: copied_name(&self.name),
        }
    }

    /// Whether each field keeps its limits, and is 0 where the kind doesn't use it.
    #[tactic(auto, unfolding(crate::specs::Marker::is_well_formed))]
    pub fn is_well_formed(&self) -> bool
        ensures { result ≡ is_well_formed self.now }
    {
        match Kind::from_number(self.kind) {
            None => false,
            Some(kind) => self.is_coded() && self.has_uses_of(kind) && self.has_counts_of(kind),
        }
    }

    /// Whether the code that the record is spelled in and the set keep their limits.
    fn is_coded(&self) -> bool
        ensures { result ≡ is_coded self.now }
    {
        self.k >= 1
            && self.k < self.n
            && self.n <= MAX_FRAGMENTS
            && self.index < self.n
            && u32::from(self.fragment) == self.payload.div_ceil(u32::from(self.k))
            && u32::from(self.fragment) <= MAX_SHARD_BYTES
            && self.set >= 1
            && self.set < COUNTER_END
    }

    /// Whether the fields that not each kind uses are there exactly where this kind uses them.
    fn has_uses_of(&self, kind: Kind) -> bool
        ensures { result ≡ uses kind self.now }
    {
        self.position <= kind.most_position()
            && is_used(kind.has_stamp(), self.stamp)
            && self.stamp < COUNTER_END
            && is_used(kind.has_upload(), self.upload)
            && self.upload < COUNTER_END
            && is_used(kind.has_payload(), u64::from(self.payload))
            && is_named(kind.has_name(), &self.name)
    }

    /// Whether part, parts and length are as this kind has them.
    fn has_counts_of(&self, kind: Kind) -> bool
        ensures { result ≡ counts kind self.now }
    {
        match kind {
            Kind::Head => self.part <= 1 && self.parts == 0 && self.length == 0,
            Kind::Part => self.parts == 0 && self.length == 0,
            Kind::Put => {
                self.part == 0 && self.parts <= self.length && (self.parts != 0 || self.length == 0)
            }
            Kind::Cut => {
                self.part == 0
                    && self.parts == 0
                    && self.length <= MAX_RECORDS
                    && self.upload < self.set
            }
            Kind::Digest => self.part < self.parts && self.length == 0,
            Kind::Snapshot => self.part < self.parts,
            Kind::Delete | Kind::Ready | Kind::Trailer => {
                self.part == 0 && self.parts == 0 && self.length == 0
            }
        }
    }
}

/// Whether the number is from 1 where it is used, and 0 where it isn't.
fn is_used(used: bool, number: u64) -> bool
    ensures { result ≡ is_used used number }
{
    if used { number >= 1 } else { number == 0 }
}

/// Whether there is a name of 1 to 255 bytes where it is used, and none where it isn't.
fn is_named(used: bool, name: &Option<Name>) -> bool
    ensures { result ≡ is_named used name.now }
{
    match name {
        None => !used,
        Some(name) => {
            let length = name.as_slice().len();
            used && length >= 1 && length <= MAX_NAME_BYTES
        }
    }
}

fn write_fields(marker: &Marker, out: &mut [u8], at: usize) -> usize
    requires { at + 48 ≤ length out.old }
    ensures end { result ≡ at + 48 }
    ensures written { IsWritten at result (spelled (fields_of marker.now)) out.old out.new }
{
    let at = write_u8(out, at, marker.kind);
    let at = write_u8(out, at, marker.index);
    let at = write_u8(out, at, marker.k);
    let at = write_u8(out, at, marker.n);
    let at = write_u64(out, at, marker.set);
    let at = write_u16(out, at, marker.position);
    let at = write_u16(out, at, marker.fragment);
    let at = write_u64(out, at, marker.stamp);
    let at = write_u64(out, at, marker.upload);
    let at = write_u32(out, at, marker.part);
    let at = write_u32(out, at, marker.parts);
    let at = write_u32(out, at, marker.length);
    write_u32(out, at, marker.payload)
}

fn write_name(name: &[u8], out: &mut [u8], at: usize)
    requires short { length name.now ≤ MAX_NAME_BYTES }
    requires room { length out.old ≡ at + 256 }
    ensures { out.new ≡ take at out.old ++ name_field name.now }
{
    let at = write_u8(out, at, name.len() as u8);
    let at = write_bytes(out, at, name);
    write_zeros(out, at);
}

fn bytes_of(name: &Option<Name>) -> &[u8]
    ensures { result.now ≡ bytes_of_name name.now }
{
    match name {
        Some(name) => name.as_slice(),
        None => &[],
    }
}

/// Writes the one spelling of the marker.
pub fn write_marker(marker: &Marker, out: &mut [u8])
    requires marker { IsMarker marker.now }
    requires long { length out.old ≡ MARKER_BYTES }
    ensures { out.new ≡ spelling_of marker.now }
{
    let at = write_bytes(out, 0, MAGIC);
    let at = write_fields(marker, out, at);
    let at = write_bytes(out, at, &marker.array);
    write_name(bytes_of(&marker.name), out, at);
}

fn name_at(bytes: &[u8]) -> Option<Name>
    requires { length bytes.now ≡ MARKER_BYTES }
    ensures { result ≡ name_of (number_at w8 bytes.now 72) (drop 73 bytes.now) }
{
    let length = usize::from(read_u8(bytes, NAME_AT));
    let from = NAME_AT + 1;
    Name::new(&bytes[from..from + length]).ok()
}

fn marker_of(bytes: &[u8]) -> Marker
    requires { length bytes.now ≡ MARKER_BYTES }
    ensures { result ≡ marker_at bytes.now }
{
    Marker {
        kind: read_u8(bytes, 8),
        index: read_u8(bytes, 9),
        k: read_u8(bytes, 10),
        n: read_u8(bytes, 11),
        set: read_u64(bytes, 12),
        position: read_u16(bytes, 20),
        fragment: read_u16(bytes, 22),
        stamp: read_u64(bytes, 24),
        upload: read_u64(bytes, 32),
        part: read_u32(bytes, 40),
        parts: read_u32(bytes, 44),
        length: read_u32(bytes, 48),
        payload: read_u32(bytes, 52),
        array: read_bytes(bytes, 56),
        name: name_at(bytes),
    }
}

/// Whether only zeros stand behind the name.
fn is_padded(bytes: &[u8]) -> bool
    requires { length bytes.now ≡ MARKER_BYTES }
    ensures { IsTrue result ↔ IsPadded bytes.now }
{
    let behind = NAME_AT + 1 + usize::from(read_u8(bytes, NAME_AT));
    are_zeros(&bytes[behind..])
}

/// The well formed marker that the bytes spell.
pub fn read_marker(bytes: &[u8]) -> Option<Marker>
    ensures found { IfSome result (λ m. IsMarker m × (bytes.now ≡ spelling_of m)) }
    ensures none { IfNone result ((m : Marker) → IsMarker m → bytes.now ≡ spelling_of m → ⊥) }
{
    if !has_frame(bytes, MAGIC, MARKER_BYTES) || !is_padded(bytes) {
        return None;
    }
    let marker = marker_of(bytes);
    if !marker.is_well_formed() {
        return None;
    }
    Some(marker)
}
