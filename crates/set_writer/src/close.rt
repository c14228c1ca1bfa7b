ghost use Rattle.std.specs.Prelude.{◌≡◌, ◌+◌, ◌-◌, ◌*◌, ◌≤◌, ◌<◌, ◌++◌, replicate, false, true, length, take, IfSome, MatchResult, List};
ghost use Rattle.rs_code.specs.Fragments.{fragment_len};
ghost use Rattle.rs_code.specs.Coded.{KeepsFragments};
ghost use Rattle.zone_bay.specs.Contents.{IsOfBay};
ghost use Rattle.set_writer.specs.Refusal.{ShortRefusal};
ghost use Rattle.smore_base.specs.declared.limits.TheConstants.{BLOCK_BYTES};
ghost use Rattle.marker_format.specs.Block.{foot_block};
ghost use Rattle.marker_format.specs.Zone.{blocks_of};
ghost use Rattle.set_writer.specs.Entry.{Entry, entry_bytes, entries_bytes, IsEntry};
ghost use Rattle.set_writer.specs.Members.{IsOfCode, Spreads, Grows, HoldBlocks, AllHaveRoom};
ghost use Rattle.set_table.specs.Table.{array_of};
ghost use Rattle.set_writer.specs.Writer.{closed, parts_of, digest, digest_record, digest_marker, first_digests, blocks_in};
ghost use Rattle.set_writer.specs.Fit.{live_of, has_enough};
ghost use Rattle.set_writer.specs.Rounds.{InRounds};
ghost use Rattle.set_writer.specs.Calls.{IsOf, FitsIn, FitsSome, Closes};
ghost use Rattle.set_writer.specs.Writer.{CanDigest};

use crate::append::check_live;
use crate::body::{Body, Pieces};
use crate::members::{append_to, flush_all};
use crate::record::{Record, put_all};
use crate::refusal::WriteRefusal;
use crate::writer::SetWriter;
use marker_format::{Foot, Kind, Marker, write_foot_block};
use rs_code::Code;
use set_table::SetTable;
use smore_base::{BLOCK_BYTES, digest_records, record_blocks, write_bytes, write_zeros};
use zone_bay::Bay;

/// Bytes of a block.
const BLOCK: usize = BLOCK_BYTES as usize;

impl SetWriter {
    /// Closes the set: its records are made firm; its digest is put on each live member and made firm, and then a foot.
    /// Refused where fewer than k members are live then.
    pub fn close_with_digest<B: Bay>(
        &mut self,
        bay: &mut B,
        table: &mut SetTable,
    ) -> Result<(), WriteRefusal>
        requires of { IsOf self.old table.old (B.state bay.old) }
        requires open { self.old.is_closed ≡ false }
        requires held { FitsSome self.old table.old (B.state bay.old) }
        ensures answer { MatchResult result (λ _. has_enough table.new self.old.set ≡ true)
            (ShortRefusal table.new self.old.set) }
        ensures writer { self.new ≡ closed self.old }
        ensures closes { Closes self.old table.old table.new (B.state bay.old) (B.state bay.new) }
        ensures of { IsOf self.new table.new (B.state bay.new) }
        ensures can { CanDigest self.old }
        ensures held { (es : List Entry) → FitsIn self.old es table.old (B.state bay.old)
            → FitsIn self.new es table.new (B.state bay.new) }
    {
        let parts = digest_records(&self.geometry, self.records);
        flush_all(bay, table, self.set);
        let blocks = self.put_digest(bay, table, parts);
        flush_all(bay, table, self.set);
        let foot = Foot {
            set: self.set,
            index: 0,
            position: self.records as u16,
            block: self.used,
            count: parts,
        };
        put_feet(bay, table, foot);
        flush_all(bay, table, self.set);
        self.used += blocks + 1;
        self.records += parts;
        self.is_closed = true;
        check_live(table, self.set)
    }

    /// Puts the digest records on the members, and answers how many blocks they take.
    fn put_digest<B: Bay>(&mut self, bay: &mut B, table: &mut SetTable, parts: u32) -> u32
        requires of { IsOf self.old table.old (B.state bay.old) }
        requires open { self.old.is_closed ≡ false }
        requires parts { parts ≡ parts_of self.old }
        requires can { CanDigest self.old }
        requires held { IfSome (B.state bay.old).contents (HoldBlocks table.old self.old.set self.old.used) }
        ensures writer { self.new ≡ self.old }
        ensures grows { Grows self.old.set (entries_bytes self.old.geometry.k (digest self.old))
            table.old table.new (B.state bay.old) (B.state bay.new) }
        ensures blocks { result ≡ blocks_in (digest self.old) }
        ensures held { IfSome (B.state bay.new).contents
            (HoldBlocks table.new self.old.set (self.old.used + blocks_in (digest self.old))) }
        ensures room { self.old.used + blocks_in (digest self.old) + 2 ≤ self.old.geometry.blocks }
        ensures can { CanDigest self.old }
        ensures of { IsOf self.new table.new (B.state bay.new) }
        ensures firm { (B.state bay.new).firm ≡ (B.state bay.old).firm }
        ensures calls { InRounds self.old.set (parts_of self.old) table.old table.new (B.state bay.old) (B.state bay.new) }
    {
        let mut blocks = 0;
        for part in 0..parts {
            blocks += self.put_digest_record(bay, table, part, parts);
        }
        blocks
    }

    /// Puts the digest record of this part on the members, and answers how many blocks it takes.
    fn put_digest_record<B: Bay>(
        &mut self,
        bay: &mut B,
        table: &mut SetTable,
        part: u32,
        parts: u32,
    ) -> u32
        requires of { IsOf self.old table.old (B.state bay.old) }
        requires open { self.old.is_closed ≡ false }
        requires parts { parts ≡ parts_of self.old }
        requires part { part < parts }
        requires held { IfSome (B.state bay.old).contents
            (HoldBlocks table.old self.old.set (self.old.used + blocks_in (first_digests self.old part))) }
        ensures writer { self.new ≡ self.old }
        ensures spread { Spreads self.old.set (entry_bytes self.old.geometry.k (digest_record self.old part))
            table.old table.new (B.state bay.old) (B.state bay.new) }
        ensures blocks { result ≡ blocks_of (digest_marker self.old part) }
        ensures held { IfSome (B.state bay.new).contents
            (HoldBlocks table.new self.old.set (self.old.used + blocks_in (first_digests self.old (part + 1)))) }
        ensures calls { (B.state bay.new).moment ≤ (B.state bay.old).moment + live_of table.old self.old.set }
    {
        let marker = self.digest_marker(part, parts);
        let from = part as usize * (self.code.k as usize * self.geometry.shard as usize);
        let to = from + marker.payload as usize;
        put_payload(
            bay,
            table,
            &self.code,
            &marker,
            &self.lines[from..to],
            &mut self.pieces,
            &mut self.out,
        );
        record_blocks(u32::from(marker.fragment))
    }

    /// The marker of the digest record of this part.
    fn digest_marker(&self, part: u32, parts: u32) -> Marker
        requires open { self.now.is_closed ≡ false }
        requires parts { parts ≡ parts_of self.now }
        requires part { part < parts }
        ensures marker { result ≡ digest_marker self.now part }
        ensures can { CanDigest self.now }
    {
        let size = self.code.k as usize * self.geometry.shard as usize;
        let from = part as usize * size;
        let payload = self.lines.len().min(from + size) - from;
        Marker {
            position: (self.records + part) as u16,
            fragment: payload.div_ceil(self.code.k as usize) as u16,
            part,
            parts,
            payload: payload as u32,
            ..self.plain_marker(Kind::Digest)
        }
    }
}

/// Puts a record on the members whose fragments are in a buffer.
fn put_pieces<B: Bay>(
    bay: &mut B,
    table: &mut SetTable,
    code: &Code,
    marker: &Marker,
    pieces: Pieces,
    out: &mut [u8],
)
    requires shape { IsOfBay table.old.geometry (B.state bay.old).shape }
    requires code { IsOfCode table.old.geometry code.now.k code.now.p }
    requires entry { IsEntry (array_of table.old)
        (record { marker = marker.now; payload = take pieces.payload pieces.fragments.now }) }
    requires body { KeepsFragments code.now.k code.now.p pieces.payload pieces.fragment pieces.fragments.now }
    requires buffer { BLOCK_BYTES * blocks_of marker.now ≤ length out.old }
    requires room { IfSome (B.state bay.old).contents
        (AllHaveRoom table.old marker.now.set (BLOCK_BYTES * blocks_of marker.now)) }
    ensures spread { Spreads marker.now.set (entry_bytes code.now.k
        (record { marker = marker.now; payload = take pieces.entry.payload pieces.entry.fragments.now }))
        table.old table.new (B.state bay.old) (B.state bay.new) }
    ensures calls { (B.state bay.new).moment ≤ (B.state bay.old).moment + live_of table.old marker.now.set }
{
    let body = Body::Pieces(pieces);
    let item = Record { marker, body };
    put_all(bay, table, code, item, out);
}

/// Puts a record with this payload on the members. The buffers have room for its fragments, and for its blocks in one
/// zone.
fn put_payload<B: Bay>(
    bay: &mut B,
    table: &mut SetTable,
    code: &Code,
    marker: &Marker,
    payload: &[u8],
    fragments: &mut [u8],
    out: &mut [u8],
)
    requires shape { IsOfBay table.old.geometry (B.state bay.old).shape }
    requires code { IsOfCode table.old.geometry code.now.k code.now.p }
    requires entry { IsEntry (array_of table.old) (record { marker = marker.now; payload = payload.now }) }
    requires fragments { (code.now.k + code.now.p) * marker.now.fragment ≤ length fragments.old }
    requires buffer { BLOCK_BYTES * blocks_of marker.now ≤ length out.old }
    requires room { IfSome (B.state bay.old).contents
        (AllHaveRoom table.old marker.now.set (BLOCK_BYTES * blocks_of marker.now)) }
    ensures spread { Spreads marker.now.set (entry_bytes code.now.k (record { marker = marker.now; payload = payload.now }))
        table.old table.new (B.state bay.old) (B.state bay.new) }
    ensures calls { (B.state bay.new).moment ≤ (B.state bay.old).moment + live_of table.old marker.now.set }
{
    let fragment = marker.fragment as usize;
    let fragments = &mut fragments[..code.n() as usize * fragment];
    write_fragments(code, payload, fragment, fragments);
    let pieces = Pieces {
        fragments,
        payload: payload.len(),
        fragment,
    };
    put_pieces(bay, table, code, marker, pieces, out);
}

/// Puts the foot on each live member, with its index.
fn put_feet<B: Bay>(bay: &mut B, table: &mut SetTable, foot: Foot)
    requires shape { IsOfBay table.old.geometry (B.state bay.old).shape }
    requires room { IfSome (B.state bay.old).contents (AllHaveRoom table.old foot.set BLOCK_BYTES) }
    ensures spread { Spreads foot.set (λ index. foot_block (record foot { index = index }))
        table.old table.new (B.state bay.old) (B.state bay.new) }
    ensures calls { (B.state bay.new).moment ≤ (B.state bay.old).moment + live_of table.old foot.set }
{
    let geometry = *table.geometry();
    for index in 0..geometry.k + geometry.p {
        let mut block = [0; BLOCK];
        write_foot_block(&Foot { index, ..foot }, &mut block);
        append_to(bay, table, foot.set, index, &block);
    }
}

/// Writes the payload and zeros behind it.
fn write_padded(payload: &[u8], out: &mut [u8])
    requires { length payload.now ≤ length out.old }
    ensures { out.new ≡ payload.now ++ replicate (length out.old - length payload.now) 0 }
{
    let at = write_bytes(out, 0, payload);
    write_zeros(out, at);
}

/// Writes the fragments of the payload, of `fragment` bytes each, in order of index.
fn write_fragments(code: &Code, payload: &[u8], fragment: usize, out: &mut [u8])
    requires fragment { fragment ≡ fragment_len code.now.k (length payload.now) }
    requires size { length out.old ≡ (code.now.k + code.now.p) * fragment }
    ensures payload { take (length payload.now) out.new ≡ payload.now }
    ensures fragments { KeepsFragments code.now.k code.now.p (length payload.now) fragment out.new }
{
    let (source, parity) = out.split_at_mut(code.k as usize * fragment);
    write_padded(payload, source);
    code.parities_into(source, fragment, parity);
}
