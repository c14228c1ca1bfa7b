//! A record in the zones of a set's members.
ghost use Rattle.std.specs.Prelude.{◌≡◌, ◌+◌, ◌*◌, ◌≤◌, ◌<◌, length, IfSome};
ghost use Rattle.std.specs.Int.{from_bool};
ghost use Rattle.smore_base.specs.declared.limits.TheConstants.{BLOCK_BYTES};
ghost use Rattle.zone_bay.specs.Contents.{IsOfBay};
ghost use Rattle.set_table.specs.Table.{is_carried};
ghost use Rattle.set_writer.specs.Fit.{live_of};
ghost use Rattle.marker_format.specs.Zone.{blocks_of};
ghost use Rattle.gf_field.specs.Field.{AreBytes};
ghost use Rattle.set_writer.specs.Entry.{at_index, entry_bytes, IsEntry};
ghost use Rattle.set_writer.specs.Body.{payload_of, entry_of, IsBody};
ghost use Rattle.set_writer.specs.Members.{HasRoom, AllHaveRoom, IsOfCode, of_one, SpreadsBy, Spreads, FlushesBy};
ghost use Rattle.set_table.specs.Table.{array_of};

use crate::body::Body;
use crate::members::append_to;
use marker_format::{Marker, write_record};
use rs_code::Code;
use set_table::SetTable;
use zone_bay::Bay;

/// A record that is to be written: its marker, of which the index doesn't matter, and where its fragments are had from.
#[derive(Clone, Copy)]
pub(crate) struct Record<'m, 'b> {
    pub(crate) marker: &'m Marker,
    pub(crate) body: Body<'b>,
}

/// Puts the record at the end of the zone that carries the index, by one append, where its drive is live.
fn put_on<B: Bay>(
    bay: &mut B,
    table: &mut SetTable,
    code: &Code,
    item: Record,
    index: u8,
    out: &mut [u8],
)
    requires shape { IsOfBay table.old.geometry (B.state bay.old).shape }
    requires code { IsOfCode table.old.geometry code.now.k code.now.p }
    requires index { index < code.now.k + code.now.p }
    requires entry { IsEntry (array_of table.old) (entry_of item) }
    requires body { IsBody code.now.k code.now.p item.body }
    requires buffer { BLOCK_BYTES * blocks_of item.marker.now ≤ length out.old }
    requires room { IfSome (B.state bay.old).contents
        (HasRoom table.old item.marker.now.set index (BLOCK_BYTES * blocks_of item.marker.now)) }
    ensures bytes { AreBytes (payload_of item.entry.body) }
    ensures spread { SpreadsBy (of_one item.entry.marker.now.set index
        (entry_bytes code.now.k (entry_of item.entry) index))
        table.old table.new (B.state bay.old) (B.state bay.new) }
    ensures calls { (B.state bay.new).moment
        ≤ (B.state bay.old).moment + from_bool (is_carried table.old item.entry.marker.now.set index) }
{
    let marker = item.marker.at_index(index);
    let end = write_record(&marker, item.body.fragment(code, index), out);
    append_to(bay, table, item.marker.set, index, &out[..end]);
}

/// Puts the record at the end of each live member's zone, by one append.
pub(crate) fn put_all<B: Bay>(
    bay: &mut B,
    table: &mut SetTable,
    code: &Code,
    item: Record,
    out: &mut [u8],
)
    requires shape { IsOfBay table.old.geometry (B.state bay.old).shape }
    requires code { IsOfCode table.old.geometry code.now.k code.now.p }
    requires entry { IsEntry (array_of table.old) (entry_of item) }
    requires body { IsBody code.now.k code.now.p item.body }
    requires buffer { BLOCK_BYTES * blocks_of item.marker.now ≤ length out.old }
    requires room { IfSome (B.state bay.old).contents
        (AllHaveRoom table.old item.marker.now.set (BLOCK_BYTES * blocks_of item.marker.now)) }
    ensures bytes { AreBytes (payload_of item.entry.body) }
    ensures spread { Spreads item.entry.marker.now.set (entry_bytes code.now.k (entry_of item.entry))
        table.old table.new (B.state bay.old) (B.state bay.new) }
    ensures calls { (B.state bay.new).moment ≤ (B.state bay.old).moment + live_of table.old item.entry.marker.now.set }
{
    for index in 0..code.k + code.p {
        put_on(bay, table, code, item, index, out);
    }
}
