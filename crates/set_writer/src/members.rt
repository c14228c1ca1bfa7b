//! Calls on the members of a set. A member whose call fails is lost, and gets no later call.
ghost use Rattle.std.specs.Prelude.{◌≤◌, ◌+◌, ◌<◌, length, IfSome};
ghost use Rattle.std.specs.Int.{from_bool};
ghost use Rattle.zone_bay.specs.Contents.{IsOfBay};
ghost use Rattle.set_table.specs.Zones.{carries};
ghost use Rattle.set_writer.specs.Members.{HasRoom, of_one, SpreadsBy, FlushesBy, Flushes};
ghost use Rattle.set_table.specs.Table.{is_carried};
ghost use Rattle.set_writer.specs.Fit.{live_of};

use set_table::SetTable;
use zone_bay::Bay;

/// Puts the bytes at the end of the zone that carries the index, where its drive is live.
pub(crate) fn append_to<B: Bay>(
    bay: &mut B,
    table: &mut SetTable,
    set: u64,
    index: u8,
    bytes: &[u8],
)
    requires shape { IsOfBay table.old.geometry (B.state bay.old).shape }
    requires room { IfSome (B.state bay.old).contents (HasRoom table.old set index (length bytes.now)) }
    ensures spread { SpreadsBy (of_one set index bytes.now) table.old table.new
        (B.state bay.old) (B.state bay.new) }
    ensures calls { (B.state bay.new).moment ≤ (B.state bay.old).moment + from_bool (is_carried table.old set index) }
{
    let _ = table.geometry();
    let Some((device, zone)) = table.carrier(set, index) else {
        return;
    };
    if bay.append(device, zone, bytes).is_err() {
        table.lose(device);
    }
}

/// Makes firm all that the drive of the index's member holds, where it is live.
pub(crate) fn flush_of<B: Bay>(bay: &mut B, table: &mut SetTable, set: u64, index: u8)
    requires shape { IsOfBay table.old.geometry (B.state bay.old).shape }
    ensures flushed { FlushesBy (carries set index) table.old table.new
        (B.state bay.old) (B.state bay.new) }
    ensures calls { (B.state bay.new).moment ≤ (B.state bay.old).moment + from_bool (is_carried table.old set index) }
{
    let _ = table.geometry();
    let Some((device, _)) = table.carrier(set, index) else {
        return;
    };
    if bay.flush(device).is_err() {
        table.lose(device);
    }
}

/// Makes firm all that the drives of the live members hold.
pub(crate) fn flush_all<B: Bay>(bay: &mut B, table: &mut SetTable, set: u64)
    requires shape { IsOfBay table.old.geometry (B.state bay.old).shape }
    ensures flushed { Flushes set table.old table.new (B.state bay.old) (B.state bay.new) }
    ensures calls { (B.state bay.new).moment ≤ (B.state bay.old).moment + live_of table.old set }
{
    let geometry = *table.geometry();
    for index in 0..geometry.k + geometry.p {
        flush_of(bay, table, set, index);
    }
}
