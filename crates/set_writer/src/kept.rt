//! What a store keeps true of an array, as far as the calls of a writer answer for it. These functions do nothing: their
//! contracts are the theorems.

ghost use Rattle.set_writer.specs.KeptLaws.{FlushKeepsRest, AppendKeepsRest, OpeningKeepsRest, ClosingKeepsRest, NextKeepsRest, FlushShows, AppendShows, OpeningShows, ClosingShows, NextShows, FlushShowsOthers, AppendShowsOthers, OpeningShowsOthers, ClosingShowsOthers, NextShowsOthers, ListsAreOne, TablesCarryOnce, PlacesAreAlone, WrittenAreKept, OpenedAreKept, ZonesAreKept};

use zone_bay::Bay;

/// A call keeps what the zones hold that carry none of its sets, labels and the flash among them. A crash in it leaves a
/// first part of that, with what was firm.
pub fn other_zones_are_kept<B: Bay>()
    ensures flush { (old new : B) → FlushKeepsRest (B.state old) (B.state new) }
    ensures append { (old new : B) → AppendKeepsRest (B.state old) (B.state new) }
    ensures opening { (old new : B) → OpeningKeepsRest (B.state old) (B.state new) }
    ensures closing { (old new : B) → ClosingKeepsRest (B.state old) (B.state new) }
    ensures next { (old new : B) → NextKeepsRest (B.state old) (B.state new) }
{}

/// A crash in a call or behind it leaves a part of what was to be written in each zone that carries a set of the call, and
/// no other zone that begins with a whole head of it.
pub fn own_zones_are_shown<B: Bay>()
    ensures flush { (old new : B) → FlushShows (B.state old) (B.state new) }
    ensures append { (old new : B) → AppendShows (B.state old) (B.state new) }
    ensures opening { (old new : B) → OpeningShows (B.state old) (B.state new) }
    ensures closing { (old new : B) → ClosingShows (B.state old) (B.state new) }
    ensures next { (old new : B) → NextShows (B.state old) (B.state new) }
{}

/// It leaves of each other set that is alone a first part of what was held, with what was firm.
pub fn other_sets_are_shown<B: Bay>()
    ensures flush { (old new : B) → FlushShowsOthers (B.state old) (B.state new) }
    ensures append { (old new : B) → AppendShowsOthers (B.state old) (B.state new) }
    ensures opening { (old new : B) → OpeningShowsOthers (B.state old) (B.state new) }
    ensures closing { (old new : B) → ClosingShowsOthers (B.state old) (B.state new) }
    ensures next { (old new : B) → NextShowsOthers (B.state old) (B.state new) }
{}

/// The carriers that are found of a set have one list of records. A table has each index of a set once, so none is found
/// twice.
pub fn sets_hang_together()
    ensures lists { ListsAreOne }
    ensures once { TablesCarryOnce }
    ensures alone { PlacesAreAlone }
{}

/// A zone of a set that was cut off anywhere has its foot at its end, nothing else there that is spelled like a foot or a
/// trailer, and leaves a block free.
pub fn ends_are_found()
    ensures written { WrittenAreKept }
    ensures opened { OpenedAreKept }
    ensures seen { ZonesAreKept }
{}
