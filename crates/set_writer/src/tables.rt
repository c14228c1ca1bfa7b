//! What stays of a set where its table is changed outside the writer's calls, and whose a writer is. These functions do
//! nothing: their contracts are the theorems.

ghost use Rattle.set_writer.specs.TableLaws.{TableKeepsOf, TableKeepsHeld, TableKeepsFirm, TableKeepsWhole, TableKeepsAlone, TableKeepsNew, TableKeepsFits, TableKeepsEmpty, TableKeepsFitsIn, TableKeepsFitsSome, MarkKeepsSet, RoomKeepsSet, LossKeepsSet, LossesKeepSet, TakeKeepsSet, FormKeepsSet, AddKeepsSet, ReleaseKeepsSet, WrittenIsOpen, RoomKeepsBytes, RoomKeepsHeld, RoomKeepsOf};

use zone_bay::Bay;

/// Where the zones of a set carry it as before, and no device is live that wasn't, all that a writer's calls ask of its
/// table stays.
pub fn table_changes_keep<B: Bay>()
    ensures of { (bay : B) → TableKeepsOf (B.state bay) }
    ensures held { TableKeepsHeld }
    ensures firm { TableKeepsFirm }
    ensures whole { TableKeepsWhole }
    ensures alone { TableKeepsAlone }
    ensures next { TableKeepsNew }
    ensures fits { TableKeepsFits }
    ensures empty { TableKeepsEmpty }
    ensures fits_in { (bay : B) → TableKeepsFitsIn (B.state bay) }
    ensures fits_some { (bay : B) → TableKeepsFitsSome (B.state bay) }
{}

/// So it is where sets are marked, room is found, devices are lost, an empty zone is taken, another set is formed, and where
/// a zone is put to another set or given back.
pub fn changes_keep_sets()
    ensures mark { MarkKeepsSet }
    ensures room { RoomKeepsSet }
    ensures loss { LossKeepsSet }
    ensures losses { LossesKeepSet }
    ensures take { TakeKeepsSet }
    ensures form { FormKeepsSet }
    ensures add { AddKeepsSet }
    ensures release { ReleaseKeepsSet }
{}

/// A writer of records of a set is that set's, and open until it closes it: also where too few members were left of a
/// next set.
pub fn written_sets_are_open()
    ensures { WrittenIsOpen }
{}

/// A writer that found more room writes the same.
pub fn room_changes_nothing<B: Bay>()
    ensures bytes { RoomKeepsBytes }
    ensures held { RoomKeepsHeld }
    ensures of { (bay : B) → RoomKeepsOf (B.state bay) }
{}
