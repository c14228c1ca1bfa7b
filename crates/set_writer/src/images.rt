//! What a crash may leave of a set. These functions do nothing: their contracts are the theorems.

ghost use Rattle.set_writer.specs.ImageLaws.{CutListHasFirst, CutDigestsHaveFirst, CutZoneHasThose, CutZoneHasNoFoot, ImageHasFirst, WriterHasFirst, WrittenAreSetBytes, OpenedAreSetBytes, WholeIsLeftWhole, ClosedHasFeet, WholeHasRecords, OthersSayTheSame, AppendLeavesFirst, FlushLeavesFirst, FlushKeepsAll, OpeningLeavesFirst, ClosingLeavesFirst, FootComesLast, NextLeavesFirst, NextHeadComesLast, FirmMembersHaveAll, AppendKeepsFirm, FirmIsOfClosed, FlushKeepsSets, AppendKeepsSets, OpeningKeepsSets, ClosingKeepsSets, NextKeepsSets, NextKeepsOld, CrashKeepsAlone, NothingIsNew, NewByZone, NewIsAlone, AloneByZone};
ghost use Rattle.set_writer.specs.ClosedLaws.{ClosedAgreeOnAll, ClosedHasDigest, LostBeforeFeet, NextFootComesLast, NextLostBeforeFeet, NextByteComesLast, FirmIsOfGrown};

use zone_bay::Bay;

/// A zone that was cut off anywhere has the first of its records, each that ends within what is left. It has a foot only
/// where it has all.
pub fn cut_zones_have_the_first()
    ensures list { CutListHasFirst }
    ensures digest { CutDigestsHaveFirst }
    ensures zone { CutZoneHasThose }
    ensures foot { CutZoneHasNoFoot }
{}

/// In any image of what a set's zones hold, the carriers that are found agree on the first of its records, whichever
/// devices are away: on each that is firm on all members that are there.
pub fn images_have_the_first()
    ensures set { ImageHasFirst }
    ensures writer { WriterHasFirst }
    ensures written { WrittenAreSetBytes }
    ensures opened { OpenedAreSetBytes }
{}

/// Where all that was written of a set is firm, it is left whole in any image, and with its feet where it is closed. Where
/// each carrier has its foot, they agree on all that was written, the digest's records too.
pub fn whole_sets_are_left()
    ensures all { WholeIsLeftWhole }
    ensures feet { ClosedHasFeet }
    ensures records { WholeHasRecords }
    ensures closed { ClosedAgreeOnAll }
    ensures digest { ClosedHasDigest }
{}

/// Each other set says in it what it says without what was put on the set's zones.
pub fn other_sets_say_the_same()
    ensures { OthersSayTheSame }
{}

/// A crash in an append or behind it leaves the first of the set's records and the new one.
pub fn append_leaves_the_first<B: Bay>()
    ensures { (old new : B) → AppendLeavesFirst (B.state old) (B.state new) }
{}

/// A crash in a flush leaves the first of the set's records, and behind it all of them on each live member.
pub fn flush_keeps_all<B: Bay>()
    ensures first { (old new : B) → FlushLeavesFirst (B.state old) (B.state new) }
    ensures behind { (old new : B) → FlushKeepsAll (B.state old) (B.state new) }
{}

/// A crash in an opening or behind it leaves the first of the records that the set is opened with. It doesn't stand without
/// all of them.
pub fn opening_leaves_the_first<B: Bay>()
    ensures { (old new : B) → OpeningLeavesFirst (B.state old) (B.state new) }
{}

/// A crash in a closing or behind it leaves the first of the set's records and its digest's, and no byte of a foot before
/// these are on each member that was live as the first foot was put. One that was lost before had failed by then.
pub fn closing_leaves_the_first<B: Bay>()
    ensures first { (old new : B) → ClosingLeavesFirst (B.state old) (B.state new) }
    ensures foot { (old new : B) → FootComesLast (B.state old) (B.state new) }
    ensures lost { (old new : B) → LostBeforeFeet (B.state old) (B.state new) }
{}

/// A crash where one set follows another leaves the first records of both. Where the set was to be closed, it leaves no byte
/// of a foot before the digest is on each member that was live as the first foot was put, and no byte of the next set
/// before the set is closed on each member that was live behind its closing.
pub fn next_leaves_the_first<B: Bay>()
    ensures first { (old new : B) → NextLeavesFirst (B.state old) (B.state new) }
    ensures head { (old new : B) → NextHeadComesLast (B.state old) (B.state new) }
    ensures byte { (old new : B) → NextByteComesLast (B.state old) (B.state new) }
    ensures foot { (old new : B) → NextFootComesLast (B.state old) (B.state new) }
    ensures lost { (old new : B) → NextLostBeforeFeet (B.state old) (B.state new) }
{}

/// All that was written of a set is firm on its live members where all is firm that these hold. Records stay firm behind an
/// append, and are firm as the first of those with one more, and of those of the closed set.
pub fn firm_records_stay<B: Bay>()
    ensures members { (bay : B) → FirmMembersHaveAll (B.state bay) }
    ensures append { (old new : B) → AppendKeepsFirm (B.state old) (B.state new) }
    ensures grown { FirmIsOfGrown }
    ensures closed { FirmIsOfClosed }
{}

/// A set isn't there yet where zones hold nothing or show heads of other sets, and one that isn't there is alone. So is one
/// where each zone carries it by the table or shows none of it.
pub fn new_sets_are_alone()
    ensures new { NothingIsNew }
    ensures zone { NewByZone }
    ensures alone { NewIsAlone }
    ensures members { AloneByZone }
{}

/// A call on one set keeps what the zones of the others hold, and what is alone. A crash keeps what is alone.
pub fn other_sets_are_kept<B: Bay>()
    ensures flush { (old new : B) → FlushKeepsSets (B.state old) (B.state new) }
    ensures append { (old new : B) → AppendKeepsSets (B.state old) (B.state new) }
    ensures opening { (old new : B) → OpeningKeepsSets (B.state old) (B.state new) }
    ensures closing { (old new : B) → ClosingKeepsSets (B.state old) (B.state new) }
    ensures next { (old new : B) → NextKeepsSets (B.state old) (B.state new) }
    ensures before { (old new : B) → NextKeepsOld (B.state old) (B.state new) }
    ensures crash { CrashKeepsAlone }
{}
