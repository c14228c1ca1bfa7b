//! What follows from the formats and from the grammar of a zone. These functions do nothing: their contracts are the
//! theorems.

ghost use Rattle.marker_format.specs.Laws.{MarkersAreApart, FeetAreApart, LabelsAreApart, TestsAreRules, BlockHolds, RecordsBegin, OthersArePrefixes, NoneIsLonger, NoMoreThanBlocks, PlacedStand, CutLeavesPrefix, CutKeepsWhole, MoreKeepsRecords, FilledIsAll, RecordIsAdded, FirstZoneCounts, EndedZoneCounts, OpenRebuiltZoneHasNone};

/// No two markers, feet or labels have the same bytes.
pub fn spellings_are_apart()
    ensures markers { MarkersAreApart }
    ensures feet { FeetAreApart }
    ensures labels { LabelsAreApart }
{}

/// A block is read as the well formed marker that it holds, where it holds one.
pub fn blocks_hold_markers()
    ensures rules { TestsAreRules }
    ensures holds { BlockHolds }
{}

/// The records that a zone is said to begin with are the longest list of records that its bytes begin with.
pub fn records_are_the_longest()
    ensures begin { RecordsBegin }
    ensures prefixes { OthersArePrefixes }
    ensures longest { NoneIsLonger }
{}

/// Each whole record stands at its block, and there are no more of them than blocks.
pub fn records_stand_at_their_blocks()
    ensures stand { PlacedStand }
    ensures few { NoMoreThanBlocks }
{}

/// A cut zone has the first ones of its records, and all that end before the cut.
pub fn cut_zones_have_the_first_records()
    ensures prefix { CutLeavesPrefix }
    ensures kept { CutKeepsWhole }
{}

/// Bytes behind a zone's only add records. A record behind records that fill a zone is added to them.
pub fn longer_zones_keep_records()
    ensures kept { MoreKeepsRecords }
    ensures all { FilledIsAll }
    ensures added { RecordIsAdded }
{}

/// Which of the records count: in a rebuilt zone none, unless a trailer follows them.
pub fn records_count_in_whole_zones()
    ensures first { FirstZoneCounts }
    ensures ended { EndedZoneCounts }
    ensures none { OpenRebuiltZoneHasNone }
{}
