//! Laws of lists of sets. These functions do nothing: their contracts are the theorems.

ghost use Rattle.array_model.specs.SetLaws.{MapHasWhatIsRead, SameValuesSameMap, NewestIsGreatest, NoNewestNoNote, UnneededSetsMayGo, LossesFollow, FirstNeedIsEnough, RecordsWithoutNote, PutNoteIsLast, DeleteNoteIsLast, PutNeedsItsParts, DeleteNeedsNothing, OlderNotesUnneeded, OlderPartsUnneeded, CopiesChangeNothing, CopiesMakeNothingNeeded, CopiedSetHasCopies, DroppedSetIsGone, DroppedSetIsEmpty, DroppedSetMayGo, OpeningChangesNothing, OpeningFixesWhatWasRead, UnneededKeepCuts, CopiesKeepCuts, OthersKeepCuts, DroppedSetKeepsCuts, OpeningKeepsCuts};

/// The map has for each name what is read of it, so where the same is read of each name the maps are equal.
pub fn map_is_what_is_read()
    ensures each { MapHasWhatIsRead }
    ensures same { SameValuesSameMap }
{}

/// The newest note of a name is the one with the greatest stamp, and of those the last. Where there is none, no record is
/// a note of the name.
pub fn newest_note_is_greatest()
    ensures note { NewestIsGreatest }
    ensures none { NoNewestNoNote }
{}

/// Sets may lose carriers while each set that holds a needed record keeps k: the map stays, and nothing comes to be needed.
/// So losses may follow one another, and where the sets that are needed at first keep k throughout, each loss has enough.
pub fn unneeded_sets_may_go()
    ensures once { UnneededSetsMayGo }
    ensures follow { LossesFollow }
    ensures first { FirstNeedIsEnough }
{}

/// Records behind those of the highest set that stands say nothing before their note: parts of an upload that no newest
/// note names, digests and parts of snapshots.
pub fn records_without_note()
    ensures { RecordsWithoutNote }
{}

/// A note behind those of the highest set that stands, whose stamp is the greatest of its name's, decides for its name
/// alone: a put note gives it the object of its upload, a delete note takes it out.
pub fn note_is_last()
    ensures put { PutNoteIsLast }
    ensures delete { DeleteNoteIsLast }
{}

/// Such a note, with a stamp above those of its name, makes nothing else needed but the parts of its upload, which were
/// needed while it was in progress. No other note of its name is needed with it, nor a part of their uploads.
pub fn note_renews_need()
    ensures put { PutNeedsItsParts }
    ensures delete { DeleteNeedsNothing }
    ensures notes { OlderNotesUnneeded }
    ensures parts { OlderPartsUnneeded }
{}

/// Copies of needed records behind those of the highest set that stands leave the map and make nothing needed of the sets
/// below. Once all that is needed of one of those is copied, it has copies in a higher set.
pub fn copies_change_nothing()
    ensures map { CopiesChangeNothing }
    ensures need { CopiesMakeNothingNeeded }
    ensures higher { CopiedSetHasCopies }
{}

/// A set of which all that is needed has copies in higher sets is dropped by its cut to 0 behind the highest set's records:
/// the map stays, nothing of that set is valid any more, and the map stays whatever is read of it from then on, as its
/// carriers go one by one.
pub fn dropped_set_is_gone()
    ensures cut { DroppedSetIsGone }
    ensures empty { DroppedSetIsEmpty }
    ensures gone { DroppedSetMayGo }
{}

/// A new highest set with cuts of some sets leaves the map: each cut is at the length of the set's valid records or behind
/// it, a copy of a needed one, or to 0 where nothing but cuts is needed of the set, which are copied beside it. And the map
/// stays while those sets are the same as far as they are cut, whatever stands behind.
pub fn opening_fixes_what_was_read()
    ensures opened { OpeningChangesNothing }
    ensures fixed { OpeningFixesWhatWasRead }
{}

/// With all of that, of each set that has a carrier as many records are kept as were, or as a new cut keeps. So a set that a
/// cut settled stays settled.
pub fn cuts_stay()
    ensures losses { UnneededKeepCuts }
    ensures copies { CopiesKeepCuts }
    ensures others { OthersKeepCuts }
    ensures dropped { DroppedSetKeepsCuts }
    ensures opened { OpeningKeepsCuts }
{}
