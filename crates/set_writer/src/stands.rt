//! Whether a set stands in what a crash leaves, and whether it is settled. These functions do nothing: their contracts are
//! the theorems.

ghost use Rattle.set_writer.specs.StandLaws.{FewDoNotStand, FewerAreFirm, FirmHeadsAreCarriers, ShownHasFirst, SetIsLeft, OpenIsLeft, WholeIsLeft, WholeMembersAreLeft, FirmReadyStands, FirmOpeningStands, FirmIsLeft, OpeningIsOfCuts, NoCutIsItsOwn, OpeningIsLeft, FirmOpeningIsLeft, OpeningStandsOrNot, OpenedIsLeft, AppendIsLeft, FlushIsLeft, FlushedIsLeft, ClosingIsLeft, ClosedIsLeft, EndingIsLeft, NextStandsOrNot, LostBeforeNext, ClosedBeforeNext, EndedIsLeft, NextIsLeft, AppendIsWritten, ClosingIsWritten, NextIsWritten};

use zone_bay::Bay;

/// Where a set's head is firm on all members that are seen, these are its carriers. In an image that shows any set its
/// carriers agree on the first of its records.
pub fn members_are_found()
    ensures fewer { FewerAreFirm }
    ensures heads { FirmHeadsAreCarriers }
    ensures shown { ShownHasFirst }
{}

/// A set of which k carriers are read isn't closed, with the first of its records, or is closed with all of them. It stands
/// where a ready record is among them, as one that is firm, and is settled then where it is closed.
pub fn sets_are_left()
    ensures few { FewDoNotStand }
    ensures set { SetIsLeft }
    ensures open { OpenIsLeft }
    ensures whole { WholeIsLeft }
    ensures members { WholeMembersAreLeft }
    ensures ready { FirmReadyStands }
    ensures opening { FirmOpeningStands }
{}

/// A set is opened with a head, its cuts and a ready record. In any image of them it doesn't stand, or it stands with just
/// these.
pub fn opened_sets_are_left()
    ensures cuts { OpeningIsOfCuts }
    ensures own { NoCutIsItsOwn }
    ensures image { OpeningIsLeft }
    ensures firm { FirmOpeningIsLeft }
{}

/// Where all is firm that the live members of a set hold, as behind a flush, a closing or an opening, a crash leaves the
/// set whole.
pub fn firm_sets_are_left<B: Bay>()
    ensures { (bay : B) → FirmIsLeft (B.state bay) }
{}

/// A crash in an opening or behind it leaves a set that doesn't stand, or one that stands with all that it is opened with.
/// Behind an answer it stands, where k of its members are seen, on drives that are live then.
pub fn openings_stand_or_not<B: Bay>()
    ensures crash { (old new : B) → OpeningStandsOrNot (B.state old) (B.state new) }
    ensures behind { (old new : B) → OpenedIsLeft (B.state old) (B.state new) }
{}

/// A crash in an append or a flush leaves the first of the set's records, and behind a flush all of them.
pub fn written_sets_are_left<B: Bay>()
    ensures append { (old new : B) → AppendIsLeft (B.state old) (B.state new) }
    ensures flush { (old new : B) → FlushIsLeft (B.state old) (B.state new) }
    ensures behind { (old new : B) → FlushedIsLeft (B.state old) (B.state new) }
{}

/// A crash in a closing or behind it leaves the set open, with the first of its records and its digest's, or closed with all
/// of them, and then settled where a ready record is among them. It is closed behind an answer, where k of its members are
/// seen, on drives that are live then.
pub fn closings_settle_or_not<B: Bay>()
    ensures crash { (old new : B) → ClosingIsLeft (B.state old) (B.state new) }
    ensures behind { (old new : B) → ClosedIsLeft (B.state old) (B.state new) }
{}

/// Where one set follows another, a crash leaves the one as in a closing and the other as in an opening. Where a carrier of
/// the other is read, each device that was lost in the closing had failed; without these the one is closed where k carriers
/// of it are read, and settled where it stands.
pub fn next_sets_are_left<B: Bay>()
    ensures old { (old new : B) → EndingIsLeft (B.state old) (B.state new) }
    ensures next { (old new : B) → NextStandsOrNot (B.state old) (B.state new) }
    ensures lost { (old new : B) → LostBeforeNext (B.state old) (B.state new) }
    ensures before { (old new : B) → ClosedBeforeNext (B.state old) (B.state new) }
    ensures closed { (old new : B) → EndedIsLeft (B.state old) (B.state new) }
    ensures opened { (old new : B) → NextIsLeft (B.state old) (B.state new) }
{}

/// What these laws ask of a set's writer holds behind an append, a closing and where another set follows.
pub fn sets_are_written<B: Bay>()
    ensures append { (old new : B) → AppendIsWritten (B.state old) (B.state new) }
    ensures closing { (old new : B) → ClosingIsWritten (B.state old) (B.state new) }
    ensures next { (old new : B) → NextIsWritten (B.state old) (B.state new) }
{}
