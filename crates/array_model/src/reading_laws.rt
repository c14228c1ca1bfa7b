//! Laws of the reading of an array. These functions do nothing: their contracts are the theorems.

ghost use Rattle.array_model.specs.ReadingLaws.{NoCarrierComes, CarrierStays, NoMoreCarriers, CarrierIsLowest, PresentStay, LeftIsHeldBefore, FlashMayLeave, ReadingRises, IndexIsAside, RebuiltMarkIsAside, NothingElseIsAside, AgreedIsHeld, AgreedIsLongest, AgreedGrows, AgreedStays, CutReadsTheSame, ClosedReadsTheSame, KeptIsReadFromSome, ClosedIsReadFromSome, PayloadIsRead, CarriersGivePayload, FallenSaysNothing, UnreadySaysNothing, FormattedIsPresent, FormattedIsKept, FormattedIsEmpty};

/// Where drives leave, no index gets a carrier that had none, and each carrier on a drive that stays is the carrier still.
pub fn carriers_stay()
    ensures none { NoCarrierComes }
    ensures stays { CarrierStays }
    ensures fewer { NoMoreCarriers }
{}

/// A carrier is the lowest place with a whole head of its set and index.
pub fn carriers_are_lowest()
    ensures { CarrierIsLowest }
{}

/// What is read where devices left is what the drives that stay held before.
pub fn what_stays_is_read()
    ensures present { PresentStay }
    ensures read { LeftIsHeldBefore }
{}

/// Enough stays where the flash leaves.
pub fn flash_may_leave()
    ensures { FlashMayLeave }
{}

/// The sets that are read rise by number.
pub fn sets_rise()
    ensures { ReadingRises }
{}

/// Markers agree where they are the same but for the index, and for the rebuilt mark of heads.
pub fn markers_agree()
    ensures index { IndexIsAside }
    ensures mark { RebuiltMarkIsAside }
    ensures nothing_else { NothingElseIsAside }
{}

/// The agreed list is the longest that each carrier begins with, but for the index and the rebuilt mark.
pub fn agreed_is_longest()
    ensures held { AgreedIsHeld }
    ensures longest { AgreedIsLongest }
{}

/// More bytes at the end of first zones leave the agreed list or make it longer, and cuts behind whole records leave it.
pub fn agreed_list_stays()
    ensures grows { AgreedGrows }
    ensures cut { AgreedStays }
{}

/// A settled set has the same markers from any of its carriers: as far as a cut keeps it, and where all are closed.
pub fn settled_sets_agree()
    ensures cut { CutReadsTheSame }
    ensures closed { ClosedReadsTheSame }
{}

/// A settled set has the same records from any k of its carriers: as many as a cut keeps, and all where all are closed.
pub fn settled_sets_read_the_same()
    ensures kept { KeptIsReadFromSome }
    ensures closed { ClosedIsReadFromSome }
{}

/// A payload is read from any k of its fragments, and so from the carriers that hold them.
pub fn payloads_are_read()
    ensures any { PayloadIsRead }
    ensures carriers { CarriersGivePayload }
{}

/// The same is valid with the zones of a set that doesn't stand and without them. A set without a ready record is such a one.
pub fn fallen_sets_say_nothing()
    ensures fallen { FallenSaysNothing }
    ensures unready { UnreadySaysNothing }
{}

/// A freshly formatted array has all its drives, is kept, and has the empty map in all that may remain of it.
pub fn formatted_arrays_are_kept()
    ensures present { FormattedIsPresent }
    ensures kept { FormattedIsKept }
    ensures empty { FormattedIsEmpty }
{}
