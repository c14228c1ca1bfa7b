//! What follows from what a crash leaves. These functions do nothing: their contracts are the theorems.

ghost use Rattle.zone_bay.specs.Laws.{FlushLeavesFewer, FlushKeepsDevice, FlushLeavesOthers, AppendLeavesOld, AppendLeavesPart, AppendLeavesAnyPart, PartLeavesLess, MoreLeavesMore, LessFirmLeavesMore, StillFirmLeavesSame, AllFirmLeavesAll, HeldIsLeft, ResetLeavesNothing, ReplaceLeavesNothing, StillFirmIsHeld, StillFirmIsFirm, MissingLeavesImage, MissingEachLeaveImage, MissingInAnyOrder, MissingTwice, MissingOneByOne, MissingHoldNothing, OthersKeepTheirs, LaterLeavesFewer, LeavesOnlyImages, LeavesEachImage};

use crate::Bay;

/// A flush only takes away from what a crash may leave, and what remains are the images that have the device whole.
pub fn flush_leaves_fewer()
    ensures fewer { FlushLeavesFewer }
    ensures whole { FlushKeepsDevice }
    ensures others { FlushLeavesOthers }
{}

/// An append only adds to what a crash may leave: of the zone all that was held, and of the bytes any prefix. What a
/// prefix of the bytes would leave, the whole may leave.
pub fn append_leaves_more()
    ensures old { AppendLeavesOld }
    ensures part { AppendLeavesPart }
    ensures any { AppendLeavesAnyPart }
    ensures less { PartLeavesLess }
{}

/// What a crash may leave, it may leave where more stands behind what is held, and where less of it is firm.
pub fn more_leaves_more()
    ensures held { MoreLeavesMore }
    ensures firm { LessFirmLeavesMore }
    ensures still { StillFirmLeavesSame }
{}

/// Where all is firm, a crash leaves all.
pub fn all_firm_leaves_all()
    ensures all { AllFirmLeavesAll }
    ensures held { HeldIsLeft }
{}

/// A reset leaves nothing of its zone, nor a replacement of its device, and only what is held is firm afterwards.
pub fn reset_leaves_nothing()
    ensures zone { ResetLeavesNothing }
    ensures device { ReplaceLeavesNothing }
    ensures held { StillFirmIsHeld }
    ensures firm { StillFirmIsFirm }
{}

/// What is left where devices are missing: neither their order nor how often one is taken matters.
pub fn missing_devices()
    ensures image { MissingLeavesImage }
    ensures images { MissingEachLeaveImage }
    ensures order { MissingInAnyOrder }
    ensures again { MissingTwice }
    ensures each { MissingOneByOne }
    ensures gone { MissingHoldNothing }
    ensures kept { OthersKeepTheirs }
{}

/// What crashes since a moment may have left of any bay.
pub fn instants<B: Bay>()
    ensures since { (bay : B) → LaterLeavesFewer (B.state bay).left }
    ensures now { (bay : B) → LeavesOnlyImages (B.state bay) }
    ensures held { (bay : B) → LeavesEachImage (B.state bay) }
{}
