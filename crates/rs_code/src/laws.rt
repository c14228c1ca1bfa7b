//! What makes the code an erasure code. These functions do nothing: their contracts are the theorems.

ghost use Rattle.rs_code.specs.Fragments.{AnyFragmentsGiveAll, EachPayloadHasOneCode};

/// Two codes that have k fragments in common are the same, whichever fragments these are.
pub fn any_fragments()
    ensures { AnyFragmentsGiveAll }
{}

/// A payload of bytes has fragments, and no others.
pub fn one_code()
    ensures { EachPayloadHasOneCode }
{}
