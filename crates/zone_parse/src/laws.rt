//! What follows for a whole walk. These functions do nothing: their contracts are the theorems.

ghost use Rattle.zone_parse.specs.Laws.{WalksGiveAll};

/// A reader that is asked until it says `None` gave the whole records of its zone, each once and in order, and then tells
/// whether a whole foot follows them.
pub fn walks_give_all_records()
    ensures { WalksGiveAll }
{}
