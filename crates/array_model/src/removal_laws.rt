//! Laws of removals: what may be read once drives have left. These functions do nothing: their contracts are the theorems.

ghost use Rattle.array_model.specs.RemovalLaws.{CutsReadAreOfLower, ReadIsPossible, NothingNewIsPossible, NothingNewIsNeeded, CopiesStay, FewMissingAreEnough, ImageRemains, RemovalLeavesRemains, RemainsFollow, LeftMapWasPossible, RemainsHavePossibleMaps, RemainsAddNoMaps, WhatShowsIsKept, RemainsAreKept, HoldsOfRemains, OnePossibleMap};

use crate::Property;

/// Each valid cut that is read is of a lower set than the one that it stands in.
pub fn cuts_are_of_lower()
    ensures { CutsReadAreOfLower }
{}

/// What is read is possible. Where drives leave with enough nothing comes to be possible or ever needed that wasn't, and
/// copies stay copies, so this holds again then.
pub fn nothing_new_is_possible()
    ensures read { ReadIsPossible }
    ensures maps { NothingNewIsPossible }
    ensures needed { NothingNewIsNeeded }
    ensures copies { CopiesStay }
{}

/// Where no set misses more than p indexes on the drives that stay, these are enough.
pub fn few_missing_are_enough()
    ensures { FewMissingAreEnough }
{}

/// What remains after removals with enough, one after another, remains. After one the map is that of a possible reading of
/// before.
pub fn removals_follow()
    ensures none { ImageRemains }
    ensures one { RemovalLeavesRemains }
    ensures more { RemainsFollow }
    ensures map { LeftMapWasPossible }
{}

/// So each remains of an image has a possible map of that image, and no other one comes to be possible.
pub fn remains_have_possible_maps()
    ensures read { RemainsHavePossibleMaps }
    ensures maps { RemainsAddNoMaps }
{}

/// An array that shows what a kept one does is kept: all that remains of it shows the same.
pub fn what_shows_is_kept()
    ensures shows { WhatShowsIsKept }
    ensures remains { RemainsAreKept }
{}

/// What each removal with enough keeps holds of each remains, whatever property of arrays it is.
pub fn all_removals_keep<P: Property>()
    ensures { (value : P) → HoldsOfRemains (P.holds value) }
{}

/// A kept array whose sets that aren't settled have equal lists on their carriers has its own map as its only possible one.
pub fn one_possible_map()
    ensures { OnePossibleMap }
{}
