//! Laws of needed records and of cleaning. These functions do nothing: their contracts are the theorems.

ghost use Rattle.array_model.specs.NeedLaws.{CopiesAreEqual, TestsAreNeed, ShelfHasAll, BlocksAreThose, NeededIsUsed, VictimIsLeast, NoVictimNoneWorth, HalfCleanedGoesFirst};

/// Which records are needed can be told by tests: they find the needed ones and no others, and equal records to be copies.
pub fn tests_tell_need()
    ensures copies { CopiesAreEqual }
    ensures needed { TestsAreNeed }
{}

/// The shelf leaves out no valid record.
pub fn shelf_has_all()
    ensures { ShelfHasAll }
{}

/// The blocks that cleaning counts of a record are those that it takes in a zone, and of no set more is needed than used.
pub fn blocks_are_counted()
    ensures blocks { BlocksAreThose }
    ensures needed { NeededIsUsed }
{}

/// The victim of cleaning is worth it, has the fewest needed blocks of all sets that are, and is the lowest such. There is
/// none only where no set is worth cleaning, and a set that is half cleaned goes before all others.
pub fn victims_are_least()
    ensures least { VictimIsLeast }
    ensures none { NoVictimNoneWorth }
    ensures half { HalfCleanedGoesFirst }
{}
