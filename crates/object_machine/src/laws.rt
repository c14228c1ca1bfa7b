//! What follows from a step of the store machine, and from legal histories. These functions do nothing: their contracts
//! are the theorems.

ghost use Rattle.object_machine.specs.Laws.{RefusedChangesNothing, GetChangesNothing, ListChangesNothing, GetIsNeverFull, PutIsNeverDamaged, ListIsRefusedForItsName, ObjectIsHeld, BrokenIsRefused, NotFoundIsAbsent, AbsentIsNotFound, PutIsKept, PutKeepsOthers, DeletedWasThere, DeletedIsGone, DeleteKeepsOthers, AbsentIsNotDeleted, DeletedStaysAbsent, AnswerDecides, HistoryDecides, HistoriesGoOn, HistoriesJoin, HistoriesSplit, HistoriesAreSteps, HistoriesFollow};

use crate::Machine;

/// Neither a refused call nor a get nor a list changes anything.
pub fn nothing_changes()
    ensures refused { RefusedChangesNothing }
    ensures get { GetChangesNothing }
    ensures list { ListChangesNothing }
{}

/// A call is refused for its own reasons alone.
pub fn own_refusals()
    ensures get { GetIsNeverFull }
    ensures put { PutIsNeverDamaged }
    ensures list { ListIsRefusedForItsName }
{}

/// A get answers what the name stands for.
pub fn get_answers()
    ensures object { ObjectIsHeld }
    ensures broken { BrokenIsRefused }
    ensures absent { NotFoundIsAbsent }
    ensures not_found { AbsentIsNotFound }
{}

/// A put that is done gives the name its object, and leaves what every other name has.
pub fn put_is_kept()
    ensures kept { PutIsKept }
    ensures others { PutKeepsOthers }
{}

/// A delete that is done takes out an object that was there, and leaves what every other name has. A name without an
/// object isn't found.
pub fn delete_takes_out()
    ensures there { DeletedWasThere }
    ensures gone { DeletedIsGone }
    ensures others { DeleteKeepsOthers }
    ensures absent { AbsentIsNotDeleted }
{}

/// A name without an object has none after any legal history in which no put of it is done.
pub fn deleted_stays_absent()
    ensures { DeletedStaysAbsent }
{}

/// Calls and their answers decide all but which devices are lost.
pub fn answers_decide()
    ensures step { AnswerDecides }
    ensures history { HistoryDecides }
{}

/// Legal histories of any machine go on, join and split, and are histories of the store machine.
pub fn histories<M: Machine>()
    ensures go_on { HistoriesGoOn M.moves }
    ensures join { HistoriesJoin M.moves }
    ensures split { HistoriesSplit M.moves }
    ensures steps { HistoriesAreSteps M.moves M.state }
{}

/// A legal history stays legal under weaker moves: those of a machine whose states are had from this one's by a function.
pub fn histories_follow<M: Machine, N: Machine>()
    ensures { HistoriesFollow M.moves N.moves }
{}
