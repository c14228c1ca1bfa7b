//! What is read of the records that a writer wrote, and what a read keeps of a set. These functions do nothing: their
//! contracts are the theorems.

ghost use Rattle.set_tests.specs.Laws.{WrittenStands, WrittenIsReadBack};
ghost use Rattle.set_tests.specs.Keeps.{ReadKeepsSets};

use zone_bay::Bay;

/// Each record of a set stands at its place while its writer's members hold it, and its payload is what is read there.
pub fn written_records_are_read_back()
    ensures stands { WrittenStands }
    ensures payload { WrittenIsReadBack }
{}

/// A read keeps all that a writer's calls ask of its set, the table and the bay, also where it loses devices.
pub fn reads_keep_sets<B: Bay>()
    ensures { (old new : B) → ReadKeepsSets (B.state old) (B.state new) }
{}
