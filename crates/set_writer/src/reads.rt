//! What is read of a whole array. These functions do nothing: their contracts are the theorems.

ghost use Rattle.set_writer.specs.ReadLaws.{CarriedIsRead, HeadIsRead, NewIsNotRead, OthersCarryOver, ReadIsCarried, UnreadIsNew};

/// What is so of the carriers of another set without what was put on the one set's zones is so in the image: they have one
/// list of records and fragments of one payload each, and an index has zones on one drive.
pub fn other_sets_carry_over()
    ensures { OthersCarryOver }
{}

/// The sets that are read of an array are those with a carrier, each as it is read of its number. One that isn't there yet
/// isn't among them; and one that isn't among them isn't there, where no zone is half rebuilt.
pub fn sets_with_carriers_are_read()
    ensures carried { CarriedIsRead }
    ensures head { HeadIsRead }
    ensures each { ReadIsCarried }
    ensures new { NewIsNotRead }
    ensures unread { UnreadIsNew }
{}
