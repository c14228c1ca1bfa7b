//! What follows from the definitions. These functions do nothing: their contracts are the theorems.

ghost use Rattle.std.specs.Int.{w8, w16, w32, w64};
ghost use Rattle.smore_base.specs.BigEndian.{IsExact};
ghost use Rattle.smore_base.specs.Room.{RoomIsGreatest, NeedIsAtMost};

/// A number of one, two, four or eight bytes is read back from its bytes, and bytes are those of the number that is
/// read from them. So each number has one spelling, and no two numbers share one.
pub fn numbers_have_one_spelling()
    ensures one { IsExact w8 }
    ensures two { IsExact w16 }
    ensures four { IsExact w32 }
    ensures eight { IsExact w64 }
{}

/// As many sets can be formed as there is room for, and no more.
pub fn room_is_the_greatest()
    ensures { RoomIsGreatest }
{}

/// No step opens more sets than it has records.
pub fn need_is_at_most_a_set_a_record()
    ensures { NeedIsAtMost }
{}
