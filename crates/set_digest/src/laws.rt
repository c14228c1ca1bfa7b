//! What follows from the definitions of lines. These functions do nothing: their contracts are the theorems.

ghost use Rattle.set_digest.specs.Laws.{LinesAreApart, ListsAreApart, FirstAreList, RecordHasLine, ZonesHaveOneLine, RecordsAreListed};

/// No two lines have the same bytes, and no two spelled lists.
pub fn spellings_are_apart()
    ensures lines { LinesAreApart }
    ensures lists { ListsAreApart }
{}

/// The first lines of a spelled list are one.
pub fn first_lines_are_a_list()
    ensures { FirstAreList }
{}

/// Each record that isn't of a digest has a line, the same in each zone of its set, and those of a zone are a spelled list.
pub fn lines_are_of_records()
    ensures record_has { RecordHasLine }
    ensures zones { ZonesHaveOneLine }
    ensures listed { RecordsAreListed }
{}
