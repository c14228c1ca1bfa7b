//! The lines that list the records of sets: how a list of them is spelled, and a catalogue of the lines of many sets.
//! `docs/FORMATS.md`, "Lines of a catalogue", has the table.
#![tactic(auto)]

mod catalogue;
mod laws;
mod line;
mod lines;
mod pool;

pub use catalogue::Catalogue;
pub use laws::{first_lines_are_a_list, lines_are_of_records, spellings_are_apart};
pub use line::{Line, write_line};
pub use lines::write_lines;
pub use smore_base::closing;
