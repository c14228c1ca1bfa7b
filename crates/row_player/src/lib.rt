//! What plays rows, whatever they speak of: lines and the table of their forms, files of rows, an array in memory with the
//! lines that any row may have, how a row is varied, and how a difference is told. `docs/ROWS.md` has the language.
#![tactic(auto)]

mod array;
mod choice;
mod difference;
mod does;
mod fault;
mod forms;
mod line;
mod reading;
mod row;
mod stage;
mod text;
mod twist;

pub use array::{ARRAY, append_block, bytes_of_bay, formatted, image_of, zone_of};
pub use choice::choices;
pub use difference::{Difference, Tally, differ, note, print_differences};
pub use does::{Does, Language};
pub use fault::Fault;
pub use line::Line;
pub use row::{Row, Segment, rows_of};
pub use stage::Stage;
pub use text::{bytes_of, from_hex, word_of};
pub use twist::{ALL, Twist, twists_of};
