//! The top of the store: where requests come from and replies go to, and the calls that the program makes.
#![tactic(auto)]

mod asking;
mod batch;
mod coder;
mod command;
mod end;
mod formatting;
mod frame_numbers;
mod laws;
mod memory_sink;
mod memory_source;
mod numeral;
mod reply_frame;
mod request;
mod request_body;
mod sending;
mod sink;
mod source;
mod stream_calls;
mod task;
mod turn;
mod words;

pub use batch::{Outcome, run_batch};
pub use command::{Command, WordFault, read_words};
pub use end::{BAD_WORDS, NO_MEMORY};
pub use laws::{
    ends_are_apart, frames_are_apart, images_reopen, kept_arrays_reopen, replies_are_apart,
    words_spell_one_command,
};
pub use memory_sink::MemorySink;
pub use memory_source::MemorySource;
pub use reply_frame::write_reply;
pub use request::Request;
pub use sink::Sink;
pub use source::Source;
pub use store_core::{Core, FormatFailed, OpenRefusal};
pub use words::Words;
