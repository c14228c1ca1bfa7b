//! Tests of the top: command lines, replies as frames, and streams in memory.
#![tactic(auto)]

#[cfg(test)]
mod command_lines;
#[cfg(test)]
mod replies;
#[cfg(test)]
mod streams;
