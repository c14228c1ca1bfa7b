//! Tests of what stands outside: the calls of bays, in memory and over files.
#![tactic(auto)]

#[cfg(test)]
mod counts;
#[cfg(test)]
mod files;
#[cfg(test)]
mod memory;
