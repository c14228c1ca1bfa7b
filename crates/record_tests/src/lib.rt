//! Tests of what stands on the drives: markers and blocks, zones of records, and lines of catalogues.
#![tactic(auto)]

#[cfg(test)]
mod lines;
#[cfg(test)]
mod spelled;
#[cfg(test)]
mod zones;
