// The values of a chunk: held to the rules where only that is asked, and read into a column. A chunk is a part of the file
// and is read from there alone.
#![tactic(auto)]

pub mod annotations;
pub mod chunks;
pub mod columns;
pub mod constants;
pub mod guides;
pub mod maps;
pub mod ranges;
pub mod references;
pub mod runs;
