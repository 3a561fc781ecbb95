// What was read before, looked up by walking the file again.
#![tactic(auto)]

pub mod fields;
pub mod log;
pub mod ranges;
