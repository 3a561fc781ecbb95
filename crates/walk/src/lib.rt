// A file pair by pair: its data region is read chunk by chunk.
#![tactic(auto)]

pub mod chunks;
pub mod pairs;
pub mod region;
