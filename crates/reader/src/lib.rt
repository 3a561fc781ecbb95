// Reading the front of a pair into the work table: strings, entries, kinds and fields.
#![tactic(auto)]

pub mod entries;
pub mod fields;
pub mod heads;
pub mod kinds;
pub mod known;
pub mod ruled;
pub mod strings;
