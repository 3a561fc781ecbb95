// The front of a listed pair, held to the rules of a file and entered in the table.
#![tactic(auto)]

pub mod entries;
pub mod fields;
pub mod heads;
