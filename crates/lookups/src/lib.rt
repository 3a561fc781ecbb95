// What values are held to, from the table: the ranges of types, and the objects that an annotation may name. It is gathered once for
// a chunk, and not asked for at each value.
#![tactic(auto)]

pub mod named;
pub mod objects;
pub mod ranges;
