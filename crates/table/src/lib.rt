// The work table: 16,384 lent numbers in which is kept what is known of a file, or of a listing's text. The bytes that were
// read are called the source: a name or a string is kept as the place where it stands there. `specs/View.antt` has the
// layout, and says what a table means.
#![tactic(auto)]

mod cells;
pub mod counts;
pub mod names;
pub mod pushes;
pub mod ranges;
pub mod rows;
pub mod types;
