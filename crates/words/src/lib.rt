// The words of a listing: decimals, signed decimals, hex. `write` lays them into a lent buffer, `read` takes them from a text.
#![tactic(auto)]

pub mod read;
pub mod write;

// 2 ^ 63
const HALF: u64 = 9223372036854775808;
