// Types, and the chain of super types above each.
ghost use Rattle.std.specs.Prelude.{◌≡◌, length};
ghost use Rattle.paper.specs.Ledger.{type_in};
ghost use Rattle.paper.specs.Rules.{chain_ends?};
ghost use Rattle.table.specs.View.{maybe, types_of, Ok};

use super::rows::{type_at, types};

// The super type of type t: 0 for none, u + 1 for u. No type, no super type.
pub fn super_of(work: &[u32], t: u32) -> u32
    requires { Ok work.now }
    ensures { maybe result ≡ (type_in (types_of work.now) t).super }
{
    if types(work) <= t {
        return 0;
    }
    let row = type_at(work, t);
    row.sup
}

// The base type of type t's pool.
pub fn base_of(work: &[u32], t: u32) -> u32
    requires { Ok work.now }
    ensures { result ≡ (type_in (types_of work.now) t).base }
{
    if types(work) <= t {
        return 0;
    }
    let row = type_at(work, t);
    row.base
}

// The chain of super types from `up` (0 for none, u + 1 for u) ends, and does not meet type t: a chain with as many steps
// as there are types meets one of them twice.
pub fn chain_ends(work: &[u32], t: u32, up: u32) -> bool
    requires { Ok work.now }
    ensures { result ≡ chain_ends? (length (types_of work.now)) (types_of work.now) t (maybe up) }
{
    let mut above = up;
    for _ in 0..types(work) {
        if above == 0 {
            return true;
        }
        let u = above - 1;
        if u == t {
            return false;
        }
        above = super_of(work, u);
    }
    above == 0
}
