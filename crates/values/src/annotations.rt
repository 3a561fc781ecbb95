// Annotations: the number of a base type's name, and that of an object of this type.
ghost use Rattle.std.specs.Prelude.{◌≡◌};
ghost use Rattle.paper.specs.Reader.{repeat};
ghost use Rattle.values.specs.Pass.{Passed};
ghost use Rattle.values.specs.Annotations.{placed?, annotated};

use numbers::{Cursor, Fault, Outcome, Refusal};

// Whether there is object n of the base type that string m names, or both are 0. Of that type there are pools[m - 1] objects, which
// is 0 where the string names no base type.
pub fn placed(pools: &[u32], m: u64, n: u64) -> bool
    ensures { result ≡ placed? pools.now m n }
{
    if m == 0 {
        return n == 0;
    }
    if n == 0 {
        return false;
    }
    if (pools.len() as u64) < m {
        return false;
    }
    n <= u64::from(pools[(m - 1) as usize])
}

// Both numbers are read before the rule is asked, and it is broken where the first began.
fn annotation(part: &[u8], c: Cursor, pools: &[u32]) -> Outcome<u64>
    ensures { Passed (annotated (placed? pools.now)) part.now c.at result }
{
    let (m, second) = c.v64(part)?;
    let (n, next) = second.v64(part)?;
    if placed(pools, m, n) {
        return Ok((n, next));
    }
    Err(Refusal {
        fault: Fault::Reference,
        place: c.at,
    })
}

// m annotations.
pub fn annotations(part: &[u8], c: Cursor, m: u64, pools: &[u32]) -> Outcome<u64>
    ensures { Passed (repeat m (annotated (placed? pools.now))) part.now c.at result }
{
    let mut here = c;
    for _ in 0..m {
        let (_, next) = annotation(part, here, pools)?;
        here = next;
    }
    Ok((0, here))
}
