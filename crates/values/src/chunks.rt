// Elements of any kind, and the values of a chunk: the kind is chosen here, once for all that follow.
ghost use Rattle.std.specs.Prelude.{◌≡◌, ℕ, ◌<◌, ◌≤◌, true, length, ◌≢◌};
ghost use Rattle.paper.specs.Reader.{Reader, repeat};
ghost use Rattle.paper.specs.Rules.{element_kind?};
ghost use Rattle.values.specs.Pass.{Passed};
ghost use Rattle.values.specs.Listed.{Fixed, width_of};
ghost use Rattle.values.specs.Items.{Checked};
ghost use Rattle.values.specs.Chunks.{counted, list_of, Reads, RunsOf, Kinds, ChunkChecked};

use crate::annotations::annotations;
use crate::ranges::Ranges;
use crate::references::guided_references;
use crate::runs::{bools, fixed_widths, string_numbers, strings_in_turn, v64s};
use numbers::{Cursor, Outcome};

// The width in bytes of i8 to i64, f32 and f64.
fn width(k: u64) -> u64
    requires { Fixed k }
    ensures { (result ≡ width_of k) × (0 < result) }
{
    match k {
        7 => 1,
        8 => 2,
        9 | 12 => 4,
        _ => 8,
    }
}

// m elements of kind k, one after the other: the cursor behind them, or the first refusal. Of strings there are so many, of the
// base type that string s names there are pools[s - 1] objects. Only annotations ask for pools, and only references for ranges; a guide
// to these stands where the pools would.
pub fn elements(
    part: &[u8],
    c: Cursor,
    m: u64,
    k: u64,
    strings: u64,
    pools: &[u32],
    ranges: &Ranges<'_>,
) -> Outcome<u64>
    requires { (element_kind? k ≡ true) × (c.at ≤ length part.now) }
    ensures { Checked m k strings pools.now ranges.now.first.now ranges.now.last.now part.now c.at result }
{
    match k {
        5 => annotations(part, c, m, pools),
        6 => bools(part, c, m),
        7..=10 | 12..=13 => fixed_widths(part, c, m, width(k)),
        11 => v64s(part, c, m),
        14 => string_numbers(part, c, m, strings),
        32..=18446744073709551615 => guided_references(part, c, m, pools, ranges),
        // No element has such a kind.
        0..=4 | 15..=31 => Ok((0, c)),
    }
}

// n arrays that give their own lengths, from the chunk's start on: `read` goes over the elements of one. Each reader has a loop of its
// own, so none is chosen in it.
fn lists_by<F: Fn(Cursor, u64) -> Outcome<u64>>(part: &[u8], n: u64, read: F) -> Outcome<u64>
    requires { Reads part.now (F.pre read) (F.post read) }
    ensures { (q : Reader ℕ) → RunsOf q part.now (F.post read) → Passed (repeat n (counted q)) part.now 0 result }
{
    let mut here = Cursor { at: 0 };
    for _ in 0..n {
        let (m, begin) = here.small(part)?;
        let (_, next) = read(begin, m)?;
        here = next;
    }
    Ok((0, here))
}

// n arrays that give their own lengths. The elements' kind is asked once, and not for each array: most have few elements.
fn lists_of(
    part: &[u8],
    n: u64,
    e: u64,
    strings: u64,
    pools: &[u32],
    ranges: &Ranges<'_>,
) -> Outcome<u64>
    requires { element_kind? e ≡ true }
    ensures { Passed (repeat n (list_of strings pools.now ranges.now.first.now ranges.now.last.now e)) part.now 0 result }
{
    match e {
        5 => lists_by(part, n, move |c, m| annotations(part, c, m, pools)),
        6 => lists_by(part, n, move |c, m| bools(part, c, m)),
        7..=10 | 12..=13 => {
            let width = width(e);
            lists_by(part, n, move |c, m| fixed_widths(part, c, m, width))
        }
        11 => lists_by(part, n, move |c, m| v64s(part, c, m)),
        14 => lists_by(part, n, move |c, m| strings_in_turn(part, c, m, strings)),
        32..=18446744073709551615 => {
            lists_by(
                part,
                n,
                move |c, m| guided_references(part, c, m, pools, ranges),
            )
        }
        // No element has such a kind.
        0..=4 | 15..=31 => Ok((0, Cursor { at: 0 })),
    }
}

// The n values of a chunk, whose kind has the first number k, an array's length a, and the last number e: the cursor behind them,
// or the first refusal. Constants have no bytes in a chunk, and maps have a way of their own.
pub fn chunk_values(
    part: &[u8],
    n: u32,
    k: u64,
    a: u64,
    e: u64,
    strings: u64,
    pools: &[u32],
    ranges: &Ranges<'_>,
) -> Outcome<u64>
    requires { Kinds k a e × (4 < k) × (k ≢ 20) }
    ensures { ChunkChecked n k a e strings pools.now ranges.now.first.now ranges.now.last.now part.now result }
{
    let start = Cursor { at: 0 };
    let values = n as u64;
    match k {
        // Arrays of one length lie there as one run of elements.
        15 => {
            let all = values * a;
            elements(part, start, all, e, strings, pools, ranges)
        }
        17..=19 => lists_of(part, values, e, strings, pools, ranges),
        _ => elements(part, start, values, e, strings, pools, ranges),
    }
}
