// References: numbers of objects, which lie in the ranges of a type.
ghost use Rattle.std.specs.Prelude.{◌≡◌, ◌<◌, ◌≤◌, length};
ghost use Rattle.paper.specs.Reader.{repeat};
ghost use Rattle.values.specs.Pass.{Passed};
ghost use Rattle.values.specs.Items.{in_range, linked, some_object};
ghost use Rattle.values.specs.RangeLaws.{Placed};

use crate::guides::{bits_of, guess};
use crate::ranges::Ranges;
use numbers::{Cursor, Fault, Outcome, Refusal};
use std::num;

// The loops count by hand here, an end is widened by `wide`, and what takes a guide stands beside what takes none. With `for`, `&&` and
// `u64::from` in `search`, `lies_in` and `over`, 65,535 references to one range took 0.23 ms in place of 0.17, and 0.21 where besides one
// function took the search as a parameter: the compiler then asks again, for each reference, whether a range was found.
//
// Whoever asks hands a reference to the ranges on, and the loops copy them, once for all that they read: lists of references then need 7
// percent fewer instructions than with the two slices by themselves. Handed on by value they took 4 percent more time, and references
// alone 3 percent more where the loops did not copy.

// An end of a range in the width of the numbers that are held against it. Said once, it spares each load a fact.
fn wide(x: u32) -> u64
    ensures { result ≡ x }
{
    x as u64
}

// Whether object n lies in the i-th range.
fn lies_in(ranges: Ranges<'_>, i: usize, n: u64) -> bool
    requires { i < length ranges.first.now }
    ensures { result ≡ in_range ranges.entry.first.now ranges.entry.last.now i n }
{
    let before = wide(ranges.first[i]);
    let end = wide(ranges.last[i]);
    if n <= before {
        return false;
    }
    n <= end
}

// The range in which object n lies, or how many there are.
fn search(ranges: Ranges<'_>, n: u64) -> usize
    ensures { Placed ranges.entry.first.now ranges.entry.last.now n result }
{
    let mut i: usize = 0;
    while i < ranges.first.len() {
        if lies_in(ranges, i, n) {
            return i;
        }
        i += 1;
    }
    i
}

// How far to go on: over a half that ends before n, or not at all. A difference below 0 has its top bit set, and a product
// needs no jump, which nobody could foretell here.
fn over(last: &[u32], at: usize, half: usize, n: u64) -> usize
    requires { at < length last.now }
    ensures { result ≤ half }
{
    let below = num::wrapping_sub_u64(wide(last[at]), n);
    let before = (below >> 63) as usize;
    half * before
}

// Where object n would lie if the ranges rose, which they do in a file. Nothing is built on it: it is only where to look first.
fn near(last: &[u32], n: u64) -> usize {
    let mut base: usize = 0;
    let mut size = last.len();
    while 1 < size {
        let half = size / 2;
        base += over(last, base + half - 1, half, n);
        size -= half;
    }
    base
}

// The same as `search`, with one look before it that finds nearly all.
fn range_of(ranges: Ranges<'_>, n: u64) -> usize
    ensures { Placed ranges.entry.first.now ranges.entry.last.now n result }
{
    let i = near(ranges.last, n);
    if i < ranges.first.len() {
        if lies_in(ranges, i, n) {
            return i;
        }
    }
    search(ranges, n)
}

// The number of an object, or 0.
fn reference(part: &[u8], c: Cursor, ranges: Ranges<'_>) -> Outcome<u64>
    ensures { Passed (linked (some_object ranges.entry.first.now ranges.entry.last.now)) part.now c.at result }
{
    let (n, next) = c.v64(part)?;
    if n == 0 {
        return Ok((n, next));
    }
    if ranges.first.len() <= range_of(ranges, n) {
        return Err(Refusal {
            fault: Fault::Reference,
            place: c.at,
        });
    }
    Ok((n, next))
}

// m numbers of objects.
pub fn references(part: &[u8], c: Cursor, m: u64, ranges: &Ranges<'_>) -> Outcome<u64>
    ensures { Passed (repeat m (linked (some_object ranges.now.first.now ranges.now.last.now))) part.now c.at result }
{
    let own = *ranges;
    let mut here = c;
    let mut rest = m;
    while 0 < rest {
        let (_, next) = reference(part, here, own)?;
        here = next;
        rest -= 1;
    }
    Ok((0, here))
}

// The same as `range_of`, with a look at the range that a guide names before it.
fn guided_range(guide: &[u32], bits: u32, ranges: Ranges<'_>, n: u64) -> usize
    requires { bits < 64 }
    ensures { Placed ranges.entry.first.now ranges.entry.last.now n result }
{
    let i = guess(guide, bits, n);
    if i < ranges.first.len() {
        if lies_in(ranges, i, n) {
            return i;
        }
    }
    range_of(ranges, n)
}

// The same, for whoever looks for one object at a time.
pub fn range_by(guide: &[u32], ranges: &Ranges<'_>, n: u64) -> usize
    ensures { Placed ranges.now.first.now ranges.now.last.now n result }
{
    guided_range(guide, bits_of(guide), *ranges, n)
}

// The same as `reference`, with a guide.
fn guided_reference(
    part: &[u8],
    c: Cursor,
    guide: &[u32],
    bits: u32,
    ranges: Ranges<'_>,
) -> Outcome<u64>
    requires { bits < 64 }
    ensures { Passed (linked (some_object ranges.entry.first.now ranges.entry.last.now)) part.now c.at result }
{
    let (n, next) = c.v64(part)?;
    if n == 0 {
        return Ok((n, next));
    }
    if ranges.first.len() <= guided_range(guide, bits, ranges, n) {
        return Err(Refusal {
            fault: Fault::Reference,
            place: c.at,
        });
    }
    Ok((n, next))
}

// The same as `references`, with a guide.
pub fn guided_references(
    part: &[u8],
    c: Cursor,
    m: u64,
    guide: &[u32],
    ranges: &Ranges<'_>,
) -> Outcome<u64>
    ensures { Passed (repeat m (linked (some_object ranges.now.first.now ranges.now.last.now))) part.now c.at result }
{
    let bits = bits_of(guide);
    let own = *ranges;
    let mut here = c;
    let mut rest = m;
    while 0 < rest {
        let (_, next) = guided_reference(part, here, guide, bits, own)?;
        here = next;
        rest -= 1;
    }
    Ok((0, here))
}
