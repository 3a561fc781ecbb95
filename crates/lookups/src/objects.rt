// Whether an object is one of a type, asked of the log itself: for values that are few, this is less than to gather the ranges of the
// type. In most files every pair has the same entries, so that the ranges of a type stand equally far apart in the log. The range to
// look at is guessed by that; where it is not the one, the ranges are looked at one after the other, by the links between them; and
// where that finds none, the whole log is asked, since nothing is known of a link.
ghost use Rattle.std.specs.Prelude.{◌≡◌, true, ◌<◌, ◌≤◌, get_or};
ghost use Rattle.paper.specs.Lists.{any};
ghost use Rattle.paper.specs.Ledger.{holds?};
ghost use Rattle.table.specs.View.{log_of, Ok};
ghost use Rattle.table.specs.Answers.{range_in};

use table::ranges::{holds, tally_at};
use table::rows::{RangeRow, link_at, range_at, ranges};

// Whether object n lies in range r, and that is one of type t.
fn lies(r: RangeRow, t: u32, n: u64) -> bool
    ensures { result ≡ holds? t n (range_in r) }
{
    if r.typ != t {
        return false;
    }
    let first = r.first as u64;
    if n < first + 1 {
        return false;
    }
    let last = first + (r.count as u64);
    n <= last
}

// Whether object n lies in the i-th range, and that is one of type t.
fn lies_at(work: &[u32], i: u32, t: u32, n: u64) -> bool
    requires { Ok work.now × (i < get_or work.now 3 0) }
    ensures { result ≡ true → any (holds? t n) (log_of work.now) ≡ true }
{
    lies(range_at(work, i), t, n)
}

// How far before place i the range before it of the same type stands, by the link: 0 where that leads to none.
fn distance(work: &[u32], i: u32) -> u32
    requires { Ok work.now × (i < get_or work.now 3 0) }
    ensures { result ≤ i }
{
    let j = link_at(work, i);
    if j < i {
        return i - j;
    }
    0
}

// A number of steps that leads from the start of the log up to place i or further.
fn stride(step: u32, i: u32) -> u32
    requires { (0 < step) × (step ≤ i) × (i < 1024) }
    ensures { result < 2048 }
{
    let mut span = step;
    while span < i {
        span += span;
    }
    span
}

// So far back from a place, if the range there begins with object n or behind it, or the place itself.
fn stepped(work: &[u32], place: u32, span: u32, n: u64) -> u32
    requires { Ok work.now × (place < get_or work.now 3 0) }
    ensures { result ≤ place }
{
    if place < span {
        return place;
    }
    let r = range_at(work, place - span);
    if (r.first as u64) < n {
        return place;
    }
    place - span
}

// The first place, by so many steps back from place i, at which a range begins with object n or behind it.
fn back(work: &[u32], i: u32, step: u32, n: u64) -> u32
    requires { Ok work.now × (i < get_or work.now 3 0) × (0 < step) × (step ≤ i) }
    ensures { result ≤ i }
{
    let mut span = stride(step, i);
    let mut place = i;
    while step <= span {
        place = stepped(work, place, span, n);
        span /= 2;
    }
    place
}

// Whether it is found by a guess that object n is one of type t, whose last range is the i-th.
fn found(work: &[u32], i: u32, t: u32, n: u64) -> bool
    requires { Ok work.now × (i < get_or work.now 3 0) }
    ensures { result ≡ true → any (holds? t n) (log_of work.now) ≡ true }
{
    if lies_at(work, i, t, n) {
        return true;
    }
    let step = distance(work, i);
    if step == 0 {
        return false;
    }
    let place = back(work, i, step, n);
    if place < step {
        return false;
    }
    lies_at(work, place - step, t, n)
}

// Whether it is found by the links, from the i-th range back to one after the other, that object n is one of type t.
fn followed(work: &[u32], i: u32, t: u32, n: u64) -> bool
    requires { Ok work.now × (i < get_or work.now 3 0) }
    ensures { result ≡ true → any (holds? t n) (log_of work.now) ≡ true }
{
    let mut place = i;
    while !lies_at(work, place, t, n) {
        let before = link_at(work, place);
        if place <= before {
            return false;
        }
        place = before;
    }
    true
}

// Whether object n is one of type t.
pub fn is_object(work: &[u32], t: u32, n: u64) -> bool
    requires { Ok work.now × (t < 32) }
    ensures { result ≡ any (holds? t n) (log_of work.now) }
{
    let i = tally_at(work, t, 4);
    if i < ranges(work) {
        if found(work, i, t, n) {
            return true;
        }
        if followed(work, i, t, n) {
            return true;
        }
    }
    holds(work, t, n)
}
