// Strings by their numbers, found again from the places where the pairs begin, and compared by bytes.
ghost use Rattle.std.specs.Prelude.{◌≡◌};
ghost use Rattle.paper.specs.Numbers.{fixed};
ghost use Rattle.paper.specs.Lists.{same};
ghost use Rattle.trail.specs.Told.{Told, same as it};
ghost use Rattle.trail.specs.Texts.{PartOf, InBlock, Text};

use crate::past::{Behind, past};
use numbers::Cursor;

// A part of the file.
#[derive(Clone, Copy)]
pub struct Span {
    pub start: usize,
    pub end: usize,
}

pub fn four(file: &[u8], at: usize) -> Behind
    ensures { Told (fixed 4) it file.now at result }
{
    let c = Cursor { at };
    let a = c.be::<4>(file);
    let Ok((value, next)) = a else {
        return Behind { value: 0, at };
    };
    Behind { value, at: next.at }
}

// From `base + a` to `base + b`, if that is a part of the file.
fn part(file: &[u8], base: usize, a: u64, b: u64) -> Span
    ensures { PartOf file.now base a b result }
{
    if file.len() < base {
        return Span { start: 0, end: 0 };
    }
    if ((file.len() - base) as u64) < b {
        return Span { start: 0, end: 0 };
    }
    if b < a {
        return Span { start: 0, end: 0 };
    }
    Span {
        start: base + (a as usize),
        end: base + (b as usize),
    }
}

// The k-th of the n strings of a block, counted from 0, whose ends begin at `from`.
fn string_in(file: &[u8], from: usize, n: u64, k: u64) -> Span
    ensures { InBlock file.now from n k result }
{
    if file.len() < from {
        return Span { start: 0, end: 0 };
    }
    if 1024 < n {
        return Span { start: 0, end: 0 };
    }
    if n <= k {
        return Span { start: 0, end: 0 };
    }
    let base = from + 4 * (n as usize);
    let at = from + 4 * (k as usize);
    let to = four(file, at);
    if k == 0 {
        return part(file, base, 0, to.value);
    }
    let start = four(file, at - 4);
    part(file, base, start.value, to.value)
}

// String n of the file, numbered from 1, where the pairs begin at these places.
pub fn string_at(file: &[u8], starts: [u32; 32], blocks: u32, n: u64) -> Span
    ensures { Text file.now starts blocks n result }
{
    if n == 0 {
        return Span { start: 0, end: 0 };
    }
    let mut k = n - 1;
    for i in 0..32 {
        if blocks as usize <= i {
            return Span { start: 0, end: 0 };
        }
        let p = starts[i] as usize;
        let c = past(file, p);
        if k < c.value {
            return string_in(file, c.at, c.value, k);
        }
        k -= c.value;
    }
    Span { start: 0, end: 0 }
}

// The same bytes.
pub fn same_bytes(a: &[u8], b: &[u8]) -> bool
    ensures { result ≡ same a.now b.now }
{
    a == b
}
