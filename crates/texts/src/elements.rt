// An element of one number from its word: the number that stands for it in a file, which has the width of its kind, and that number as
// bytes.
ghost use Rattle.std.specs.Prelude.{◌≡◌, true, List, ℕ, ◌+◌, ◌^◌, ◌≤◌, ◌<◌, length};
ghost use Rattle.paper.specs.Rules.{single_kind?};
ghost use Rattle.lay.specs.Laid.{Laid};
ghost use Rattle.words.specs.Answers.{out_number};
ghost use Rattle.values.specs.Items.{at_most, some_object};
ghost use Rattle.texts.specs.Signs.{Sign, bits_of};
ghost use Rattle.texts.specs.Elements.{flag_number, whole_width, whole_number, link_number, kept, reckoned, bound_in, in_bytes};

use numbers::write::{put_be, put_v64};
use values::ranges::Ranges;
use values::references::range_by;
use words::read::{Place, Scanned, peek};

const MINUS: u64 = 45;

// A bool, 0 or 1: a file has 00 or FF.
fn flag(t: &[u8], p: Place) -> Scanned<u64>
    ensures { out_number result ≡ flag_number t.now p.at }
{
    let at = p.at;
    let b = peek(t, at);
    if b < 48 {
        return None;
    }
    if 49 < b {
        return None;
    }
    let next = at + 1;
    Some((255 * (b - 48), Place { at: next }))
}

// Half of the range of i8, i16, i32, i64 and v64.
fn half(e: u64) -> u64
    requires { (6 < e) × (e < 12) }
    ensures { (256 ^ whole_width e ≡ result + result) × (result ≤ 2 ^ 63) }
{
    match e {
        7 => 128,
        8 => 32768,
        9 => 2147483648,
        _ => 9223372036854775808,
    }
}

// How many bytes the sign of a number has: 1 for a minus, and else 0.
fn sign(t: &[u8], at: usize) -> usize
    ensures { Sign t.now at result }
{
    if peek(t, at) == MINUS {
        return 1;
    }
    0
}

// The bits of the number n behind a sign of s bytes, in the range that has this half.
fn signed_bits(n: u64, s: usize, half: u64) -> u64
    requires { (s ≤ 1) × (s ≤ n) × (n < half + s) × (half ≤ 2 ^ 63) }
    ensures { result ≡ bits_of half s n }
{
    if s == 0 { n } else { half + (half - n) }
}

// A signed number within the range that has this half: its bits at that width. The sign is reckoned with and not asked, since
// nothing foretells it: below 0 there is one number more, and no 0.
fn whole(t: &[u8], p: Place, half: u64) -> Scanned<u64>
    requires { half ≤ 2 ^ 63 }
    ensures { (w : ℕ) → 256 ^ w ≡ half + half → out_number result ≡ whole_number w t.now p.at }
{
    let s = sign(t, p.at);
    let digits = Place { at: p.at + s };
    let (n, next) = digits.natural(t)?;
    if half + (s as u64) <= n {
        return None;
    }
    if n < s as u64 {
        return None;
    }
    Some((signed_bits(n, s, half), next))
}

// The number of a string, or 0.
fn string_number(t: &[u8], p: Place, strings: u64) -> Scanned<u64>
    ensures { out_number result ≡ link_number (at_most strings) t.now p.at }
{
    let (n, next) = p.natural(t)?;
    if strings < n {
        return None;
    }
    Some((n, next))
}

// The number of an object in the ranges, or 0. The guide says which range to look at first.
fn object_number(t: &[u8], p: Place, guide: &[u32], ranges: &Ranges<'_>) -> Scanned<u64>
    ensures { out_number result ≡ link_number (some_object ranges.now.first.now ranges.now.last.now) t.now p.at }
{
    let (n, next) = p.natural(t)?;
    if n == 0 {
        return Some((n, next));
    }
    if ranges.first.len() <= range_by(guide, ranges, n) {
        return None;
    }
    Some((n, next))
}

// The number of an element of kind e that keeps the rules; an annotation has two. Of strings there are so many.
pub fn element_text(
    t: &[u8],
    p: Place,
    e: u64,
    strings: u64,
    guide: &[u32],
    ranges: &Ranges<'_>,
) -> Scanned<u64>
    requires { single_kind? e ≡ true }
    ensures { (pools : List ℕ) → out_number result ≡ reckoned (kept strings pools ranges.now.first.now ranges.now.last.now e) e t.now p.at }
{
    match e {
        6 => flag(t, p),
        7..=11 => whole(t, p, half(e)),
        12 => p.hex(t, 8),
        13 => p.hex(t, 16),
        14 => string_number(t, p, strings),
        _ => object_number(t, p, guide, ranges),
    }
}

// The number of an element of kind e as a file has it.
pub fn put_bits(out: &mut [u8], at: usize, e: u64, n: u64) -> usize
    requires { (6 ≤ e) × (n < bound_in e) }
    ensures { Laid out.old at (in_bytes e n) out.new result }
{
    match e {
        6..=7 => put_be::<1>(out, at, n),
        8 => put_be::<2>(out, at, n),
        9 | 12 => put_be::<4>(out, at, n),
        10 | 13 => put_be::<8>(out, at, n),
        _ => put_v64(out, at, n),
    }
}
