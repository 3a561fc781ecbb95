// Maps of several types: counted keys, each followed by what it leads to, which is a map of the other types or, at the last, an
// element. They are held to the rules and passed over.
ghost use Rattle.std.specs.Prelude.{◌≡◌, ℕ, ◌-◌, ◌^◌, ◌<◌, ◌≤◌, true, List, length, IfSome};
ghost use Rattle.paper.specs.Lists.{all};
ghost use Rattle.paper.specs.Rules.{element_kind?};
ghost use Rattle.paper.specs.Numbers.{put_fixed};
ghost use Rattle.paper.specs.Calls.{over_front};
ghost use Rattle.values.specs.Pass.{Passed};
ghost use Rattle.values.specs.Items.{item};
ghost use Rattle.values.specs.Spans.{Spanned, ranges, item_in};
ghost use Rattle.values.specs.Ways.{map_in, key_in};
ghost use Rattle.values.specs.MapChunks.{MapsChecked};
ghost use Rattle.values.specs.Quick.{Within, Stands, Quick, Skips, Paired};

use crate::annotations::annotations;
use crate::ranges::{Groups, Ranges};
use crate::references::references;
use crate::runs::{bools, number_up_to};
use numbers::{Cursor, Outcome};

// 256 to the power of so many less one: what the first of so many bytes counts.
fn first_unit(types: u64) -> u64
    requires { (1 ≤ types) × (types ≤ 8) }
    ensures { result ≡ 256 ^ (types - 1) }
{
    let mut unit: u64 = 1;
    for _ in 1..types {
        unit *= 256;
    }
    unit
}

// The element kinds of a map, which a table keeps as one number, a byte each: they come at the front of the list, and the answer is
// how many they are.
pub fn map_kinds(types: u64, packed: u64, kinds: &mut [u64]) -> usize
    requires { (1 ≤ types) × (types ≤ 8) × (length kinds.old ≡ 8) }
    ensures { (result ≡ types) × (kinds.new ≡ over_front (put_fixed types packed) kinds.old) }
{
    let n = types as usize;
    let mut unit = first_unit(types);
    let mut rest = packed;
    for i in 0..n {
        kinds[i] = rest / unit;
        rest %= unit;
        unit /= 256;
    }
    n
}

// A part of the lists in which the ranges of all types stand.
#[derive(Clone, Copy)]
struct Span {
    from: usize,
    to: usize,
}

// The ranges of the type that kind k names: those of type t stand from starts[t] up to starts[t + 1]. Where it names none, or one
// that has none here, the part is empty.
fn span_of(starts: &[u32], k: u64) -> Span
    ensures { Spanned starts.now k result.from result.to }
{
    if k < 32 {
        return Span { from: 0, to: 0 };
    }
    let next = k - 31;
    if (starts.len() as u64) <= next {
        return Span { from: 0, to: 0 };
    }
    let t = next as usize;
    let from = starts[t - 1] as usize;
    let to = starts[t] as usize;
    Span { from, to }
}

// The ranges of the type that kind k names.
pub fn ranges_of<'a>(groups: &Groups<'a>, k: u64) -> Ranges<'a>
    ensures { (result.first.now ≡ ranges groups.now.starts.now k groups.now.first.now) × (result.last.now ≡ ranges groups.now.starts.now k groups.now.last.now) }
{
    let s = span_of(groups.starts, k);
    let from = s.from;
    let to = s.to;
    Ranges {
        first: &groups.first[from..to],
        last: &groups.last[from..to],
    }
}

// An element in a map whose kind k names a type: it is held to the part of the ranges that are this type's own.
fn linked_element(part: &[u8], c: Cursor, k: u64, groups: &Groups<'_>) -> Outcome<u64>
    requires { 32 ≤ k }
    ensures { (strings : ℕ) (pools : List ℕ) → Passed (item_in strings pools groups.now.starts.now groups.now.first.now groups.now.last.now k) part.now c.at result }
{
    references(part, c, 1, &ranges_of(groups, k))
}

// An element of kind k in a map. Most kinds are read by the reader of their number, with no loop around it.
fn element(
    part: &[u8],
    c: Cursor,
    k: u64,
    strings: u64,
    pools: &[u32],
    groups: &Groups<'_>,
) -> Outcome<u64>
    requires { (element_kind? k ≡ true) × (c.at ≤ length part.now) }
    ensures { Passed (item_in strings pools.now groups.now.starts.now groups.now.first.now groups.now.last.now k) part.now c.at result }
{
    match k {
        5 => annotations(part, c, 1, pools),
        6 => bools(part, c, 1),
        7 => c.be::<1>(part),
        8 => c.be::<2>(part),
        9 | 12 => c.be::<4>(part),
        10 | 13 => c.be::<8>(part),
        11 => c.v64(part),
        14 => number_up_to(part, c, strings),
        _ => linked_element(part, c, k, groups),
    }
}

// What an element is held to on the quick way over it, where only the place behind it is asked: it has so many bytes, or where the width
// is 0 it is a number that is 0 or lies above `low` and is at most `high`, and where that is the largest it is any number. With a width
// above 8 there is no such way. Where a closer look has to tell, the quick way answers nothing, and then all is read again.
#[derive(Clone, Copy)]
pub struct Bounds {
    pub width: usize,
    pub low: u64,
    pub high: u64,
}

// The place behind a number, if it is within the bounds.
fn held(n: u64, end: usize, low: u64, high: u64) -> Option<usize>
    ensures { IfSome result (λ e. (e ≡ end) × Within low high n) }
{
    if high < n {
        return None;
    }
    if n <= low {
        if n != 0 {
            return None;
        }
    }
    Some(end)
}

// The place behind a number, of any length.
fn long_behind(part: &[u8], at: usize, low: u64, high: u64) -> Option<usize>
    requires { at ≤ length part.now }
    ensures { IfSome result (Stands 0 low high part.now at) }
{
    let c = Cursor { at };
    // Nobody asks the value.
    if high == u64::MAX {
        let Ok(next) = c.past_v64(part) else {
            return None;
        };
        return Some(next.at);
    }
    let Ok((n, next)) = c.v64(part) else {
        return None;
    };
    held(n, next.at, low, high)
}

// The same. Most have one byte.
fn number_behind(part: &[u8], at: usize, low: u64, high: u64) -> Option<usize>
    requires { at ≤ length part.now }
    ensures { IfSome result (Stands 0 low high part.now at) }
{
    if at < part.len() {
        let b = u64::from(part[at]);
        if b < 128 {
            return held(b, at + 1, low, high);
        }
    }
    long_behind(part, at, low, high)
}

// The place behind an element.
fn one_behind(part: &[u8], at: usize, width: usize, low: u64, high: u64) -> Option<usize>
    requires { at ≤ length part.now }
    ensures { IfSome result (Stands width low high part.now at) }
{
    if width == 0 {
        return number_behind(part, at, low, high);
    }
    if 8 < width {
        return None;
    }
    let end = at + width;
    if part.len() < end {
        return None;
    }
    Some(end)
}

// The place behind n pairs of elements.
fn pairs_behind(part: &[u8], at: usize, n: u64, key: Bounds, value: Bounds) -> Option<usize>
    requires { at ≤ length part.now }
    ensures { IfSome result (Paired key value part.now n at 0) }
{
    let mut here = at;
    for _ in 0..n {
        let next = one_behind(part, here, key.width, key.low, key.high)?;
        here = one_behind(part, next, value.width, value.low, value.high)?;
    }
    Some(here)
}

// The bounds of an element of so many bytes.
fn wide_bounds(width: usize) -> Bounds
    ensures { result.width ≡ width }
{
    Bounds {
        width,
        low: 0,
        high: 0,
    }
}

// The bounds of a number.
fn number_bounds(low: u64, high: u64) -> Bounds
    ensures { (result.width ≡ 0) × (result.low ≡ low) × (result.high ≡ high) }
{
    Bounds {
        width: 0,
        low,
        high,
    }
}

// The bounds of a string's number.
fn string_bounds(strings: u64) -> Bounds
    ensures { (pools a b : List ℕ) → Quick (item strings pools a b 14) result }
{
    if strings == 18446744073709551615 {
        return wide_bounds(9);
    }
    number_bounds(0, strings)
}

// The bounds of an object's number, where kind k names a type that has one range.
fn linked_bounds(k: u64, groups: &Groups<'_>) -> Bounds
    requires { 32 ≤ k }
    ensures { (strings : ℕ) (pools : List ℕ) → Quick (item_in strings pools groups.now.starts.now groups.now.first.now groups.now.last.now k) result }
{
    let own = ranges_of(groups, k);
    if own.first.len() == 1 {
        return number_bounds(u64::from(own.first[0]), u64::from(own.last[0]));
    }
    wide_bounds(9)
}

// The bounds of an element of kind k. Annotations and bools have no quick way.
fn bounds_of(k: u64, strings: u64, groups: &Groups<'_>) -> Bounds
    requires { element_kind? k ≡ true }
    ensures { (pools : List ℕ) → Quick (item_in strings pools groups.now.starts.now groups.now.first.now groups.now.last.now k) result }
{
    match k {
        5 | 6 => wide_bounds(9),
        7 => wide_bounds(1),
        8 => wide_bounds(2),
        9 | 12 => wide_bounds(4),
        10 | 13 => wide_bounds(8),
        11 => number_bounds(0, 18446744073709551615),
        14 => string_bounds(strings),
        _ => linked_bounds(k, groups),
    }
}

// The place behind an element of kind k.
fn element_behind(
    part: &[u8],
    at: usize,
    k: u64,
    strings: u64,
    groups: &Groups<'_>,
) -> Option<usize>
    requires { (element_kind? k ≡ true) × (at ≤ length part.now) }
    ensures { IfSome result (λ e. (pools : List ℕ) → Skips (item_in strings pools groups.now.starts.now groups.now.first.now groups.now.last.now k) part.now at e) }
{
    let b = bounds_of(k, strings, groups);
    one_behind(part, at, b.width, b.low, b.high)
}

// A map of the types whose kinds are given, two or more: a size, and then for each key the key and what it leads to.
#[cycle(key_and_rest_map)]
fn map(
    part: &[u8],
    c: Cursor,
    kinds: &[u64],
    strings: u64,
    pools: &[u32],
    groups: &Groups<'_>,
) -> Outcome<u64>
    requires in_bounds { (2 ≤ length kinds.now) × (all element_kind? kinds.now ≡ true) }
    requires at_in_bounds { c.at ≤ length part.now }
    ensures { Passed (map_in strings pools.now groups.now.starts.now groups.now.first.now groups.now.last.now kinds.now) part.now c.at result }
{
    let (n, begin) = c.small(part)?;
    // The last two types have most of the elements.
    if kinds.len() < 3 {
        let key = bounds_of(kinds[0], strings, groups);
        let value = bounds_of(kinds[1], strings, groups);
        if let Some(at) = pairs_behind(part, begin.at, n, key, value) {
            return Ok((0, Cursor { at }));
        }
    }
    let mut here = begin;
    for _ in 0..n {
        let (_, next) = key_and_rest(part, here, kinds, strings, pools, groups)?;
        here = next;
    }
    Ok((0, here))
}

// A key of the first kind, and what it leads to: a map of the other types or, if only one is left, an element of it.
#[cycle(key_and_rest_map)]
fn key_and_rest(
    part: &[u8],
    c: Cursor,
    kinds: &[u64],
    strings: u64,
    pools: &[u32],
    groups: &Groups<'_>,
) -> Outcome<u64>
    requires in_bounds { (2 ≤ length kinds.now) × (all element_kind? kinds.now ≡ true) }
    requires at_in_bounds { c.at ≤ length part.now }
    ensures { Passed (key_in strings pools.now groups.now.starts.now groups.now.first.now groups.now.last.now kinds.now) part.now c.at result }
{
    if 2 < kinds.len() {
        if let Some(at) = element_behind(part, c.at, kinds[0], strings, groups) {
            let rest = Cursor { at };
            return map(part, rest, &kinds[1..], strings, pools, groups);
        }
    }
    let (_, next) = element(part, c, kinds[0], strings, pools, groups)?;
    if kinds.len() == 2 {
        return element(part, next, kinds[1], strings, pools, groups);
    }
    map(part, next, &kinds[1..], strings, pools, groups)
}

// n maps, from the chunk's start on.
pub fn maps(
    part: &[u8],
    n: u32,
    kinds: &[u64],
    strings: u64,
    pools: &[u32],
    groups: &Groups<'_>,
) -> Outcome<u64>
    requires { (2 ≤ length kinds.now) × (all element_kind? kinds.now ≡ true) }
    ensures { MapsChecked n strings pools.now groups.now.starts.now groups.now.first.now groups.now.last.now kinds.now part.now result }
{
    let mut here = Cursor { at: 0 };
    for _ in 0..n {
        let (_, next) = map(part, here, kinds, strings, pools, groups)?;
        here = next;
    }
    Ok((0, here))
}
