// The values of a chunk from the lines of a listing: read, held to the rules, and laid as the bytes of a file, all in one pass.
// Lent an empty output, the same code judges and counts.
#![tactic(auto)]

pub mod elements;
pub mod maps;

ghost use Rattle.std.specs.Prelude.{◌≡◌, true, ◌/◌, ◌<◌, length};
ghost use Rattle.paper.specs.Reader.{repeat};
ghost use Rattle.paper.specs.Lists.{flat};
ghost use Rattle.paper.specs.Rules.{element_kind?};
ghost use Rattle.paper.specs.Listing.{newline};
ghost use Rattle.laws.specs.Put.{put_element};
ghost use Rattle.paper.specs.Scan.{ended};
ghost use Rattle.values.specs.Chunks.{Kinds};
ghost use Rattle.texts.specs.Elements.{kept, noted};
ghost use Rattle.texts.specs.Quiet.{words_of, tabs_from};
ghost use Rattle.texts.specs.Exact.{behind_tab, exactly, listed};
ghost use Rattle.texts.specs.Told.{Told, Repeats};
ghost use Rattle.texts.specs.Chunks.{put_list, ChunkTaken};

use elements::{element_text, put_bits};
use numbers::write::put_v64;
use paper::Ledger;
use values::annotations::placed;
use values::ranges::Ranges;
use words::read::{Place, Scanned, peek};

const TAB: u64 = 9;

const NEWLINE: u64 = 10;

// Behind the text that was read, and behind the bytes that were laid.
#[derive(Clone, Copy)]
pub struct Taken {
    pub next: Place,
    pub at: usize,
}

// An annotation: the number of a base type's name, and behind a tab that of an object of this type.
fn annotation_text(t: &[u8], p: Place, pools: &[u32], out: &mut [u8], at: usize) -> Option<Taken>
    ensures { Told (noted pools.now) (put_element 5) t.now p.at out.old at out.new result }
{
    let (m, object) = p.natural_ended(t, TAB)?;
    let (n, next) = object.natural(t)?;
    if !placed(pools, m, n) {
        return None;
    }
    let behind = put_v64(out, at, m);
    let end = put_v64(out, behind, n);
    Some(Taken { next, at: end })
}

// A tab and the element of kind e behind it. Where it refers to an object, a guide to the ranges may stand where the pools would.
pub fn next_element(
    t: &[u8],
    p: Place,
    e: u64,
    strings: u64,
    pools: &[u32],
    ranges: &Ranges<'_>,
    out: &mut [u8],
    at: usize,
) -> Option<Taken>
    requires { element_kind? e ≡ true }
    ensures { Told (behind_tab (kept strings pools.now ranges.now.first.now ranges.now.last.now e) e) (put_element e) t.now p.at out.old at out.new result }
{
    let word = p.byte(t, TAB)?;
    if e == 5 {
        return annotation_text(t, word, pools, out, at);
    }
    let (n, next) = element_text(t, word, e, strings, pools, ranges)?;
    let end = put_bits(out, at, e, n);
    Some(Taken { next, at: end })
}

// n times what `one` takes, each behind the one before.
fn each<F: Fn(Taken, &mut [u8]) -> Option<Taken>>(
    n: u64,
    from: Taken,
    out: &mut [u8],
    one: F,
) -> Option<Taken>
    requires { 0 < n → F.IsAlwaysCallable one }
    ensures { Repeats (F.post one) n from out.old result out.new }
{
    let mut here = from;
    for _ in 0..n {
        here = one(here, out)?;
    }
    Some(here)
}

// m such elements. Where there are none, e need not be the kind of an element: a constant has no other.
fn next_elements(
    t: &[u8],
    p: Place,
    m: u64,
    e: u64,
    strings: u64,
    pools: &[u32],
    ranges: &Ranges<'_>,
    out: &mut [u8],
    at: usize,
) -> Option<Taken>
    requires { 0 < m → element_kind? e ≡ true }
    ensures { Told (repeat m (behind_tab (kept strings pools.now ranges.now.first.now ranges.now.last.now e) e)) (flat (put_element e)) t.now p.at out.old at out.new result }
{
    each(m, Taken { next: p, at }, out, |here, out| {
        next_element(t, here.next, e, strings, pools, ranges, out, here.at)
    })
}

// What stands behind the word of a value with m elements: these, and the end of the line.
fn rest_of_line(
    t: &[u8],
    p: Place,
    m: u64,
    e: u64,
    strings: u64,
    pools: &[u32],
    ranges: &Ranges<'_>,
    out: &mut [u8],
    at: usize,
) -> Option<Taken>
    requires { 0 < m → element_kind? e ≡ true }
    ensures { Told (ended newline (repeat m (behind_tab (kept strings pools.now ranges.now.first.now ranges.now.last.now e) e))) (flat (put_element e)) t.now p.at out.old at out.new result }
{
    let k = next_elements(t, p, m, e, strings, pools, ranges, out, at)?;
    let next = k.next.byte(t, NEWLINE)?;
    Some(Taken { next, at: k.at })
}

// The line of a value with m elements.
fn value_text(
    t: &[u8],
    p: Place,
    m: u64,
    e: u64,
    strings: u64,
    pools: &[u32],
    ranges: &Ranges<'_>,
    out: &mut [u8],
    at: usize,
) -> Option<Taken>
    requires { 0 < m → element_kind? e ≡ true }
    ensures { Told (exactly m (kept strings pools.now ranges.now.first.now ranges.now.last.now e) e) (flat (put_element e)) t.now p.at out.old at out.new result }
{
    let elements = p.literal(t, b"val")?;
    rest_of_line(t, elements, m, e, strings, pools, ranges, out, at)
}

// How many tabs are to come in the line: a list's length stands before its elements.
fn tabs_left(t: &[u8], p: Place) -> u64
    ensures { result ≡ tabs_from t.now p.at }
{
    let mut n: u64 = 0;
    for at in p.at..t.len() {
        let b = peek(t, at);
        if b == NEWLINE {
            return n;
        }
        if b == TAB {
            n += 1;
        }
    }
    n
}

// So many tabs stand before so many elements of kind e: an annotation has two words. One tab more leaves a word that no element
// takes, so the line does not end there.
fn elements_in(tabs: u64, e: u64) -> u64
    ensures { result ≡ tabs / words_of e }
{
    if e == 5 {
        return tabs / 2;
    }
    tabs
}

// The line of an array that gives its own length.
fn list_text(
    t: &[u8],
    p: Place,
    e: u64,
    strings: u64,
    pools: &[u32],
    ranges: &Ranges<'_>,
    out: &mut [u8],
    at: usize,
) -> Option<Taken>
    requires { element_kind? e ≡ true }
    ensures { Told (listed (kept strings pools.now ranges.now.first.now ranges.now.last.now e) e) (put_list e) t.now p.at out.old at out.new result }
{
    let elements = p.literal(t, b"val")?;
    let m = elements_in(tabs_left(t, elements), e);
    if !Ledger::is_small(m) {
        return None;
    }
    let behind = put_v64(out, at, m);
    rest_of_line(t, elements, m, e, strings, pools, ranges, out, behind)
}

// The lines of n values with m elements each.
fn values_text(
    t: &[u8],
    p: Place,
    n: u32,
    m: u64,
    e: u64,
    strings: u64,
    pools: &[u32],
    ranges: &Ranges<'_>,
    out: &mut [u8],
    at: usize,
) -> Option<Taken>
    requires { 0 < m → element_kind? e ≡ true }
    ensures { Told (repeat n (exactly m (kept strings pools.now ranges.now.first.now ranges.now.last.now e) e)) (flat (flat (put_element e))) t.now p.at out.old at out.new result }
{
    each(n as u64, Taken { next: p, at }, out, |here, out| {
        value_text(t, here.next, m, e, strings, pools, ranges, out, here.at)
    })
}

// The lines of n arrays that give their own lengths.
fn lists_text(
    t: &[u8],
    p: Place,
    n: u32,
    e: u64,
    strings: u64,
    pools: &[u32],
    ranges: &Ranges<'_>,
    out: &mut [u8],
    at: usize,
) -> Option<Taken>
    requires { element_kind? e ≡ true }
    ensures { Told (repeat n (listed (kept strings pools.now ranges.now.first.now ranges.now.last.now e) e)) (flat (put_list e)) t.now p.at out.old at out.new result }
{
    each(n as u64, Taken { next: p, at }, out, |here, out| {
        list_text(t, here.next, e, strings, pools, ranges, out, here.at)
    })
}

// The lines of a chunk's n values, whose kind has the first number k, a constant's bits or an array's length a, and the last
// number e, laid as the bytes of the chunk. Of strings there are so many, of the base type that string s names there are
// pools[s - 1] objects. Only annotations ask for pools, and only references for ranges. Maps have a way of their own.
pub fn chunk_text(
    t: &[u8],
    p: Place,
    n: u32,
    k: u64,
    a: u64,
    e: u64,
    strings: u64,
    pools: &[u32],
    ranges: &Ranges<'_>,
    out: &mut [u8],
    at: usize,
) -> Option<Taken>
    requires { Kinds k a e × (k ≡ 20 → ⊥) }
    ensures { ChunkTaken n k a e strings pools.now ranges.now.first.now ranges.now.last.now t.now p.at out.old at out.new result }
{
    match k {
        // A constant has no elements in its chunk.
        0..=4 => values_text(t, p, n, 0, e, strings, pools, ranges, out, at),
        15 => values_text(t, p, n, a, e, strings, pools, ranges, out, at),
        17..=19 => lists_text(t, p, n, e, strings, pools, ranges, out, at),
        _ => values_text(t, p, n, 1, e, strings, pools, ranges, out, at),
    }
}
