// Lines of maps: a map is counted keys, each followed by what it leads to, which is a map of the other types or, at the last, an
// element. Each of its words stands behind a tab.
ghost use Rattle.std.specs.Prelude.{◌≡◌, true, ◌≤◌, length};
ghost use Rattle.paper.specs.Lists.{all};
ghost use Rattle.paper.specs.Rules.{element_kind?};
ghost use Rattle.laws.specs.Put.{put_element};
ghost use Rattle.words.specs.Answers.{out_number};
ghost use Rattle.texts.specs.Told.{Told};
ghost use Rattle.texts.specs.Maps.{size_word, put_map, put_key};
ghost use Rattle.texts.specs.MapWays.{word_in, map_in, key_in, line_in};
ghost use Rattle.texts.specs.MapLines.{MapsTaken};

use crate::{NEWLINE, TAB, Taken, each, next_element};
use numbers::write::put_v64;
use paper::Ledger;
use values::maps::ranges_of;
use values::ranges::Groups;
use words::read::{Place, Scanned};

// An element of kind k in a map.
fn word_text(
    t: &[u8],
    p: Place,
    k: u64,
    strings: u64,
    pools: &[u32],
    groups: &Groups<'_>,
    out: &mut [u8],
    at: usize,
) -> Option<Taken>
    requires { element_kind? k ≡ true }
    ensures { Told (word_in strings pools.now groups.now.starts.now groups.now.first.now groups.now.last.now k) (put_element k) t.now p.at out.old at out.new result }
{
    next_element(t, p, k, strings, pools, &ranges_of(groups, k), out, at)
}

// A size: a number that a file can have there.
fn size_text(t: &[u8], p: Place) -> Scanned<u64>
    ensures { out_number result ≡ size_word t.now p.at }
{
    let word = p.byte(t, TAB)?;
    let (n, next) = word.natural(t)?;
    if !Ledger::is_small(n) {
        return None;
    }
    Some((n, next))
}

// A map of the types whose kinds are given. Of one type it is an element; of more it is a size, and then for each key the key
// and what it leads to. Nothing is reserved by a size: each key has to stand there.
#[cycle(key_and_rest_text_map_text)]
fn map_text(
    t: &[u8],
    p: Place,
    kinds: &[u64],
    strings: u64,
    pools: &[u32],
    groups: &Groups<'_>,
    out: &mut [u8],
    at: usize,
) -> Option<Taken>
    requires { (1 ≤ length kinds.now) × (all element_kind? kinds.now ≡ true) }
    ensures { Told (map_in strings pools.now groups.now.starts.now groups.now.first.now groups.now.last.now kinds.now) (put_map kinds.now) t.now p.at out.old at out.new result }
{
    if kinds.len() == 1 {
        return word_text(t, p, kinds[0], strings, pools, groups, out, at);
    }
    let (n, begin) = size_text(t, p)?;
    let behind = put_v64(out, at, n);
    let mut here = Taken {
        next: begin,
        at: behind,
    };
    // `each` would take a closure that is one of the cycle, and would have to give the measure of its calls as clauses of its own.
    for _ in 0..n {
        here = key_and_rest_text(t, here.next, kinds, strings, pools, groups, out, here.at)?;
    }
    Some(here)
}

// A key of the first kind, and what it leads to: a map of the other types.
#[cycle(key_and_rest_text_map_text)]
fn key_and_rest_text(
    t: &[u8],
    p: Place,
    kinds: &[u64],
    strings: u64,
    pools: &[u32],
    groups: &Groups<'_>,
    out: &mut [u8],
    at: usize,
) -> Option<Taken>
    requires { (2 ≤ length kinds.now) × (all element_kind? kinds.now ≡ true) }
    ensures { Told (key_in strings pools.now groups.now.starts.now groups.now.first.now groups.now.last.now kinds.now) (put_key kinds.now) t.now p.at out.old at out.new result }
{
    let k = word_text(t, p, kinds[0], strings, pools, groups, out, at)?;
    map_text(t, k.next, &kinds[1..], strings, pools, groups, out, k.at)
}

// The line of a map.
fn line_text(
    t: &[u8],
    p: Place,
    kinds: &[u64],
    strings: u64,
    pools: &[u32],
    groups: &Groups<'_>,
    out: &mut [u8],
    at: usize,
) -> Option<Taken>
    requires { (1 ≤ length kinds.now) × (all element_kind? kinds.now ≡ true) }
    ensures { Told (line_in strings pools.now groups.now.starts.now groups.now.first.now groups.now.last.now kinds.now) (put_map kinds.now) t.now p.at out.old at out.new result }
{
    let words = p.literal(t, b"val")?;
    let k = map_text(t, words, kinds, strings, pools, groups, out, at)?;
    let next = k.next.byte(t, NEWLINE)?;
    Some(Taken { next, at: k.at })
}

// The lines of n maps, laid as the bytes of a chunk.
pub fn maps_text(
    t: &[u8],
    p: Place,
    n: u32,
    kinds: &[u64],
    strings: u64,
    pools: &[u32],
    groups: &Groups<'_>,
    out: &mut [u8],
    at: usize,
) -> Option<Taken>
    requires { (1 ≤ length kinds.now) × (all element_kind? kinds.now ≡ true) }
    ensures { MapsTaken n strings pools.now groups.now.starts.now groups.now.first.now groups.now.last.now kinds.now t.now p.at out.old at out.new result }
{
    each(n as u64, Taken { next: p, at }, out, |here, out| {
        line_text(t, here.next, kinds, strings, pools, groups, out, here.at)
    })
}
