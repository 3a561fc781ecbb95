// The data region of a listed pair: the lines of its values, chunk by chunk. The front of the pair must say where each chunk
// ends, so the table is told how many bytes each one has: by a pass that only counts them, and by one that lays them, where it
// is known how long the front will be.
#![tactic(auto)]

ghost use Rattle.std.specs.Prelude.{◌≡◌, true, ◌+◌, ◌<◌, ◌≤◌, min, length};
ghost use Rattle.paper.specs.Lists.{all};
ghost use Rattle.paper.specs.Rules.{element_kind?};
ghost use Rattle.paper.specs.Encode.{put_chunk};
ghost use Rattle.paper.specs.Scan.{chunk_text};
ghost use Rattle.lay.specs.Laid.{most};
ghost use Rattle.table.specs.View.{flds_of, log_of, dues_of, view, Ok, Holds, fields_in};
ghost use Rattle.table.specs.Answers.{due_in};
ghost use Rattle.values.specs.Chunks.{Kinds};
ghost use Rattle.lookups.specs.Low.{Bounded};
ghost use Rattle.lookups.specs.Named.{Noted};
ghost use Rattle.walk.specs.Listed.{Listed};
ghost use Rattle.walk.specs.Region.{sizes};
ghost use Rattle.walk.specs.Steps.{NotedKind};
ghost use Rattle.texts.specs.Told.{Told};
ghost use Rattle.regions.specs.Chunk.{KindTaken, RangedTaken, PoolsSay, MapsTold};
ghost use Rattle.regions.specs.Turns.{RegionReady, DueReady, DueTold, ChunkSized, RegionSized};
ghost use Rattle.regions.specs.Both.{DueLaid, LaidSized};

use lookups::named::pools_due;
use lookups::ranges::{gather, group, refers};
use paper::Ledger;
use table::pushes::size_due;
use table::rows::{DueRow, FieldRow, due_at, dues, field_at, strings};
use texts::maps::maps_text;
use texts::{Taken, chunk_text};
use values::guides::make_guide;
use values::maps::map_kinds;
use values::ranges::{Groups, Ranges};
use words::read::Place;

const MOST: u64 = u64::MAX;

// n values whose elements refer to objects of these ranges, which are looked for by a guide. A function of its own, so that the guide is
// cleared, and has room on the stack, only where it is made.
fn guided_bytes(
    text: &[u8],
    p: Place,
    n: u32,
    kind: FieldRow,
    strings: u64,
    ranges: &Ranges<'_>,
    out: &mut [u8],
    at: usize,
) -> Option<Taken>
    requires { Kinds kind.kind kind.a kind.e × (kind.kind ≡ 20 → ⊥) }
    ensures { RangedTaken n kind strings ranges.now.first.now ranges.now.last.now text.now p.at out.old at out.new result }
{
    let mut guide = [0u32; 65];
    make_guide(ranges.last, &mut guide);
    chunk_text(
        text,
        p,
        n,
        kind.kind as u64,
        kind.a,
        kind.e,
        strings,
        &guide,
        ranges,
        out,
        at,
    )
}

// The same, for any number of values and ranges. A guide is worth its making only where there are many values to one of several ranges.
fn ranged_bytes(
    text: &[u8],
    p: Place,
    n: u32,
    kind: FieldRow,
    strings: u64,
    ranges: &Ranges<'_>,
    out: &mut [u8],
    at: usize,
) -> Option<Taken>
    requires { Kinds kind.kind kind.a kind.e × (kind.kind ≡ 20 → ⊥) }
    ensures { RangedTaken n kind strings ranges.now.first.now ranges.now.last.now text.now p.at out.old at out.new result }
{
    if 64 < n && 1 < ranges.first.len() {
        return guided_bytes(text, p, n, kind, strings, ranges, out, at);
    }
    chunk_text(
        text,
        p,
        n,
        kind.kind as u64,
        kind.a,
        kind.e,
        strings,
        &[],
        ranges,
        out,
        at,
    )
}

// n values whose elements refer to objects: the ranges of their type, at most one in a block, are gathered once, and not asked for
// at each value.
fn linked_bytes(
    text: &[u8],
    p: Place,
    n: u32,
    kind: FieldRow,
    work: &[u32],
    out: &mut [u8],
    at: usize,
) -> Option<Taken>
    requires holds { Holds text.now work.now × Bounded (log_of work.now) }
    requires kinds { Kinds kind.kind kind.a kind.e × (kind.kind ≡ 20 → ⊥) × (32 ≤ kind.e) }
    ensures { KindTaken n kind work.now text.now p.at out.old at out.new result }
{
    let mut first = [0u32; Ledger::PAIRS as usize];
    let mut last = [0u32; Ledger::PAIRS as usize];
    let k = gather(work, kind.e - 32, &mut first, &mut last, 32);
    ranged_bytes(
        text,
        p,
        n,
        kind,
        strings(work) as u64,
        &Ranges {
            first: &first[k..],
            last: &last[k..],
        },
        out,
        at,
    )
}

// n constants: they have no elements, so what their row says of an element's kind is not asked for.
fn constant_bytes(
    text: &[u8],
    p: Place,
    n: u32,
    kind: FieldRow,
    work: &[u32],
    out: &mut [u8],
    at: usize,
) -> Option<Taken>
    requires { Holds text.now work.now × (kind.kind ≤ 4) }
    ensures { KindTaken n kind work.now text.now p.at out.old at out.new result }
{
    chunk_text(
        text,
        p,
        n,
        kind.kind as u64,
        kind.a,
        0,
        strings(work) as u64,
        &[],
        &Ranges {
            first: &[],
            last: &[],
        },
        out,
        at,
    )
}

// n maps of these kinds, whose annotations are held to the pools: the ranges of the types that they name, at most eight, are gathered
// once. A function of its own, so that the lists of ranges are cleared, and have room on the stack, only where there is one to gather.
fn grouped_bytes(
    text: &[u8],
    p: Place,
    n: u32,
    kinds: &[u64],
    pools: &[u32],
    work: &[u32],
    out: &mut [u8],
    at: usize,
) -> Option<Taken>
    requires holds { Holds text.now work.now × Bounded (log_of work.now) × PoolsSay kinds.now pools.now (view text.now work.now) }
    requires in_bounds { (1 ≤ length kinds.now) × (all element_kind? kinds.now ≡ true) × (length kinds.now ≤ 8) }
    ensures { MapsTold n kinds.now work.now text.now p.at out.old at out.new result }
{
    let mut starts = [0u32; Ledger::TYPES as usize + 1];
    let mut first = [0u32; 8 * Ledger::PAIRS as usize];
    let mut last = [0u32; 8 * Ledger::PAIRS as usize];
    group(work, kinds, &mut starts, &mut first, &mut last);
    maps_text(
        text,
        p,
        n,
        kinds,
        strings(work) as u64,
        pools,
        &Groups {
            starts: &starts,
            first: &first,
            last: &last,
        },
        out,
        at,
    )
}

// The same. Most maps refer to no object, and then nothing is gathered.
fn mapped_bytes(
    text: &[u8],
    p: Place,
    n: u32,
    kinds: &[u64],
    pools: &[u32],
    work: &[u32],
    out: &mut [u8],
    at: usize,
) -> Option<Taken>
    requires holds { Holds text.now work.now × Bounded (log_of work.now) × PoolsSay kinds.now pools.now (view text.now work.now) }
    requires in_bounds { (1 ≤ length kinds.now) × (all element_kind? kinds.now ≡ true) × (length kinds.now ≤ 8) }
    ensures { MapsTold n kinds.now work.now text.now p.at out.old at out.new result }
{
    if refers(kinds) {
        return grouped_bytes(text, p, n, kinds, pools, work, out, at);
    }
    maps_text(
        text,
        p,
        n,
        kinds,
        strings(work) as u64,
        pools,
        &Groups {
            starts: &[],
            first: &[],
            last: &[],
        },
        out,
        at,
    )
}

// n maps: their kinds stand in the row, a byte each.
fn map_bytes(
    text: &[u8],
    p: Place,
    n: u32,
    kind: FieldRow,
    pools: &[u32],
    work: &[u32],
    out: &mut [u8],
    at: usize,
) -> Option<Taken>
    requires holds { Holds text.now work.now × Bounded (log_of work.now) × NotedKind pools.now kind.kind kind.a kind.e (view text.now work.now) }
    requires kinds { Kinds kind.kind kind.a kind.e × (kind.kind ≡ 20) }
    ensures { KindTaken n kind work.now text.now p.at out.old at out.new result }
{
    let mut kinds = [0u64; 8];
    let k = map_kinds(kind.a, kind.e, &mut kinds);
    mapped_bytes(text, p, n, &kinds[..k], pools, work, out, at)
}

// n values of any kind, whose annotations are held to the pools.
fn kind_bytes(
    text: &[u8],
    p: Place,
    n: u32,
    kind: FieldRow,
    pools: &[u32],
    work: &[u32],
    out: &mut [u8],
    at: usize,
) -> Option<Taken>
    requires holds { Holds text.now work.now × Bounded (log_of work.now) × NotedKind pools.now kind.kind kind.a kind.e (view text.now work.now) }
    requires kinds { Kinds kind.kind kind.a kind.e }
    ensures { KindTaken n kind work.now text.now p.at out.old at out.new result }
{
    if kind.kind <= 4 {
        return constant_bytes(text, p, n, kind, work, out, at);
    }
    if kind.kind == 20 {
        return map_bytes(text, p, n, kind, pools, work, out, at);
    }
    if 32 <= kind.e {
        return linked_bytes(text, p, n, kind, work, out, at);
    }
    // No element asks for a range.
    chunk_text(
        text,
        p,
        n,
        kind.kind as u64,
        kind.a,
        kind.e,
        strings(work) as u64,
        pools,
        &Ranges {
            first: &[],
            last: &[],
        },
        out,
        at,
    )
}

// The lines of the chunk d, laid as its bytes.
fn chunk_bytes(
    text: &[u8],
    p: Place,
    d: DueRow,
    pools: &[u32],
    work: &[u32],
    out: &mut [u8],
    at: usize,
) -> Option<Taken>
    requires holds { Holds text.now work.now × Bounded (log_of work.now) × Noted pools.now (view text.now work.now) × Listed (flds_of work.now) }
    requires field_bound { d.field < fields_in work.now }
    ensures { Told (chunk_text (view text.now work.now) (due_in d).0) (put_chunk (view text.now work.now) (due_in d).0) text.now p.at out.old at out.new result }
{
    let kind = field_at(work, d.field);
    kind_bytes(text, p, d.values, kind, pools, work, out, at)
}

// The i-th chunk that is due, laid as its bytes.
fn due_bytes(
    text: &[u8],
    p: Place,
    i: u32,
    pools: &[u32],
    work: &[u32],
    out: &mut [u8],
    at: usize,
) -> Option<Taken>
    requires { DueReady text.now work.now pools.now i }
    ensures { DueTold text.now work.now i p.at out.old at out.new result }
{
    let d = due_at(work, i);
    chunk_bytes(text, p, d, pools, work, out, at)
}

// The size of the i-th chunk that is due: lent no room, its bytes are only counted.
fn size_chunk(text: &[u8], p: Place, i: u32, pools: &[u32], work: &mut [u32]) -> Option<Place>
    requires { DueReady text.now work.old pools.now i }
    ensures { ChunkSized text.now work.old p.at i result work.new }
{
    let k = due_bytes(text, p, i, pools, work, &mut [], 0)?;
    size_due(work, i, k.at as u64);
    Some(k.next)
}

// The chunks that are due, judged one after the other, where it is known what strings name.
fn size_each(text: &[u8], p: Place, pools: &[u32], work: &mut [u32]) -> Option<Place>
    requires { RegionReady text.now work.old × Noted pools.now (view text.now work.old) }
    ensures { RegionSized text.now work.old p.at result work.new }
{
    let mut here = p;
    for i in 0..dues(work) {
        here = size_chunk(text, here, i, pools, work)?;
    }
    Some(here)
}

// The lines of all chunks that are due, judged: the place behind them, and each chunk's size in the table. What strings name is
// looked up once for all.
pub fn size_chunks(text: &[u8], p: Place, work: &mut [u32]) -> Option<Place>
    requires { RegionReady text.now work.old }
    ensures { RegionSized text.now work.old p.at result work.new }
{
    let mut list = [0u32; Ledger::STRINGS as usize];
    let k = pools_due(text, work, &mut list);
    size_each(text, p, &list[..k], work)
}

// A sum that stands still at the largest number.
pub fn add_up(a: u64, b: u64) -> u64
    ensures { result ≡ min (a + b) most }
{
    a.saturating_add(b)
}

// How many bytes all chunks that are due have.
pub fn region_size(work: &[u32]) -> u64
    requires { Ok work.now }
    ensures { result ≡ min (sizes (dues_of work.now)) most }
{
    let mut sum = 0;
    for i in 0..dues(work) {
        sum = add_up(sum, due_at(work, i).size);
    }
    sum
}

// The i-th chunk that is due, laid as its bytes, and its size. It gives up at the largest number: a count that stands still
// says no size.
fn lay_due(
    text: &[u8],
    here: Taken,
    i: u32,
    pools: &[u32],
    work: &mut [u32],
    out: &mut [u8],
) -> Option<Taken>
    requires { DueReady text.now work.old pools.now i }
    ensures { DueLaid text.now work.old here.next.at i out.old here.at out.new result work.new }
{
    let k = due_bytes(text, here.next, i, pools, work, out, here.at)?;
    if MOST <= k.at as u64 {
        return None;
    }
    let size = k.at - here.at;
    size_due(work, i, size as u64);
    Some(k)
}

// The chunks that are due, laid one after the other, where it is known what strings name.
fn lay_each(
    text: &[u8],
    p: Place,
    pools: &[u32],
    work: &mut [u32],
    out: &mut [u8],
    at: usize,
) -> Option<Taken>
    requires { RegionReady text.now work.old × Noted pools.now (view text.now work.old) }
    ensures { LaidSized text.now work.old p.at out.old at out.new result work.new }
{
    let mut here = Taken { next: p, at };
    for i in 0..dues(work) {
        here = lay_due(text, here, i, pools, work, out)?;
    }
    Some(here)
}

// The lines of all chunks that are due, laid as their bytes, and each chunk's size in the table. What strings name is looked up
// once for all.
pub fn lay_sized(
    text: &[u8],
    p: Place,
    work: &mut [u32],
    out: &mut [u8],
    at: usize,
) -> Option<Taken>
    requires { RegionReady text.now work.old }
    ensures { LaidSized text.now work.old p.at out.old at out.new result work.new }
{
    let mut list = [0u32; Ledger::STRINGS as usize];
    let k = pools_due(text, work, &mut list);
    lay_each(text, p, &list[..k], work, out, at)
}
