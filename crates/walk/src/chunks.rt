// A chunk of the data region: the part of the file that it is handed on as, what its values are held to, and its answer.
ghost use Rattle.std.specs.Prelude.{◌≡◌, true, List, ℕ, ◌+◌, ◌<◌, ◌≤◌, length};
ghost use Rattle.paper.specs.Lists.{all};
ghost use Rattle.paper.specs.Rules.{element_kind?};
ghost use Rattle.paper.specs.File.{chunk};
ghost use Rattle.paper.specs.Reader.{filled, repeat};
ghost use Rattle.table.specs.View.{flds_of, log_of, view, Ok, Holds, fields_in};
ghost use Rattle.table.specs.Answers.{due_in};
ghost use Rattle.numbers.specs.Cursors.{out_of, place_of};
ghost use Rattle.values.specs.Pass.{forget, Passed};
ghost use Rattle.values.specs.Items.{linked, some_object};
ghost use Rattle.values.specs.Chunks.{Kinds};
ghost use Rattle.lookups.specs.Low.{Bounded};
ghost use Rattle.lookups.specs.Objects.{firsts, lasts};
ghost use Rattle.walk.specs.Listed.{Listed};
ghost use Rattle.lookups.specs.Named.{Noted};
ghost use Rattle.walk.specs.Steps.{step_of, Valued, Ranged, NotedKind, MapsValued};

use lookups::objects::is_object;
use lookups::ranges::{gather, group, refers};
use numbers::{Cursor, Fault, Outcome, Refusal, Step};
use paper::Ledger;
use table::rows::{DueRow, FieldRow, field_at, strings};
use values::chunks::chunk_values;
use values::guides::make_guide;
use values::maps::{map_kinds, maps};
use values::ranges::{Groups, Ranges};

// n values whose elements refer to objects of these ranges, which are looked for by a guide.
fn guided_values(
    part: &[u8],
    n: u32,
    kind: FieldRow,
    strings: u64,
    ranges: &Ranges<'_>,
) -> Outcome<u64>
    requires { Kinds kind.kind kind.a kind.e × (4 < kind.kind) × (kind.kind ≡ 20 → ⊥) }
    ensures { Ranged n kind.kind kind.a kind.e strings ranges.now.first.now ranges.now.last.now part.now result }
{
    let mut guide = [0u32; 65];
    make_guide(ranges.last, &mut guide);
    chunk_values(
        part,
        n,
        kind.kind as u64,
        kind.a,
        kind.e,
        strings,
        &guide,
        ranges,
    )
}

// The same, for any number of values and ranges. A guide is worth its making only where there are many values to one of several ranges.
fn ranged_values(
    part: &[u8],
    n: u32,
    kind: FieldRow,
    strings: u64,
    ranges: &Ranges<'_>,
) -> Outcome<u64>
    requires { Kinds kind.kind kind.a kind.e × (4 < kind.kind) × (kind.kind ≡ 20 → ⊥) }
    ensures { Ranged n kind.kind kind.a kind.e strings ranges.now.first.now ranges.now.last.now part.now result }
{
    if 64 < n {
        if 1 < ranges.first.len() {
            return guided_values(part, n, kind, strings, ranges);
        }
    }
    chunk_values(
        part,
        n,
        kind.kind as u64,
        kind.a,
        kind.e,
        strings,
        &[],
        ranges,
    )
}

// The number of an object of type t, or 0.
fn object_value(part: &[u8], c: Cursor, t: u32, work: &[u32]) -> Outcome<u64>
    requires { Ok work.now × (t < 32) }
    ensures { Passed (linked (some_object (firsts t (log_of work.now)) (lasts t (log_of work.now)))) part.now c.at result }
{
    let (n, next) = c.v64(part)?;
    if n == 0 {
        return Ok((n, next));
    }
    if is_object(work, t, n) {
        return Ok((n, next));
    }
    Err(Refusal {
        fault: Fault::Reference,
        place: c.at,
    })
}

// n numbers of objects of type t, each asked for by itself.
fn object_values(part: &[u8], n: u32, t: u32, work: &[u32]) -> Outcome<u64>
    requires { Ok work.now × (t < 32) }
    ensures { Passed (repeat n (linked (some_object (firsts t (log_of work.now)) (lasts t (log_of work.now))))) part.now 0 result }
{
    let mut here = Cursor { at: 0 };
    for _ in 0..n {
        let (_, next) = object_value(part, here, t, work)?;
        here = next;
    }
    Ok((0, here))
}

// n values whose elements refer to objects: the ranges of their type, at most one in a block, are gathered once, and not asked for
// at each value.
fn gathered_values(part: &[u8], n: u32, kind: FieldRow, work: &[u32]) -> Outcome<u64>
    requires ok { Ok work.now × Bounded (log_of work.now) }
    requires kinds { Kinds kind.kind kind.a kind.e × (4 < kind.kind) × (kind.kind ≡ 20 → ⊥) × (32 ≤ kind.e) }
    ensures { (file : List ℕ) → Holds file work.now → Valued n kind.kind kind.a kind.e (view file work.now) part.now result }
{
    let mut first = [0u32; Ledger::PAIRS as usize];
    let mut last = [0u32; Ledger::PAIRS as usize];
    let k = gather(work, kind.e - 32, &mut first, &mut last, 32);
    let ranges = Ranges {
        first: &first[k..],
        last: &last[k..],
    };
    ranged_values(part, n, kind, strings(work) as u64, &ranges)
}

// The same, for any number of values. One reference is no reason to gather ranges; of several each could cost a walk of its own.
fn linked_values(part: &[u8], n: u32, kind: FieldRow, work: &[u32]) -> Outcome<u64>
    requires ok { Ok work.now × Bounded (log_of work.now) }
    requires kinds { Kinds kind.kind kind.a kind.e × (4 < kind.kind) × (kind.kind ≡ 20 → ⊥) × (32 ≤ kind.e) }
    ensures { (file : List ℕ) → Holds file work.now → Valued n kind.kind kind.a kind.e (view file work.now) part.now result }
{
    if n <= 1 {
        if 32 <= kind.kind {
            if kind.e < 64 {
                let t = kind.e - 32;
                return object_values(part, n, t as u32, work);
            }
        }
    }
    gathered_values(part, n, kind, work)
}

// n maps of these kinds, whose annotations are held to the pools: the ranges of the types that they name, at most eight, are gathered
// once.
fn grouped_values(part: &[u8], n: u32, kinds: &[u64], pools: &[u32], work: &[u32]) -> Outcome<u64>
    requires ok { Ok work.now × Bounded (log_of work.now) }
    requires in_bounds { (2 ≤ length kinds.now) × (all element_kind? kinds.now ≡ true) × (length kinds.now ≤ 8) }
    ensures { MapsValued n kinds.now pools.now work.now part.now result }
{
    let mut starts = [0u32; Ledger::TYPES as usize + 1];
    let mut first = [0u32; 8 * Ledger::PAIRS as usize];
    let mut last = [0u32; 8 * Ledger::PAIRS as usize];
    group(work, kinds, &mut starts, &mut first, &mut last);
    maps(
        part,
        n,
        kinds,
        strings(work) as u64,
        pools,
        &Groups {
            starts: &starts,
            first: &first,
            last: &last,
        },
    )
}

// The same. Most maps refer to no object, and then nothing is gathered.
fn mapped_values(part: &[u8], n: u32, kinds: &[u64], pools: &[u32], work: &[u32]) -> Outcome<u64>
    requires ok { Ok work.now × Bounded (log_of work.now) }
    requires in_bounds { (2 ≤ length kinds.now) × (all element_kind? kinds.now ≡ true) × (length kinds.now ≤ 8) }
    ensures { MapsValued n kinds.now pools.now work.now part.now result }
{
    if refers(kinds) {
        return grouped_values(part, n, kinds, pools, work);
    }
    maps(
        part,
        n,
        kinds,
        strings(work) as u64,
        pools,
        &Groups {
            starts: &[],
            first: &[],
            last: &[],
        },
    )
}

// n maps: their kinds stand in the row, a byte each.
fn map_values(part: &[u8], n: u32, kind: FieldRow, pools: &[u32], work: &[u32]) -> Outcome<u64>
    requires ok { Ok work.now × Bounded (log_of work.now) }
    requires kinds { Kinds kind.kind kind.a kind.e × (kind.kind ≡ 20) }
    ensures { (file : List ℕ) → Holds file work.now → NotedKind pools.now kind.kind kind.a kind.e (view file work.now) → Valued n kind.kind kind.a kind.e (view file work.now) part.now result }
{
    let mut kinds = [0u64; 8];
    let k = map_kinds(kind.a, kind.e, &mut kinds);
    mapped_values(part, n, &kinds[..k], pools, work)
}

// n values of any kind: the pools say which annotations keep the rule.
fn values_of(part: &[u8], n: u32, kind: FieldRow, pools: &[u32], work: &[u32]) -> Outcome<u64>
    requires ok { Ok work.now × Bounded (log_of work.now) }
    requires kinds { Kinds kind.kind kind.a kind.e }
    ensures { (file : List ℕ) → Holds file work.now → NotedKind pools.now kind.kind kind.a kind.e (view file work.now) → Valued n kind.kind kind.a kind.e (view file work.now) part.now result }
{
    // A constant has no bytes here.
    if kind.kind <= 4 {
        return Ok((0, Cursor { at: 0 }));
    }
    if kind.kind == 20 {
        return map_values(part, n, kind, pools, work);
    }
    if 32 <= kind.e {
        return linked_values(part, n, kind, work);
    }
    // No element asks for a range.
    chunk_values(
        part,
        n,
        kind.kind as u64,
        kind.a,
        kind.e,
        strings(work) as u64,
        pools,
        &Ranges {
            first: &[],
            last: &[],
        },
    )
}

// The answer of the file, from that of the part of so many bytes from `at` on: it must be used up, no more and no less.
fn fill(a: Outcome<u64>, at: usize, size: usize) -> Step
    requires { (place_of a ≤ size) × (at + size < 18446744073709551616) }
    ensures { step_of result ≡ filled at size (forget (out_of a)) }
{
    match a {
        Ok((_, c)) => {
            let behind = at + c.at;
            if c.at == size {
                return Ok(Cursor { at: behind });
            }
            Err(Refusal {
                fault: Fault::Chunk,
                place: behind,
            })
        }
        Err(e) => {
            let place = at + e.place;
            let fault = match e.fault {
                Fault::Short => Fault::Chunk,
                other => other,
            };
            Err(Refusal { fault, place })
        }
    }
}

// The chunk d, from `at` on: its values are read from a part of the file that has nothing else.
pub fn chunk(file: &[u8], at: usize, d: DueRow, work: &[u32], pools: &[u32]) -> Step
    requires holds { Holds file.now work.now × Bounded (log_of work.now) × Noted pools.now (view file.now work.now) × Listed (flds_of work.now) }
    requires field_bound { (d.field < fields_in work.now) × (at + d.size ≤ length file.now) }
    ensures { step_of result ≡ forget (chunk (view file.now work.now) (due_in d) file.now at) }
{
    let kind = field_at(work, d.field);
    let size = d.size as usize;
    let end = at + size;
    let a = values_of(&file[at..end], d.values, kind, pools, work);
    fill(a, at, size)
}
