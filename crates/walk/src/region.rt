// The data region of a pair: the chunks that are due, one after the other. Each is checked, and its place put down.
ghost use Rattle.std.specs.Prelude.{◌≡◌};
ghost use Rattle.paper.specs.Lists.{all};
ghost use Rattle.paper.specs.Numbers.{put_fixed};
ghost use Rattle.table.specs.View.{view, Ok};
ghost use Rattle.reader.specs.Kinds.{named?};
ghost use Rattle.walk.specs.Stand.{Standing, AllStand};
ghost use Rattle.lookups.specs.Named.{Noted};
ghost use Rattle.walk.specs.RegionTurns.{DueAt, TurnDone, RegionReady, RegionChecked};

use crate::chunks::chunk;
use lookups::named::pools_due;
use numbers::{Cursor, Step};
use paper::Ledger;
use reader::kinds::{Named, is_named};
use table::pushes::push_chunk;
use table::rows::{FieldRow, due_at, dues, field_at, fields, types};

// The i-th chunk that is due, at `at`.
fn next_chunk(file: &[u8], at: usize, i: u32, work: &mut [u32], pools: &[u32]) -> Step
    requires { DueAt file.now work.old pools.now at i }
    ensures { TurnDone file.now work.old at i result work.new }
{
    let d = due_at(work, i);
    let c = chunk(file, at, d, work, pools)?;
    push_chunk(work, d.field, at as u32, c.at as u32);
    Ok(c)
}

// All of them, from `at` on: the cursor behind the region, or the first refusal. The pools say which annotations keep the rule.
fn chunks(file: &[u8], at: usize, work: &mut [u32], pools: &[u32]) -> Step
    requires { RegionReady file.now work.old at × Noted pools.now (view file.now work.old) }
    ensures { RegionChecked file.now work.old at result work.new }
{
    let mut c = Cursor { at };
    for i in 0..dues(work) {
        c = next_chunk(file, c.at, i, work, pools)?;
    }
    Ok(c)
}

// The region. What the strings name is looked up once for all its chunks.
pub fn region(file: &[u8], at: usize, work: &mut [u32]) -> Step
    requires { RegionReady file.now work.old at }
    ensures { RegionChecked file.now work.old at result work.new }
{
    let mut list = [0u32; Ledger::STRINGS as usize];
    let k = pools_due(file, work, &mut list);
    chunks(file, at, work, &list[..k])
}

// Whether each of a map's element kinds, which a row has in one number, a byte each, names no type or one that is declared. They
// are asked from the last to the first, which is what is left of the number.
fn all_named(named: Named, count: u64, packed: u64) -> bool
    ensures { result ≡ all (named? named) (put_fixed count packed) }
{
    if count == 0 {
        return true;
    }
    let mut rest = packed;
    for _ in 1..count {
        if !is_named(named, rest % 256) {
            return false;
        }
        rest /= 256;
    }
    is_named(named, rest)
}

// Whether a field's kind stands where so many types are declared.
fn stands(kind: FieldRow, declared: u64) -> bool
    ensures { Standing declared kind result }
{
    // A constant has no element kind.
    if kind.kind <= 4 {
        return true;
    }
    let named = Named {
        strict: true,
        types: declared,
    };
    if kind.kind == 20 {
        return all_named(named, kind.a, kind.e);
    }
    is_named(named, kind.e)
}

// Whether the kind of each field from a place on stands.
pub fn kinds_stand(work: &[u32], from: u32) -> bool
    requires { Ok work.now }
    ensures { AllStand work.now from result }
{
    let declared = types(work) as u64;
    for i in from..fields(work) {
        let kind = field_at(work, i);
        if !stands(kind, declared) {
            return false;
        }
    }
    true
}
