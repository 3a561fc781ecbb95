// Values of a column: what a plain kind's bytes say, and the number that a column stores of it.
ghost use Rattle.std.specs.Prelude.{◌≡◌, ℕ, ◌+◌, ◌*◌, ◌<◌, ◌≤◌, true, length, replicate};
ghost use Rattle.paper.specs.Rules.{single_kind?};
ghost use Rattle.paper.specs.Calls.{stored, over_front};
ghost use Rattle.numbers.specs.Cursors.{Read};
ghost use Rattle.values.specs.Bare.{bare, bound_of, made, whole_made};
ghost use Rattle.values.specs.Columns.{element_of, Storable, ValueRead};
ghost use Rattle.values.specs.Filling.{Filled};
ghost use Rattle.values.specs.Rows.{Wide, On, IsV64, IsLink};

use crate::runs::number_up_to;
use numbers::{Cursor, Outcome, sign};

// A value of a plain kind.
#[derive(Clone, Copy)]
pub enum Value {
    Flag(bool),
    Whole(i64),
    // The width in bytes, and the bits.
    Float(u64, u64),
    // The number of a string or of an object, or 0.
    Object(u64),
}

// The number that a column stores of a value.
pub fn store(v: Value) -> i64
    requires { Storable v }
    ensures { result ≡ stored (element_of v) }
{
    match v {
        Value::Flag(b) => { if b { 1 } else { 0 } }
        Value::Whole(z) => z,
        Value::Float(width, bits) => {
            if width == 8 {
                sign::f64_stored(bits)
            } else {
                sign::f32_stored(bits)
            }
        }
        Value::Object(n) => n as i64,
    }
}

// The number that stands for a value of kind k. A file has fewer strings and objects than 2^63, so a column can store theirs.
fn number_of(part: &[u8], c: Cursor, k: u64) -> Outcome<u64>
    requires { single_kind? k ≡ true }
    ensures { Read (bare k) (bound_of k) part.now c.at result }
{
    match k {
        6..=7 => c.be::<1>(part),
        8 => c.be::<2>(part),
        9 | 12 => c.be::<4>(part),
        10 | 13 => c.be::<8>(part),
        11 => c.v64(part),
        _ => number_up_to(part, c, 9223372036854775807),
    }
}

// The signed number of kind k, 7 to 11, that n stands for.
fn whole(n: u64, k: u64) -> i64
    requires { (6 < k) × (k < 12) × (n < bound_of k) }
    ensures { result ≡ whole_made k n }
{
    match k {
        7 => sign::signed::<1>(n),
        8 => sign::signed::<2>(n),
        9 => sign::signed::<4>(n),
        _ => sign::signed::<8>(n),
    }
}

// The value of kind k that n stands for.
pub fn value_of(n: u64, k: u64) -> Value
    requires { (single_kind? k ≡ true) × (n < bound_of k) }
    ensures { (element_of result ≡ made k n) × Storable result }
{
    match k {
        6 => Value::Flag(n == 255),
        7..=11 => Value::Whole(whole(n, k)),
        12 => Value::Float(4, n),
        13 => Value::Float(8, n),
        _ => Value::Object(n),
    }
}

// A value of kind k, of which it is known that it keeps the rules.
pub fn read_value(part: &[u8], c: Cursor, k: u64) -> Outcome<Value>
    requires { single_kind? k ≡ true }
    ensures { ValueRead k part.now c.at result }
{
    let (n, next) = number_of(part, c, k)?;
    Ok((value_of(n, k), next))
}

// The values of kind `KIND`, of `WIDTH` bytes each, up to the end of the part, stored from place `at` on: the place behind the last. The kind
// is known before the loop is made, so that a value's answer has one case in it; and how many there are is known before the loop runs, so that no
// step asks.
fn fill_fixed<const KIND: u64, const WIDTH: usize>(part: &[u8], out: &mut [i64], at: usize) -> usize
    requires { (at ≤ length out.old) × Wide KIND WIDTH }
    ensures { Filled KIND part.now out.old at out.new result }
{
    let n = (part.len() / WIDTH).min(out.len() - at);
    let end = at + n;
    let mut from = Cursor { at: 0 };
    for p in at..end {
        let a = from.take::<WIDTH>(part);
        out[p] = store(value_of(a.number, KIND));
        from = a.next;
    }
    end
}

// n numbers, stored from place p on: the cursor behind them. A v64 has nine bytes at most, so where nine are left for each they are all there,
// and no step asks. `LONG` is for those of which most have more bytes than one or two.
fn v64s_there<const LONG: bool>(
    part: &[u8],
    c: Cursor,
    out: &mut [i64],
    p: usize,
    n: usize,
) -> Cursor
    requires { (c.at + 9 * n ≤ length part.now) × (p + n ≤ length out.old) }
    ensures { On IsV64 part.now c.at out.old p n out.new result.at }
{
    let mut here = c;
    for i in 0..n {
        let a = if LONG {
            here.take_long_v64(part)
        } else {
            here.take_v64(part)
        };
        out[p + i] = store(value_of(a.number, 11));
        here = a.next;
    }
    here
}

// Either way.
fn some_v64s(part: &[u8], c: Cursor, out: &mut [i64], p: usize, n: usize, long: bool) -> Cursor
    requires { (c.at + 9 * n ≤ length part.now) × (p + n ≤ length out.old) }
    ensures { On IsV64 part.now c.at out.old p n out.new result.at }
{
    if long {
        return v64s_there::<true>(part, c, out, p, n);
    }
    v64s_there::<false>(part, c, out, p, n)
}

// As many as are surely there are stored at once, again and again; the last few one by one. Whether they are long is a guess, which the
// ones before tell: so no more than some hundred are stored by one. A turn stores one or many, so no range counts the turns.
fn fill_v64s(part: &[u8], out: &mut [i64], at: usize) -> usize
    ensures { Filled 11 part.now out.old at out.new result }
{
    let mut p = at;
    let mut from = Cursor { at: 0 };
    let mut long = true;
    while from.at < part.len() {
        // Neither is met where the values keep the rules and there is room for them.
        if out.len() <= p {
            return p;
        }
        let left = part.len() - from.at;
        let n = (left / 9).min(256).min(out.len() - p);
        if 0 < n {
            let next = some_v64s(part, from, out, p, n, long);
            long = from.at + 2 * n < next.at;
            p += n;
            from = next;
        } else {
            let Ok((x, next)) = from.v64(part) else {
                return p;
            };
            out[p] = store(value_of(x, 11));
            p += 1;
            from = next;
        }
    }
    p
}

// The same of strings and objects. A file has fewer of them than 2^63, so a column can store their numbers, and nothing is lost of one. None of
// them is long, so there is nothing to guess, and a larger number is refused: one loop for these and for v64 would ask at each step which it is.
fn objects_there(part: &[u8], c: Cursor, out: &mut [i64], p: usize, n: usize) -> Cursor
    requires { (c.at + 9 * n ≤ length part.now) × (p + n ≤ length out.old) }
    ensures { On IsLink part.now c.at out.old p n out.new result.at }
{
    let mut here = c;
    for i in 0..n {
        let a = here.take_v64(part);
        out[p + i] = store(Value::Object(a.number % 9223372036854775808));
        here = a.next;
    }
    here
}

fn fill_objects(part: &[u8], out: &mut [i64], at: usize) -> usize
    ensures { (k : ℕ) → 13 < k → Filled k part.now out.old at out.new result }
{
    let mut p = at;
    let mut from = Cursor { at: 0 };
    while from.at < part.len() {
        // Neither is met where the values keep the rules and there is room for them.
        if out.len() <= p {
            return p;
        }
        let left = part.len() - from.at;
        let n = (left / 9).min(out.len() - p);
        if 0 < n {
            from = objects_there(part, from, out, p, n);
            p += n;
        } else {
            let Ok((x, next)) = number_up_to(part, from, 9223372036854775807) else {
                return p;
            };
            out[p] = store(Value::Object(x));
            p += 1;
            from = next;
        }
    }
    p
}

// The values of kind k up to the end of the part, stored from place `at` on: the place behind the last.
pub fn fill(part: &[u8], k: u64, out: &mut [i64], at: usize) -> usize
    requires { single_kind? k ≡ true }
    ensures { Filled k part.now out.old at out.new result }
{
    if out.len() < at {
        return at;
    }
    match k {
        6 => fill_fixed::<6, 1>(part, out, at),
        7 => fill_fixed::<7, 1>(part, out, at),
        8 => fill_fixed::<8, 2>(part, out, at),
        9 => fill_fixed::<9, 4>(part, out, at),
        10 => fill_fixed::<10, 8>(part, out, at),
        11 => fill_v64s(part, out, at),
        12 => fill_fixed::<12, 4>(part, out, at),
        13 => fill_fixed::<13, 8>(part, out, at),
        _ => fill_objects(part, out, at),
    }
}

// A constant, once for each of n objects.
pub fn fill_constant(out: &mut [i64], n: usize, z: i64)
    requires { n ≤ length out.old }
    ensures { out.new ≡ over_front (replicate n z) out.old }
{
    out[..n].fill(z);
}
