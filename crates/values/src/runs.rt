// Elements one after the other that are held to the rules and then passed over. The kind is chosen before the loop, never
// in it.
ghost use Rattle.std.specs.Prelude.{◌≡◌, ◌+◌, ◌*◌, ◌<◌, ◌≤◌, true, length};
ghost use Rattle.paper.specs.Reader.{must, repeat};
ghost use Rattle.paper.specs.Numbers.{fixed, v64};
ghost use Rattle.paper.specs.Rules.{bool_rules};
ghost use Rattle.numbers.specs.Cursors.{Read};
ghost use Rattle.numbers.specs.Words.{Over};
ghost use Rattle.values.specs.Pass.{Passed};
ghost use Rattle.values.specs.Items.{linked, at_most};
ghost use Rattle.values.specs.Held.{Bools};
ghost use Rattle.values.specs.Overs.{Looks, RanTo};
ghost use Rattle.values.specs.Ups.{Up, Surely};

use numbers::{Cursor, Fault, Outcome, Refusal, Run, Taken};

// Whether all bytes from `at` up to `end` are 00 or FF. There is no way out of the loop before its end, so that the compiler looks at many
// bytes at once.
fn are_bools(part: &[u8], at: usize, end: usize) -> bool
    requires { (at ≤ end) × (end ≤ length part.now) }
    ensures { result ≡ true → Bools part.now at end }
{
    let mut others: u8 = 0;
    for i in at..end {
        let b = part[i];
        if b != 0 {
            if b != 255 {
                others = 1;
            }
        }
    }
    others == 0
}

// m bools, each of which is 00 or FF. Only where one is neither, or they are not all there, each is looked at by itself.
pub fn bools(part: &[u8], c: Cursor, m: u64) -> Outcome<u64>
    ensures { Passed (repeat m (must (fixed 1) bool_rules)) part.now c.at result }
{
    let at = c.at;
    if at <= part.len() {
        let room = (part.len() - at) as u64;
        if m <= room {
            let end = at + (m as usize);
            if are_bools(part, at, end) {
                return Ok((0, Cursor { at: end }));
            }
        }
    }
    bools_in_turn(part, c, m)
}

// The same, bool by bool, up to the first that is refused.
fn bools_in_turn(part: &[u8], c: Cursor, m: u64) -> Outcome<u64>
    ensures { Passed (repeat m (must (fixed 1) bool_rules)) part.now c.at result }
{
    let mut here = c;
    for _ in 0..m {
        let (b, next) = here.be::<1>(part)?;
        if b != 0 {
            if b != 255 {
                return Err(Refusal {
                    fault: Fault::Value,
                    place: here.at,
                });
            }
        }
        here = next;
    }
    Ok((0, here))
}

// m numbers of a fixed width, which are there or not: none of them needs a look.
pub fn fixed_widths(part: &[u8], c: Cursor, m: u64, width: u64) -> Outcome<u64>
    requires { (0 < width) × (c.at ≤ length part.now) }
    ensures { Passed (repeat m (fixed width)) part.now c.at result }
{
    let at = c.at;
    let room = (part.len() - at) as u64;
    let whole = room / width;
    if m <= whole {
        let over = m * width;
        return Ok((
            0,
            Cursor {
                at: at + (over as usize),
            },
        ));
    }
    let over = whole * width;
    Err(Refusal {
        fault: Fault::Short,
        place: at + (over as usize),
    })
}

// How many v64 are surely there: one has nine bytes at most.
fn sure(part: &[u8], at: usize) -> u64
    ensures { 0 < result → at + 9 * result ≤ length part.now }
{
    (part.len().saturating_sub(at) / 9) as u64
}

// How many times eight bytes can be looked at for the ends of at most `rest` numbers: each time there is a ninth behind them, and no more than
// eight numbers are passed over.
fn looks(part: &[u8], at: usize, rest: u64) -> u64
    ensures { Looks (length part.now) at rest result }
{
    sure(part, at).min(rest / 8)
}

// As many numbers as end in so many looks.
fn v64s_there(part: &[u8], c: Cursor, n: u64) -> Run
    requires { c.at + 9 * n ≤ length part.now }
    ensures { RanTo n part.now c.at result }
{
    let mut here = c;
    let mut count: u64 = 0;
    for _ in 0..n {
        let a = here.past_v64s(part);
        count += a.count;
        here = a.next;
    }
    Run { count, next: here }
}

// m numbers of one byte or more: as many as are surely there are passed over at once, again and again, and then the last few. How many that
// are is known only behind them, so no range counts the turns.
pub fn v64s(part: &[u8], c: Cursor, m: u64) -> Outcome<u64>
    ensures { Passed (repeat m v64) part.now c.at result }
{
    // An array has few, and no look is worth its while.
    if m < 8 {
        return few_v64s(part, c, m);
    }
    let mut here = c;
    let mut rest = m;
    let mut n = looks(part, here.at, rest);
    while 0 < n {
        let a = v64s_there(part, here, n);
        here = a.next;
        rest -= a.count;
        n = looks(part, here.at, rest);
    }
    few_v64s(part, here, rest)
}

// Few numbers. A v64 has nine bytes at most, so where nine are left for each they are all there, and no step asks.
fn few_v64s(part: &[u8], c: Cursor, m: u64) -> Outcome<u64>
    ensures { Passed (repeat m v64) part.now c.at result }
{
    let at = c.at;
    if at <= part.len() {
        let room = ((part.len() - at) / 9) as u64;
        if m <= room {
            return Ok((0, each_v64(part, c, m)));
        }
    }
    v64s_in_turn(part, c, m)
}

fn each_v64(part: &[u8], c: Cursor, m: u64) -> Cursor
    requires { c.at + 9 * m ≤ length part.now }
    ensures { Over part.now m c.at result.at }
{
    let mut here = c;
    for _ in 0..m {
        here = here.pass_v64(part);
    }
    here
}

// The same, number by number, up to the first that is refused.
fn v64s_in_turn(part: &[u8], c: Cursor, m: u64) -> Outcome<u64>
    ensures { Passed (repeat m v64) part.now c.at result }
{
    let mut here = c;
    for _ in 0..m {
        here = here.past_v64(part)?;
    }
    Ok((0, here))
}

// A v64 that is at most `most`, as the number of one of so many strings is, or 0.
pub fn number_up_to(part: &[u8], c: Cursor, most: u64) -> Outcome<u64>
    ensures { Read (linked (at_most most)) (most + 1) part.now c.at result }
{
    let (n, next) = c.v64(part)?;
    if most < n {
        return Err(Refusal {
            fault: Fault::Reference,
            place: c.at,
        });
    }
    Ok((n, next))
}

// n numbers that are there: the largest of them, and the cursor behind them.
fn numbers_there(part: &[u8], c: Cursor, n: u64) -> Taken
    requires { c.at + 9 * n ≤ length part.now }
    ensures { Up part.now result.number n c.at result.next.at }
{
    let mut here = c;
    let mut largest: u64 = 0;
    for _ in 0..n {
        let a = here.take_v64(part);
        largest = largest.max(a.number);
        here = a.next;
    }
    Taken {
        number: largest,
        next: here,
    }
}

// How many of `rest` numbers are surely there.
fn surely(part: &[u8], at: usize, rest: u64) -> u64
    ensures { Surely (length part.now) at rest result }
{
    sure(part, at).min(rest)
}

// m numbers of strings. Of those that are surely there only the largest is held against the bound, and they are looked at one by one where it
// is past it. No range counts the turns: each asks anew how many are surely there.
pub fn string_numbers(part: &[u8], c: Cursor, m: u64, strings: u64) -> Outcome<u64>
    ensures { Passed (repeat m (linked (at_most strings))) part.now c.at result }
{
    let mut here = c;
    let mut rest = m;
    let mut n = surely(part, here.at, rest);
    while 0 < n {
        let a = numbers_there(part, here, n);
        if strings < a.number {
            return strings_in_turn(part, here, rest, strings);
        }
        here = a.next;
        rest -= n;
        n = surely(part, here.at, rest);
    }
    strings_in_turn(part, here, rest, strings)
}

// The same, number by number, up to the first that is refused.
pub fn strings_in_turn(part: &[u8], c: Cursor, m: u64, strings: u64) -> Outcome<u64>
    ensures { Passed (repeat m (linked (at_most strings))) part.now c.at result }
{
    let mut here = c;
    for _ in 0..m {
        let (_, next) = number_up_to(part, here, strings)?;
        here = next;
    }
    Ok((0, here))
}
