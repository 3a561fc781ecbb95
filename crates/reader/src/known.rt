// The head of an entry whose type is known, as most entries of later pairs have it: each number has one byte, and the type is
// the likely one. It is told by a few looks at the table, and no answer of several words is handed over in memory. Where it
// is not so, nothing is done, and the head is read as any other.
ghost use Rattle.std.specs.Prelude.{◌≡◌, true, false, ◌<◌, ◌≤◌, length};
ghost use Rattle.table.specs.View.{view, said, Ok, Holds, strings_in, ranges_in};
ghost use Rattle.reader.specs.Sound.{Sound};
ghost use Rattle.reader.specs.Heads.{Placed, Entered, TopEntered};
ghost use Rattle.reader.specs.KnownHeads.{OneByte, Called, Knows, behind, StartByte, CountByte, HeadKnown, LastTop};

use super::heads::{Name, Super, Top, base_for, enter_head, few_objects, in_range};
use numbers::{Cursor, Outcome};
use table::pushes::push_range;
use table::ranges::{none_from, pool_before};
use table::rows::{RangeRow, block, range_at, ranges, string_at, strings, type_at, types};
use table::types::super_of;

// The number of one byte at a place; 128 or more where there is none.
fn one_byte(file: &[u8], at: usize) -> u64
    ensures { result < 128 → OneByte file.now at result }
{
    if file.len() <= at {
        return 128;
    }
    u64::from(file[at])
}

// The type behind the one that was entered last. Entries mostly come in the order of the block before.
fn likely_type(work: &[u32]) -> u32
    requires { Ok work.now }
{
    let n = ranges(work);
    if n == 0 {
        return 0;
    }
    let last = range_at(work, n - 1);
    let t = last.typ + 1;
    if t < types(work) {
        return t;
    }
    0
}

// Whether the name of type t stands where string n, counted from 1, does. No name occurs twice, so no other type has it, and no
// byte is read.
fn is_called(work: &[u32], t: u32, n: u64) -> bool
    requires ok { Ok work.now }
    requires n_nonzero { (0 < n) × (n ≤ strings_in work.now) }
    ensures { result ≡ true → Called work.now t n }
{
    if types(work) <= t {
        return false;
    }
    let name = string_at(work, (n - 1) as u32);
    let row = type_at(work, t);
    if row.start != name.start {
        return false;
    }
    row.end == name.end
}

// The known type that string n names, where it is the likely one and the tallies tell that it has no entry in this block; 32 where
// it is not so. No range is looked at but the last.
fn known_type(work: &[u32], n: u64) -> u32
    requires { Ok work.now }
    ensures { result < 32 → Knows work.now n result }
{
    if 127 < n {
        return 32;
    }
    if n == 0 {
        return 32;
    }
    if (strings(work) as u64) < n {
        return 32;
    }
    let t = likely_type(work);
    if !is_called(work, t, n) {
        return 32;
    }
    if !none_from(work, block(work), t) {
        return 32;
    }
    t
}

// The local start, which only a type with a super type has, in one byte; 128 or more where it has none.
fn start_byte(file: &[u8], at: usize, up: u32) -> u64
    ensures { result < 128 → StartByte file.now at up result }
{
    if up == 0 {
        return 0;
    }
    one_byte(file, at)
}

// Where the count stands, behind a local start of one byte or where none is due.
fn behind_start(at: usize, up: u32) -> usize
    requires { at < 18446744073709551615 }
    ensures { result ≡ behind at up }
{
    if up == 0 {
        return at;
    }
    at + 1
}

// The count of objects in one byte, where it keeps its rules; 128 where it does not. Where no type is above, there is no range to
// keep to, and none is asked for.
fn count_byte(file: &[u8], at: usize, work: &[u32], up: u32, start: u32) -> u64
    requires { Holds file.now work.now }
    ensures { result < 128 → CountByte file.now work.now at up start result }
{
    let n = one_byte(file, at);
    if 127 < n {
        return 128;
    }
    if !few_objects(work, up, n) {
        return 128;
    }
    if up == 0 {
        return n;
    }
    if !in_range(work, up, start, n as u32) {
        return 128;
    }
    n
}

// Whether an entry that adds so many objects has nothing more to say: it adds none, and no field is given.
pub fn adds_nothing(file: &[u8], at: usize, added: u32) -> bool
    ensures { result ≡ true → (added ≡ 0) × OneByte file.now at 0 }
{
    if added != 0 {
        return false;
    }
    one_byte(file, at) == 0
}

// Enters the range of a known type's head in the table.
fn enter_known(names: &[u8], work: &mut [u32], top: Top)
    requires holds { Holds names.now work.old }
    requires sound { Sound (said names.now work.old) }
    requires placed { Placed (view names.now work.old) top }
    requires fresh_value { top.name.fresh ≡ false }
    ensures { Entered names.now work.old work.new top }
{
    let name = top.name;
    let above = top.above;
    let base = base_for(work, name.typ, above.up);
    let b = block(work);
    let before = pool_before(work, b, base);
    let range = RangeRow {
        typ: name.typ,
        block: b,
        start: top.start,
        first: before + top.start,
        count: top.count,
    };
    push_range(work, range);
}

// Reads a head of this form, and enters it: the place behind it, or 0, and then nothing was done.
pub fn known_head(file: &[u8], at: usize, work: &mut [u32]) -> usize
    requires holds { Holds file.now work.old }
    requires sound { Sound (said file.now work.old) }
    ensures { HeadKnown file.now work.old work.new at result }
{
    let n = one_byte(file, at);
    let t = known_type(work, n);
    if 31 < t {
        return 0;
    }
    let up = super_of(work, t);
    let start = start_byte(file, at + 1, up);
    if 127 < start {
        return 0;
    }
    let next = behind_start(at + 1, up);
    let count = count_byte(file, next, work, up, start as u32);
    if 127 < count {
        return 0;
    }
    let name = Name {
        number: n,
        typ: t,
        fresh: false,
    };
    let above = Super { number: 0, up };
    let top = Top {
        name,
        above,
        start: start as u32,
        count: count as u32,
    };
    enter_known(file, work, top);
    next + 1
}

// The head of a known type that was entered last, as it stands at a place.
fn last_top(file: &[u8], at: usize, work: &[u32]) -> Top
    requires ok { Ok work.now × (0 < ranges_in work.now) }
    requires at_in_bounds { at < length file.now }
    ensures { LastTop file.now at work.now result }
{
    let last = range_at(work, ranges(work) - 1);
    let name = Name {
        number: u64::from(file[at]),
        typ: last.typ,
        fresh: false,
    };
    let up = super_of(work, last.typ);
    let above = Super { number: 0, up };
    Top {
        name,
        above,
        start: last.start,
        count: last.count,
    }
}

// Reads a head of any form, and enters it. A head that is refused leaves the table as it was.
pub fn enter_any(file: &[u8], c: Cursor, work: &mut [u32]) -> Outcome<Top>
    requires holds { Holds file.now work.old }
    requires sound { Sound (said file.now work.old) }
    ensures { TopEntered file.now work.old work.new c.at result }
{
    let at = known_head(file, c.at, work);
    if at == 0 {
        return enter_head(file, c, work);
    }
    let top = last_top(file, c.at, work);
    Ok((top, Cursor { at }))
}
