// The head of an entry: the name of its type, a new type's super type, the local start below a super type, the count of
// objects, and a new type's number of restrictions. Each number is held to its rules as soon as it is read. What holds it to
// them (`judged_name` and so on) takes the number by value, for it may as well come from a text; `names` are the bytes in which
// the strings of the table stand.
ghost use Rattle.std.specs.Prelude.{◌≡◌, List, ℕ, ◌<◌, ◌≤◌};
ghost use Rattle.paper.specs.Numbers.{number};
ghost use Rattle.paper.specs.Lists.{given?};
ghost use Rattle.paper.specs.Ledger.{a_string?};
ghost use Rattle.paper.specs.Rules.{few_objects?, in_range?, count_rules, base_under};
ghost use Rattle.paper.specs.File.{small, restrictions};
ghost use Rattle.numbers.specs.Cursors.{Read};
ghost use Rattle.table.specs.View.{view, said, maybe, types_of, Ok, Holds, strings_in, types_in};
ghost use Rattle.table.specs.Answers.{range_in};
ghost use Rattle.table.specs.Asks.{found};
ghost use Rattle.reader.specs.Sound.{Sound};
ghost use Rattle.reader.specs.Heads.{FoundBelow, Known, Resolved, NamePlaced, NameJudged, NameRead, SuperPlaced, SuperJudged, SuperRead, AboveRead, DueRead, CountJudged, TopRead, Placed, range_for, Declares, TypeEntered, Entered, TopEntered};

use super::ruled::no_restrictions;
use numbers::{Cursor, Fault, Outcome, Refusal};
use paper::Ledger;
use table::names::{find_type, string_sum};
use table::pushes::{note, push_range, push_type};
use table::ranges::{around, clear_of_siblings, entered, objects_in_all, pool_before};
use table::rows::{RangeRow, TypeRow, block, string_at, strings, types};
use table::types::{base_of, chain_ends, super_of};

// A type's name in an entry: its string's number, the type's place among the types, and whether the type is new.
#[derive(Clone, Copy)]
pub struct Name {
    pub number: u64,
    pub typ: u32,
    pub fresh: bool,
}

// The super type of an entry's type: the number of its name's string, if that was read, and its place: 0 for none, u + 1
// for type u.
#[derive(Clone, Copy)]
pub struct Super {
    pub number: u64,
    pub up: u32,
}

// What stands in an entry before its fields.
#[derive(Clone, Copy)]
pub struct Top {
    pub name: Name,
    pub above: Super,
    pub start: u32,
    pub count: u32,
}

// Strings are numbered from 1.
fn is_string(work: &[u32], n: u64) -> bool
    requires { Ok work.now }
    ensures { (f : List ℕ) → Holds f work.now → result ≡ a_string? (view f work.now) n }
{
    if n == 0 {
        return false;
    }
    n <= (strings(work) as u64)
}

// The type that string n names.
fn type_named(names: &[u8], work: &[u32], n: u64) -> Option<u32>
    requires holds { Holds names.now work.now }
    requires n_nonzero { (0 < n) × (n ≤ strings_in work.now) }
    ensures { Known names.now work.now n result }
{
    find_type(names, work, (n - 1) as u32)
}

// The place of the type that string n names, which was looked up. A new type must find room, and a known one must not
// have an entry in this block already.
fn placed_name(work: &[u32], n: u64, known: Option<u32>, at: usize, next: Cursor) -> Outcome<Name>
    requires ok { Ok work.now }
    requires found_below { FoundBelow (types_in work.now) known }
    ensures { NamePlaced work.now n (found known) at next.at result }
{
    match known {
        Some(t) => {
            if entered(work, block(work), t) {
                return Err(Refusal {
                    fault: Fault::Twice,
                    place: at,
                });
            }
            let name = Name {
                number: n,
                typ: t,
                fresh: false,
            };
            Ok((name, next))
        }
        None => {
            let t = types(work);
            if Ledger::TYPES <= (t as u64) {
                return Err(Refusal {
                    fault: Fault::Limit,
                    place: at,
                });
            }
            let name = Name {
                number: n,
                typ: t,
                fresh: true,
            };
            Ok((name, next))
        }
    }
}

// The name of an entry's type, by its string's number n, held to its rules. That number began at `at`; behind it comes `next`.
pub fn judged_name(names: &[u8], work: &[u32], n: u64, at: usize, next: Cursor) -> Outcome<Name>
    requires { Holds names.now work.now }
    ensures { NameJudged (view names.now work.now) n at next.at result }
{
    if !is_string(work, n) {
        return Err(Refusal {
            fault: Fault::Name,
            place: at,
        });
    }
    let known = type_named(names, work, n);
    placed_name(work, n, known, at, next)
}

fn type_name(file: &[u8], c: Cursor, work: &[u32]) -> Outcome<Name>
    requires { Holds file.now work.now }
    ensures { NameRead (view file.now work.now) file.now c.at result }
{
    let at = c.at;
    let (n, next) = c.v64(file)?;
    judged_name(file, work, n, at, next)
}

// The super type that string n names, which was looked up, for the new type t. It must be known, and the chain of super
// types above it must end without meeting t.
fn placed_super(
    work: &[u32],
    t: u32,
    n: u64,
    known: Option<u32>,
    at: usize,
    next: Cursor,
) -> Outcome<Super>
    requires ok { Ok work.now }
    requires found_below { FoundBelow (types_in work.now) known }
    ensures { SuperPlaced (types_of work.now) t n (found known) at next.at result }
{
    let Some(u) = known else {
        return Err(Refusal {
            fault: Fault::Super,
            place: at,
        });
    };
    let up = u + 1;
    if !chain_ends(work, t, up) {
        return Err(Refusal {
            fault: Fault::Loop,
            place: at,
        });
    }
    Ok((Super { number: n, up }, next))
}

// The super type of the new type t, by the number n of its name's string, held to its rules; 0 names none.
pub fn judged_super(
    names: &[u8],
    work: &[u32],
    t: u32,
    n: u64,
    at: usize,
    next: Cursor,
) -> Outcome<Super>
    requires { Holds names.now work.now }
    ensures { SuperJudged (view names.now work.now) t n at next.at result }
{
    if n == 0 {
        return Ok((Super { number: 0, up: 0 }, next));
    }
    if (strings(work) as u64) < n {
        return Err(Refusal {
            fault: Fault::Name,
            place: at,
        });
    }
    let known = type_named(names, work, n);
    placed_super(work, t, n, known, at, next)
}

// The super type that the new type t names.
fn named_super(file: &[u8], c: Cursor, work: &[u32], t: u32) -> Outcome<Super>
    requires { Holds file.now work.now }
    ensures { SuperRead (view file.now work.now) t file.now c.at result }
{
    let at = c.at;
    let (n, next) = c.v64(file)?;
    judged_super(file, work, t, n, at, next)
}

// A known type has its super type already.
fn super_name(file: &[u8], c: Cursor, work: &[u32], name: Name) -> Outcome<Super>
    requires holds { Holds file.now work.now }
    requires resolved { Resolved (view file.now work.now) name }
    ensures { AboveRead (view file.now work.now) name file.now c.at result }
{
    if name.fresh {
        return named_super(file, c, work, name.typ);
    }
    let up = super_of(work, name.typ);
    Ok((Super { number: 0, up }, c))
}

// The local start, which only a type with a super type has.
fn local_start(file: &[u8], c: Cursor, up: u32) -> Outcome<u64>
    ensures { DueRead (given? (maybe up)) small 65536 file.now c.at result }
{
    if up == 0 {
        return Ok((0, c));
    }
    c.small(file)
}

// The bound of objects, which only the counts of base types add up to: all others are objects of these too.
pub fn few_objects(work: &[u32], up: u32, n: u64) -> bool
    requires { Ok work.now }
    ensures { (f : List ℕ) → result ≡ few_objects? (view f work.now) (maybe up) n }
{
    if !Ledger::is_small(n) {
        return false;
    }
    if up != 0 {
        return true;
    }
    Ledger::is_small((objects_in_all(work) as u64) + n)
}

// The range of n objects from `start` lies within that of the super type up - 1 and behind those of all earlier siblings;
// no object has no range, and starts at 0.
pub fn in_range(work: &[u32], up: u32, start: u32, n: u32) -> bool
    requires { Ok work.now }
    ensures { (f : List ℕ) → result ≡ in_range? (view f work.now) (maybe up) start n }
{
    if up == 0 {
        return true;
    }
    if n == 0 {
        return start == 0;
    }
    let b = block(work);
    if !around(work, b, up - 1, start, n) {
        return false;
    }
    clear_of_siblings(work, b, up, start)
}

// The count n of objects that an entry adds, held to its rules.
pub fn judged_count(
    work: &[u32],
    up: u32,
    start: u32,
    n: u64,
    at: usize,
    next: Cursor,
) -> Outcome<u64>
    requires { Ok work.now }
    ensures { CountJudged work.now up start n at next.at result }
{
    if !few_objects(work, up, n) {
        return Err(Refusal {
            fault: Fault::Limit,
            place: at,
        });
    }
    if !in_range(work, up, start, n as u32) {
        return Err(Refusal {
            fault: Fault::Range,
            place: at,
        });
    }
    Ok((n, next))
}

// The count of objects that an entry adds.
fn object_count(file: &[u8], c: Cursor, work: &[u32], up: u32, start: u32) -> Outcome<u64>
    requires { Holds file.now work.now }
    ensures { Read (number (count_rules (view file.now work.now) (maybe up) start)) 65536 file.now c.at result }
{
    let at = c.at;
    let (n, next) = c.v64(file)?;
    judged_count(work, up, start, n, at, next)
}

// The number of restrictions, which only a new type has.
fn type_restrictions(file: &[u8], c: Cursor, fresh: bool) -> Outcome<u64>
    ensures { DueRead fresh restrictions 1 file.now c.at result }
{
    if !fresh {
        return Ok((0, c));
    }
    no_restrictions(file, c)
}

pub fn read_head(file: &[u8], c: Cursor, work: &[u32]) -> Outcome<Top>
    requires { Holds file.now work.now }
    ensures { TopRead (view file.now work.now) file.now c.at result }
{
    let (name, after_name) = type_name(file, c, work)?;
    let (above, after_super) = super_name(file, after_name, work, name)?;
    let up = above.up;
    let (start, after_start) = local_start(file, after_super, up)?;
    let (n, after_count) = object_count(file, after_start, work, up, start as u32)?;
    let (_, end) = type_restrictions(file, after_count, name.fresh)?;
    let top = Top {
        name,
        above,
        start: start as u32,
        count: n as u32,
    };
    Ok((top, end))
}

// The base type of type t's pool: t itself, or that of the super type up - 1.
pub fn base_for(work: &[u32], t: u32, up: u32) -> u32
    requires { Ok work.now }
    ensures { result ≡ base_under (types_of work.now) t (maybe up) }
{
    if up == 0 {
        return t;
    }
    base_of(work, up - 1)
}

// The range that an entry adds: objects of a base pool are numbered block after block.
fn range_for(work: &[u32], top: Top, base: u32) -> RangeRow
    requires ok { Ok work.now }
    requires start_bound { top.start < 65536 }
    ensures { range_in result ≡ range_for work.now top base }
{
    let name = top.name;
    let b = block(work);
    let before = pool_before(work, b, base);
    RangeRow {
        typ: name.typ,
        block: b,
        start: top.start,
        first: before + top.start,
        count: top.count,
    }
}

// A new type, under its name; of a known one there is nothing to keep.
fn enter_type(names: &[u8], work: &mut [u32], name: Name, up: u32, base: u32)
    requires holds { Holds names.now work.old }
    requires declares { Declares work.old name }
    ensures { TypeEntered names.now name up base work.old work.new }
{
    if !name.fresh {
        return;
    }
    let n = name.number;
    let s = string_at(work, (n - 1) as u32);
    let sum = string_sum(names, work, n);
    let row = TypeRow {
        start: s.start,
        end: s.end,
        sup: up,
        base,
        sum,
    };
    push_type(work, row);
}

// Enters the type and the range of a head in the table.
pub fn enter_top(names: &[u8], work: &mut [u32], top: Top)
    requires holds { Holds names.now work.old }
    requires sound { Sound (said names.now work.old) }
    requires placed { Placed (view names.now work.old) top }
    ensures { Entered names.now work.old work.new top }
{
    let name = top.name;
    let above = top.above;
    let up = above.up;
    let base = base_for(work, name.typ, up);
    let range = range_for(work, top, base);
    enter_type(names, work, name, up, base);
    note(work, (name.number - 1) as u32, 33 + name.typ);
    push_range(work, range);
}

// Reads a head, and enters it. A head that is refused leaves the table as it was.
pub fn enter_head(file: &[u8], c: Cursor, work: &mut [u32]) -> Outcome<Top>
    requires holds { Holds file.now work.old }
    requires sound { Sound (said file.now work.old) }
    ensures { TopEntered file.now work.old work.new c.at result }
{
    let (top, next) = read_head(file, c, work)?;
    enter_top(file, work, top);
    Ok((top, next))
}
