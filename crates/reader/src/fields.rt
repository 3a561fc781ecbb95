// The fields of an entry, read into the work table. The last end offset goes by value: each function is given the one
// before, and answers its own with the next cursor.
ghost use Rattle.std.specs.Prelude.{◌≡◌, List, ℕ, ◌+◌, ◌^◌, ◌<◌, ◌≤◌, length};
ghost use Rattle.paper.specs.Bounds.{most_fields};
ghost use Rattle.paper.specs.Numbers.{number};
ghost use Rattle.paper.specs.Rules.{field_count_rules, field_name_rules, values_due};
ghost use Rattle.paper.specs.File.{end_offset};
ghost use Rattle.numbers.specs.Cursors.{Read};
ghost use Rattle.table.specs.View.{view, kind_from, flds_of, Ok, Holds, said, strings_in, fields_in, dues_in};
ghost use Rattle.reader.specs.Sound.{Open};
ghost use Rattle.reader.specs.Ruled.{Judged};
ghost use Rattle.reader.specs.Kinds.{named?};
ghost use Rattle.reader.specs.Fields.{going, olds_of, old_go, olds_go, new_go, news_go, fields_go, FieldAdded, Went};

use super::kinds::{Kind, Named, read_kind};
use super::known::adds_nothing;
use super::ruled::no_restrictions;
use numbers::{Cursor, Fault, Outcome, Refusal};
use paper::Ledger;
use table::rows::FieldRow;

// An end offset, which does not fall below the one before it.
fn end_offset(file: &[u8], c: Cursor, before: u64) -> Outcome<u64>
    ensures { Read (end_offset before) (2 ^ 64) file.now c.at result }
{
    let at = c.at;
    let (e, next) = c.v64(file)?;
    if e < before {
        return Err(Refusal {
            fault: Fault::Ends,
            place: at,
        });
    }
    Ok((e, next))
}

// The number n of an entry's fields, held to its rules: there is room for the new ones, and all that are known are given. What
// passes the bound is refused for that first. The number began at `at`; behind it comes `next`.
pub fn judged_field_count(work: &[u32], known: u32, n: u64, at: usize, next: Cursor) -> Outcome<u64>
    requires { Ok work.now }
    ensures { (f : List ℕ) → Holds f work.now → Judged (field_count_rules (view f work.now) known) n at next.at result }
{
    let room = Ledger::FIELDS - (table::rows::fields(work) as u64);
    let most = (known as u64) + room;
    if most < n {
        return Err(Refusal {
            fault: Fault::Limit,
            place: at,
        });
    }
    if n < known as u64 {
        return Err(Refusal {
            fault: Fault::Fields,
            place: at,
        });
    }
    Ok((n, next))
}

fn field_count(file: &[u8], c: Cursor, work: &[u32], known: u32) -> Outcome<u64>
    requires { Holds file.now work.now }
    ensures { Read (number (field_count_rules (view file.now work.now) known)) (2 ^ 64) file.now c.at result }
{
    let at = c.at;
    let (n, next) = c.v64(file)?;
    judged_field_count(work, known, n, at, next)
}

// How many values the chunk of a field has, by the first number of its kind: 0 to 4 are constants, whose chunks are empty.
pub fn values_due(kind: u32, n: u32) -> u32
    ensures { (a e : ℕ) → result ≡ values_due (kind_from kind a e) n }
{
    if kind <= 4 {
        return 0;
    }
    n
}

// Field i of the table, where it is a known one of type t: only its end offset is given, and its chunk is due, with a value
// for each object that is added.
fn old_field(
    file: &[u8],
    c: Cursor,
    work: &mut [u32],
    t: u32,
    i: u32,
    added: u32,
    end: u64,
) -> Outcome<u64>
    requires holds { Holds file.now work.old }
    requires fact { Open (said file.now work.old) t i }
    requires i_bound { i < fields_in work.old }
    ensures { Went file.now work.new t (i + 1) c.at result (old_go added t i (going file.now work.old end) file.now c.at) }
{
    let row = table::rows::field_at(work, i);
    if row.owner != t {
        return Ok((end, c));
    }
    let (e, next) = end_offset(file, c, end)?;
    let values = values_due(row.kind, added);
    let size = e - end;
    table::pushes::push_due(work, i, values, size);
    Ok((e, next))
}

// The known fields of type t, in the order of their declaration. An entry that adds no object gives none of them.
fn old_fields(
    file: &[u8],
    c: Cursor,
    work: &mut [u32],
    t: u32,
    added: u32,
    end: u64,
) -> Outcome<u64>
    requires holds { Holds file.now work.old }
    requires fact { Open (said file.now work.old) t 0 }
    ensures { Went file.now work.new t (length (flds_of work.new)) c.at result (olds_go added (olds_of added (view file.now work.old) t) (going file.now work.old end) file.now c.at) }
{
    if added == 0 {
        return Ok((end, c));
    }
    let own = table::names::stretch_of(work, t);
    let mut next = c;
    let mut last = end;
    for i in own.from..own.to {
        (last, next) = old_field(file, next, work, t, i, added, last)?;
    }
    Ok((last, next))
}

// The name of a new field of type t, by its string's number n, held to its rules: no other field of the type has it. The
// strings of the table stand in `names`.
pub fn judged_field_name(
    names: &[u8],
    work: &[u32],
    t: u32,
    n: u64,
    at: usize,
    next: Cursor,
) -> Outcome<u64>
    requires { Holds names.now work.now }
    ensures { Judged (field_name_rules t (view names.now work.now)) n at next.at result }
{
    if n == 0 {
        return Err(Refusal {
            fault: Fault::Name,
            place: at,
        });
    }
    if (table::rows::strings(work) as u64) < n {
        return Err(Refusal {
            fault: Fault::Name,
            place: at,
        });
    }
    let name = table::rows::string_at(work, (n - 1) as u32);
    let other = table::names::find_field(names, work, t, name);
    match other {
        Some(_) => Err(Refusal {
            fault: Fault::Twice,
            place: at,
        }),
        None => Ok((n, next)),
    }
}

fn field_name(file: &[u8], c: Cursor, work: &[u32], t: u32) -> Outcome<u64>
    requires { Holds file.now work.now }
    ensures { Read (number (field_name_rules t (view file.now work.now))) (2 ^ 64) file.now c.at result }
{
    let at = c.at;
    let (n, next) = c.v64(file)?;
    judged_field_name(file, work, t, n, at, next)
}

// A field more of type t, whose name is string number `name`, and its chunk, which is due with a value for each of the
// type's objects.
pub fn add_field(
    names: &[u8],
    work: &mut [u32],
    t: u32,
    kind: Kind,
    name: u64,
    objects: u32,
    size: u64,
)
    requires holds { Holds names.now work.old }
    requires le_name { (1 ≤ name) × (name ≤ strings_in work.old) }
    requires first_bound { kind.first ≤ 32 }
    requires work_bound { (fields_in work.old < most_fields) × (dues_in work.old < most_fields) }
    ensures { FieldAdded names.now t objects name kind size work.old work.new }
{
    let text = table::rows::string_at(work, (name - 1) as u32);
    let sum = table::names::string_sum(names, work, name);
    let first = kind.first as u32;
    let i = table::rows::fields(work);
    let row = FieldRow {
        start: text.start,
        end: text.end,
        owner: t,
        kind: first,
        a: kind.bits,
        e: kind.last,
        sum,
    };
    table::pushes::push_field(work, row);
    let values = values_due(first, objects);
    table::pushes::push_due(work, i, values, size);
}

// A new field of type t, which has so many objects: a field that comes late has a value for each of them.
fn new_field(
    file: &[u8],
    c: Cursor,
    work: &mut [u32],
    t: u32,
    objects: u32,
    end: u64,
    named: Named,
) -> Outcome<u64>
    requires holds { Holds file.now work.old }
    requires fact { Open (said file.now work.old) t (length (flds_of work.old)) }
    requires work_bound { fields_in work.old < most_fields }
    ensures { Went file.now work.new t (length (flds_of work.new)) c.at result (new_go (named? named) t objects (going file.now work.old end) file.now c.at) }
{
    let (_, c1) = no_restrictions(file, c)?;
    let (kind, c2) = read_kind(file, c1, named)?;
    let (name, c3) = field_name(file, c2, work, t)?;
    let (e, next) = end_offset(file, c3, end)?;
    let size = e - end;
    add_field(file, work, t, kind, name, objects, size);
    Ok((e, next))
}

// So many new fields of type t.
fn new_fields(
    file: &[u8],
    c: Cursor,
    work: &mut [u32],
    t: u32,
    objects: u32,
    end: u64,
    named: Named,
    count: u64,
) -> Outcome<u64>
    requires holds { Holds file.now work.old }
    requires fact { Open (said file.now work.old) t (length (flds_of work.old)) }
    requires count_bound { fields_in work.old + count ≤ most_fields }
    ensures { Went file.now work.new t (length (flds_of work.new)) c.at result (news_go (named? named) t objects count (going file.now work.old end) file.now c.at) }
{
    let mut next = c;
    let mut last = end;
    for _ in 0..count {
        (last, next) = new_field(file, next, work, t, objects, last, named)?;
    }
    Ok((last, next))
}

// How many known fields an entry of type t gives: with no object added all its fields are new.
pub fn known_fields(work: &[u32], t: u32, added: u32) -> u32
    requires { Ok work.now }
    ensures { (f : List ℕ) → result ≡ length (olds_of added (view f work.now) t) }
{
    if added == 0 {
        return 0;
    }
    table::names::fields_of(work, t)
}

// All fields of an entry of type t, whose range is the last of the log and adds so many objects: the known ones, and then
// new ones.
pub fn all_fields(
    file: &[u8],
    c: Cursor,
    work: &mut [u32],
    t: u32,
    added: u32,
    end: u64,
    named: Named,
) -> Outcome<u64>
    requires holds { Holds file.now work.old }
    requires fact { Open (said file.now work.old) t 0 }
    ensures { Went file.now work.new t (length (flds_of work.new)) c.at result (fields_go (named? named) t added (going file.now work.old end) file.now c.at) }
{
    let objects = table::ranges::objects_of(work, t);
    let known = known_fields(work, t, added);
    let (n, c1) = field_count(file, c, work, known)?;
    let (last, c2) = old_fields(file, c1, work, t, added, end)?;
    let count = n - (known as u64);
    new_fields(file, c2, work, t, objects, last, named, count)
}

// The same. An entry that adds nothing, as a type has it in many pairs, is told by one byte.
pub fn fields(
    file: &[u8],
    c: Cursor,
    work: &mut [u32],
    t: u32,
    added: u32,
    end: u64,
    named: Named,
) -> Outcome<u64>
    requires holds { Holds file.now work.old }
    requires fact { Open (said file.now work.old) t 0 }
    ensures { Went file.now work.new t (length (flds_of work.new)) c.at result (fields_go (named? named) t added (going file.now work.old end) file.now c.at) }
{
    let at = c.at;
    if adds_nothing(file, at, added) {
        return Ok((end, Cursor { at: at + 1 }));
    }
    all_fields(file, c, work, t, added, end, named)
}
