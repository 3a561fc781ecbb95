// What is asked of a file that was read: the objects of a type, how many values a field has, and these values.
ghost use Rattle.std.specs.Prelude.{◌≡◌, ℕ, ◌≤◌, ◌&&◌, leb, eqb, length};
ghost use Rattle.paper.specs.Ledger.{plain};
ghost use Rattle.paper.specs.Calls.{asked};
ghost use Rattle.table.specs.View.{kind_from, view, Holds};
ghost use Rattle.calls.specs.Told.{answer_of, count_of, values_of};
ghost use Rattle.calls.specs.Column.{Known, Ready, Stored, WantedTold, ColumnTold};

use crate::fills::fill_column;
use crate::replies::{Refused, Reply};
use table::names::{find_field_called, find_type_called};
use table::ranges::objects_of;
use table::rows::{FieldRow, field_at};
use values::columns::fill_constant;
use values::constants::constant_of;

// The number that a column of a plain kind is asked with: its own, and 32 for all that name a type. Annotations have no column, and
// nobody can ask with 33.
fn asked_plain(e: u64) -> u64
    ensures { result ≡ asked (plain e) }
{
    if e == 5 {
        return 33;
    }
    if e < 32 {
        return e;
    }
    32
}

// The number that a column of such a kind is asked with.
fn asked_with(k: u32, e: u64) -> u64
    ensures { (a : ℕ) → result ≡ asked (kind_from k a e) }
{
    let plain = asked_plain(e);
    match k {
        0..=4 => k as u64,
        5..=14 => plain,
        // Arrays and maps have no column.
        15 => 33,
        17..=20 => 33,
        32..=4294967295 => plain,
        // No field has such a kind.
        16 | 21..=31 => plain,
    }
}

// Whether a column of this kind is given to whoever asks with k. Arrays, maps and annotations have none.
fn is_asked(kind: FieldRow, k: u64) -> bool
    ensures { result ≡ (eqb k (asked (kind_from kind.kind kind.a kind.e)) && leb k 32) }
{
    let own = asked_with(kind.kind, kind.e);
    k == own && k <= 32
}

// How many objects the type with a lent name has.
pub fn count_objects(file: &[u8], work: &[u32], name: &[u8]) -> Reply
    requires { Holds file.now work.now }
    ensures { answer_of result ≡ count_of (view file.now work.now) name.now }
{
    let a = find_type_called(file, work, name);
    let Some(t) = a else {
        return Err(Refused::NO_TYPE);
    };
    let count = objects_of(work, t);
    Ok(count as u64)
}

// What was asked for: a field by its place, with its row, and the objects of its type, for each of which it has a value.
#[derive(Clone, Copy)]
pub struct Wanted {
    pub at: u32,
    pub row: FieldRow,
    pub objects: u32,
}

// How many values a type's field has, both by lent names, for whoever asks with the right kind.
pub fn tell_count(file: &[u8], work: &[u32], owner: &[u8], name: &[u8], k: u64) -> Reply
    requires { Holds file.now work.now }
    ensures { answer_of result ≡ values_of (view file.now work.now) owner.now name.now k }
{
    let a = find_type_called(file, work, owner);
    let Some(t) = a else {
        return Err(Refused::NO_TYPE);
    };
    let b = find_field_called(file, work, t, name);
    let Some(i) = b else {
        return Err(Refused::NO_FIELD);
    };
    let row = field_at(work, i);
    if !is_asked(row, k) {
        return Err(Refused::OTHER_KIND);
    }
    let values = objects_of(work, t);
    Ok(values as u64)
}

// The values that are wanted, where there is room for them.
fn store_values(file: &[u8], work: &[u32], w: Wanted, out: &mut [i64])
    requires { Ready file.now work.now w × (w.objects ≤ length out.old) }
    ensures { Stored file.now work.now w out.old out.new }
{
    if w.row.kind <= 4 {
        let z = constant_of(w.row.kind, w.row.a);
        fill_constant(out, w.objects as usize, z);
        return;
    }
    fill_column(file, work, w.at, w.row.e, out);
}

// The values that are wanted, if all of them fit: nothing is stored where one does not.
fn store_in_room(file: &[u8], work: &[u32], w: Wanted, out: &mut [i64]) -> Reply
    requires { Ready file.now work.now w }
    ensures { WantedTold file.now work.now w out.old result out.new }
{
    if out.len() < w.objects as usize {
        return Err(Refused::ROOM);
    }
    store_values(file, work, w, out);
    Ok(w.objects as u64)
}

// The values of a type's field, for whoever has room. They are looked up as for the count, and that is written out again: what both
// called would not be put in line, and the loops that store v64 values were slower for it.
pub fn write_values(
    file: &[u8],
    work: &[u32],
    owner: &[u8],
    name: &[u8],
    k: u64,
    out: &mut [i64],
) -> Reply
    requires { Known file.now work.now }
    ensures { ColumnTold file.now work.now owner.now name.now k out.old result out.new }
{
    let a = find_type_called(file, work, owner);
    let Some(t) = a else {
        return Err(Refused::NO_TYPE);
    };
    let b = find_field_called(file, work, t, name);
    let Some(i) = b else {
        return Err(Refused::NO_FIELD);
    };
    let row = field_at(work, i);
    if !is_asked(row, k) {
        return Err(Refused::OTHER_KIND);
    }
    let objects = objects_of(work, t);
    let wanted = Wanted {
        at: i,
        row: row,
        objects: objects,
    };
    store_in_room(file, work, wanted, out)
}
