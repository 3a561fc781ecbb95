// A row more, behind the last of its kind. Each says what became of the cells; `specs/Pushes.antt` lifts that to what the
// table says, for which a name must lie within the source.
ghost use Rattle.std.specs.Prelude.{◌≡◌, ◌+◌, ◌*◌, ◌/◌, ◌%◌, ◌<◌, ◌≤◌, true, [], ◌∷◌, length, slice_index};
ghost use Rattle.std.proofs.lemmas.List.Edits.{sets};
ghost use Rattle.table.specs.View.{tally, Ok};
ghost use Rattle.table.specs.Answers.{Small};
ghost use Rattle.table.specs.Packed.{type_cells, field_cells, range_cells, due_cells, chunk_cells};
ghost use Rattle.table.specs.Pushes.{Pushed, FieldTallied, Regular, share, Aboved, Tallied};
ghost use Rattle.table.specs.Sizes.{DueSized};
ghost use Rattle.table.specs.Notes.{NoteTaken};

use super::cells::put;
use super::rows::{FieldRow, RangeRow, TypeRow};
use super::types::super_of;

pub fn push_string(work: &mut [u32], start: u32, end: u32)
    requires ok { Ok work.old }
    requires work_bound { slice_index work.old 0 < 1024 }
    ensures { Pushed 0 16 2 (start ∷ end ∷ []) work.old work.new }
{
    let n = work[0];
    put(work, 16 + 2 * (n as usize), [start, end]);
    work[0] = n + 1;
}

// What is known of string i as a type's name, in place of what was.
pub fn note(work: &mut [u32], i: u32, memo: u32)
    requires ok { Ok work.old }
    requires i_bound { (i < slice_index work.old 0) × (memo ≤ 64) }
    ensures { NoteTaken i memo work.old work.new }
{
    let at = 16 + 2 * (i as usize);
    work[at] = work[at] % 66000000 + 66000000 * memo;
}

pub fn push_type(work: &mut [u32], t: TypeRow)
    requires ok { Ok work.old }
    requires work_bound { slice_index work.old 1 < 32 }
    ensures { Pushed 1 2064 5 (type_cells t) work.old work.new }
{
    let n = work[1];
    put(
        work,
        2064 + 5 * (n as usize),
        [t.start, t.end, t.sup, t.base, t.sum],
    );
    work[1] = n + 1;
}

// Seven cells of a field's row are not used, and cleared.
fn put_field(work: &mut [u32], at: usize, d: FieldRow)
    requires { at + 16 ≤ length work.old }
    ensures { work.new ≡ sets work.old at (field_cells d) }
{
    let a_low = (d.a % 4294967296) as u32;
    let a_high = (d.a / 4294967296) as u32;
    let e_low = (d.e % 4294967296) as u32;
    let e_high = (d.e / 4294967296) as u32;
    put(
        work,
        at,
        [
            d.start, d.end, d.owner, d.kind, a_low, a_high, e_low, e_high, d.sum, 0, 0, 0, 0, 0, 0,
            0,
        ],
    );
}

// Among the tallies of type t, that the n-th field is its own: the fields of t stand from the first such on and up to the last.
fn tally_field(work: &mut [u32], t: u32, n: u32)
    requires work_len { length work.old ≡ 16384 }
    requires n_bound { n < 128 }
    ensures { FieldTallied t n work.old work.new }
{
    if 32 <= t {
        return;
    }
    let at = 16048 + 8 * (t as usize);
    if work[at + 7] != 0 {
        work[at + 7] = n + 1;
        return;
    }
    work[at] = n;
    work[at + 7] = n + 1;
}

pub fn push_field(work: &mut [u32], d: FieldRow)
    requires ok { Ok work.old }
    requires work_bound { slice_index work.old 2 < 128 }
    ensures { Pushed 2 2224 16 (field_cells d) work.old work.new }
{
    let n = work[2];
    put_field(work, 2224 + 16 * (n as usize), d);
    work[2] = n + 1;
    tally_field(work, d.owner, n);
}

// The tallies are told, and the range is one of a known type that has none in its block or in a later one. Where the type has no
// super type, its objects go on from those before.
fn regular(work: &[u32], r: RangeRow, up: u32) -> bool
    requires work_len { length work.now ≡ 16384 }
    requires typ_bound { r.typ < 32 }
    ensures { result ≡ true → Regular r up work.now }
{
    if work[7] != 1 {
        return false;
    }
    if work[1] <= r.typ {
        return false;
    }
    let at = 16048 + 8 * (r.typ as usize);
    if r.block < work[at + 2] {
        return false;
    }
    if 4294901760 < work[at + 1] {
        return false;
    }
    if 4294901760 < work[16304] {
        return false;
    }
    if up != 0 {
        return true;
    }
    r.first == work[at + 1]
}

fn share_of(up: u32, n: u32) -> u32
    ensures value { result ≡ share up n }
    ensures upper_bound { result ≤ n }
{
    if up == 0 {
        return n;
    }
    0
}

// In the tallies of the super type up - 1, a range below it of block b that ends at `end`.
fn tally_above(work: &mut [u32], up: u32, b: u32, end: u32)
    requires work_len { length work.old ≡ 16384 }
    requires b_bound { b < 32768 }
    ensures { Aboved up b end work.old work.new }
{
    if up == 0 {
        return;
    }
    if 32 < up {
        return;
    }
    let at = 16048 + 8 * ((up - 1) as usize) + 5;
    let c = work[at];
    if c <= b {
        put(work, at, [b + 1, end]);
        return;
    }
    if c != b + 1 {
        return;
    }
    if end < work[at + 1] {
        return;
    }
    work[at + 1] = end;
}

// The range r, the n-th, of a type with super type up - 1, in the tallies. Where it is not as the rules have it they are not
// told any more.
fn tally_range(work: &mut [u32], r: RangeRow, up: u32, n: u32)
    requires work_len { length work.old ≡ 16384 }
    requires small { Small r }
    ensures { Tallied r up n work.old work.new }
{
    if !regular(work, r, up) {
        work[7] = 0;
        return;
    }
    let at = 16048 + 8 * (r.typ as usize) + 1;
    let sum = work[at];
    let all = work[16304] + share_of(up, r.count);
    put(work, at, [sum + r.count, r.block + 1, sum, n]);
    work[16304] = all;
    tally_above(work, up, r.block, r.start + r.count);
}

// A range has a link: where the type's last one before it stands, by the tallies.
pub fn push_range(work: &mut [u32], r: RangeRow)
    requires ok { Ok work.old }
    requires work_bound { slice_index work.old 3 < 1024 }
    requires small { Small r }
    ensures { Pushed 3 4272 3 (range_cells r (tally work.old r.typ 4)) work.old work.new }
{
    let up = super_of(work, r.typ);
    let n = work[3];
    let link = work[16048 + 8 * (r.typ as usize) + 4] % 4096;
    let whose = r.typ + 32 * r.block + 1048576 * link;
    let extent = r.start + 65536 * r.count;
    put(work, 4272 + 3 * (n as usize), [whose, extent, r.first]);
    work[3] = n + 1;
    tally_range(work, r, up, n);
}

pub fn push_due(work: &mut [u32], field: u32, values: u32, size: u64)
    requires ok { Ok work.old }
    requires work_bound { slice_index work.old 4 < 128 }
    ensures { Pushed 4 7344 4 (due_cells field values size) work.old work.new }
{
    let n = work[4];
    let low = (size % 4294967296) as u32;
    let high = (size / 4294967296) as u32;
    put(work, 7344 + 4 * (n as usize), [field, values, low, high]);
    work[4] = n + 1;
}

// The size of the i-th chunk that is due: of a listing it is known only when the chunk's values were read.
pub fn size_due(work: &mut [u32], i: u32, size: u64)
    requires ok { Ok work.old }
    requires i_bound { i < slice_index work.old 4 }
    ensures { DueSized i size work.old work.new }
{
    let low = (size % 4294967296) as u32;
    let high = (size / 4294967296) as u32;
    put(work, 7344 + 4 * (i as usize) + 2, [low, high]);
}

pub fn push_chunk(work: &mut [u32], field: u32, start: u32, end: u32)
    requires ok { Ok work.old }
    requires work_bound { slice_index work.old 5 < 4096 }
    requires field_bound { (field < 128) × (start < 33554432) }
    ensures { Pushed 5 7856 2 (chunk_cells field start end) work.old work.new }
{
    let n = work[5];
    let whose = field + 128 * start;
    put(work, 7856 + 2 * (n as usize), [whose, end]);
    work[5] = n + 1;
}
