// Rows of the table, as structs: how many there are of each kind, and the row at a place.
ghost use Rattle.std.specs.Prelude.{◌≡◌, ◌+◌, ◌*◌, ◌<◌, ◌≤◌, length, slice_index, slice_index_or};
ghost use Rattle.paper.specs.Ledger.{no_type, no_field};
ghost use Rattle.table.specs.View.{strs_of, names_of, titles_of, types_of, flds_of, log_of, dues_of, chunks_of, Ok};
ghost use Rattle.table.specs.Answers.{Stands, Remembered, Named, typ_in, field_in, range_in, no_range, Small, due_in, no_due, spot_in, no_spot, Near};

// A part of the source.
#[derive(Clone, Copy)]
pub struct Span {
    pub start: u32,
    pub end: u32,
}

// A type: where its name stands; its super type, 0 for none and u + 1 for type u; the base type of its pool; its name's sum.
#[derive(Clone, Copy)]
pub struct TypeRow {
    pub start: u32,
    pub end: u32,
    pub sup: u32,
    pub base: u32,
    pub sum: u32,
}

// A field: where its name stands, its type, its kind in three numbers (`kind_from`), and its name's sum.
#[derive(Clone, Copy)]
pub struct FieldRow {
    pub start: u32,
    pub end: u32,
    pub owner: u32,
    pub kind: u32,
    pub a: u64,
    pub e: u64,
    pub sum: u32,
}

// The objects that a block adds to a type.
#[derive(Clone, Copy)]
pub struct RangeRow {
    pub typ: u32,
    pub block: u32,
    pub start: u32,
    pub first: u32,
    pub count: u32,
}

// A chunk that the present block must give.
#[derive(Clone, Copy)]
pub struct DueRow {
    pub field: u32,
    pub values: u32,
    pub size: u64,
}

// A chunk of a block before, and where it stands.
#[derive(Clone, Copy)]
pub struct ChunkRow {
    pub field: u32,
    pub start: u32,
    pub end: u32,
}

// Rows of one kind, from a place up to another.
#[derive(Clone, Copy)]
pub struct Stretch {
    pub from: u32,
    pub to: u32,
}

// The rows of each kind but the chunks that are due, which belong to one block only.
#[derive(Clone, Copy)]
pub struct Counts {
    pub strings: u32,
    pub types: u32,
    pub fields: u32,
    pub ranges: u32,
    pub chunks: u32,
}

// One function over them all would take from its callers which cell is meant, and only this crate knows a cell's number.
pub fn strings(work: &[u32]) -> u32
    requires { Ok work.now }
    ensures { result ≡ slice_index work.now 0 }
{
    work[0]
}

pub fn types(work: &[u32]) -> u32
    requires { Ok work.now }
    ensures { result ≡ slice_index work.now 1 }
{
    work[1]
}

pub fn fields(work: &[u32]) -> u32
    requires { Ok work.now }
    ensures { result ≡ slice_index work.now 2 }
{
    work[2]
}

pub fn ranges(work: &[u32]) -> u32
    requires { Ok work.now }
    ensures { result ≡ slice_index work.now 3 }
{
    work[3]
}

pub fn dues(work: &[u32]) -> u32
    requires { Ok work.now }
    ensures { result ≡ slice_index work.now 4 }
{
    work[4]
}

pub fn chunks(work: &[u32]) -> u32
    requires { Ok work.now }
    ensures { result ≡ slice_index work.now 5 }
{
    work[5]
}

pub fn block(work: &[u32]) -> u32
    requires { Ok work.now }
    ensures { result ≡ slice_index work.now 6 }
{
    work[6]
}

pub fn string_at(work: &[u32], i: u32) -> Span
    requires ok { Ok work.now }
    requires i_bound { i < slice_index work.now 0 }
    ensures { Stands strs_of work.now i result.start result.end }
{
    let at = 16 + 2 * (i as usize);
    Span {
        start: work[at] % 66000000,
        end: work[at + 1],
    }
}

// What is known of string i as a type's name: up to 32, so many types, the first ones, have another; from 33 on, it is that of
// type r - 33. Nothing is known where it is not kept up.
pub fn memo_at(work: &[u32], i: u32) -> u32
    requires ok { Ok work.now }
    requires i_bound { i < slice_index work.now 0 }
    ensures { Remembered work.now i result }
{
    if work[8] != 1 {
        return 0;
    }
    work[16 + 2 * (i as usize)] / 66000000
}

pub fn type_at(work: &[u32], i: u32) -> TypeRow
    requires ok { Ok work.now }
    requires i_bound { i < slice_index work.now 1 }
    ensures result_value { typ_in result ≡ slice_index_or (types_of work.now) i no_type }
    ensures named { Named names_of work.now i result.start result.end result.sum }
{
    let at = 2064 + 5 * (i as usize);
    TypeRow {
        start: work[at],
        end: work[at + 1],
        sup: work[at + 2],
        base: work[at + 3],
        sum: work[at + 4],
    }
}

// A number of two cells, the lower half first.
fn wide_at(work: &[u32], at: usize) -> u64
    requires { at + 2 ≤ length work.now }
    ensures { result ≡ slice_index work.now at + 4294967296 * slice_index work.now (at + 1) }
{
    let lo = work[at] as u64;
    let hi = work[at + 1] as u64;
    lo + 4294967296 * hi
}

pub fn field_at(work: &[u32], i: u32) -> FieldRow
    requires ok { Ok work.now }
    requires i_bound { i < slice_index work.now 2 }
    ensures result_value { field_in result ≡ slice_index_or (flds_of work.now) i no_field }
    ensures named { Named titles_of work.now i result.start result.end result.sum }
{
    let at = 2224 + 16 * (i as usize);
    let a = wide_at(work, at + 4);
    let e = wide_at(work, at + 6);
    FieldRow {
        start: work[at],
        end: work[at + 1],
        owner: work[at + 2],
        kind: work[at + 3],
        a,
        e,
        sum: work[at + 8],
    }
}

pub fn range_at(work: &[u32], i: u32) -> RangeRow
    requires ok { Ok work.now }
    requires i_bound { i < slice_index work.now 3 }
    ensures result_value { range_in result ≡ slice_index_or (log_of work.now) i no_range }
    ensures small { Small result }
{
    let at = 4272 + 3 * (i as usize);
    let whose = work[at];
    let extent = work[at + 1];
    RangeRow {
        typ: whose % 32,
        block: whose / 32 % 32768,
        start: extent % 65536,
        first: work[at + 2],
        count: extent / 65536,
    }
}

// Where the range before the i-th of the same type stands: a guess, to be looked at before it is trusted. The first one of a type has 0.
pub fn link_at(work: &[u32], i: u32) -> u32
    requires ok { Ok work.now }
    requires i_bound { i < slice_index work.now 3 }
    ensures { result < 4096 }
{
    work[4272 + 3 * (i as usize)] / 1048576
}

pub fn due_at(work: &[u32], i: u32) -> DueRow
    requires ok { Ok work.now }
    requires i_bound { i < slice_index work.now 4 }
    ensures { due_in result ≡ slice_index_or (dues_of work.now) i no_due }
{
    let at = 7344 + 4 * (i as usize);
    let size = wide_at(work, at + 2);
    DueRow {
        field: work[at],
        values: work[at + 1],
        size,
    }
}

pub fn chunk_at(work: &[u32], i: u32) -> ChunkRow
    requires ok { Ok work.now }
    requires i_bound { i < slice_index work.now 5 }
    ensures result_value { spot_in result ≡ slice_index_or (chunks_of work.now) i no_spot }
    ensures near { Near result }
{
    let at = 7856 + 2 * (i as usize);
    let whose = work[at];
    ChunkRow {
        field: whose % 128,
        start: whose / 128,
        end: work[at + 1],
    }
}
