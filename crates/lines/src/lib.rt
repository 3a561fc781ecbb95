// The lines of a listing, laid into a lent buffer. What does not fit is counted and not stored, as in `lay`, so no line asks for
// room. A word is laid with the byte that ends it: a tab, a comma or the newline.
#![tactic(auto)]

ghost use Rattle.std.specs.Prelude.{◌≡◌, [], ◌∷◌, ◌++◌, replicate};
ghost use Rattle.lay.specs.Laid.{Laid};
ghost use Rattle.paper.specs.Ledger.{constant, array, many};
ghost use Rattle.paper.specs.Lists.{flat};
ghost use Rattle.paper.specs.Listing.{ascii, tab, newline, comma, decimal, or_dash, kind_word, pair_line, string_line, type_line, old_line, new_line};
ghost use Rattle.table.specs.View.{kind_from};
ghost use Rattle.words.specs.Answers.{option};

use values::constants::constant_of;
use words::write::{put_decimal, put_hex_bytes, put_signed};

// A number and the byte that ends it.
fn put_ended(out: &mut [u8], at: usize, x: u64, end: u8) -> usize
    ensures { Laid out.old at (decimal x ++ end ∷ []) out.new result }
{
    let behind = put_decimal(out, at, x);
    lay::put(out, behind, end)
}

pub fn put_pair(out: &mut [u8], at: usize, strings: u64, entries: u64) -> usize
    ensures { Laid out.old at (pair_line strings entries) out.new result }
{
    let second = lay::put_bytes(out, at, b"pair\t");
    let third = put_ended(out, second, strings, b'\t');
    put_ended(out, third, entries, b'\n')
}

pub fn put_string(out: &mut [u8], at: usize, s: &[u8]) -> usize
    ensures { Laid out.old at (string_line s.now) out.new result }
{
    let second = lay::put_bytes(out, at, b"str\t");
    let end = put_hex_bytes(out, second, s);
    lay::put(out, end, b'\n')
}

// A number or a dash, and a tab.
fn put_or_dash(out: &mut [u8], at: usize, x: Option<u64>) -> usize
    ensures { Laid out.old at (or_dash (option x) ++ tab ∷ []) out.new result }
{
    match x {
        None => lay::put_bytes(out, at, b"-\t"),
        Some(n) => put_ended(out, at, n, b'\t'),
    }
}

pub fn put_type(
    out: &mut [u8],
    at: usize,
    name: u64,
    sup: Option<u64>,
    start: Option<u64>,
    count: u64,
    fields: u64,
) -> usize
    ensures { Laid out.old at (type_line (record { name = name; super = option sup; start = option start; count = count }) fields) out.new result }
{
    let second = lay::put_bytes(out, at, b"type\t");
    let third = put_ended(out, second, name, b'\t');
    let fourth = put_or_dash(out, third, sup);
    let fifth = put_or_dash(out, fourth, start);
    let sixth = put_ended(out, fifth, count, b'\t');
    put_ended(out, sixth, fields, b'\n')
}

fn put_old(out: &mut [u8], at: usize) -> usize
    ensures { Laid out.old at old_line out.new result }
{
    lay::put_bytes(out, at, b"old\n")
}

// A line for each of n known fields.
pub fn put_olds(out: &mut [u8], at: usize, n: u64) -> usize
    ensures { Laid out.old at (flat (λ (u : Unit {0}). old_line) (replicate n tt)) out.new result }
{
    let mut p = at;
    for _ in 0..n {
        p = put_old(out, p);
    }
    p
}

// The kind of a constant: its first number k and its value.
fn put_constant(out: &mut [u8], at: usize, k: u64, value: i64) -> usize
    ensures { Laid out.old at (kind_word (constant k value)) out.new result }
{
    let second = put_ended(out, at, k, b',');
    put_signed(out, second, value)
}

// The kind of an array: its length n and the kind e of its elements.
fn put_array(out: &mut [u8], at: usize, n: u64, e: u64) -> usize
    ensures { Laid out.old at (kind_word (array n e)) out.new result }
{
    let second = lay::put_bytes(out, at, b"15,");
    let third = put_ended(out, second, n, b',');
    put_decimal(out, third, e)
}

// The kind of as many elements as a value says: its first number k and the kind e of its elements.
fn put_many(out: &mut [u8], at: usize, k: u64, e: u64) -> usize
    ensures { Laid out.old at (kind_word (many k e)) out.new result }
{
    let second = put_ended(out, at, k, b',');
    put_decimal(out, second, e)
}

// The kind that has the first number k, a constant's bits or an array's length a, and the last number e. The kinds of a map
// are laid one by one, since its last number does not have those from 255 upwards.
fn put_kind(out: &mut [u8], at: usize, k: u64, a: u64, e: u64) -> usize
    requires { k ≡ 20 → ⊥ }
    ensures { Laid out.old at (kind_word (kind_from k a e)) out.new result }
{
    match k {
        0..=4 => put_constant(out, at, k, constant_of(k as u32, a)),
        15 => put_array(out, at, a, e),
        17..=19 => put_many(out, at, k, e),
        _ => put_decimal(out, at, e),
    }
}

// The end of a new field's line: its name.
pub fn put_name(out: &mut [u8], at: usize, name: u64) -> usize
    ensures { Laid out.old at (tab ∷ (decimal name ++ newline ∷ [])) out.new result }
{
    let last = lay::put(out, at, b'\t');
    put_ended(out, last, name, b'\n')
}

// The line of a new field, by the numbers of its kind.
pub fn put_new(out: &mut [u8], at: usize, k: u64, a: u64, e: u64, name: u64) -> usize
    requires { k ≡ 20 → ⊥ }
    ensures { Laid out.old at (new_line (record { kind = kind_from k a e; name = name })) out.new result }
{
    let second = lay::put_bytes(out, at, b"new\t");
    let end = put_kind(out, second, k, a, e);
    put_name(out, end, name)
}

// The line of a new map of n types, up to its element kinds.
pub fn put_map(out: &mut [u8], at: usize, n: u64) -> usize
    ensures { Laid out.old at (ascii "new\t20," ++ decimal n) out.new result }
{
    let second = lay::put_bytes(out, at, b"new\t20,");
    put_decimal(out, second, n)
}

// One of a map's element kinds.
pub fn put_map_kind(out: &mut [u8], at: usize, k: u64) -> usize
    ensures { Laid out.old at (comma ∷ decimal k) out.new result }
{
    let word = lay::put(out, at, b',');
    put_decimal(out, word, k)
}
