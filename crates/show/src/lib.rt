// The values of a chunk as lines of a listing. It is known of them that they keep the rules: where that were not so, a read
// that fails is passed over, and nothing is said of the text.
#![tactic(auto)]

ghost use Rattle.std.specs.Prelude.{◌≡◌, true, List, ℕ, [], ◌∷◌, ◌+◌, ◌<◌, ◌≤◌, length};
ghost use Rattle.std.proofs.lemmas.List.Edits.{sets};
ghost use Rattle.paper.specs.Reader.{Reader, repeat};
ghost use Rattle.paper.specs.Numbers.{signed, put_fixed, v64};
ghost use Rattle.paper.specs.Rules.{element_kind?};
ghost use Rattle.paper.specs.File.{element};
ghost use Rattle.paper.specs.Ledger.{State, Element};
ghost use Rattle.paper.specs.Listing.{tab, newline, decimal, decimalℤ, hex_digits, element_word, value_line, print_chunk};
ghost use Rattle.lay.specs.Laid.{Laid};
ghost use Rattle.laws.specs.Lines.{tabs};
ghost use Rattle.words.specs.Stored.{Stored};
ghost use Rattle.values.specs.Chunks.{Kinds};
ghost use Rattle.values.specs.Columns.{element_of, Storable};
ghost use Rattle.show.specs.Shown.{Shown, Shows, Lays};
ghost use Rattle.show.specs.Single.{FlagWord, val, line_of, Fixed, Width};
ghost use Rattle.show.specs.Lines.{two_words, list, ChunkShown};
ghost use Rattle.show.specs.Maps.{Keyed, map_in, key_in};

use lay::{behind, put, put_bytes};
use numbers::{Cursor, Outcome};
use values::columns::{Value, value_of};
use values::maps::map_kinds;
use words::write::{
    bits_of, put_decimal, put_hex, put_integer, put_signed, room, store_decimal, store_hex,
    store_integer,
};

// Behind what was read, and behind what was laid.
#[derive(Clone, Copy)]
pub struct Behind {
    pub next: Cursor,
    pub at: usize,
}

// The word of a bool.
fn flag_word(b: bool) -> u8
    ensures { FlagWord b result }
{
    if b { b'1' } else { b'0' }
}

// The word of an element.
pub fn put_element(out: &mut [u8], at: usize, v: Value) -> usize
    requires { Storable v }
    ensures { Laid out.old at (element_word (element_of v)) out.new result }
{
    match v {
        Value::Flag(b) => put(out, at, flag_word(b)),
        Value::Whole(z) => put_signed(out, at, z),
        Value::Float(width, bits) => {
            let digits = 2 * width;
            put_hex(out, at, digits as usize, bits)
        }
        Value::Object(n) => put_decimal(out, at, n),
    }
}

// `val` and a tab, which fit.
fn store_val(out: &mut [u8], at: usize)
    requires { at + 4 ≤ length out.old }
    ensures { out.new ≡ sets out.old at val }
{
    out[at] = b'v';
    out[at + 1] = b'a';
    out[at + 2] = b'l';
    out[at + 3] = b'\t';
}

// A byte, which fits: the place behind it.
fn store_byte(out: &mut [u8], at: usize, b: u8) -> usize
    requires { at < length out.old }
    ensures { Stored out.old at (b ∷ []) out.new result }
{
    out[at] = b;
    at + 1
}

// Lines of one word. A line has at most 26 bytes, `val`, a tab, a sign, 20 digits and the newline: where so many are left, the room
// is asked for once and nothing more is tested. The rest goes the long way, which counts what does not fit.

// The line of a word of one byte.
fn put_byte_line(out: &mut [u8], at: usize, b: u8) -> usize
    ensures { Laid out.old at (line_of (b ∷ [])) out.new result }
{
    if 26 <= room(out.len(), at) {
        store_val(out, at);
        let end = store_byte(out, at + 4, b);
        return store_byte(out, end, b'\n');
    }
    let word = put_bytes(out, at, b"val\t");
    let end = put(out, word, b);
    put(out, end, b'\n')
}

// The line of the signed number of these bits.
fn put_integer_line(out: &mut [u8], at: usize, bits: u64) -> usize
    ensures { Laid out.old at (line_of (decimalℤ (signed 8 bits))) out.new result }
{
    if 26 <= room(out.len(), at) {
        store_val(out, at);
        let end = store_integer(out, at + 4, bits);
        return store_byte(out, end, b'\n');
    }
    let word = put_bytes(out, at, b"val\t");
    let end = put_integer(out, word, bits);
    put(out, end, b'\n')
}

// The line of a number of a string or of an object.
fn put_decimal_line(out: &mut [u8], at: usize, n: u64) -> usize
    ensures { Laid out.old at (line_of (decimal n)) out.new result }
{
    if 26 <= room(out.len(), at) {
        store_val(out, at);
        let end = store_decimal(out, at + 4, n);
        return store_byte(out, end, b'\n');
    }
    let word = put_bytes(out, at, b"val\t");
    let end = put_decimal(out, word, n);
    put(out, end, b'\n')
}

// The line of a float's bits, in so many digits.
fn put_hex_line(out: &mut [u8], at: usize, digits: usize, bits: u64) -> usize
    requires { digits ≤ 16 }
    ensures { Laid out.old at (line_of (hex_digits digits bits)) out.new result }
{
    if 26 <= room(out.len(), at) {
        store_val(out, at);
        store_hex(out, at + 4, digits, bits);
        return store_byte(out, at + 4 + digits, b'\n');
    }
    let word = put_bytes(out, at, b"val\t");
    let end = put_hex(out, word, digits, bits);
    put(out, end, b'\n')
}

// The line of an element.
fn put_element_line(out: &mut [u8], at: usize, v: Value) -> usize
    requires { Storable v }
    ensures { Laid out.old at (line_of (element_word (element_of v))) out.new result }
{
    match v {
        Value::Flag(b) => put_byte_line(out, at, flag_word(b)),
        Value::Whole(z) => put_integer_line(out, at, bits_of(z)),
        Value::Float(width, bits) => {
            let digits = 2 * width;
            put_hex_line(out, at, digits as usize, bits)
        }
        Value::Object(n) => put_decimal_line(out, at, n),
    }
}

// A tab, and the word of the v64 that comes next.
fn put_v64(part: &[u8], c: Cursor, out: &mut [u8], at: usize) -> Behind
    ensures { Shows (λ s. element s 11) (λ x. tab ∷ element_word x) part.now c.at out.old at out.new result }
{
    let Ok((n, next)) = c.v64(part) else {
        return Behind { next: c, at };
    };
    let word = put(out, at, b'\t');
    let end = put_integer(out, word, n);
    Behind { next, at: end }
}

// A tab, and the number that comes next, of a string or of an object.
fn put_number(part: &[u8], c: Cursor, out: &mut [u8], at: usize) -> Behind
    ensures { Shows (λ s. v64) (λ n. tab ∷ decimal n) part.now c.at out.old at out.new result }
{
    let Ok((n, next)) = c.v64(part) else {
        return Behind { next: c, at };
    };
    let word = put(out, at, b'\t');
    let end = put_decimal(out, word, n);
    Behind { next, at: end }
}

// The two fields of an annotation: the numbers of a base type's name and of an object.
fn put_annotation(part: &[u8], c: Cursor, out: &mut [u8], at: usize) -> Behind
    ensures { Shows (λ s. element s 5) (λ x. tab ∷ element_word x) part.now c.at out.old at out.new result }
{
    let name = put_number(part, c, out, at);
    put_number(part, name.next, out, name.at)
}

// How many bytes an element of kind e has, where all of them have as many.
fn width_of(e: u64) -> usize
    requires { Fixed e }
    ensures { Width e result }
{
    match e {
        6..=7 => 1,
        8 => 2,
        9 | 12 => 4,
        _ => 8,
    }
}

// A tab, and the word of the bool, the fixed number or the float of kind e that comes next, by way of its value: the place behind the
// word alone, which no memory is needed for.
fn put_other(part: &[u8], c: Cursor, e: u64, out: &mut [u8], at: usize) -> usize
    requires { Fixed e }
    ensures { Shown (λ s. element s e) (λ x. tab ∷ element_word x) part.now c.at out.old at out.new result }
{
    let Ok((n, _)) = c.fixed(part, width_of(e)) else {
        return at;
    };
    let word = put(out, at, b'\t');
    put_element(out, word, value_of(n, e))
}

// The same, with the place behind what was read: it is known from the width.
fn put_wide(part: &[u8], c: Cursor, e: u64, width: usize, out: &mut [u8], at: usize) -> Behind
    requires { Fixed e × Width e width }
    ensures { Shows (λ s. element s e) (λ x. tab ∷ element_word x) part.now c.at out.old at out.new result }
{
    let end = put_other(part, c, e, out, at);
    let next = Cursor {
        at: behind(c.at, width),
    };
    Behind { next, at: end }
}

// m of them.
fn put_others(part: &[u8], c: Cursor, m: u64, e: u64, out: &mut [u8], at: usize) -> Behind
    requires { Fixed e }
    ensures { Shows (λ s. repeat m (element s e)) (tabs element_word) part.now c.at out.old at out.new result }
{
    let width = width_of(e);
    let mut here = Behind { next: c, at };
    for _ in 0..m {
        here = put_wide(part, here.next, e, width, out, here.at);
    }
    here
}

// Whether all elements of kind e have as many bytes.
fn is_fixed(e: u64) -> bool
    ensures { result ≡ true → Fixed e }
{
    if e < 6 {
        return false;
    }
    if e == 11 {
        return false;
    }
    e < 14
}

// A tab, and the word of the element of kind e that comes next. The kinds that are met most have a way of their own, which is
// shorter.
fn put_next(part: &[u8], c: Cursor, e: u64, out: &mut [u8], at: usize) -> Behind
    requires { element_kind? e ≡ true }
    ensures { Shows (λ s. element s e) (λ x. tab ∷ element_word x) part.now c.at out.old at out.new result }
{
    if e == 11 {
        return put_v64(part, c, out, at);
    }
    if 13 < e {
        return put_number(part, c, out, at);
    }
    if e == 5 {
        return put_annotation(part, c, out, at);
    }
    let end = put_other(part, c, e, out, at);
    let next = Cursor {
        at: behind(c.at, width_of(e)),
    };
    Behind { next, at: end }
}

// m such elements. Where there are none, e need not be the kind of an element: a constant has no other.
fn put_elements(part: &[u8], c: Cursor, m: u64, e: u64, out: &mut [u8], at: usize) -> Behind
    requires { 0 < m → element_kind? e ≡ true }
    ensures { Shows (λ s. repeat m (element s e)) (tabs element_word) part.now c.at out.old at out.new result }
{
    if is_fixed(e) {
        return put_others(part, c, m, e, out, at);
    }
    let mut here = Behind { next: c, at };
    for _ in 0..m {
        here = put_next(part, here.next, e, out, here.at);
    }
    here
}

// The line of a value of m elements.
fn put_value(part: &[u8], c: Cursor, m: u64, e: u64, out: &mut [u8], at: usize) -> Behind
    requires { 0 < m → element_kind? e ≡ true }
    ensures { Shows (λ s. repeat m (element s e)) value_line part.now c.at out.old at out.new result }
{
    let first = put_bytes(out, at, b"val");
    let all = put_elements(part, c, m, e, out, first);
    let end = put(out, all.at, b'\n');
    let next = all.next;
    Behind { next, at: end }
}

// The line of an array that gives its own length.
fn put_list(part: &[u8], c: Cursor, e: u64, out: &mut [u8], at: usize) -> Behind
    requires { element_kind? e ≡ true }
    ensures { Shows (list e) value_line part.now c.at out.old at out.new result }
{
    let Ok((m, next)) = c.small(part) else {
        return Behind { next: c, at };
    };
    put_value(part, next, m, e, out, at)
}

// The line of a v64.
fn put_v64_line(part: &[u8], c: Cursor, out: &mut [u8], at: usize) -> Behind
    ensures { Shows (λ s. repeat 1 (element s 11)) value_line part.now c.at out.old at out.new result }
{
    let Ok((n, next)) = c.v64(part) else {
        return Behind { next: c, at };
    };
    let end = put_integer_line(out, at, n);
    Behind { next, at: end }
}

// The lines of n values, each of which the step lays down behind the last. A loop of its own is made for each step, and no kind is
// asked in it.
fn lines_of<F: Fn(Behind, &mut [u8]) -> Behind>(n: u32, out: &mut [u8], at: usize, step: F) -> usize
    requires { F.IsAlwaysCallable step }
    ensures { (r : State → Reader (List Element)) (f : List ℕ) → Lays (F.post step) r value_line f → Shown (λ s. repeat n (r s)) print_chunk f 0 out.old at out.new result }
{
    let mut here = Behind {
        next: Cursor { at: 0 },
        at,
    };
    for _ in 0..n {
        here = step(here, out);
    }
    here.at
}

// The lines of n of them.
fn put_v64_lines(part: &[u8], n: u32, out: &mut [u8], at: usize) -> usize
    ensures { Shown (λ s. repeat n (repeat 1 (element s 11))) print_chunk part.now 0 out.old at out.new result }
{
    lines_of(n, out, at, |here, out| {
        put_v64_line(part, here.next, out, here.at)
    })
}

// The line of two numbers, of a base type's name and of an object. It has at most 46 bytes.
fn put_two_line(out: &mut [u8], at: usize, m: u64, n: u64) -> usize
    ensures { Laid out.old at (line_of (two_words m n)) out.new result }
{
    if 46 <= room(out.len(), at) {
        store_val(out, at);
        let first = store_decimal(out, at + 4, m);
        let second = store_byte(out, first, b'\t');
        let end = store_decimal(out, second, n);
        return store_byte(out, end, b'\n');
    }
    let word = put_bytes(out, at, b"val\t");
    let first = put_decimal(out, word, m);
    let second = put(out, first, b'\t');
    let end = put_decimal(out, second, n);
    put(out, end, b'\n')
}

// The line of an annotation.
fn put_annotation_line(part: &[u8], c: Cursor, out: &mut [u8], at: usize) -> Behind
    ensures { Shows (λ s. repeat 1 (element s 5)) value_line part.now c.at out.old at out.new result }
{
    let Ok((m, second)) = c.v64(part) else {
        return Behind { next: c, at };
    };
    let Ok((n, next)) = second.v64(part) else {
        return Behind { next: c, at };
    };
    let end = put_two_line(out, at, m, n);
    Behind { next, at: end }
}

// The lines of n of them.
fn put_annotation_lines(part: &[u8], n: u32, out: &mut [u8], at: usize) -> usize
    ensures { Shown (λ s. repeat n (repeat 1 (element s 5))) print_chunk part.now 0 out.old at out.new result }
{
    lines_of(n, out, at, |here, out| {
        put_annotation_line(part, here.next, out, here.at)
    })
}

// The line of a string's or an object's number.
fn put_link_line(part: &[u8], c: Cursor, e: u64, out: &mut [u8], at: usize) -> Behind
    requires { 13 < e }
    ensures { Shows (λ s. repeat 1 (element s e)) value_line part.now c.at out.old at out.new result }
{
    let Ok((n, next)) = c.v64(part) else {
        return Behind { next: c, at };
    };
    let end = put_decimal_line(out, at, n);
    Behind { next, at: end }
}

// The lines of n of them.
fn put_link_lines(part: &[u8], n: u32, e: u64, out: &mut [u8], at: usize) -> usize
    requires { 13 < e }
    ensures { Shown (λ s. repeat n (repeat 1 (element s e))) print_chunk part.now 0 out.old at out.new result }
{
    lines_of(n, out, at, |here, out| {
        put_link_line(part, here.next, e, out, here.at)
    })
}

// The line of a value of one element of another kind.
fn put_other_line(part: &[u8], c: Cursor, e: u64, out: &mut [u8], at: usize) -> Behind
    requires { Fixed e }
    ensures { Shows (λ s. repeat 1 (element s e)) value_line part.now c.at out.old at out.new result }
{
    let Ok((n, next)) = c.fixed(part, width_of(e)) else {
        return Behind { next: c, at };
    };
    let end = put_element_line(out, at, value_of(n, e));
    Behind { next, at: end }
}

// The lines of n of them, in a loop of its own: its step asks for the kind, and handed to `lines_of` as a closure it would be asked in each
// turn, which made lines of bools a seventh slower.
fn put_other_lines(part: &[u8], n: u32, e: u64, out: &mut [u8], at: usize) -> usize
    requires { Fixed e }
    ensures { Shown (λ s. repeat n (repeat 1 (element s e))) print_chunk part.now 0 out.old at out.new result }
{
    let mut here = Behind {
        next: Cursor { at: 0 },
        at,
    };
    for _ in 0..n {
        here = put_other_line(part, here.next, e, out, here.at);
    }
    here.at
}

// The lines of n values of one element each. The kind is asked before the loop, never in it.
fn put_singles(part: &[u8], n: u32, e: u64, out: &mut [u8], at: usize) -> usize
    requires { element_kind? e ≡ true }
    ensures { Shown (λ s. repeat n (repeat 1 (element s e))) print_chunk part.now 0 out.old at out.new result }
{
    if e == 11 {
        return put_v64_lines(part, n, out, at);
    }
    if 13 < e {
        return put_link_lines(part, n, e, out, at);
    }
    if e == 5 {
        return put_annotation_lines(part, n, out, at);
    }
    put_other_lines(part, n, e, out, at)
}

// The lines of n values of m elements each.
fn put_values(part: &[u8], n: u32, m: u64, e: u64, out: &mut [u8], at: usize) -> usize
    requires { 0 < m → element_kind? e ≡ true }
    ensures { Shown (λ s. repeat n (repeat m (element s e))) print_chunk part.now 0 out.old at out.new result }
{
    lines_of(n, out, at, |here, out| {
        put_value(part, here.next, m, e, out, here.at)
    })
}

// The lines of n arrays that give their own lengths.
fn put_lists(part: &[u8], n: u32, e: u64, out: &mut [u8], at: usize) -> usize
    requires { element_kind? e ≡ true }
    ensures { Shown (λ s. repeat n (list e s)) print_chunk part.now 0 out.old at out.new result }
{
    lines_of(n, out, at, |here, out| {
        put_list(part, here.next, e, out, here.at)
    })
}

// The words of a map of the types whose kinds are given. Of one type it is an element; of more it is a size, and then for
// each key the key and what it leads to.
#[cycle(put_key_and_rest_put_map)]
fn put_map(part: &[u8], c: Cursor, kinds: &[u64], out: &mut [u8], at: usize) -> Behind
    requires { Keyed 1 kinds.now }
    ensures { Shows (map_in kinds.now) (tabs element_word) part.now c.at out.old at out.new result }
{
    if kinds.len() == 1 {
        return put_next(part, c, kinds[0], out, at);
    }
    let Ok((n, keys)) = c.small(part) else {
        return Behind { next: c, at };
    };
    let word = put(out, at, b'\t');
    let first = put_decimal(out, word, n);
    let mut here = Behind {
        next: keys,
        at: first,
    };
    for _ in 0..n {
        here = put_key_and_rest(part, here.next, kinds, out, here.at);
    }
    here
}

// The words of a key of the first kind, and of what it leads to: a map of the other types or, if only one is left, an element of it.
#[cycle(put_key_and_rest_put_map)]
fn put_key_and_rest(part: &[u8], c: Cursor, kinds: &[u64], out: &mut [u8], at: usize) -> Behind
    requires { Keyed 2 kinds.now }
    ensures { Shows (key_in kinds.now) (tabs element_word) part.now c.at out.old at out.new result }
{
    let key = put_next(part, c, kinds[0], out, at);
    if kinds.len() == 2 {
        return put_next(part, key.next, kinds[1], out, key.at);
    }
    put_map(part, key.next, &kinds[1..], out, key.at)
}

// The line of a map.
fn put_map_line(part: &[u8], c: Cursor, kinds: &[u64], out: &mut [u8], at: usize) -> Behind
    requires { Keyed 1 kinds.now }
    ensures { Shows (map_in kinds.now) value_line part.now c.at out.old at out.new result }
{
    let first = put_bytes(out, at, b"val");
    let all = put_map(part, c, kinds, out, first);
    let end = put(out, all.at, b'\n');
    let next = all.next;
    Behind { next, at: end }
}

// The lines of n maps.
fn put_map_lines(part: &[u8], n: u32, kinds: &[u64], out: &mut [u8], at: usize) -> usize
    requires { Keyed 1 kinds.now }
    ensures { Shown (λ s. repeat n (map_in kinds.now s)) print_chunk part.now 0 out.old at out.new result }
{
    lines_of(n, out, at, |here, out| {
        put_map_line(part, here.next, kinds, out, here.at)
    })
}

// The lines of n maps of a types, whose kinds are the bytes of e.
fn put_maps(part: &[u8], n: u32, a: u64, e: u64, out: &mut [u8], at: usize) -> usize
    requires { Keyed 1 (put_fixed a e) × (a ≤ 8) }
    ensures { Shown (λ s. repeat n (map_in (put_fixed a e) s)) print_chunk part.now 0 out.old at out.new result }
{
    let mut kinds = [0; 8];
    let types = map_kinds(a, e, &mut kinds);
    put_map_lines(part, n, &kinds[..types], out, at)
}

// The lines of a chunk's n values, whose kind has the first number k, a constant's bits, an array's length or a map's number
// of types a, and the last number e: the place behind them.
pub fn show_chunk(part: &[u8], n: u32, k: u64, a: u64, e: u64, out: &mut [u8], at: usize) -> usize
    requires { Kinds k a e }
    ensures { ChunkShown n k a e part.now out.old at out.new result }
{
    match k {
        // A constant has no elements in its chunk.
        0..=4 => put_values(part, n, 0, e, out, at),
        15 => put_values(part, n, a, e, out, at),
        17..=19 => put_lists(part, n, e, out, at),
        20 => put_maps(part, n, a, e, out, at),
        _ => put_singles(part, n, e, out, at),
    }
}
