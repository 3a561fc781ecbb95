// Pieces of a file, laid into a lent buffer. What does not fit is counted and not stored, as in `lay`.
#![tactic(auto)]

pub mod strings;

ghost use Rattle.std.specs.Prelude.{◌≡◌, [], ◌++◌, ◌≤◌};
ghost use Rattle.paper.specs.Reader.{when◌then◌else◌};
ghost use Rattle.paper.specs.Numbers.{put};
ghost use Rattle.paper.specs.Lists.{given?};
ghost use Rattle.laws.specs.Put.{put_option, put_head, put_whole, put_kind, put_new};
ghost use Rattle.lay.specs.Laid.{Laid};
ghost use Rattle.table.specs.View.{kind_from};
ghost use Rattle.words.specs.Answers.{option};
ghost use Rattle.parse.specs.Answers.{head_of};
ghost use Rattle.puts.specs.Kinds.{constant_of};

use numbers::write::{put_be, put_v64};
use parse::{NewLine, TypeLine};
use reader::kinds::Kind;

// What an entry may leave out.
fn put_option(out: &mut [u8], at: usize, x: Option<u64>) -> usize
    ensures { Laid out.old at (put_option (option x)) out.new result }
{
    match x {
        None => at,
        Some(n) => put_v64(out, at, n),
    }
}

// The number of restrictions, 0. Only a new type has it, and only a new type says its super type.
fn put_restrictions(out: &mut [u8], at: usize, sup: Option<u64>) -> usize
    ensures { Laid out.old at (when given? (option sup) then put 0 else []) out.new result }
{
    match sup {
        None => at,
        Some(_) => put_v64(out, at, 0),
    }
}

// The head of an entry, as its line says it.
pub fn put_head(out: &mut [u8], at: usize, line: TypeLine) -> usize
    ensures { Laid out.old at (put_head (head_of line)) out.new result }
{
    let second = put_v64(out, at, line.name);
    let third = put_option(out, second, line.sup);
    let fourth = put_option(out, third, line.start);
    let fifth = put_v64(out, fourth, line.count);
    put_restrictions(out, fifth, line.sup)
}

// Two numbers.
pub fn put_two(out: &mut [u8], at: usize, x: u64, y: u64) -> usize
    ensures { Laid out.old at (put x ++ put y) out.new result }
{
    let second = put_v64(out, at, x);
    put_v64(out, second, y)
}

// The value of a constant of kind k, by its bits a. No table keeps more bits than the kind has, so none are cut off here.
fn put_whole(out: &mut [u8], at: usize, k: u64, a: u64) -> usize
    requires { k ≤ 4 }
    ensures { Laid out.old at (put_whole k (constant_of k a)) out.new result }
{
    match k {
        0 => put_be::<1>(out, at, a.min(255)),
        1 => put_be::<2>(out, at, a.min(65535)),
        2 => put_be::<4>(out, at, a.min(4294967295)),
        3 => put_be::<8>(out, at, a),
        _ => put_v64(out, at, a),
    }
}

// The kind of a constant and its value.
fn put_constant(out: &mut [u8], at: usize, k: u64, a: u64) -> usize
    requires { k ≤ 4 }
    ensures { Laid out.old at (put k ++ put_whole k (constant_of k a)) out.new result }
{
    let second = put_v64(out, at, k);
    put_whole(out, second, k, a)
}

// The kind of an array: its length n and the kind e of its elements.
fn put_array(out: &mut [u8], at: usize, n: u64, e: u64) -> usize
    ensures { Laid out.old at (put 15 ++ put n ++ put e) out.new result }
{
    let third = put_two(out, at, 15, n);
    put_v64(out, third, e)
}

// A kind, by its numbers. A map's element kinds do not stand in these, so they are laid by whoever reads them.
pub fn put_kind(out: &mut [u8], at: usize, kind: Kind) -> usize
    requires { kind.first ≡ 20 → ⊥ }
    ensures { Laid out.old at (put_kind (kind_from kind.first kind.bits kind.last)) out.new result }
{
    let Kind { first, bits, last } = kind;
    match first {
        0..=4 => put_constant(out, at, first, bits),
        15 => put_array(out, at, bits, last),
        17..=19 => put_two(out, at, first, last),
        _ => put_v64(out, at, last),
    }
}

// A new field, as its line says it, and where its chunk ends. It has no restrictions.
pub fn put_new(out: &mut [u8], at: usize, line: NewLine, end: u64) -> usize
    requires { line.kind.first ≡ 20 → ⊥ }
    ensures { Laid out.old at (put_new (record { kind = kind_from line.kind.first line.kind.bits line.kind.last; name = line.name }, end)) out.new result }
{
    let second = put_v64(out, at, 0);
    let third = put_kind(out, second, line.kind);
    let fourth = put_v64(out, third, line.name);
    put_v64(out, fourth, end)
}
