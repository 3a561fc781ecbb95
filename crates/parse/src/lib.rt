// The lines of a listing, read from a text, from a place in it. A reader answers what stands there with the place behind it, or
// `None`. No line has a precondition: any text, any place.
#![tactic(auto)]

ghost use Rattle.std.specs.Prelude.{◌≡◌};
ghost use Rattle.paper.specs.Reader.{repeat};
ghost use Rattle.paper.specs.Listing.{old_line};
ghost use Rattle.paper.specs.Scan.{literal, read_pair, read_type};
ghost use Rattle.values.specs.Pass.{forget};
ghost use Rattle.words.specs.Answers.{out_step};
ghost use Rattle.parse.specs.Answers.{read_two, HexEnd, out_pair, StringReads, out_type, NewReads};

use crate::kinds::kind_word;
use reader::kinds::Kind;
use words::read::{Place, Scanned};

pub mod kinds;

const TAB: u64 = 9;

const NEWLINE: u64 = 10;

// Where a string's hex digits begin and end: they stay in the text.
#[derive(Clone, Copy)]
pub struct StringLine {
    pub from: usize,
    pub to: usize,
}

// An entry's head, and its number of fields.
#[derive(Clone, Copy)]
pub struct TypeLine {
    pub name: u64,
    pub sup: Option<u64>,
    pub start: Option<u64>,
    pub count: u64,
    pub fields: u64,
}

// A new field: its kind by three numbers, as a file's reader has it, and its name by the string's number.
#[derive(Clone, Copy)]
pub struct NewLine {
    pub kind: Kind,
    pub name: u64,
}

// Two numbers that end a line.
fn last_two(t: &[u8], p: Place) -> Scanned<(u64, u64)>
    ensures { out_pair result ≡ read_two t.now p.at }
{
    let (first, behind) = p.natural_ended(t, TAB)?;
    let (second, next) = behind.natural_ended(t, NEWLINE)?;
    Some(((first, second), next))
}

pub fn pair_line(t: &[u8], p: Place) -> Scanned<(u64, u64)>
    ensures { out_pair result ≡ read_pair t.now p.at }
{
    let numbers = p.literal(t, b"pair\t")?;
    last_two(t, numbers)
}

// Behind the hex digits of bytes, as long as there are any. What is lent has no room from 1 on, so none are stored.
fn hex_end(t: &[u8], p: Place) -> Place
    ensures { HexEnd t.now p.at result.at }
{
    let mut full = [0u8; 1];
    let bytes = p.hex_bytes(t, &mut full, 1);
    bytes.next
}

pub fn string_line(t: &[u8], p: Place) -> Scanned<StringLine>
    ensures { StringReads t.now p.at result }
{
    let first = p.literal(t, b"str\t")?;
    let behind = hex_end(t, first);
    let next = behind.byte(t, NEWLINE)?;
    Some((
        StringLine {
            from: first.at,
            to: behind.at,
        },
        next,
    ))
}

pub fn type_line(t: &[u8], p: Place) -> Scanned<TypeLine>
    ensures { out_type result ≡ read_type t.now p.at }
{
    let first = p.literal(t, b"type\t")?;
    let (name, second) = first.natural_ended(t, TAB)?;
    let (sup, third) = second.or_none_ended(t, TAB)?;
    let (start, fourth) = third.or_none_ended(t, TAB)?;
    let ((count, fields), next) = last_two(t, fourth)?;
    Some((
        TypeLine {
            name,
            sup,
            start,
            count,
            fields,
        },
        next,
    ))
}

fn old_line(t: &[u8], p: Place) -> Option<Place>
    ensures { out_step result ≡ literal old_line t.now p.at }
{
    p.literal(t, b"old\n")
}

// A line for each of n known fields.
pub fn old_lines(t: &[u8], p: Place, n: u64) -> Option<Place>
    ensures { out_step result ≡ forget (repeat n (literal old_line) t.now p.at) }
{
    let mut at = p;
    for _ in 0..n {
        at = old_line(t, at)?;
    }
    Some(at)
}

pub fn new_line(t: &[u8], p: Place) -> Scanned<NewLine>
    ensures { NewReads t.now p.at result }
{
    let first = p.literal(t, b"new\t")?;
    let (kind, behind) = kind_word(t, first)?;
    let second = behind.byte(t, TAB)?;
    let (name, next) = second.natural_ended(t, NEWLINE)?;
    Some((NewLine { kind, name }, next))
}
