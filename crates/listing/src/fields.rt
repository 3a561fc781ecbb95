// The lines of an entry's fields. A read that fails ends them at once with its refusal. It is known that none does, for the
// entry was accepted: so nothing is said of the text that stands there then.
ghost use Rattle.std.specs.Prelude.{ℕ};
ghost use Rattle.paper.specs.Reader.{times};
ghost use Rattle.paper.specs.Rules.{any_type};
ghost use Rattle.paper.specs.File.{Upto, new_field, upto_new};
ghost use Rattle.listing.specs.Prints.{Prints};
ghost use Rattle.listing.specs.Maps.{FieldPut};
ghost use Rattle.listing.specs.Fields.{PastAll, NewKind, new_word, new_words, FieldsPrinted};

use crate::maps::put_new_map;
use lines::{put_new, put_olds};
use numbers::{Cursor, Outcome, Refusal, Step};
use reader::kinds::{Kind, Named, read_kind};
use reader::ruled::no_restrictions;

// Behind what was read and behind what was printed, or the refusal of the read that failed.
pub type Listed = Result<(Cursor, usize), Refusal>;

// Behind the end offsets of n known fields, of which nothing is shown.
fn past_ends(file: &[u8], c: Cursor, n: u64) -> Step
    ensures { PastAll n file.now c.at result }
{
    let mut here = c;
    for _ in 0..n {
        let (_, next) = here.v64(file)?;
        here = next;
    }
    Ok(here)
}

// The kind of a new field. Before it stands the number of restrictions, of which nothing is shown.
fn new_kind(file: &[u8], c: Cursor) -> Outcome<Kind>
    ensures { NewKind file.now c.at result }
{
    let (_, next) = no_restrictions(file, c)?;
    let any = Named {
        strict: false,
        types: 0,
    };
    read_kind(file, next, any)
}

// The line of the new field at c, whose kind and name were read.
fn put_field(file: &[u8], c: Cursor, kind: Kind, name: u64, out: &mut [u8], at: usize) -> usize
    ensures { FieldPut file.now c.at kind name out.old at out.new result }
{
    if kind.first == 20 {
        return put_new_map(file, c, name, out, at);
    }
    put_new(out, at, kind.first, kind.bits, kind.last, name)
}

// The line of a new field. Nothing is shown of its end offset.
fn print_new(file: &[u8], c: Cursor, out: &mut [u8], at: usize) -> Listed
    ensures { (t : ℕ) (u : Upto) → Prints (new_field any_type t u) new_word file.now c.at out.old at out.new result }
{
    let (kind, c1) = new_kind(file, c)?;
    let (name, c2) = c1.v64(file)?;
    let (_, next) = c2.v64(file)?;
    let end = put_field(file, c, kind, name, out, at);
    Ok((next, end))
}

// The lines of so many new fields.
fn print_news(file: &[u8], c: Cursor, count: u64, out: &mut [u8], at: usize) -> Listed
    ensures { (t : ℕ) (u : Upto) → Prints (times count (new_field any_type t) (upto_new t) u) new_words file.now c.at out.old at out.new result }
{
    let mut here = c;
    let mut p = at;
    for _ in 0..count {
        let (next, end) = print_new(file, here, out, p)?;
        here = next;
        p = end;
    }
    Ok((here, p))
}

// The lines of so many known fields and of so many new ones.
pub fn print_fields(
    file: &[u8],
    c: Cursor,
    known: u64,
    count: u64,
    out: &mut [u8],
    at: usize,
) -> Listed
    ensures { FieldsPrinted known count file.now c.at out.old at out.new result }
{
    let news = past_ends(file, c, known)?;
    let behind_olds = put_olds(out, at, known);
    print_news(file, news, count, out, behind_olds)
}
