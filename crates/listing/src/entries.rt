// The lines of an entry, and of all entries of a block.
ghost use Rattle.std.specs.Prelude.{◌≡◌, List, ℕ};
ghost use Rattle.lay.specs.Laid.{Laid};
ghost use Rattle.words.specs.Answers.{option};
ghost use Rattle.table.specs.View.{Holds};
ghost use Rattle.paper.specs.Listing.{type_line};
ghost use Rattle.paper.specs.Lists.{given?};
ghost use Rattle.table.specs.View.{maybe};
ghost use Rattle.reader.specs.Heads.{due, head_of, TopEntered};
ghost use Rattle.table.specs.View.{said};
ghost use Rattle.reader.specs.Sound.{Sound};
ghost use Rattle.listing.specs.Entries.{EntryPrinted, EntriesDone};

use crate::fields::print_fields;
use lines::put_type;
use numbers::{Cursor, Outcome};
use reader::fields::{fields, known_fields};
use reader::heads::Top;
use reader::kinds::Named;
use reader::known::enter_any;

// What a reading answered, and the place behind what was printed meanwhile.
#[derive(Clone, Copy)]
pub struct Printed {
    pub read: Outcome<u64>,
    pub at: usize,
}

// A known type's super type is known too, and left out.
fn super_word(top: Top) -> Option<u64>
    ensures { option result ≡ due top.name.fresh top.above.number }
{
    let name = top.name;
    if name.fresh {
        let above = top.above;
        return Some(above.number);
    }
    None
}

// A base type has no local start.
fn start_word(top: Top) -> Option<u64>
    ensures { option result ≡ due (given? (maybe top.above.up)) top.start }
{
    let above = top.above;
    if above.up == 0 {
        return None;
    }
    Some(top.start as u64)
}

// The `type` line.
fn put_head(out: &mut [u8], at: usize, top: Top, n: u64) -> usize
    ensures { Laid out.old at (type_line (head_of top) n) out.new result }
{
    let name = top.name;
    let sup = super_word(top);
    let start = start_word(top);
    put_type(out, at, name.number, sup, start, top.count as u64, n)
}

// The lines of an entry whose head was read and entered, and has c behind it. A read that fails ends the entry at once: the
// refusal is given by `fields`, which reads the same bytes next and holds them to their rules.
fn print_entry(file: &[u8], c: Cursor, work: &[u32], top: Top, out: &mut [u8], at: usize) -> usize
    requires { Holds file.now work.now }
    ensures { (l : List ℕ) (from : ℕ) → TopEntered file.now l work.now from (Ok (top, c)) → EntryPrinted file.now l from out.old at out.new result }
{
    let a = c.v64(file);
    let Ok((n, fields_at)) = a else {
        return at;
    };
    let name = top.name;
    let known = known_fields(work, name.typ, top.count) as u64;
    if n < known {
        return at;
    }
    let behind_head = put_head(out, at, top, n);
    let all = print_fields(file, fields_at, known, n - known, out, behind_head);
    let Ok((_, end)) = all else {
        return at;
    };
    end
}

// The lines of so many entries. Of each the head is entered, then it is printed, and then its fields are entered: the answer is
// that of reading them all.
pub fn print_entries(
    file: &[u8],
    c: Cursor,
    work: &mut [u32],
    count: u64,
    out: &mut [u8],
    at: usize,
) -> Printed
    requires { Holds file.now work.old × Sound (said file.now work.old) }
    ensures { EntriesDone file.now work.old work.new count c.at out.old at out.new result }
{
    let any = Named {
        strict: false,
        types: 0,
    };
    let mut here = c.at;
    let mut last: u64 = 0;
    let mut p = at;
    for _ in 0..count {
        let (top, c1) = match enter_any(file, Cursor { at: here }, work) {
            Ok(entered) => entered,
            Err(e) => {
                return Printed {
                    read: Err(e),
                    at: p,
                };
            }
        };
        p = print_entry(file, c1, work, top, out, p);
        let name = top.name;
        let (end, next) = match fields(file, c1, work, name.typ, top.count, last, any) {
            Ok(read) => read,
            Err(e) => {
                return Printed {
                    read: Err(e),
                    at: p,
                };
            }
        };
        here = next.at;
        last = end;
    }
    Printed {
        read: Ok((last, Cursor { at: here })),
        at: p,
    }
}
