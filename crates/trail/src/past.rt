// Numbers and fields that were read before, and are passed over. A read that fails promises nothing: the first reading has
// refused the file then.
ghost use Rattle.std.specs.Prelude.{ℕ, ◌≡◌};
ghost use Rattle.paper.specs.Reader.{times};
ghost use Rattle.paper.specs.Numbers.{v64};
ghost use Rattle.paper.specs.Rules.{any_type};
ghost use Rattle.paper.specs.File.{Upto, end_offset, new_field, upto_new};
ghost use Rattle.trail.specs.Told.{Told, NewTold, last_end, same, end_of, after};

use numbers::Cursor;
use reader::kinds::{Kind, Named, read_kind};

// A number, and the place behind it.
#[derive(Clone, Copy)]
pub struct Behind {
    pub value: u64,
    pub at: usize,
}

pub fn past(file: &[u8], at: usize) -> Behind
    ensures { Told v64 same file.now at result }
{
    let c = Cursor { at };
    let a = c.v64(file);
    let Ok((value, next)) = a else {
        return Behind { value: 0, at };
    };
    Behind { value, at: next.at }
}

// Behind the end offsets of n known fields: the last of them, or the one before.
pub fn past_ends(file: &[u8], at: usize, n: u64, last: u64) -> Behind
    ensures { Told (times n end_offset after last) (last_end after same last) file.now at result }
{
    let mut here = Behind { value: last, at };
    for _ in 0..n {
        here = past(file, here.at);
    }
    here
}

// What a new field says: its kind, the number of its name, its end offset; and the place behind it.
#[derive(Clone, Copy)]
pub struct NewField {
    pub kind: Kind,
    pub name: u64,
    pub end: u64,
    pub at: usize,
}

// The new field that stands here. Where no kind is read the answer has one too, so that its row always stands.
pub fn new_at(file: &[u8], at: usize) -> NewField
    ensures { NewTold file.now at result }
{
    let none = past(file, at);
    let any = Named {
        strict: false,
        types: 0,
    };
    let c = Cursor { at: none.at };
    let k = read_kind(file, c, any);
    let Ok((kind, next)) = k else {
        return NewField {
            kind: Kind {
                first: 5,
                bits: 0,
                last: 5,
            },
            name: 0,
            end: 0,
            at,
        };
    };
    let name = past(file, next.at);
    let end = past(file, name.at);
    NewField {
        kind,
        name: name.value,
        end: end.value,
        at: end.at,
    }
}

// Behind a new field: its end offset.
fn past_new(file: &[u8], at: usize) -> Behind
    ensures { (t : ℕ) (u : Upto) → Told (new_field any_type t u) (λ g. g.1) file.now at result }
{
    let g = new_at(file, at);
    Behind {
        value: g.end,
        at: g.at,
    }
}

// Behind n new fields: the last end offset.
pub fn past_news(file: &[u8], at: usize, n: u64, last: u64) -> Behind
    ensures { (t : ℕ) (u : Upto) → u.end ≡ last → Told (times n (new_field any_type t) (upto_new t) u) (last_end (upto_new t) end_of u) file.now at result }
{
    let mut here = Behind { value: last, at };
    for _ in 0..n {
        here = past_new(file, here.at);
    }
    here
}
