// Fields by their names, and their kinds.
ghost use Rattle.recall.specs.Among.{IsString, Among};
ghost use Rattle.recall.specs.FieldWalks.{FoundIn, FieldSought, KindIn, KindSought};

use reader::kinds::Kind;
use trail::past::{new_at, past_news};
use trail::texts::{same_bytes, string_at};
use trail::trail::{Trail, past_olds, start, step};

// Whether string n has these bytes, where the pairs begin at these places.
fn is_string(file: &[u8], starts: [u32; 32], blocks: u32, n: u64, name: &[u8]) -> bool
    ensures { IsString file.now starts blocks n name.now result }
{
    let s = string_at(file, starts, blocks, n);
    let a = s.start;
    let b = s.end;
    same_bytes(name, &file[a..b])
}

// Of n new fields from a place on the first that has this name, counted from 0, or n.
pub fn among(file: &[u8], t: Trail, at: usize, n: u64, name: &[u8]) -> u64
    ensures { Among file.now t at n name.now result }
{
    let starts = t.starts;
    let blocks = t.blocks;
    let mut here = at;
    for i in 0..n {
        let g = new_at(file, here);
        if is_string(file, starts, blocks, g.name, name) {
            return i;
        }
        here = g.at;
    }
    n
}

// What the next step adds, if the type had no field of this name before it: its place among the type's fields.
fn found_in(file: &[u8], t: Trail, typ: u32, name: &[u8]) -> Option<u64>
    ensures { FoundIn file.now t typ name.now result }
{
    if t.left == 0 {
        return None;
    }
    let e = past_olds(file, t);
    let top = e.top;
    if top.typ != typ {
        return None;
    }
    let i = among(file, t, e.at, e.more, name);
    if i < e.more {
        return Some(e.have + i);
    }
    None
}

// The field of a type that has this name, by its place among the type's fields. Fields never move, so the walk ends at the first.
pub fn find_field(file: &[u8], steps: u64, typ: u32, name: &[u8]) -> Option<u64>
    ensures { FieldSought file.now steps typ name.now result }
{
    let mut t = start();
    for _ in 0..steps {
        if let Some(own) = found_in(file, t, typ, name) {
            return Some(own);
        }
        t = step(file, t);
    }
    None
}

// The kind of the type's own-th field behind the next step, where `before` is the one before it.
fn kind_in(file: &[u8], t: Trail, typ: u32, own: u64, before: Kind) -> Kind
    ensures { KindIn file.now t typ own before result }
{
    if t.left == 0 {
        return before;
    }
    let e = past_olds(file, t);
    let top = e.top;
    if top.typ != typ {
        return before;
    }
    if own < e.have {
        return before;
    }
    if e.more <= own - e.have {
        return before;
    }
    let b = past_news(file, e.at, own - e.have, e.last);
    let g = new_at(file, b.at);
    g.kind
}

// The kind of the own-th field of a type. Its row stands whatever the file is.
pub fn kind_of(file: &[u8], steps: u64, typ: u32, own: u64) -> Kind
    ensures { KindSought file.now steps typ own result }
{
    let mut kind = Kind {
        first: 5,
        bits: 0,
        last: 5,
    };
    let mut t = start();
    for _ in 0..steps {
        kind = kind_in(file, t, typ, own, kind);
        t = step(file, t);
    }
    kind
}
