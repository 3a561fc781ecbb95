// A walk over what was read before. A `Trail` is what must be known to find the next entry: where the pairs begin, and of each type
// where its name stands, its super type and its number of fields.
ghost use Rattle.std.specs.Prelude.{◌≡◌, ◌<◌};
ghost use Rattle.trail.specs.Texts.{Within, bytes_of};
ghost use Rattle.trail.specs.Types.{IsAt, StandsAt, Found};
ghost use Rattle.trail.specs.Heads.{PastDue, SuperPast, HeadPast};
ghost use Rattle.trail.specs.Stages.{StringsPast, BlockPast, StepPast, Begins, Walked};
ghost use Rattle.trail.specs.Entries.{Had, Given, Beyond, FieldsPast, Entered, EntryPast};

use crate::past::{Behind, past, past_ends, past_news};
use crate::texts::{Span, four, same_bytes, string_at};

// It goes from call to call by value and is all that is kept of a file, so it is small: 488 bytes. No type has more than 128 fields
// and there are no more than 32 types, so a byte does for both.
#[derive(Clone, Copy)]
pub struct Trail {
    // where it stands, the entries of this block that are left, and the last end offset
    pub at: usize,
    pub left: u64,
    pub end: u64,
    // how many pairs, strings, types and fields of all types there are so far
    pub blocks: u32,
    pub strings: u32,
    pub types: u32,
    pub fields: u32,
    // where the pairs begin
    pub starts: [u32; 32],
    // of each type: where its name stands; its super type, 0 for none and u + 1 for type u; its number of fields
    pub froms: [u32; 32],
    pub tos: [u32; 32],
    pub sups: [u8; 32],
    pub owns: [u8; 32],
}

// Whether a name has the bytes from one place to another. Where it stands there itself, no byte is looked at.
fn is_at(file: &[u8], name: Span, from: usize, to: usize) -> bool
    requires { Within file.now name }
    ensures { IsAt file.now (bytes_of file.now name) from to result }
{
    if to < from {
        return false;
    }
    if file.len() < to {
        return false;
    }
    let a = name.start;
    let b = name.end;
    if a == from {
        if b == to {
            return true;
        }
    }
    same_bytes(&file[a..b], &file[from..to])
}

// The type whose name stands where this one does; if there is none, the number of types. No byte is looked at.
fn stands_at(froms: [u32; 32], tos: [u32; 32], n: u32, name: Span) -> u32
    ensures { StandsAt n froms tos name result }
{
    for i in 0..n {
        let j = i as usize;
        if 32 <= j {
            return n;
        }
        if froms[j] as usize == name.start {
            if tos[j] as usize == name.end {
                return i;
            }
        }
    }
    n
}

// The type that has this name, by its place; if there is none, the number of types. Most entries name a type by the string that declared
// it, and then its bytes are compared with none.
pub fn find(file: &[u8], t: Trail, name: Span) -> u32
    requires { Within file.now name }
    ensures { Found file.now t.types t.froms t.tos (bytes_of file.now name) result }
{
    let n = t.types;
    let froms = t.froms;
    let tos = t.tos;
    let there = stands_at(froms, tos, n, name);
    if there < n {
        return there;
    }
    for i in 0..n {
        let j = i as usize;
        if 32 <= j {
            return n;
        }
        let from = froms[j] as usize;
        let to = tos[j] as usize;
        if is_at(file, name, from, to) {
            return i;
        }
    }
    n
}

// A number that stands there only if it is due, else 0.
fn past_due(file: &[u8], at: usize, due: bool) -> Behind
    ensures { PastDue due file.now at result }
{
    if !due {
        return Behind { value: 0, at };
    }
    past(file, at)
}

// The super type of an entry's type, and the place behind its name, which only a new type gives.
#[derive(Clone, Copy)]
pub struct Up {
    pub up: u8,
    pub at: usize,
}

fn past_super(file: &[u8], t: Trail, at: usize, typ: u32) -> Up
    ensures { SuperPast file.now t at typ result }
{
    if typ < t.types {
        let sups = t.sups;
        let j = typ as usize;
        if 32 <= j {
            return Up { up: 0, at };
        }
        return Up { up: sups[j], at };
    }
    let n = past(file, at);
    if n.value == 0 {
        return Up { up: 0, at: n.at };
    }
    let starts = t.starts;
    let name = string_at(file, starts, t.blocks, n.value);
    let u = find(file, t, name);
    if 32 <= u {
        return Up { up: 0, at: n.at };
    }
    Up {
        up: (u + 1) as u8,
        at: n.at,
    }
}

// What an entry says before its fields: its type by its place, where the type's name stands, the super type, the local start,
// which is 0 where there is no super type, and the count; and the place behind.
#[derive(Clone, Copy)]
pub struct Top {
    pub typ: u32,
    pub name: Span,
    pub up: u8,
    pub start: u64,
    pub count: u64,
    pub at: usize,
}

pub fn past_head(file: &[u8], t: Trail) -> Top
    ensures { HeadPast file.now t result }
{
    let starts = t.starts;
    let n = past(file, t.at);
    let name = string_at(file, starts, t.blocks, n.value);
    let typ = find(file, t, name);
    let up = past_super(file, t, n.at, typ);
    let local = past_due(file, up.at, up.up != 0);
    let count = past(file, local.at);
    let none = past_due(file, count.at, t.types <= typ);
    Top {
        typ,
        name,
        up: up.up,
        start: local.value,
        count: count.value,
        at: none.at,
    }
}

// How many fields a type has.
pub fn had(t: Trail, typ: u32) -> u32
    ensures { Had t typ result }
{
    if t.types <= typ {
        return 0;
    }
    let owns = t.owns;
    let j = typ as usize;
    if 32 <= j {
        return 0;
    }
    u32::from(owns[j])
}

// How many known fields an entry gives: with no object added all its fields are new.
fn given(have: u64, count: u64) -> u64
    ensures { Given have count result }
{
    if count == 0 {
        return 0;
    }
    have
}

// How many of n fields are new, and 0 where no accepted file has so many.
fn beyond(n: u64, known: u64) -> u64
    ensures { Beyond n known result }
{
    if n < known {
        return 0;
    }
    let more = n - known;
    if 128 < more {
        return 0;
    }
    more
}

// An entry up to its new fields: its head; how many fields its type had before; how many end offsets of known fields it gives,
// and where they begin; how many new fields, and where they begin; and the last end offset before them.
#[derive(Clone, Copy)]
pub struct Fields {
    pub top: Top,
    pub have: u64,
    pub known: u64,
    pub more: u64,
    pub ends: usize,
    pub at: usize,
    pub last: u64,
}

pub fn past_olds(file: &[u8], t: Trail) -> Fields
    ensures { FieldsPast file.now t result }
{
    let top = past_head(file, t);
    let n = past(file, top.at);
    let have = had(t, top.typ) as u64;
    let known = given(have, top.count);
    let more = beyond(n.value, known);
    let olds = past_ends(file, n.at, known, t.end);
    Fields {
        top,
        have,
        known,
        more,
        ends: n.at,
        at: olds.at,
        last: olds.value,
    }
}

// The trail behind an entry. Nothing is promised of what no accepted file has.
fn enter(file: &[u8], t: Trail, entry: Fields, behind: Behind) -> Trail
    requires { FieldsPast file.now t entry }
    ensures { Entered file.now t entry behind result }
{
    let top = entry.top;
    let j = top.typ as usize;
    if 32 <= j {
        return t;
    }
    let own = entry.have + entry.more;
    if 128 < own {
        return t;
    }
    if 128 < t.fields {
        return t;
    }
    if 1048576 < file.len() {
        return t;
    }
    if t.left == 0 {
        return t;
    }
    let name = top.name;
    let mut next = t;
    next.at = behind.at;
    next.end = behind.value;
    next.left = t.left - 1;
    next.fields = t.fields + (entry.more as u32);
    next.owns[j] = own as u8;
    if t.types <= top.typ {
        next.froms[j] = name.start as u32;
        next.tos[j] = name.end as u32;
        next.sups[j] = top.up;
        next.types = top.typ + 1;
    }
    next
}

pub fn past_entry(file: &[u8], t: Trail) -> Trail
    ensures { EntryPast file.now t result }
{
    let entry = past_olds(file, t);
    let behind = past_news(file, entry.at, entry.more, entry.last);
    enter(file, t, entry, behind)
}

// Behind a string block: how many strings it has.
fn past_strings(file: &[u8], at: usize) -> Behind
    ensures { StringsPast file.now at result }
{
    let n = past(file, at);
    if 1024 < n.value {
        return Behind { value: 0, at };
    }
    if file.len() < n.at {
        return Behind { value: 0, at };
    }
    if n.value == 0 {
        return n;
    }
    let base = n.at + 4 * (n.value as usize);
    let last = four(file, base - 4);
    if file.len() < base {
        return Behind { value: 0, at };
    }
    if ((file.len() - base) as u64) < last.value {
        return Behind { value: 0, at };
    }
    Behind {
        value: n.value,
        at: base + (last.value as usize),
    }
}

// The trail behind a block's data region, a string block and the number of entries of the next pair.
fn next_block(file: &[u8], t: Trail) -> Trail
    ensures { BlockPast file.now t result }
{
    let j = t.blocks as usize;
    if 32 <= j {
        return t;
    }
    if 1024 < t.strings {
        return t;
    }
    if 1048576 < file.len() {
        return t;
    }
    if file.len() < t.at {
        return t;
    }
    if ((file.len() - t.at) as u64) < t.end {
        return t;
    }
    let p = t.at + (t.end as usize);
    let strings = past_strings(file, p);
    let n = past(file, strings.at);
    let mut next = t;
    next.starts[j] = p as u32;
    next.blocks = t.blocks + 1;
    next.strings = t.strings + (strings.value as u32);
    next.at = n.at;
    next.left = n.value;
    next.end = 0;
    next
}

// One step: over an entry, or into the next block.
pub fn step(file: &[u8], t: Trail) -> Trail
    ensures { StepPast file.now t result }
{
    if t.left == 0 {
        return next_block(file, t);
    }
    past_entry(file, t)
}

// Before the first pair.
pub fn start() -> Trail
    ensures { Begins result }
{
    let noughts = [0u32; 32];
    let none = [0u8; 32];
    Trail {
        at: 0,
        left: 0,
        end: 0,
        blocks: 0,
        strings: 0,
        types: 0,
        fields: 0,
        starts: noughts,
        froms: noughts,
        tos: noughts,
        sups: none,
        owns: none,
    }
}

// The trail behind so many steps. How far a walk goes is said by their number, and not by a place.
pub fn walk(file: &[u8], steps: u64) -> Trail
    ensures { Walked file.now steps result }
{
    let mut t = start();
    for _ in 0..steps {
        t = step(file, t);
    }
    t
}
