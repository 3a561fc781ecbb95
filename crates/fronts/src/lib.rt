// The entries of a listed pair as bytes. Their lines stand in a text that was read and judged before, and the sizes of their
// chunks in the table: the lines are gone through again, and with each field the end of its chunk is laid. A line that cannot be
// read ends the entry at once, and then nothing is said of the bytes: no text that was read has one.
#![tactic(auto)]

ghost use Rattle.std.specs.Prelude.{◌≡◌, List, map, ℕ, ◌^◌, ◌<◌, length};
ghost use Rattle.paper.specs.Reader.{got, times, repeat};
ghost use Rattle.paper.specs.Ledger.{State, Entry, Due};
ghost use Rattle.paper.specs.Rules.{after_entry, dues};
ghost use Rattle.paper.specs.Scan.{entry_text};
ghost use Rattle.laws.specs.Put.{put_entries};
ghost use Rattle.lay.specs.Laid.{Laid};
ghost use Rattle.table.specs.View.{dues_of, Ok};
ghost use Rattle.fronts.specs.Ends.{sum, ends_of, NextEnd};
ghost use Rattle.fronts.specs.Lines.{needed, written, field_line, one_end, field_bytes, entry_lines, ends_of_entry, entry_bytes};
ghost use Rattle.fronts.specs.Maps.{LineLaid};
ghost use Rattle.fronts.specs.Puts.{Puts};

use crate::maps::put_map;
use numbers::write::put_v64;
use parse::{NewLine, new_line, type_line};
use puts::{put_head, put_new};
use table::rows::{due_at, dues};
use words::read::Place;

pub mod maps;

// The row of the next chunk that is due, and where the chunk before it ends.
#[derive(Clone, Copy)]
pub struct Ends {
    pub row: u32,
    pub end: u64,
}

// Where the text goes on, which ends come next, and where the next bytes go: behind lines that were read and laid.
#[derive(Clone, Copy)]
pub struct Here {
    pub next: Place,
    pub ends: Ends,
    pub at: usize,
}

// Behind one chunk more. The end stands still at the most that 64 bits hold, and behind the last row.
fn next_end(work: &[u32], e: Ends) -> Ends
    requires { Ok work.now }
    ensures { NextEnd work.now e result }
{
    if e.row < dues(work) {
        let due = due_at(work, e.row);
        let row = e.row + 1;
        let room = u64::MAX - e.end;
        if room < due.size {
            return Ends { row, end: u64::MAX };
        }
        return Ends {
            row,
            end: e.end + due.size,
        };
    }
    e
}

// The new field whose line begins at p and says this.
fn put_line(text: &[u8], p: Place, line: NewLine, end: u64, out: &mut [u8], at: usize) -> usize
    ensures { LineLaid text.now p.at line.kind.first line.kind.bits line.kind.last line.name end out.old at out.new result }
{
    if line.kind.first == 20 {
        return put_map(text, p, line, end, out, at);
    }
    put_new(out, at, line, end)
}

// The field whose line comes next, with its chunk's end: of a known field the end is all.
fn put_field(text: &[u8], work: &[u32], h: Here, out: &mut [u8]) -> Option<Here>
    requires { Ok work.now }
    ensures { Puts field_line one_end field_bytes text.now work.now h out.old out.new result }
{
    let p = h.next;
    let ends = next_end(work, h.ends);
    if let Some(next) = p.literal(text, b"old\n") {
        let at = put_v64(out, h.at, ends.end);
        return Some(Here { next, ends, at });
    }
    let (line, next) = new_line(text, p)?;
    let at = put_line(text, p, line, ends.end, out, h.at);
    Some(Here { next, ends, at })
}

// The next n fields.
fn put_fields(text: &[u8], n: u64, work: &[u32], h: Here, out: &mut [u8]) -> Option<Here>
    requires { Ok work.now }
    ensures { Puts (repeat n field_line) (needed one_end) (written one_end field_bytes) text.now work.now h out.old out.new result }
{
    let mut here = h;
    for _ in 0..n {
        here = put_field(text, work, here, out)?;
    }
    Some(here)
}

// The entry whose lines come next.
fn put_entry(text: &[u8], work: &[u32], h: Here, out: &mut [u8]) -> Option<Here>
    requires { Ok work.now }
    ensures { Puts entry_lines ends_of_entry entry_bytes text.now work.now h out.old out.new result }
{
    let (line, next) = type_line(text, h.next)?;
    let ends = h.ends;
    let behind_head = put_head(out, h.at, line);
    let at = put_v64(out, behind_head, line.fields);
    put_fields(text, line.fields, work, Here { next, ends, at }, out)
}

// The n entries whose lines begin at p, and the ends that the sizes in the table give from its first row on.
pub fn put_entries(text: &[u8], p: Place, n: u64, work: &[u32], out: &mut [u8], at: usize) -> usize
    requires { Ok work.now }
    ensures { (s : State) (es : List Entry) (next : ℕ) → times n entry_text after_entry s text.now p.at ≡ got es next → length (dues_of work.now) ≡ length (dues s es) → sum (map (λ (d : Due × ℕ). d.1) (dues_of work.now)) < 2 ^ 64 → Laid out.old at (put_entries s es (ends_of 0 (map (λ (d : Due × ℕ). d.1) (dues_of work.now)))) out.new result }
{
    let mut here = Here {
        next: p,
        ends: Ends { row: 0, end: 0 },
        at,
    };
    for _ in 0..n {
        let Some(next) = put_entry(text, work, here, out) else {
            return here.at;
        };
        here = next;
    }
    here.at
}
