// The front of a pair: the string block, the number of entries, and the entries, each of a head and its fields. The last end
// offset goes by value, as it does from field to field.
ghost use Rattle.std.specs.Prelude.{◌≡◌, ◌≤◌, length};
ghost use Rattle.table.specs.View.{Holds, said};
ghost use Rattle.reader.specs.Sound.{Sound};
ghost use Rattle.reader.specs.Kinds.{named?};
ghost use Rattle.reader.specs.Fields.{going};
ghost use Rattle.reader.specs.Entries.{entry_go, entries_go, front_go};
ghost use Rattle.reader.specs.EntryLaws.{Passed};

use super::fields::{all_fields, fields};
use super::heads::enter_head;
use super::kinds::Named;
use super::known::{adds_nothing, known_head};
use super::strings::read_strings;
use numbers::{Cursor, Outcome};
use table::rows::{range_at, ranges};

// An entry whose head is read number by number.
fn entry_anew(file: &[u8], c: Cursor, work: &mut [u32], end: u64, named: Named) -> Outcome<u64>
    requires { Holds file.now work.old × Sound (said file.now work.old) }
    ensures { Passed file.now work.new c.at result (entry_go (named? named) (going file.now work.old end) file.now c.at) }
{
    let (top, next) = enter_head(file, c, work)?;
    let name = top.name;
    fields(file, next, work, name.typ, top.count, end, named)
}

// An entry. Where its head was read the short way, its range is the last of the log.
pub fn entry(file: &[u8], c: Cursor, work: &mut [u32], end: u64, named: Named) -> Outcome<u64>
    requires { Holds file.now work.old × Sound (said file.now work.old) }
    ensures { Passed file.now work.new c.at result (entry_go (named? named) (going file.now work.old end) file.now c.at) }
{
    let at = known_head(file, c.at, work);
    if at == 0 {
        return entry_anew(file, c, work, end, named);
    }
    let last = range_at(work, ranges(work) - 1);
    if adds_nothing(file, at, last.count) {
        return Ok((end, Cursor { at: at + 1 }));
    }
    all_fields(file, Cursor { at }, work, last.typ, last.count, end, named)
}

// So many entries. The first chunk of a block begins where its data region does.
fn entries(file: &[u8], c: Cursor, work: &mut [u32], named: Named, count: u64) -> Outcome<u64>
    requires { Holds file.now work.old × Sound (said file.now work.old) }
    ensures { Passed file.now work.new c.at result (entries_go (named? named) count (going file.now work.old 0) file.now c.at) }
{
    let mut next = c;
    let mut last: u64 = 0;
    for _ in 0..count {
        (last, next) = entry(file, next, work, last, named)?;
    }
    Ok((last, next))
}

// All that stands in a pair before its data region: the table then says which chunks are due, and the answer is the last end
// offset, which is the region's size.
pub fn front(file: &[u8], c: Cursor, work: &mut [u32], named: Named) -> Outcome<u64>
    requires { Holds file.now work.old × Sound (said file.now work.old) × (c.at ≤ length file.now) }
    ensures { Passed file.now work.new c.at result (front_go (named? named) (said file.now work.old) file.now c.at) }
{
    let after_strings = read_strings(file, c, work)?;
    let (n, next) = after_strings.small(file)?;
    entries(file, next, work, named, n)
}
