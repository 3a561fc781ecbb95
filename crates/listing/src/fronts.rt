// The lines of what stands in a pair before its values: the pair, its strings, and its entries.
ghost use Rattle.std.specs.Prelude.{◌≤◌, length, drop};
ghost use Rattle.std.proofs.Math.Seq.{slice};
ghost use Rattle.paper.specs.Lists.{flat};
ghost use Rattle.paper.specs.Listing.{string_line};
ghost use Rattle.lay.specs.Laid.{Laid};
ghost use Rattle.table.specs.View.{strs_of, said, Holds};
ghost use Rattle.reader.specs.Sound.{Sound};
ghost use Rattle.listing.specs.Fronts.{FrontDone};

use crate::entries::{Printed, print_entries};
use lines::{put_pair, put_string};
use numbers::Cursor;
use reader::strings::read_strings;
use table::rows::{Span, string_at, strings};

// The line of the string that is a part of the file.
fn put_part(file: &[u8], s: Span, out: &mut [u8], at: usize) -> usize
    requires { s.end ≤ length file.now }
    ensures { Laid out.old at (string_line (slice s.start s.end file.now)) out.new result }
{
    let start = s.start as usize;
    let end = s.end as usize;
    // No file has such a string, and no fact is needed of it.
    if end < start {
        return put_string(out, at, &file[end..end]);
    }
    put_string(out, at, &file[start..end])
}

// The lines of the strings from a place on.
fn print_strings(file: &[u8], work: &[u32], from: u32, out: &mut [u8], at: usize) -> usize
    requires { Holds file.now work.now }
    ensures { Laid out.old at (flat string_line (drop from (strs_of file.now work.now))) out.new result }
{
    let n = strings(work);
    let mut p = at;
    for i in from..n {
        p = put_part(file, string_at(work, i), out, p);
    }
    p
}

// The front of the pair at c: the answer is that of reading it into the table.
pub fn print_front(file: &[u8], c: Cursor, work: &mut [u32], out: &mut [u8], at: usize) -> Printed
    requires { Holds file.now work.old × Sound (said file.now work.old) × (c.at ≤ length file.now) }
    ensures { FrontDone file.now work.old work.new c.at out.old at out.new result }
{
    let before = strings(work);
    let c1 = match read_strings(file, c, work) {
        Ok(behind) => behind,
        Err(e) => return Printed { read: Err(e), at },
    };
    let (n, c2) = match c1.small(file) {
        Ok(count) => count,
        Err(e) => return Printed { read: Err(e), at },
    };
    let more = strings(work) - before;
    let behind_pair = put_pair(out, at, more as u64, n);
    let behind_strings = print_strings(file, work, before, out, behind_pair);
    print_entries(file, c2, work, n, out, behind_strings)
}
