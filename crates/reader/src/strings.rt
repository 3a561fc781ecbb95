// The string block: how many strings it adds, the end of each, counted from the start of the string bytes, and those bytes.
// The table keeps where each string stands in the file.
ghost use Rattle.std.specs.Prelude.{◌≡◌, ◌+◌, ◌<◌, ◌≤◌, length};
ghost use Rattle.paper.specs.Bounds.{most_strings};
ghost use Rattle.paper.specs.Reader.{turned};
ghost use Rattle.paper.specs.File.{string_block};
ghost use Rattle.table.specs.View.{view, said, Holds, strings_in};
ghost use Rattle.reader.specs.Strings.{capped, EndRead, EndsRead, Skip, Did, add_strings};

use numbers::{Cursor, Fault, Outcome, Refusal, Step};
use paper::Ledger;
use table::pushes::push_string;
use table::rows::strings;

// The place `base + e`, or the end of the file if that comes first. An end can be far behind the file's: that is refused
// only when the bytes are read, after all ends, and until then the table must hold it.
fn place_in(file: &[u8], base: usize, e: u64) -> u32
    requires { length file.now < 4294967296 }
    ensures { result ≡ capped (length file.now) (base + e) }
{
    let len = file.len();
    if len <= base {
        return len as u32;
    }
    if (len - base) as u64 <= e {
        return len as u32;
    }
    (base + (e as usize)) as u32
}

// The end of a string that begins where the one before it ends, at `prev`. Ends do not fall.
fn read_end(file: &[u8], c: Cursor, prev: u64, base: usize, work: &mut [u32]) -> Outcome<u64>
    requires holds { Holds file.now work.old }
    requires work_bound { strings_in work.old < most_strings }
    ensures { EndRead file.now work.old work.new base prev c.at result }
{
    let at = c.at;
    let (e, next) = c.be::<4>(file)?;
    if e < prev {
        return Err(Refusal {
            fault: Fault::Ends,
            place: at,
        });
    }
    let start = place_in(file, base, prev);
    let end = place_in(file, base, e);
    push_string(work, start, end);
    Ok((e, next))
}

// The ends of n strings, whose bytes begin at `base`: the last of them, 0 if there is none.
fn read_ends(file: &[u8], c: Cursor, n: u64, base: usize, work: &mut [u32]) -> Outcome<u64>
    requires holds { Holds file.now work.old }
    requires n_bound { strings_in work.old + n ≤ most_strings }
    ensures { EndsRead file.now work.old work.new base n c.at result }
{
    let mut next = c;
    let mut prev: u64 = 0;
    for _ in 0..n {
        (prev, next) = read_end(file, next, prev, base, work)?;
    }
    Ok((prev, next))
}

// A run of n bytes, which are all there.
fn skip(file: &[u8], c: Cursor, n: u64) -> Step
    ensures { Skip file.now c.at n result }
{
    let at = c.at;
    if file.len() < at {
        return Err(Refusal {
            fault: Fault::Short,
            place: at,
        });
    }
    if ((file.len() - at) as u64) < n {
        return Err(Refusal {
            fault: Fault::Short,
            place: at,
        });
    }
    Ok(Cursor {
        at: at + (n as usize),
    })
}

// The string block. That there are too many strings is found out before their ends are read.
pub fn read_strings(file: &[u8], c: Cursor, work: &mut [u32]) -> Step
    requires holds { Holds file.now work.old }
    requires at_in_bounds { c.at ≤ length file.now }
    ensures { Did file.now work.new c.at result (turned (add_strings (said file.now work.old)) (string_block (view file.now work.old) file.now c.at)) }
{
    let at = c.at;
    let (n, next) = c.v64(file)?;
    let room = Ledger::STRINGS - (strings(work) as u64);
    if room < n {
        return Err(Refusal {
            fault: Fault::Limit,
            place: at,
        });
    }
    let from = next.at;
    let base = from + 4 * (n as usize);
    let (last, end) = read_ends(file, next, n, base, work)?;
    skip(file, end, last)
}
