// A file from its listing: the call, and the pairs of a text from its lines to their bytes.
#![tactic(auto)]

mod again;
mod front;
mod pairs;
mod strings;

ghost use Rattle.std.specs.Prelude.{◌≡◌, ◌<◌, length};
ghost use Rattle.paper.specs.Bounds.{most_pairs, table_length};
ghost use Rattle.paper.specs.Calls.{build, after_build};
ghost use Rattle.table.specs.Counts.{noughts};
ghost use Rattle.calls.specs.Told.{Wrote, after};
ghost use Rattle.build.specs.Counting.{FileCounted};
ghost use Rattle.build.specs.Again.{FileGiven, Filled};

use again::pairs_again;
use calls::replies::{Refused, Reply};
use pairs::count_pairs;
use paper::Ledger;
use table::counts::{begin, clear};
use texts::Taken;

// How long the file of a text is, and where the values of its pairs begin.
fn count_file(text: &[u8], table: &mut [u32], places: &mut [u64]) -> Option<Taken>
    requires { (length table.old ≡ table_length) × (length text.now < 66000000) × (length places.old ≡ most_pairs) }
    ensures { FileCounted text.now places.new result }
{
    begin(table);
    count_pairs(text, table, places)
}

// The file of a text that is known to have one, of just the length that is lent.
fn fill_file(text: &[u8], table: &mut [u32], places: &[u64], out: &mut [u8])
    requires { (length table.old ≡ table_length) × (length text.now < 66000000) × FileGiven text.now places.now }
    ensures { Filled text.now out.old out.new }
{
    begin(table);
    pairs_again(text, table, places, out);
}

// Nothing is written before all of the text is known to be the listing of a file, and the file to fit.
fn write_file(text: &[u8], table: &mut [u32], out: &mut [u8]) -> Reply
    requires { (length table.old ≡ table_length) × (length text.now < 66000000) }
    ensures { Wrote (build (length out.old) table_length text.now) out.old result out.new }
{
    let mut places = [0u64; Ledger::PAIRS as usize];
    let a = count_file(text, table, &mut places);
    let Some(k) = a else {
        return Err(Refused::LISTING);
    };
    let count = k.at;
    let whole = Ledger {
        bytes: count as u64,
    };
    if !whole.fits() {
        return Err(Refused::LISTING);
    }
    if out.len() < count {
        return Err(Refused::ROOM);
    }
    fill_file(text, table, &places, &mut out[..count]);
    Ok(count as u64)
}

// No file has a listing whose places pass 66,000,000, which is what the table keeps of a string's.
fn build_read(text: &[u8], table: &mut [u32], out: &mut [u8]) -> Reply
    requires { length table.old ≡ table_length }
    ensures { Wrote (build (length out.old) table_length text.now) out.old result out.new }
{
    if 65999999 < text.len() {
        return Err(Refused::LISTING);
    }
    write_file(text, table, out)
}

// The call over a table of just the length that reading needs.
fn build_in(text: &[u8], table: &mut [u32], out: &mut [u8]) -> Reply
    requires { length table.old ≡ table_length }
    ensures { Wrote (build (length out.old) table_length text.now) out.old result out.new × (table.new ≡ noughts) }
{
    let r = build_read(text, table, out);
    clear(table);
    r
}

// The file with this listing: its bytes are the first of `out`.
pub fn build(text: &[u8], work: &mut [u32], out: &mut [u8]) -> Reply
    ensures { after result work.new out.new ≡ after_build text.now work.old out.old }
{
    let needed = Ledger::TABLE as usize;
    if work.len() < needed {
        return Err(Refused::TABLE);
    }
    build_in(text, &mut work[..needed], out)
}
