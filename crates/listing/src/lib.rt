// A file as text, as a listing sets it out: the call, and the lines from the pair down to a field.
#![tactic(auto)]

mod entries;
mod fields;
mod fronts;
mod maps;
mod pairs;
mod room;

ghost use Rattle.std.specs.Prelude.{◌≡◌, length};
ghost use Rattle.paper.specs.Calls.{listing, after_listing};
ghost use Rattle.table.specs.Counts.{noughts};
ghost use Rattle.walk.specs.FileLaws.{FileRead};
ghost use Rattle.calls.specs.Told.{Wrote, after};
ghost use Rattle.listing.specs.Text.{FileThere, FilePrinted, TextWritten, TableThere};

use calls::replies::{Refused, Reply};
use numbers::Step;
use pairs::print_pairs;
use paper::Ledger;
use room::is_roomy;
use table::counts::{begin, clear};
use walk::pairs::read;

// The text of an accepted file, as far as there is room, and how long it is.
fn print_file(file: &[u8], table: &mut [u32], out: &mut [u8]) -> usize
    requires { (length table.old ≡ 16384) × FileThere file.now }
    ensures { FilePrinted file.now out.old out.new result }
{
    begin(table);
    print_pairs(file, table, out, 0)
}

// The text counted, and then written. The same code does both: lent no room it stores nothing. So nothing is written before all of
// it is known to fit.
fn count_and_write(file: &[u8], table: &mut [u32], out: &mut [u8]) -> Reply
    requires { (length table.old ≡ 16384) × FileThere file.now }
    ensures { TextWritten file.now out.old result out.new }
{
    let count = print_file(file, table, &mut out[..0]);
    if out.len() < count {
        return Err(Refused::ROOM);
    }
    print_file(file, table, out);
    Ok(count as u64)
}

// The text, where the table is the one that was read. With the room that is advised nothing need be counted.
fn write_text(file: &[u8], table: &mut [u32], out: &mut [u8]) -> Reply
    requires { TableThere file.now table.old }
    ensures { TextWritten file.now out.old result out.new }
{
    if is_roomy(file, table, out.len()) {
        let count = print_file(file, table, out);
        return Ok(count as u64);
    }
    count_and_write(file, table, out)
}

// Behind the reading: the file's own refusal, or its text.
fn listing_read(a: Step, file: &[u8], table: &mut [u32], out: &mut [u8]) -> Reply
    requires { (length table.old ≡ 16384) × FileRead file.now table.old a }
    ensures { Wrote (listing (length out.old) 16384 file.now) out.old result out.new }
{
    a?;
    write_text(file, table, out)
}

// The call over a table of just the length that reading needs.
fn listing_in(file: &[u8], table: &mut [u32], out: &mut [u8]) -> Reply
    requires { length table.old ≡ 16384 }
    ensures { Wrote (listing (length out.old) 16384 file.now) out.old result out.new × (table.new ≡ noughts) }
{
    let a = read(file, table);
    let r = listing_read(a, file, table, out);
    clear(table);
    r
}

// The listing of a file: its bytes are the first of `out`.
pub fn listing(file: &[u8], work: &mut [u32], out: &mut [u8]) -> Reply
    ensures { after result work.new out.new ≡ after_listing file.now work.old out.old }
{
    let needed = Ledger::TABLE as usize;
    if work.len() < needed {
        return Err(Refused::TABLE);
    }
    listing_in(file, &mut work[..needed], out)
}
