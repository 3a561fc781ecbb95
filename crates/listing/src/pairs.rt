// The lines of a pair, and of all pairs of a file. It is known that the file was accepted.
ghost use Rattle.walk.specs.RegionTurns.{RegionReady};
ghost use Rattle.walk.specs.PairLaws.{PairReady};
ghost use Rattle.listing.specs.Regions.{RegionPrinted};
ghost use Rattle.walk.specs.PairTurns.{WalkReady};
ghost use Rattle.listing.specs.Pairs.{PairThere, PairPrinted, PairsThere, PairsPrinted};

use crate::fronts::print_front;
use numbers::Cursor;
use paper::Ledger;
use show::{Behind, show_chunk};
use table::counts::next_block;
use table::rows::{due_at, dues, field_at};

// The lines of the values of all chunks that are due, the first of which begins at `from`.
fn print_region(file: &[u8], from: usize, work: &[u32], out: &mut [u8], at: usize) -> usize
    requires { RegionReady file.now work.now from }
    ensures { RegionPrinted file.now work.now from out.old at out.new result }
{
    let n = dues(work);
    let mut place = from;
    let mut p = at;
    for i in 0..n {
        let d = due_at(work, i);
        let kind = field_at(work, d.field);
        let end = place + (d.size as usize);
        p = show_chunk(
            &file[place..end],
            d.values,
            kind.kind as u64,
            kind.a,
            kind.e,
            out,
            p,
        );
        place = end;
    }
    p
}

// The lines of the pair at c, which goes into the table.
fn print_pair(file: &[u8], c: Cursor, work: &mut [u32], out: &mut [u8], at: usize) -> Behind
    requires { PairReady file.now work.old c.at × PairThere file.now work.old c.at }
    ensures { PairPrinted file.now work.old work.new c.at out.old at out.new result }
{
    let printed = print_front(file, c, work, out, at);
    let a = printed.read;
    let Ok((size, start)) = a else {
        return Behind { next: c, at };
    };
    let from = start.at;
    let p = print_region(file, from, work, out, printed.at);
    next_block(work);
    let end = from + (size as usize);
    Behind {
        next: Cursor { at: end },
        at: p,
    }
}

// The lines of all pairs.
pub fn print_pairs(file: &[u8], work: &mut [u32], out: &mut [u8], at: usize) -> usize
    requires { WalkReady file.now work.old × PairsThere file.now work.old 32 0 }
    ensures { PairsPrinted file.now work.old out.old at out.new result }
{
    let mut place: usize = 0;
    let mut p = at;
    let mut left = Ledger::PAIRS;
    // What ends the loop is the end of the file; a `for` over the pairs that may be would have to ask for it all the same.
    while place < file.len() {
        // No accepted file has more.
        if left == 0 {
            return p;
        }
        let one = print_pair(file, Cursor { at: place }, work, out, p);
        let next = one.next;
        place = next.at;
        p = one.at;
        left -= 1;
    }
    p
}
