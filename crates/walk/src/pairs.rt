// A pair, and pair after pair to the end of the file.
ghost use Rattle.std.specs.Prelude.{◌≡◌, length};
ghost use Rattle.paper.specs.Bounds.{table_length};
ghost use Rattle.walk.specs.PairLaws.{PairReady, PairDone};
ghost use Rattle.walk.specs.LateLaws.{LateReady, LateDone};
ghost use Rattle.walk.specs.PairTurns.{WalkReady, WalkDone};
ghost use Rattle.walk.specs.FileLaws.{FileRead};

use crate::region::{kinds_stand, region};
use numbers::{Cursor, Fault, Refusal, Step};
use paper::Ledger;
use reader::entries::front;
use reader::kinds::Named;
use table::counts::{begin, counts, cut_back, next_block};
use table::rows::{Counts, types};

// A kind names no type, now that all types of the block are known. Which one it is, and whether anything before it is wrong, is
// found out by reading the front again from where the pair began, strictly.
fn late_kind(file: &[u8], c: Cursor, work: &mut [u32], before: Counts) -> Step
    requires { LateReady file.now work.old before c.at }
    ensures { LateDone file.now work.old before c.at result work.new }
{
    let declared = types(work) as u64;
    cut_back(work, before);
    let named = Named {
        strict: true,
        types: declared,
    };
    let (_, end) = front(file, c, work, named)?;
    Err(Refusal {
        fault: Fault::Kind,
        place: end.at,
    })
}

// A pair: its front, a data region that ends within the file, kinds that stand, and the chunks. The block ends with it.
pub fn pair(file: &[u8], c: Cursor, work: &mut [u32]) -> Step
    requires { PairReady file.now work.old c.at }
    ensures { PairDone file.now work.old work.new c.at result }
{
    let before = counts(work);
    let any = Named {
        strict: false,
        types: 0,
    };
    let (size, start) = front(file, c, work, any)?;
    let at = start.at;
    if ((file.len() - at) as u64) < size {
        return Err(Refusal {
            fault: Fault::Short,
            place: at,
        });
    }
    if !kinds_stand(work, before.fields) {
        return late_kind(file, c, work, before);
    }
    let end = region(file, at, work)?;
    next_block(work);
    Ok(end)
}

// Pair after pair, to the end of the file.
pub fn pairs(file: &[u8], work: &mut [u32]) -> Step
    requires { WalkReady file.now work.old }
    ensures { WalkDone file.now work.old work.new result }
{
    let mut at: usize = 0;
    let mut left = Ledger::PAIRS;
    // A `for` over the pairs would ask twice whether the file is at its end: before each of them, and behind the last.
    while at < file.len() {
        if left == 0 {
            return Err(Refusal {
                fault: Fault::Limit,
                place: at,
            });
        }
        let c = pair(file, Cursor { at }, work)?;
        at = c.at;
        left -= 1;
    }
    Ok(Cursor { at })
}

// A file, read into the table, whatever stood in it.
pub fn read(file: &[u8], work: &mut [u32]) -> Step
    requires { length work.old ≡ table_length }
    ensures { FileRead file.now work.new result }
{
    let ledger = Ledger {
        bytes: file.len() as u64,
    };
    if !ledger.fits() {
        return Err(Refusal {
            fault: Fault::Limit,
            place: 0,
        });
    }
    begin(work);
    pairs(file, work)
}
