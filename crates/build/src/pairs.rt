// The first pass over a text: each pair is judged and its bytes are counted. Nothing is laid.
ghost use Rattle.std.specs.Prelude.{◌≡◌, length};
ghost use Rattle.paper.specs.Bounds.{most_pairs};
ghost use Rattle.table.specs.View.{Holds};
ghost use Rattle.build.specs.FrontLaws.{PairAsks};
ghost use Rattle.build.specs.Pairs.{TextReady};
ghost use Rattle.build.specs.Counting.{PairCounted, FileCounted};
ghost use Rattle.build.specs.Puts.{FrontLays};

use crate::front::{Front, front_text};
use fronts::put_entries;
use numbers::write::put_v64;
use paper::Ledger;
use puts::strings::put_strings;
use regions::{add_up, region_size, size_chunks};
use table::counts::next_block;
use table::rows::strings;
use texts::Taken;
use words::read::Place;

// Behind the lines of a pair, where its values begin in the file, and where they end.
#[derive(Clone, Copy)]
pub struct PairCount {
    pub next: Place,
    pub values: usize,
    pub end: usize,
}

// The string block of the strings from a row on, the number of entries, and the entries.
pub fn put_front(
    text: &[u8],
    front: Front,
    work: &[u32],
    from: u32,
    out: &mut [u8],
    at: usize,
) -> usize
    requires { Holds text.now work.now }
    ensures { FrontLays text.now front work.now from out.old at out.new result }
{
    let behind_strings = put_strings(text, work, from, out, at);
    let behind_count = put_v64(out, behind_strings, front.entries);
    put_entries(text, front.from, front.entries, work, out, behind_count)
}

// The pair at p, which stands in the file from `at` on. Lent no room, its front is only counted. Values that are too long for
// any file are not: their ends might pass 64 bits.
fn count_pair(text: &[u8], p: Place, work: &mut [u32], at: usize) -> Option<PairCount>
    requires { PairAsks text.now work.old p.at }
    ensures { PairCounted text.now work.old p.at at result work.new }
{
    let known = strings(work);
    let front = front_text(text, p, work)?;
    let next = size_chunks(text, front.values, work)?;
    let size = region_size(work);
    let alone = Ledger { bytes: size };
    if !alone.fits() {
        return None;
    }
    let mut none = [0u8; 1];
    let values = put_front(text, front, work, known, &mut none[..0], at);
    let end = add_up(values as u64, size) as usize;
    next_block(work);
    Some(PairCount { next, values, end })
}

// All pairs of the text, and where the values of each begin: the last of the places is the first pair's.
pub fn count_pairs(text: &[u8], work: &mut [u32], places: &mut [u64]) -> Option<Taken>
    requires text_ready { TextReady text.now work.old }
    requires places_len { length places.old ≡ most_pairs }
    ensures { FileCounted text.now places.new result }
{
    let mut at: usize = 0;
    let mut left = Ledger::PAIRS;
    let mut from: usize = 0;
    // What ends the loop is the end of the text. A `for` over the places would have to ask for it in each turn, and once more behind.
    while from < text.len() {
        if left == 0 {
            return None;
        }
        let k = count_pair(text, Place { at: from }, work, at)?;
        left -= 1;
        places[left as usize] = k.values as u64;
        at = k.end;
        let next = k.next;
        from = next.at;
    }
    Some(Taken {
        next: Place { at: from },
        at,
    })
}
