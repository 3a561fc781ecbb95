// The second pass over a text, which was judged and counted. The values of a pair are laid first, where the first pass found
// that they begin: so their sizes are known when the front is laid, which says them, and their lines are read once.
ghost use Rattle.std.specs.Prelude.{◌≡◌};
ghost use Rattle.build.specs.Pairs.{TextReady, Built};
ghost use Rattle.build.specs.Again.{PairGiven, FileGiven, Filled};

use crate::front::front_text;
use crate::pairs::put_front;
use paper::Ledger;
use regions::lay_sized;
use table::counts::next_block;
use table::rows::strings;
use texts::Taken;
use words::read::Place;

// The pair at p, laid from `at` on, with its values at their place. It is there, so both readings succeed.
fn pair_again(
    text: &[u8],
    p: Place,
    work: &mut [u32],
    values: usize,
    out: &mut [u8],
    at: usize,
) -> Taken
    requires { PairGiven text.now work.old p.at at values }
    ensures { (G : PairGiven text.now work.old p.at at values) → Built G.asks.state text.now work.old p.at out.old at out.new result work.new }
{
    let known = strings(work);
    let Some(front) = front_text(text, p, work) else {
        return Taken { next: p, at };
    };
    let Some(k) = lay_sized(text, front.values, work, out, values) else {
        return Taken { next: p, at };
    };
    put_front(text, front, work, known, out, at);
    next_block(work);
    k
}

// All pairs of the text.
pub fn pairs_again(text: &[u8], work: &mut [u32], places: &[u64], out: &mut [u8])
    requires text_ready { TextReady text.now work.old }
    requires file_given { FileGiven text.now places.now }
    ensures { Filled text.now out.old out.new }
{
    let mut at: usize = 0;
    let mut left = Ledger::PAIRS;
    let mut from: usize = 0;
    // As in the first pass, the end of the text ends the loop, and not that of the places.
    while from < text.len() {
        left -= 1;
        let values = places[left as usize] as usize;
        let k = pair_again(text, Place { at: from }, work, values, out, at);
        at = k.at;
        let next = k.next;
        from = next.at;
    }
}
