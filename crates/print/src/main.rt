// A ledger from standard input as text on standard output. What is written for which input is proved, of `answer`.
#![tactic(auto)]

ghost use Rattle.streams.specs.Answers.{AtFront};
ghost use Rattle.print.specs.Printed.{printed};

use listing::listing;
use paper::Ledger;

// What the program writes for the input that came: it stands at the front of `out`, and the answer says how long it is. The
// length of `out` is the bound on the output, so that the call itself refuses what is longer.
fn answer(came: &[u8], out: &mut [u8; Ledger::OUTPUT as usize]) -> usize
    ensures { AtFront (printed came.now) out.old out.new result }
{
    if (Ledger::INPUT as usize) < came.len() {
        return streams::put_refused(out, 3);
    }
    let mut work = [0u32; Ledger::TABLE as usize];
    let a = listing(came, &mut work, out);
    streams::replied(a, out)
}

fn main(rt: HostRuntime) {
    // One byte more than is taken tells that there are too many.
    let mut input = [0u8; Ledger::INPUT as usize + 1];
    let Ok(n) = streams::read_input(&rt, &mut input) else {
        return;
    };
    let mut out = [0u8; Ledger::OUTPUT as usize];
    let count = answer(&input[..n], &mut out);
    streams::write_answer(&rt, &out[..count]);
}
