// What the benchmark times: the proved readers, over a whole buffer.
#![tactic(auto)]

ghost use Rattle.std.specs.Prelude.{◌≡◌};
ghost use Rattle.pace.specs.Sum.{sum_of};

use numbers::Cursor;

// The sum of the v64 numbers from the start of `s` up to the first that is refused, as at the end it is. It wraps: a
// benchmark asks only that each number is used. A number has at least a byte, so there are no more than bytes.
#[unsafe(no_mangle)]
pub extern "C" fn pace_sum_v64(s: &[u8]) -> u64
    ensures { result ≡ sum_of s.now }
{
    let mut sum: u64 = 0;
    let mut c = Cursor { at: 0 };
    for _ in 0..s.len() {
        let Ok((x, next)) = c.v64(s) else {
            return sum;
        };
        sum = sum.wrapping_add(x);
        c = next;
    }
    sum
}
