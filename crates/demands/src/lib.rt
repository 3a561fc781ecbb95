// The demands, of the calls themselves: each function only calls, and promises a sentence of the demands of what was replied.
#![tactic(auto)]

ghost use Rattle.std.specs.Prelude.{◌≡◌, ◌≤◌, length};
ghost use Rattle.demands.specs.Exact.{AcceptsExactly, CountsExactly, FillsExactly};
ghost use Rattle.demands.specs.Pair.{RoomFor, AskedAndFilled, then_fill};
ghost use Rattle.demands.specs.Trips.{BuiltAgain, ListedAgain, ComesBack};
ghost use Rattle.demands.specs.Room.{ListedInRoom};
ghost use Rattle.demands.specs.Growth.{Grown};
ghost use Rattle.demands.specs.Isolation.{Isolated};

use build::build;
use calls::replies::Reply;
use calls::{check, count_values, fill_values};
use listing::listing;

// Demand 2: a file is accepted exactly when it follows the rules.
pub fn accepted(file: &[u8], work: &mut [u32]) -> Reply
    ensures { 16384 ≤ length work.old → AcceptsExactly file.now result }
{
    check(file, work)
}

// What the pair of calls replies: how many values there are, and how many were filled in.
#[derive(Clone, Copy)]
pub struct Pair {
    pub asked: Reply,
    pub filled: Reply,
}

// Exactly n, where there is as much.
fn room_for(n: u64, there: usize) -> usize
    ensures { RoomFor n there result }
{
    if n <= there as u64 {
        return n as usize;
    }
    there
}

// Asks how many, then fills with exactly n. What has no room is left to the second call to refuse.
fn ask_then_fill(
    file: &[u8],
    owner: &[u8],
    name: &[u8],
    k: u64,
    work: &mut [u32],
    out: &mut [i64],
) -> Pair
    ensures { AskedAndFilled file.now owner.now name.now k work.old out.old result.asked result.filled work.new out.new }
{
    let a = count_values(file, owner, name, k, work);
    match a {
        Ok(n) => {
            let room = room_for(n, out.len());
            let b = fill_values(file, owner, name, k, work, &mut out[..room]);
            Pair {
                asked: Ok(n),
                filled: b,
            }
        }
        Err(e) => Pair {
            asked: Err(e),
            filled: Err(e),
        },
    }
}

// Demand 2: there are as many values as is said, they are exactly those of the ledger, and the first one's n is what the second writes.
pub fn values_of(
    file: &[u8],
    owner: &[u8],
    name: &[u8],
    k: u64,
    work: &mut [u32],
    out: &mut [i64],
) -> Pair
    ensures { 16384 ≤ length work.old → CountsExactly file.now owner.now name.now k result.asked × FillsExactly file.now owner.now name.now k out.old result.filled out.new × (result.filled ≡ then_fill result.asked (length out.old)) }
{
    ask_then_fill(file, owner, name, k, work, out)
}

// Demand 2: building from an accepted file's listing gives the same contents in shortest coding.
pub fn built_again(file: &[u8], work: &mut [u32], text: &mut [u8], out: &mut [u8]) -> Reply
    ensures { 16384 ≤ length work.old → BuiltAgain file.now text.old out.old result out.new }
{
    let n = listing(file, work, text)?;
    build(&text[..n as usize], work, out)
}

// Demand 2: the listing of a built file is the listing it was built from.
pub fn listed_again(text: &[u8], work: &mut [u32], file: &mut [u8], out: &mut [u8]) -> Reply
    ensures { 16384 ≤ length work.old → ListedAgain text.now file.old out.old result out.new }
{
    let n = build(text, work, file)?;
    listing(&file[..n as usize], work, out)
}

// Demand 2: a built file comes back from its listing as it was.
pub fn comes_back(
    text: &[u8],
    work: &mut [u32],
    file: &mut [u8],
    again: &mut [u8],
    out: &mut [u8],
) -> Reply
    ensures { 16384 ≤ length work.old → ComesBack text.now file.old again.old out.old result file.new out.new }
{
    let n = build(text, work, file)?;
    built_again(&file[..n as usize], work, again, out)
}

// The room that the header advises for a listing is enough.
pub fn listed_in_room(file: &[u8], work: &mut [u32], out: &mut [u8]) -> Reply
    ensures { 16384 ≤ length work.old → ListedInRoom file.now out.old result out.new }
{
    listing(file, work, out)
}

// The replies to one question of two files.
#[derive(Clone, Copy)]
pub struct Both {
    pub first: Pair,
    pub second: Pair,
}

// Demand 3: what one question of two files tells.
pub fn asked_of_both(
    first: &[u8],
    second: &[u8],
    owner: &[u8],
    name: &[u8],
    k: u64,
    work: &mut [u32],
    out: &mut [i64],
    other: &mut [i64],
) -> Both
    ensures { 16384 ≤ length work.old → Grown first.now second.now owner.now name.now k out.old other.old result.first.asked result.second.asked result.first.filled result.second.filled out.new other.new × Isolated first.now second.now owner.now name.now out.old other.old result.first.asked result.second.asked result.first.filled result.second.filled out.new other.new }
{
    let a = ask_then_fill(first, owner, name, k, work, out);
    let b = ask_then_fill(second, owner, name, k, work, other);
    Both {
        first: a,
        second: b,
    }
}
