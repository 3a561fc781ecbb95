// The ranges of a type, and of those that a map's kinds name, in two lists: the i-th range begins behind object first[i] and ends
// with object last[i].
ghost use Rattle.std.specs.Prelude.{◌≡◌, true, ◌+◌, ◌<◌, ◌≤◌, length};
ghost use Rattle.table.specs.View.{log_of, Ok};
ghost use Rattle.lookups.specs.Low.{Bounded};
ghost use Rattle.lookups.specs.Gather.{RangePut, GatheredTo, MaybeGathered};
ghost use Rattle.lookups.specs.Group.{refers?, asked?, GatheredAsked, AllGrouped};

use table::ranges::{objects_of, pool_of, tally_at};
use table::rows::{link_at, range_at, ranges};

// The range of the objects behind number `begin` up to number `end`, before those that stand from k up to a place: where it
// stands. Where it leads on to the first of them, that one is made longer: the ranges of a type that has all objects of its base
// type do, block after block, and so make one.
fn put_range(
    first: &mut [u32],
    last: &mut [u32],
    k: usize,
    to: usize,
    begin: u32,
    end: u32,
) -> usize
    requires { (to ≤ length first.old) × (to ≤ length last.old) × (k ≤ to) × (0 < k) × (begin ≤ end) }
    ensures { RangePut k to begin end first.old last.old first.new last.new result }
{
    if k < to {
        if first[k] == end {
            if end <= last[k] {
                first[k] = begin;
                return k;
            }
        }
    }
    first[k - 1] = begin;
    last[k - 1] = end;
    k - 1
}

// The ranges of type t, from the last to the first by the links between them, before a place: where they begin. Nothing is known of a
// link, but where the ranges that were met have as many objects as the type, none is missing; where they have not, it does not know.
fn gather_linked(
    work: &[u32],
    t: u32,
    first: &mut [u32],
    last: &mut [u32],
    to: usize,
) -> Option<usize>
    requires ok { Ok work.now × Bounded (log_of work.now) × (t < 32) }
    requires to_in_bounds { (to ≤ length first.old) × (to ≤ length last.old) × (32 ≤ to) }
    ensures { MaybeGathered t (log_of work.now) to first.old last.old first.new last.new result }
{
    let objects = objects_of(work, t);
    let mut k = to;
    let mut sum: u32 = 0;
    let mut met = ranges(work);
    let mut i = tally_at(work, t, 4);
    while sum < objects {
        if met <= i {
            return None;
        }
        let r = range_at(work, i);
        if r.typ != t {
            return None;
        }
        k = put_range(first, last, k, to, r.first, r.first + r.count);
        sum += r.count;
        met = i;
        i = link_at(work, i);
    }
    Some(k)
}

// The same for any type, by a walk through the whole log.
fn gather_each(work: &[u32], t: u64, first: &mut [u32], last: &mut [u32], to: usize) -> usize
    requires ok { Ok work.now × Bounded (log_of work.now) }
    requires to_in_bounds { (to ≤ length first.old) × (to ≤ length last.old) × (32 ≤ to) }
    ensures { GatheredTo t (log_of work.now) to first.old last.old first.new last.new result }
{
    let mut k = to;
    for i in (0..ranges(work)).rev() {
        let r = range_at(work, i);
        if r.typ as u64 == t {
            k = put_range(first, last, k, to, r.first, r.first + r.count);
        }
    }
    k
}

// The same. A base type has one range, which is known without a look at the log: references to it cost the same in every week.
fn gather_known(work: &[u32], t: u32, first: &mut [u32], last: &mut [u32], to: usize) -> usize
    requires ok { Ok work.now × Bounded (log_of work.now) × (t < 32) }
    requires to_in_bounds { (to ≤ length first.old) × (to ≤ length last.old) × (32 ≤ to) }
    ensures { GatheredTo t (log_of work.now) to first.old last.old first.new last.new result }
{
    let pool = pool_of(work, t);
    if let Some(n) = pool {
        return put_range(first, last, to, to, 0, n);
    }
    if let Some(k) = gather_linked(work, t, first, last, to) {
        return k;
    }
    gather_each(work, t as u64, first, last, to)
}

// The ranges of type t, which has at most one in a block, before a place: where they begin. What stands from that place on is left
// alone. A type that is not declared has none, so t has no bound.
pub fn gather(work: &[u32], t: u64, first: &mut [u32], last: &mut [u32], to: usize) -> usize
    requires ok { Ok work.now × Bounded (log_of work.now) }
    requires to_in_bounds { (to ≤ length first.old) × (to ≤ length last.old) × (32 ≤ to) }
    ensures { GatheredTo t (log_of work.now) to first.old last.old first.new last.new result }
{
    if t < 32 {
        return gather_known(work, t as u32, first, last, to);
    }
    gather_each(work, t, first, last, to)
}

// Whether one of a map's kinds names a type.
pub fn refers(kinds: &[u64]) -> bool
    ensures { result ≡ refers? kinds.now }
{
    kinds.iter().any(|kind| 32 <= *kind)
}

// Whether kind k is one of these.
pub fn asked(kinds: &[u64], k: u64) -> bool
    ensures { result ≡ asked? kinds.now k }
{
    kinds.contains(&k)
}

// The ranges of type t, before a place, if one of the kinds names it.
fn gather_asked(
    work: &[u32],
    kinds: &[u64],
    t: u64,
    first: &mut [u32],
    last: &mut [u32],
    to: usize,
) -> usize
    requires ok { Ok work.now × Bounded (log_of work.now) }
    requires to_in_bounds { (to ≤ length first.old) × (to ≤ length last.old) × (asked? kinds.now (t + 32) ≡ true → 32 ≤ to) × (t < 32) }
    ensures { GatheredAsked (asked? kinds.now (t + 32)) t (log_of work.now) to first.old last.old first.new last.new result }
{
    if !asked(kinds, t + 32) {
        return to;
    }
    gather(work, t, first, last, to)
}

// The ranges of all types that a map's kinds name, one type after the other: those of type t stand from starts[t] up to starts[t + 1].
pub fn group(work: &[u32], kinds: &[u64], starts: &mut [u32], first: &mut [u32], last: &mut [u32])
    requires ok { Ok work.now × Bounded (log_of work.now) × (length kinds.now ≤ 8) }
    requires starts_len { (length starts.old ≡ 33) × (length first.old ≡ 256) × (length last.old ≡ 256) }
    ensures { AllGrouped kinds.now work.now starts.new first.new last.new }
{
    starts[32] = 256;
    let mut k: usize = 256;
    for t in (0..32).rev() {
        k = gather_asked(work, kinds, t as u64, first, last, k);
        starts[t] = k as u32;
    }
}
