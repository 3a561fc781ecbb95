// A guide to the ranges of a type, for values that are many: which range to look at first. The numbers of the objects are
// divided into 64 parts, and for each it has the first range that ends there or behind. A 65th number says how many bits of
// an object's number are left out in that of its part. Nothing is built on a guide: a range is looked at before it is trusted.
ghost use Rattle.std.specs.Prelude.{◌≡◌, ◌<◌, ◌≤◌, length};

// How many bits the guide leaves out, if it is one.
pub fn bits_of(guide: &[u32]) -> u32
    ensures { result < 64 }
{
    if guide.len() != 65 {
        return 0;
    }
    guide[64] % 64
}

// The range to look at first for object n, where so many bits are left out. Where the guide does not know, it is the first.
pub fn guess(guide: &[u32], bits: u32, n: u64) -> usize
    requires { bits < 64 }
{
    match guide.get((n >> bits) as usize) {
        Some(first) => *first as usize,
        None => 0,
    }
}

// How many bits are left out where the last object has this number: all but six of those that it has, and no more than 24.
fn bits_out(object: u32) -> u32
    ensures { result ≤ 24 }
{
    26u32.saturating_sub(object.leading_zeros()).min(24)
}

// The part in which an object lies where so many bits are left out. The last has all that are behind.
fn part_of(object: u32, bits: u32) -> usize
    requires { bits < 32 }
    ensures { result < 64 }
{
    (object >> bits).min(63) as usize
}

// Range i for the parts from a place on up to another.
fn mark(guide: &mut [u32], from: usize, to: usize, i: u32)
    requires { to ≤ length guide.old }
    ensures { length guide.new ≡ length guide.old }
{
    if let Some(parts) = guide.get_mut(from..to) {
        parts.fill(i);
    }
}

// The parts, one range after the other, where so many bits are left out.
fn mark_all(last: &[u32], bits: u32, guide: &mut [u32])
    requires { (bits < 32) × (length guide.old ≡ 65) }
    ensures { length guide.new ≡ 65 }
{
    let mut from: usize = 0;
    for (i, end) in last.iter().enumerate() {
        let to = part_of(*end, bits) + 1;
        mark(guide, from, to, (i % 65536) as u32);
        from = to;
    }
}

// The guide to ranges that end with these objects.
pub fn make_guide(last: &[u32], guide: &mut [u32])
    requires { length guide.old ≡ 65 }
    ensures { length guide.new ≡ 65 }
{
    let Some(object) = last.last() else {
        return;
    };
    let bits = bits_out(*object);
    guide[64] = bits;
    mark_all(last, bits, guide);
}
