// Numbers put into a lent buffer, as a file has them.
ghost use Rattle.std.specs.Prelude.{◌^◌, ◌≤◌, ◌<◌};
ghost use Rattle.paper.specs.Numbers.{put, put_fixed};
ghost use Rattle.lay.specs.Laid.{Laid};
ghost use Rattle.numbers.specs.Lengths.{Length};

// How many bytes the v64 of x has. No other function works a length out.
pub fn v64_length(x: u64) -> usize
    ensures { Length x result }
{
    if x < 128 {
        return 1;
    }
    if x < 16384 {
        return 2;
    }
    if x < 2097152 {
        return 3;
    }
    if x < 268435456 {
        return 4;
    }
    if x < 34359738368 {
        return 5;
    }
    if x < 4398046511104 {
        return 6;
    }
    if x < 562949953421312 {
        return 7;
    }
    if x < 72057594037927936 {
        return 8;
    }
    9
}

// The bytes that are left are counted down: counted up, nine took 1.6 times as long.
pub fn put_v64(out: &mut [u8], at: usize, x: u64) -> usize
    ensures { Laid out.old at (put x) out.new result }
{
    let mut p = at;
    let mut rest = x;
    let length = v64_length(x);
    for _left in (1..length).rev() {
        let low = 128 + rest % 128;
        p = lay::put(out, p, low as u8);
        rest /= 128;
    }
    lay::put(out, p, rest as u8)
}

// x in `WIDTH` bytes, highest first. At eight the bound holds of every x, and is not asked.
pub fn put_be<const WIDTH: usize>(out: &mut [u8], at: usize, x: u64) -> usize
    requires { (WIDTH ≤ 8) × (WIDTH < 8 → x < 256 ^ WIDTH) }
    ensures { Laid out.old at (put_fixed WIDTH x) out.new result }
{
    let mut p = at;
    for left in (0..WIDTH).rev() {
        let low = (x >> (8 * left)) % 256;
        p = lay::put(out, p, low as u8);
    }
    p
}
