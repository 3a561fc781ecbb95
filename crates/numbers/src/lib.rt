// Numbers in lent bytes. Here they are read, at a cursor; `sign` has their signs, and `write` puts them into a buffer.
#![tactic(auto)]

pub mod sign;
pub mod write;

ghost use Rattle.std.specs.Prelude.{◌≡◌, ◌+◌, ◌^◌, ◌%◌, ◌≤◌, ◌<◌, length, take, drop};
ghost use Rattle.paper.specs.Numbers.{fixed, v64};
ghost use Rattle.paper.specs.File.{small};
ghost use Rattle.numbers.specs.Faults.{number_of};
ghost use Rattle.numbers.specs.Cursors.{Read, Past};
ghost use Rattle.numbers.specs.Begun.{Begun, Ended};
ghost use Rattle.numbers.specs.Turned.{low_bytes, Turned, TakenAt, TakenV64};
ghost use Rattle.numbers.specs.Words.{marks, septets, Ran};

use paper::Ledger;

// A place in the bytes, handed on by value.
#[derive(Clone, Copy)]
pub struct Cursor {
    pub at: usize,
}

// What is wrong with a file, by the names that the refusals have. `Padded` is given nowhere any more, and `Loop` never was.
#[derive(Clone, Copy)]
pub enum Fault {
    Short,
    Padded,
    Limit,
    Ends,
    Name,
    Twice,
    Super,
    Loop,
    Restriction,
    Kind,
    Fields,
    Chunk,
    Value,
    Reference,
    Range,
}

// The number of a refusal.
impl From<Fault> for u64 {
    ghost from_gives = { λ f n. n ≡ number_of f };

    fn from(f: Fault) -> u64 {
        match f {
            Fault::Short => 1,
            Fault::Padded => 2,
            Fault::Limit => 3,
            Fault::Ends => 4,
            Fault::Name => 5,
            Fault::Twice => 6,
            Fault::Super => 7,
            Fault::Loop => 8,
            Fault::Restriction => 9,
            Fault::Kind => 10,
            Fault::Fields => 11,
            Fault::Chunk => 12,
            Fault::Value => 13,
            Fault::Reference => 14,
            Fault::Range => 21,
        }
    }
}

// A refusal: what is wrong, and the place where what broke the rule began.
#[derive(Clone, Copy)]
pub struct Refusal {
    pub fault: Fault,
    pub place: usize,
}

// What was read, with the cursor behind it, or the refusal.
pub type Outcome<T> = Result<(T, Cursor), Refusal>;

// The cursor behind what was passed over, or the refusal.
pub type Step = Result<Cursor, Refusal>;

// A number that is known to be there, with the cursor behind it.
#[derive(Clone, Copy)]
pub struct Taken {
    pub number: u64,
    pub next: Cursor,
}

// Numbers that are passed over at once: how many, and the cursor behind them.
#[derive(Clone, Copy)]
pub struct Run {
    pub count: u64,
    pub next: Cursor,
}

fn refuse(fault: Fault, place: usize) -> Outcome<u64>
    ensures { result ≡ Err (record { fault = fault; place = place }) }
{
    Err(Refusal { fault, place })
}

// A byte as a number. Its bound, said once, spares each reader a fact.
fn wide(b: u8) -> u64
    ensures { (result ≡ b) × (result < 256) }
{
    u64::from(b)
}

// `width` bytes, highest first.
fn fixed_at(s: &[u8], at: usize, width: usize) -> Outcome<u64>
    requires { width ≤ 8 }
    ensures { Read (fixed width) (256 ^ width) s.now at result }
{
    if s.len() < at {
        return refuse(Fault::Short, at);
    }
    if s.len() - at < width {
        return refuse(Fault::Short, at);
    }
    let mut x: u64 = 0;
    for i in 0..width {
        let b = wide(s[at + i]);
        x = x * 256 + b;
    }
    Ok((x, Cursor { at: at + width }))
}

// `WIDTH` bytes that are there, lowest first. Only so does the compiler make one load of them.
fn low_first<const WIDTH: usize>(s: &[u8], at: usize) -> u64
    requires { (WIDTH ≤ 8) × (at + WIDTH ≤ length s.now) }
    ensures { result ≡ low_bytes (take WIDTH (drop at s.now)) }
{
    let mut x: u64 = 0;
    for i in 0..WIDTH {
        let b = wide(s[at + i]);
        x += b << (8 * i);
    }
    x
}

// The lowest `WIDTH` bytes of x the other way round. Where the width is known, the compiler knows this for one instruction, before it
// meets the bytes that are turned.
fn turned<const WIDTH: usize>(x: u64) -> u64
    requires { WIDTH ≤ 8 }
    ensures { Turned WIDTH x result }
{
    let mut y: u64 = 0;
    let mut rest = x;
    for _i in 0..WIDTH {
        y = y * 256 + rest % 256;
        rest /= 256;
    }
    y
}

// Which of the eight bytes of x end a v64: those without their top bit, which is set here.
fn ends(x: u64) -> u64
    ensures { result ≡ marks 8 x }
{
    let tops: u64 = 0x8080_8080_8080_8080;
    tops - (x & tops)
}

// The v64 that begins at `at` with a byte that another follows, and whose low seven bits are `low`: its other bytes. Each
// but the ninth has seven bits; a coding may be longer than its number needs. Seven rounds and not a range of places: of a number that
// it knows the compiler lays the rounds out, and a range took 1.4 times as long.
fn v64_on(s: &[u8], at: usize, low: u64) -> Outcome<u64>
    requires { Begun s.now at low }
    ensures { Read v64 (2 ^ 64) s.now at result }
{
    let mut x = low;
    let mut weight: u64 = 128;
    let mut p = at + 1;
    for _i in 0..7_usize {
        if s.len() <= p {
            return refuse(Fault::Short, at);
        }
        let b = wide(s[p]);
        p += 1;
        if b < 128 {
            let high = weight * b;
            let sum = x + high;
            return Ok((sum, Cursor { at: p }));
        }
        let part = weight * (b - 128);
        x += part;
        weight *= 128;
    }
    if s.len() <= p {
        return refuse(Fault::Short, at);
    }
    let b = wide(s[p]);
    let next = p + 1;
    let top = weight * b;
    let sum = x + top;
    Ok((sum, Cursor { at: next }))
}

// The lowest seven bits of each of the eight bytes of x, side by side: joined in twos, then in fours, then all eight. The twos are a
// difference, since only so are all bits of x asked for at once, and the compiler keeps the one load of them.
fn joined(x: u64) -> u64
    ensures { result ≡ septets 8 x }
{
    let ones = x & 0x7F7F_7F7F_7F7F_7F7F;
    let twos = ones - ((ones & 0x7F00_7F00_7F00_7F00) >> 1);
    let fours = (twos & 0x3FFF_0000_3FFF) + ((twos & 0x3FFF_0000_3FFF_0000) >> 2);
    (fours & 0x0FFF_FFFF) + ((fours & 0x0FFF_FFFF_0000_0000) >> 4)
}

// The bits of x up to this one.
fn up_to(x: u64, bit: u32) -> u64
    requires { bit < 64 }
    ensures { result ≡ x % 2 ^ (bit + 1) }
{
    let over = 63 - bit;
    (x << over) >> over
}

// The v64 that begins at `at`, where all nine bytes are there that it may have. Eight are looked at as one number: a jump depends only on
// whether one of them ends it, and none on which does.
fn long_v64(s: &[u8], at: usize) -> Taken
    requires { at + 9 ≤ length s.now }
    ensures { TakenV64 s.now at result }
{
    let x = low_first::<8>(s, at);
    let marked = ends(x);
    if marked == 0 {
        let ninth = wide(s[at + 8]) << 56;
        let next = Cursor { at: at + 9 };
        return Taken {
            number: joined(x) + ninth,
            next,
        };
    }
    let bit = u64::trailing_zeros(marked);
    let next = Cursor {
        at: at + ((bit / 8) as usize) + 1,
    };
    Taken {
        number: joined(up_to(x, bit)),
        next,
    }
}

impl Cursor {
    // One byte to three are the cases to be fast in: no string or object of a file has a larger number. The way on from there is a
    // call, which hands its answer over in memory.
    pub fn v64(self, s: &[u8]) -> Outcome<u64>
        ensures { Read v64 (2 ^ 64) s.now self.at result }
    {
        let at = self.at;
        if s.len() <= at {
            return refuse(Fault::Short, at);
        }
        let b = wide(s[at]);
        if b < 128 {
            return Ok((b, Cursor { at: at + 1 }));
        }
        let low = b - 128;
        if 2 < s.len() - at {
            let second = wide(s[at + 1]);
            if second < 128 {
                return Ok((low + 128 * second, Cursor { at: at + 2 }));
            }
            let third = wide(s[at + 2]);
            if third < 128 {
                let high = second - 128 + 128 * third;
                return Ok((low + 128 * high, Cursor { at: at + 3 }));
            }
        }
        v64_on(s, at, low)
    }

    // Past a v64 that has all bytes behind it that it may have. No jump depends on which of them ends it: where none of eight does, the bits
    // before the first that is set are all 64.
    pub fn pass_v64(self, s: &[u8]) -> Cursor
        requires { self.at + 9 ≤ length s.now }
        ensures { Ended s.now self.at result.at × (result.at ≤ self.at + 9) }
    {
        let at = self.at;
        let marked = ends(low_first::<8>(s, at));
        let bit = u64::trailing_zeros(marked);
        Cursor {
            at: at + ((bit / 8) as usize) + 1,
        }
    }

    // Past a v64 of which nobody asks the value: no number is made of it, unless the bytes end near. Of one byte, which most have, a look
    // tells.
    pub fn past_v64(self, s: &[u8]) -> Step
        ensures { Past v64 s.now self.at result }
    {
        let at = self.at;
        if s.len() <= at {
            return Err(Refusal {
                fault: Fault::Short,
                place: at,
            });
        }
        let b = wide(s[at]);
        if b < 128 {
            return Ok(Cursor { at: at + 1 });
        }
        if s.len() - at < 9 {
            let (_, next) = v64_on(s, at, b - 128)?;
            return Ok(next);
        }
        Ok(self.pass_v64(s))
    }

    // Past all v64s that end in the next eight bytes, where a ninth is there, or past the one that has all nine. What is counted is where they
    // end; none of them is looked at by itself.
    pub fn past_v64s(self, s: &[u8]) -> Run
        requires { self.at + 9 ≤ length s.now }
        ensures { Ran s.now self.at result }
    {
        let at = self.at;
        let marked = ends(low_first::<8>(s, at));
        if marked == 0 {
            let next = Cursor { at: at + 9 };
            return Run { count: 1, next };
        }
        let count = u64::from(u64::count_ones(marked));
        let behind = u64::leading_zeros(marked) / 8;
        let next = Cursor {
            at: at + ((8 - behind) as usize),
        };
        Run { count, next }
    }

    // A count, local start or length, which is held to the bound of objects.
    pub fn small(self, s: &[u8]) -> Outcome<u64>
        ensures { Read small 65536 s.now self.at result }
    {
        let (n, next) = self.v64(s)?;
        if !Ledger::is_small(n) {
            return refuse(Fault::Limit, self.at);
        }
        Ok((n, next))
    }

    // A number of `WIDTH` bytes, highest first. A u64 has no room for more than eight: more are refused unseen, and so nothing is asked of
    // `WIDTH`.
    pub fn be<const WIDTH: usize>(self, s: &[u8]) -> Outcome<u64>
        ensures reads { WIDTH ≤ 8 → Read (fixed WIDTH) (256 ^ WIDTH) s.now self.at result }
        ensures no_more { 8 < WIDTH → result ≡ Err (record { fault = Fault.Short; place = self.at }) }
    {
        if 8 < WIDTH {
            return refuse(Fault::Short, self.at);
        }
        fixed_at(s, self.at, WIDTH)
    }

    // Numbers of a fixed width that are known to be there: no test, and in a loop over many the compiler reads several at once.
    pub fn take<const WIDTH: usize>(self, s: &[u8]) -> Taken
        requires { (WIDTH ≤ 8) × (self.at + WIDTH ≤ length s.now) }
        ensures { TakenAt WIDTH s.now self.at result }
    {
        let at = self.at;
        let number = turned::<WIDTH>(low_first::<WIDTH>(s, at));
        let next = Cursor { at: at + WIDTH };
        Taken { number, next }
    }

    // The same of a v64 that has all bytes behind it that it may have. Up to three bytes are told by a look at each.
    pub fn take_v64(self, s: &[u8]) -> Taken
        requires { self.at + 9 ≤ length s.now }
        ensures { TakenV64 s.now self.at result }
    {
        let at = self.at;
        let a = wide(s[at]);
        if a < 128 {
            let next = Cursor { at: at + 1 };
            return Taken { number: a, next };
        }
        let b = wide(s[at + 1]);
        if b < 128 {
            let next = Cursor { at: at + 2 };
            return Taken {
                number: a - 128 + 128 * b,
                next,
            };
        }
        let c = wide(s[at + 2]);
        if c < 128 {
            let next = Cursor { at: at + 3 };
            return Taken {
                number: a - 128 + 128 * (b - 128 + 128 * c),
                next,
            };
        }
        long_v64(s, at)
    }

    // The same where most have more than three bytes: nothing is told before the length is.
    pub fn take_long_v64(self, s: &[u8]) -> Taken
        requires { self.at + 9 ≤ length s.now }
        ensures { TakenV64 s.now self.at result }
    {
        long_v64(s, self.at)
    }

    // A number of any such width. Eight bytes are asked for by themselves: then their number is known, and they are read at once.
    pub fn fixed(self, s: &[u8], width: usize) -> Outcome<u64>
        requires { width ≤ 8 }
        ensures { Read (fixed width) (256 ^ width) s.now self.at result }
    {
        if width == 8 {
            return self.be::<8>(s);
        }
        fixed_at(s, self.at, width)
    }
}
