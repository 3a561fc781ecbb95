// Words read from a text, from a place in it. A reader answers what stands there with the place behind it, or `None`.
ghost use Rattle.std.specs.Prelude.{◌≡◌, true, ◌+◌, ◌≤◌, ◌<◌, length, drop};
ghost use Rattle.lay.specs.Laid.{Laid};
ghost use Rattle.paper.specs.Scan.{byte_is, literal, ended, too_large?, digits_on, natural, integer, or_none, nibble, hex_on};
ghost use Rattle.words.specs.Blocks.{value_of, Hexes};
ghost use Rattle.words.specs.Pairs.{values_of, Values, Written, Foured, Halved, Paired, Unpaired, Unhexes};
ghost use Rattle.words.specs.Answers.{out_step, out_number, out_bits, out_maybe, Peeked, Digit, Nibble, Unhexed};

use crate::HALF;
use crate::write::room;

const DASH: u64 = 45;

// A place in a text.
#[derive(Clone, Copy)]
pub struct Place {
    pub at: usize,
}

// What was read and the place behind it; `None` where it does not stand there.
pub type Scanned<T> = Option<(T, Place)>;

// Behind the hex digits that were read, and behind the bytes that were laid.
#[derive(Clone, Copy)]
pub struct Bytes {
    pub next: Place,
    pub at: usize,
}

// The byte at a place. Past the end there is none, and 256 is no byte: so a reader has no test of the length. A number and not an
// `Option`, since the reader then asks once, as each of them asks for a byte or a range of bytes.
pub fn peek(t: &[u8], at: usize) -> u64
    ensures { Peeked t.now at result }
{
    if at < t.len() {
        return u64::from(t[at]);
    }
    256
}

// A digit's value, 10 or more for any other byte: 0 to 9 are the bytes 48 to 57, and a byte below them goes round. One sum and no
// `Option`: a digit is told from another byte by one comparison, in the loop that reads most of a listing.
fn digit(b: u64) -> u64
    requires { b ≤ 256 }
    ensures { Digit b result }
{
    (b + 208) % 256
}

// One digit more does not fit 64 bits: held against the largest number, as 10 * v + d itself may not fit.
fn too_large(v: u64, d: u64) -> bool
    requires { d < 10 }
    ensures { result ≡ too_large? v d }
{
    if v < u64::MAX / 10 {
        return false;
    }
    if u64::MAX / 10 < v {
        return true;
    }
    u64::MAX % 10 < d
}

// A hex digit's value: a to f are the bytes 97 to 102.
fn nibble(b: u64) -> Option<u64>
    ensures { Nibble b result }
{
    if b < 48 {
        return None;
    }
    if b <= 57 {
        return Some(b - 48);
    }
    if b < 97 {
        return None;
    }
    if b <= 102 {
        return Some(b - 87);
    }
    None
}

// The value of a hex digit by its bits: those of a letter are 1 to 6. Reckoned and not asked, since nothing foretells which digit
// comes.
fn value_of(b: u8) -> u8
    ensures { (result ≡ value_of b) × (result < 16) }
{
    (b % 16 + 9 * (b / 64)) % 16
}

// Whether a byte is a hex digit: its value is written so.
fn is_hex(b: u8) -> bool
    ensures { result ≡ true → nibble b ≡ value_of b }
{
    let v = value_of(b);
    b == 48 + v + 39 * ((v + 6) / 16)
}

// Whether n hex digits stand at a place. There is no way out of the loop before its end, so that the compiler looks at many bytes
// at once.
fn digits_there(t: &[u8], at: usize, n: usize) -> bool
    ensures { result ≡ true → Hexes t.now at n }
{
    if t.len() < at {
        return false;
    }
    if t.len() - at < n {
        return false;
    }
    let mut others: u8 = 0;
    for i in 0..n {
        if !is_hex(t[at + i]) {
            others = 1;
        }
    }
    others == 0
}

// The number of n hex digits that are there.
fn hex_value(t: &[u8], at: usize, n: usize) -> Scanned<u64>
    requires { Hexes t.now at n × (n ≤ 16) }
    ensures { out_number result ≡ hex_on n 0 t.now at }
{
    let mut v: u64 = 0;
    for i in 0..n {
        v = 16 * v + u64::from(value_of(t[at + i]));
    }
    Some((v, Place { at: at + n }))
}

// The number of n hex digits, one by one, up to the first byte that is none.
fn hex_in_turn(t: &[u8], at: usize, n: usize) -> Scanned<u64>
    requires { n ≤ 16 }
    ensures { out_number result ≡ hex_on n 0 t.now at }
{
    let mut p = at;
    let mut v: u64 = 0;
    for _i in 0..n {
        let d = nibble(peek(t, p))?;
        v = 16 * v + d;
        p += 1;
    }
    Some((v, Place { at: p }))
}

// The 64 bytes at a place, four in a number, the first of them its lowest byte.
fn copy_fours(t: &[u8], at: usize, fours: &mut [u32])
    requires { (at + 64 ≤ length t.now) × (length fours.old ≡ 16) }
    ensures { Foured t.now at fours.new 16 }
{
    for i in 0..16 {
        let p = at + 4 * i;
        fours[i] = u32::from_le_bytes([t[p], t[p + 1], t[p + 2], t[p + 3]]);
    }
}

// The same, two in a number.
fn halve_fours(fours: &[u32], pairs: &mut [u16])
    requires { (length fours.now ≡ 16) × (length pairs.old ≡ 32) }
    ensures { Halved fours.now pairs.new 16 }
{
    for i in 0..16 {
        let four = fours[i];
        pairs[2 * i] = (four % 65536) as u16;
        pairs[2 * i + 1] = (four / 65536) as u16;
    }
}

// The 64 bytes at a place, two in a number. The compiler makes one plain copy of all this, and takes many of the numbers at once; of
// bytes that lie two apart it loads each by itself. By way of fours, since not every machine has two bytes for a word.
fn copy_pairs(t: &[u8], at: usize, pairs: &mut [u16])
    requires { (at + 64 ≤ length t.now) × (length pairs.old ≡ 32) }
    ensures { Paired t.now at pairs.new }
{
    let mut fours = [0u32; 16];
    copy_fours(t, at, &mut fours);
    halve_fours(&fours, pairs);
}

// The values of two hex digits by their bits, as `value_of` has that of one.
fn values_of(pair: u16) -> u16
    ensures { result ≡ values_of pair }
{
    ((pair & 0x0F0F) + 9 * ((pair >> 6) & 0x0303)) & 0x0F0F
}

// The digits that two values are written as: a letter lies 39 further up than a digit would.
fn written(values: u16) -> u16
    requires { Values values }
    ensures { Written values result }
{
    values + 0x3030 + 39 * (((values + 0x0606) >> 4) & 0x0101)
}

// The bytes of 32 pairs, if all of these are hex digits. There is no way out of the loop before its end, as in `digits_there`.
fn unhex_pairs(pairs: &[u16], bytes: &mut [u8]) -> bool
    requires { (length pairs.now ≡ 32) × (length bytes.old ≡ 32) }
    ensures { result ≡ true → Unpaired pairs.now bytes.new 0 32 }
{
    let mut others: u16 = 0;
    for i in 0..32 {
        let pair = pairs[i];
        let values = values_of(pair);
        if pair != written(values) {
            others = 1;
        }
        bytes[i] = (values % 16 * 16 + values / 256) as u8;
    }
    others == 0
}

// The 32 bytes that stand in hex at a place, if they do.
fn unhex_block(t: &[u8], at: usize, bytes: &mut [u8]) -> bool
    requires { length bytes.old ≡ 32 }
    ensures { result ≡ true → Unhexes t.now at bytes.new }
{
    if t.len() < at {
        return false;
    }
    if t.len() - at < 64 {
        return false;
    }
    let mut pairs = [0u16; 32];
    copy_pairs(t, at, &mut pairs);
    unhex_pairs(&pairs, bytes)
}

// Bytes in hex, one by one, as long as there are any, laid into a buffer from `at` on. Nothing tells beforehand how many there are.
fn hex_pairs(t: &[u8], from: usize, out: &mut [u8], at: usize) -> Bytes
    ensures { Unhexed t.now from out.old at out.new result }
{
    let mut p = from;
    let mut q = at;
    loop {
        let Some(a) = nibble(peek(t, p)) else {
            return Bytes {
                next: Place { at: p },
                at: q,
            };
        };
        let Some(b) = nibble(peek(t, p + 1)) else {
            return Bytes {
                next: Place { at: p },
                at: q,
            };
        };
        q = lay::put(out, q, (a * 16 + b) as u8);
        p += 2;
    }
}

// Up to where digits from a place on, of a text so long, fit 64 bits whichever they are: 19 do.
fn sure_digits(all: usize, at: usize) -> usize
    ensures { (result ≤ all) × (result ≤ at + 19) × (at < all → at < result) }
{
    if room(all, at) < 19 {
        return all;
    }
    at + 19
}

// A decimal that begins with the number v and has more digits, if any stand there. Only the byte behind them ends the loop.
fn more_digits(t: &[u8], at: usize, first: u64) -> Scanned<u64>
    ensures { out_number result ≡ digits_on first at (drop at t.now) }
{
    let mut v = first;
    let mut p = at;
    loop {
        let d = digit(peek(t, p));
        if 10 <= d {
            return Some((v, Place { at: p }));
        }
        if too_large(v, d) {
            return None;
        }
        v = 10 * v + d;
        p += 1;
    }
}

impl Place {
    // The byte b.
    pub fn byte(self, t: &[u8], b: u64) -> Option<Place>
        requires { b < 256 }
        ensures { out_step result ≡ byte_is b t.now self.at }
    {
        let at = self.at;
        if peek(t, at) == b {
            let next = at + 1;
            return Some(Place { at: next });
        }
        None
    }

    // These bytes.
    pub fn literal(self, t: &[u8], w: &[u8]) -> Option<Place>
        ensures { out_step result ≡ literal w.now t.now self.at }
    {
        let mut p = self;
        for &b in w {
            p = p.byte(t, u64::from(b))?;
        }
        Some(p)
    }

    // A decimal below 2 ^ 64. Behind a first 0 there is no more of it.
    pub fn natural(self, t: &[u8]) -> Scanned<u64>
        ensures { out_number result ≡ natural t.now self.at }
    {
        let at = self.at;
        let first = digit(peek(t, at));
        if 10 <= first {
            return None;
        }
        let next = at + 1;
        if first == 0 {
            return Some((0, Place { at: next }));
        }
        let sure = sure_digits(t.len(), at);
        let mut v = first;
        for p in next..sure {
            let d = digit(u64::from(t[p]));
            if 10 <= d {
                return Some((v, Place { at: p }));
            }
            v = 10 * v + d;
        }
        more_digits(t, sure, v)
    }

    // A decimal and the byte that ends it.
    pub fn natural_ended(self, t: &[u8], end: u64) -> Scanned<u64>
        requires { end < 256 }
        ensures { out_number result ≡ ended end natural t.now self.at }
    {
        let (n, c) = self.natural(t)?;
        let e = c.byte(t, end)?;
        Some((n, e))
    }

    // The 64 bits of a signed decimal.
    pub fn integer(self, t: &[u8]) -> Scanned<u64>
        ensures { out_bits result ≡ integer t.now self.at }
    {
        let at = self.at;
        if peek(t, at) == DASH {
            let next = at + 1;
            let digits = Place { at: next };
            let (n, c) = digits.natural(t)?;
            if n == 0 {
                return None;
            }
            if HALF < n {
                return None;
            }
            return Some((u64::MAX - (n - 1), c));
        }
        let (n, c) = self.natural(t)?;
        if HALF <= n {
            return None;
        }
        Some((n, c))
    }

    // A decimal, or a dash for none.
    pub fn or_none(self, t: &[u8]) -> Scanned<Option<u64>>
        ensures { out_maybe result ≡ or_none t.now self.at }
    {
        let at = self.at;
        if peek(t, at) == DASH {
            let next = at + 1;
            return Some((None, Place { at: next }));
        }
        let (n, c) = self.natural(t)?;
        Some((Some(n), c))
    }

    // A decimal or a dash, and the byte that ends it.
    pub fn or_none_ended(self, t: &[u8], end: u64) -> Scanned<Option<u64>>
        requires { end < 256 }
        ensures { out_maybe result ≡ ended end or_none t.now self.at }
    {
        let (m, c) = self.or_none(t)?;
        let e = c.byte(t, end)?;
        Some((m, e))
    }

    // A number in n hex digits. Sixteen are 64 bits, so more might not fit the answer.
    pub fn hex(self, t: &[u8], n: usize) -> Scanned<u64>
        requires { n ≤ 16 }
        ensures { out_number result ≡ hex_on n 0 t.now self.at }
    {
        let at = self.at;
        if digits_there(t, at, n) {
            return hex_value(t, at, n);
        }
        hex_in_turn(t, at, n)
    }

    // Bytes in hex, as long as there are any, laid into a buffer from `at` on: 32 at a time, and those that are left in turn.
    pub fn hex_bytes(self, t: &[u8], out: &mut [u8], at: usize) -> Bytes
        ensures { Unhexed t.now self.at out.old at out.new result }
    {
        let mut p = self.at;
        let mut q = at;
        let mut bytes = [0u8; 32];
        while unhex_block(t, p, &mut bytes) {
            q = lay::put_bytes(out, q, &bytes);
            p += 64;
        }
        hex_pairs(t, p, out, q)
    }
}
