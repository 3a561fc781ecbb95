// Words laid into a lent buffer. What does not fit is counted and not stored, as in `lay`, so no writer has a precondition.
ghost use Rattle.std.specs.Prelude.{◌≡◌, [], ◌∷◌, ◌+◌, ◌-◌, ◌*◌, ◌/◌, ◌%◌, ◌^◌, ◌≤◌, ◌<◌, length};
ghost use Rattle.std.proofs.lemmas.List.Edits.{sets};
ghost use Rattle.lay.specs.Laid.{Laid};
ghost use Rattle.paper.specs.Listing.{glyph, decimal, decimalℤ, hex_digits, hex};
ghost use Rattle.paper.specs.Numbers.{signed, unsigned};
ghost use Rattle.words.specs.Stored.{Stored, Reached, Size, lasts};

use crate::HALF;

// A digit of base ten or sixteen, in lower case: from 10 on it stands 39 further. Reckoned and not asked, since nothing
// foretells which digit comes.
fn glyph_of(d: u64) -> u8
    requires { d < 16 }
    ensures { result ≡ glyph d }
{
    let letter = (d + 6) / 16;
    (48 + d + 39 * letter) as u8
}

pub fn put_glyph(out: &mut [u8], at: usize, d: u64) -> usize
    requires { d < 16 }
    ensures { Laid out.old at (glyph d ∷ []) out.new result }
{
    lay::put(out, at, glyph_of(d))
}

// How many bytes there are from a place on, of so many in all.
pub fn room(all: usize, at: usize) -> usize
    ensures { result ≡ all - at }
{
    all.saturating_sub(at)
}

// 1 from the bound up, and 0 below it. Reckoned with, and not asked: nothing foretells how many digits a number has.
fn reached(x: u64, bound: u64) -> usize
    ensures { Reached x bound result × (result ≤ 1) }
{
    if bound <= x { 1 } else { 0 }
}

// How many digits a number of at most four has.
fn short_length(x: u64) -> usize
    requires { x < 10000 }
    ensures { (result ≡ length (decimal x)) × (result ≤ 4) }
{
    1 + reached(x, 10) + reached(x, 100) + reached(x, 1000)
}

// How many digits a number has, without making them.
fn digits_of(x: u64) -> usize
    ensures { result ≡ length (decimal x) }
{
    if x < 10000 {
        return short_length(x);
    }
    if x < 100000000 {
        return 4 + short_length(x / 10000);
    }
    if x < 1000000000000 {
        return 8 + short_length(x / 100000000);
    }
    if x < 10000000000000000 {
        return 12 + short_length(x / 1000000000000);
    }
    16 + short_length(x / 10000000000000000)
}

// The last four digits of a number, which fit.
fn store_four(out: &mut [u8], at: usize, x: u64)
    requires { at + 4 ≤ length out.old }
    ensures { out.new ≡ sets out.old at (lasts 4 x) }
{
    let high = x / 100 % 100;
    let low = x % 100;
    out[at] = (48 + high / 10) as u8;
    out[at + 1] = (48 + high % 10) as u8;
    out[at + 2] = (48 + low / 10) as u8;
    out[at + 3] = (48 + low % 10) as u8;
}

// The last eight.
fn store_eight(out: &mut [u8], at: usize, x: u64)
    requires { at + 8 ≤ length out.old }
    ensures { out.new ≡ sets out.old at (lasts 8 x) }
{
    store_four(out, at, x / 10000);
    store_four(out, at + 4, x);
}

// The digits of a number of at most four, where there is room for four: the place behind them. There are no jumps in it: a digit
// that the number has not is a 0 that goes to the place of the first digit, which is stored over it.
fn store_short(out: &mut [u8], at: usize, x: u64) -> usize
    requires { (x < 10000) × (at + 4 ≤ length out.old) }
    ensures { Stored out.old at (decimal x) out.new result × (result ≤ at + 4) }
{
    let hundreds = at + reached(x, 1000);
    let tens = hundreds + reached(x, 100);
    let ones = tens + reached(x, 10);
    let high = x / 100;
    let low = x % 100;
    out[at] = (48 + high / 10) as u8;
    out[hundreds] = (48 + high % 10) as u8;
    out[tens] = (48 + low / 10) as u8;
    out[ones] = (48 + low % 10) as u8;
    ones + 1
}

// The digits of a number of more than eight.
fn store_long(out: &mut [u8], at: usize, x: u64) -> usize
    requires { (100000000 ≤ x) × (at + 20 ≤ length out.old) }
    ensures { Stored out.old at (decimal x) out.new result × (result ≤ at + 20) }
{
    if x < 1000000000000 {
        let p = store_short(out, at, x / 100000000);
        store_eight(out, p, x);
        return p + 8;
    }
    if x < 10000000000000000 {
        let p = store_short(out, at, x / 1000000000000);
        store_four(out, p, x / 100000000);
        store_eight(out, p + 4, x);
        return p + 12;
    }
    let p = store_short(out, at, x / 10000000000000000);
    store_eight(out, p, x / 100000000);
    store_eight(out, p + 8, x);
    p + 16
}

// The digits of a number, where there is room for the 20 that 64 bits may have: the place behind them. One digit is met most, and
// has a way of its own; what has more goes four at a time, from the first.
pub fn store_decimal(out: &mut [u8], at: usize, x: u64) -> usize
    requires { at + 20 ≤ length out.old }
    ensures { Stored out.old at (decimal x) out.new result × (result ≤ at + 20) }
{
    if x < 10 {
        out[at] = (48 + x) as u8;
        return at + 1;
    }
    if x < 10000 {
        return store_short(out, at, x);
    }
    if x < 100000000 {
        let p = store_short(out, at, x / 10000);
        store_four(out, p, x);
        return p + 4;
    }
    store_long(out, at, x)
}

// A decimal where fewer than 20 bytes are left: from a local, which has room for all.
fn put_some_digits(out: &mut [u8], at: usize, x: u64) -> usize
    ensures { Laid out.old at (decimal x) out.new result }
{
    // Lent no room, it only counts.
    if out.len() <= at {
        return lay::behind(at, digits_of(x));
    }
    let mut digits = [0u8; 20];
    let n = store_decimal(&mut digits, 0, x);
    lay::put_bytes(out, at, &digits[..n])
}

pub fn put_decimal(out: &mut [u8], at: usize, x: u64) -> usize
    ensures { Laid out.old at (decimal x) out.new result }
{
    if 20 <= room(out.len(), at) {
        return store_decimal(out, at, x);
    }
    put_some_digits(out, at, x)
}

// How far the signed number of these bits is from 0.
fn size_of(bits: u64) -> u64
    ensures { Size bits result }
{
    if HALF <= bits {
        u64::MAX - bits + 1
    } else {
        bits
    }
}

// The signed number of these 64 bits, where there is room for a sign and 20 digits: the place behind it. The sign is always stored:
// where there is none, the first digit is stored over it, and no jump depends on it.
pub fn store_integer(out: &mut [u8], at: usize, bits: u64) -> usize
    requires { at + 21 ≤ length out.old }
    ensures { Stored out.old at (decimalℤ (signed 8 bits)) out.new result × (result ≤ at + 21) }
{
    let first = at + reached(bits, HALF);
    out[at] = b'-';
    store_decimal(out, first, size_of(bits))
}

// The signed number of these 64 bits.
pub fn put_integer(out: &mut [u8], at: usize, bits: u64) -> usize
    ensures { Laid out.old at (decimalℤ (signed 8 bits)) out.new result }
{
    if 21 <= room(out.len(), at) {
        return store_integer(out, at, bits);
    }
    if bits < HALF {
        return put_some_digits(out, at, bits);
    }
    let next = lay::put(out, at, b'-');
    put_some_digits(out, next, u64::MAX - bits + 1)
}

// The 64 bits of a signed number.
pub fn bits_of(z: i64) -> u64
    ensures { result ≡ unsigned 8 z }
{
    z.cast_unsigned()
}

pub fn put_signed(out: &mut [u8], at: usize, z: i64) -> usize
    ensures { Laid out.old at (decimalℤ z) out.new result }
{
    put_integer(out, at, bits_of(z))
}

// The digit of x in base 16 with k digits behind it.
fn hex_digit(x: u64, k: usize) -> u64
    ensures { result ≡ x / 16 ^ k % 16 }
{
    if k < 16 {
        let shift = 4 * k;
        return (x >> shift) % 16;
    }
    0
}

// The last n digits of x in hex, all of which fit, stored from the last.
pub fn store_hex(out: &mut [u8], at: usize, n: usize, x: u64)
    requires { at + n ≤ length out.old }
    ensures { out.new ≡ sets out.old at (hex_digits n x) }
{
    let mut left = x;
    for k in (0..n).rev() {
        out[at + k] = glyph_of(left % 16);
        left /= 16;
    }
}

// The last n digits of x in hex, one by one, of which some may fit.
fn put_some_hex(out: &mut [u8], at: usize, n: usize, x: u64) -> usize
    ensures { Laid out.old at (hex_digits n x) out.new result }
{
    let mut p = at;
    for k in (0..n).rev() {
        p = put_glyph(out, p, hex_digit(x, k));
    }
    p
}

// The last n digits of x in hex.
pub fn put_hex(out: &mut [u8], at: usize, n: usize, x: u64) -> usize
    ensures { Laid out.old at (hex_digits n x) out.new result }
{
    // Lent no room, it only counts.
    if out.len() <= at {
        return lay::behind(at, n);
    }
    if n <= out.len() - at {
        store_hex(out, at, n, x);
        return at + n;
    }
    put_some_hex(out, at, n, x)
}

// A byte in hex.
fn put_pair(out: &mut [u8], at: usize, b: u8) -> usize
    ensures { Laid out.old at (hex_digits 2 b) out.new result }
{
    let x = u64::from(b);
    let next = put_glyph(out, at, x / 16);
    put_glyph(out, next, x % 16)
}

// Bytes in hex, all of which fit.
fn store_hex_bytes(out: &mut [u8], at: usize, s: &[u8])
    requires { at + 2 * length s.now ≤ length out.old }
    ensures { out.new ≡ sets out.old at (hex s.now) }
{
    for (i, &b) in s.iter().enumerate() {
        let x = u64::from(b);
        out[at + 2 * i] = glyph_of(x / 16);
        out[at + 2 * i + 1] = glyph_of(x % 16);
    }
}

// Bytes in hex, one by one, of which some may fit.
fn put_some_pairs(out: &mut [u8], at: usize, s: &[u8]) -> usize
    ensures { Laid out.old at (hex s.now) out.new result }
{
    let mut p = at;
    for &b in s {
        p = put_pair(out, p, b);
    }
    p
}

pub fn put_hex_bytes(out: &mut [u8], at: usize, s: &[u8]) -> usize
    ensures { Laid out.old at (hex s.now) out.new result }
{
    let n = 2 * s.len();
    // Lent no room, it only counts.
    if out.len() <= at {
        return lay::behind(at, n);
    }
    if n <= out.len() - at {
        store_hex_bytes(out, at, s);
        return at + n;
    }
    put_some_pairs(out, at, s)
}
