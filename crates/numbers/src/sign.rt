// Signs: two's complement at each width, and what a column stores of a float's bits.
ghost use Rattle.std.specs.Prelude.{◌≡◌, true, ℕ, ◌+◌, ◌^◌, ◌≤◌, ◌<◌};
ghost use Rattle.std.specs.Int.Signed.{mag};
ghost use Rattle.paper.specs.Numbers.{signed};
ghost use Rattle.paper.specs.Ledger.{float};
ghost use Rattle.paper.specs.Keeps.{signed?};
ghost use Rattle.paper.specs.Calls.{stored};
ghost use Rattle.numbers.specs.Signs.{Bits, Half};

// The number that x stands for, at every width whose range has this half.
fn from_bits(x: u64, half: u64) -> i64
    requires { (half ≤ 2 ^ 63) × (x < half + half) }
    ensures { (w : ℕ) → 256 ^ w ≡ half + half → result ≡ signed w x }
{
    if x < half {
        return x as i64;
    }
    // Minus one, less how far x is below the top: no step leaves the range, down to the least number.
    let above = x - half;
    let below = half - 1 - above;
    let down = below as i64;
    -1 - down
}

// The same of a width below the widest, whose sum has room: the compiler knows it for one instruction.
fn from_low_bits(x: u64, half: u64) -> i64
    requires { (0 < half) × (half ≤ 2 ^ 62) × (x < half + half) }
    ensures { (w : ℕ) → 256 ^ w ≡ half + half → result ≡ signed w x }
{
    let above = (x + half) % (half + half);
    let middle = half as i64;
    (above as i64) - middle
}

// The bits that stand for z, at every width whose range has this half.
fn to_bits(z: i64, half: u64) -> u64
    requires { (half ≤ 2 ^ 63) × (mag z < half) }
    ensures { (w : ℕ) → 256 ^ w ≡ half + half → Bits w z result }
{
    if z < 0 {
        let down = -1 - z;
        let below = down as u64;
        let above = half - 1 - below;
        return half + above;
    }
    z as u64
}

// Half of what `WIDTH` bytes can hold.
fn half_of<const WIDTH: usize>() -> u64
    requires { (0 < WIDTH) × (WIDTH ≤ 8) }
    ensures { Half WIDTH result }
{
    128 << (8 * (WIDTH - 1))
}

// The number that x stands for in `WIDTH` bytes. At the widest the bound holds of every x, and is not asked.
pub fn signed<const WIDTH: usize>(x: u64) -> i64
    requires { (0 < WIDTH) × (WIDTH ≤ 8) × (WIDTH < 8 → x < 256 ^ WIDTH) }
    ensures { result ≡ signed WIDTH x }
{
    let half = half_of::<WIDTH>();
    if WIDTH == 8 {
        return from_bits(x, half);
    }
    from_low_bits(x, half)
}

// The bits that stand for z in `WIDTH` bytes. At the widest every z has its place, and nothing is asked of it.
pub fn unsigned<const WIDTH: usize>(z: i64) -> u64
    requires { (0 < WIDTH) × (WIDTH ≤ 8) × (WIDTH < 8 → signed? WIDTH z ≡ true) }
    ensures { Bits WIDTH z result }
{
    to_bits(z, half_of::<WIDTH>())
}

// The bits of any i64, in eight bytes: nothing is asked.
pub fn unsigned8(z: i64) -> u64
    ensures { Bits 8 z result }
{
    unsigned::<8>(z)
}

// The bits of an f32, as a number from 0 up.
pub fn f32_stored(bits: u64) -> i64
    requires { bits < 256 ^ 4 }
    ensures { result ≡ stored (float 4 bits) }
{
    bits as i64
}

// The bits of an f64, as a signed number.
pub fn f64_stored(bits: u64) -> i64
    ensures { result ≡ stored (float 8 bits) }
{
    signed::<8>(bits)
}
