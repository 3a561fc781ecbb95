// A kind in a listing: its numbers joined by commas. A kind that breaks a rule of its own is `None` like one that cannot be read.
ghost use Rattle.std.specs.Prelude.{◌≡◌, ◌≤◌};
ghost use Rattle.paper.specs.Rules.{element_kind_rules, any_type};
ghost use Rattle.paper.specs.Keeps.{number?};
ghost use Rattle.paper.specs.Scan.{read_kind};
ghost use Rattle.words.specs.Answers.{out_number};
ghost use Rattle.parse.specs.Answers.{width_of, Half, constant_of, array_of, many_of, element_of, kinds_of, map_of, KindReads};

use paper::Ledger;
use reader::kinds::Kind;
use words::read::{Place, Scanned};

const COMMA: u64 = 44;

// An element kind: 5 to 14, or 32 upwards. Constants, arrays and maps are no elements, and the gaps are no kinds.
fn is_element(k: u64) -> bool
    ensures { result ≡ number? (element_kind_rules any_type) k }
{
    match k {
        5..=14 => true,
        32..=u64::MAX => true,
        0..=4 | 15..=31 => false,
    }
}

// Half the range of a constant's value: i8, i16, i32, and else 64 bits.
fn half_of(k: u64) -> u64
    ensures { Half (width_of k) result }
{
    match k {
        0 => 128,
        1 => 32768,
        2 => 2147483648,
        _ => 9223372036854775808,
    }
}

// A constant's value follows its number. It is read as 64 bits, and of a narrower value only those that the kind has are kept.
fn constant(t: &[u8], p: Place, k: u64) -> Scanned<Kind>
    requires { k ≤ 4 }
    ensures { KindReads (constant_of k) t.now p.at result }
{
    let value = p.byte(t, COMMA)?;
    let (bits, next) = value.integer(t)?;
    let half = half_of(k);
    if bits < half {
        return Some((
            Kind {
                first: k,
                bits,
                last: 0,
            },
            next,
        ));
    }
    // The value is as far below -1 as its bits are below the top.
    let below = u64::MAX - bits;
    if half <= below {
        return None;
    }
    let above = half - 1 - below;
    let kept = half + above;
    Some((
        Kind {
            first: k,
            bits: kept,
            last: 0,
        },
        next,
    ))
}

// An array's length and element kind follow its number.
fn array(t: &[u8], p: Place) -> Scanned<Kind>
    ensures { KindReads array_of t.now p.at result }
{
    let length = p.byte(t, COMMA)?;
    let (n, element) = length.natural_ended(t, COMMA)?;
    let (e, next) = element.natural(t)?;
    if !Ledger::is_small(n) {
        return None;
    }
    if is_element(e) {
        return Some((
            Kind {
                first: 15,
                bits: n,
                last: e,
            },
            next,
        ));
    }
    None
}

// An element kind behind a comma.
fn element(t: &[u8], p: Place) -> Scanned<u64>
    ensures { out_number result ≡ element_of t.now p.at }
{
    let word = p.byte(t, COMMA)?;
    let (e, next) = word.natural(t)?;
    if is_element(e) {
        return Some((e, next));
    }
    None
}

// Of a kind whose values have lengths of their own only the element kind follows the number.
fn many(t: &[u8], p: Place, k: u64) -> Scanned<Kind>
    requires { (17 ≤ k) × (k ≤ 19) }
    ensures { KindReads (many_of k) t.now p.at result }
{
    let (e, next) = element(t, p)?;
    Some((
        Kind {
            first: k,
            bits: 0,
            last: e,
        },
        next,
    ))
}

// The n element kinds of a map. Eight bytes hold what is kept of them, and the first stands highest. A kind from 255 upwards
// can be read, but it names no type, so 255 tells all that the rules ask of it.
fn map_kinds(t: &[u8], p: Place, n: u64) -> Scanned<Kind>
    requires { (2 ≤ n) × (n ≤ 8) }
    ensures { KindReads (kinds_of n) t.now p.at result }
{
    let mut at = p;
    let mut packed: u64 = 0;
    for _ in 0..n {
        let (e, next) = element(t, at)?;
        packed = packed * 256 + e.min(255);
        at = next;
    }
    Some((
        Kind {
            first: 20,
            bits: n,
            last: packed,
        },
        at,
    ))
}

// A map's number of types and that many element kinds follow its number.
fn mapping(t: &[u8], p: Place) -> Scanned<Kind>
    ensures { KindReads map_of t.now p.at result }
{
    let types = p.byte(t, COMMA)?;
    let (n, kinds) = types.natural(t)?;
    if n < 2 {
        return None;
    }
    if 8 < n {
        return None;
    }
    map_kinds(t, kinds, n)
}

// A kind. Its number tells which, and what follows: the gaps at 16 and 21 to 31 are none, and from 32 upwards it names a type.
pub fn kind_word(t: &[u8], p: Place) -> Scanned<Kind>
    ensures { KindReads read_kind t.now p.at result }
{
    let (k, next) = p.natural(t)?;
    match k {
        0..=4 => constant(t, next, k),
        5..=14 => Some((
            Kind {
                first: k,
                bits: 0,
                last: k,
            },
            next,
        )),
        15 => array(t, next),
        17..=19 => many(t, next, k),
        20 => mapping(t, next),
        32..=u64::MAX => Some((
            Kind {
                first: 32,
                bits: 0,
                last: k,
            },
            next,
        )),
        16 | 21..=31 => None,
    }
}
