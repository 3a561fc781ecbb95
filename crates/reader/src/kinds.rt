// Kinds, told apart by range.
ghost use Rattle.std.specs.Prelude.{◌≡◌, ◌^◌, ◌≤◌};
ghost use Rattle.paper.specs.Numbers.{number};
ghost use Rattle.paper.specs.Rules.{element_kind_rules, types_rules};
ghost use Rattle.numbers.specs.Cursors.{Read};
ghost use Rattle.reader.specs.Kinds.{named?, bits_of, constant_of, array_of, many_of, mapping_of, packed_of, KindReadBy, KindReads};

use numbers::{Cursor, Fault, Outcome, Refusal};

// Which kinds from 32 upwards name a type: all of them while any type may still be declared, else those of so many types.
#[derive(Clone, Copy)]
pub struct Named {
    pub strict: bool,
    pub types: u64,
}

// A kind by three numbers: the first, of which 32 stands for all above; a constant's bits, an array's length or a map's number
// of types, and else 0; and the last, which is the element kind, or the kind's only number. A constant's is 0. A map's holds
// its element kinds, a byte each, the first in the highest place: 255 stands for all from there upwards, since none of them
// names a type.
#[derive(Clone, Copy)]
pub struct Kind {
    pub first: u64,
    pub bits: u64,
    pub last: u64,
}

// Below 32 a kind names no type, so there is none to be missing.
pub fn is_named(named: Named, k: u64) -> bool
    ensures { result ≡ named? named k }
{
    if k < 32 {
        return true;
    }
    let strict = named.strict;
    if strict {
        return k - 32 < named.types;
    }
    true
}

// An element kind: 5 to 14, or 32 upwards.
fn element_kind(file: &[u8], c: Cursor, named: Named) -> Outcome<u64>
    ensures { Read (number (element_kind_rules (named? named))) (2 ^ 64) file.now c.at result }
{
    let at = c.at;
    let (k, next) = c.v64(file)?;
    match k {
        0..=4 | 15..=31 => Err(Refusal {
            fault: Fault::Kind,
            place: at,
        }),
        5..=14 => Ok((k, next)),
        _ => {
            if is_named(named, k) {
                return Ok((k, next));
            }
            Err(Refusal {
                fault: Fault::Kind,
                place: at,
            })
        }
    }
}

// The bits of a constant's value: i8, i16, i32, i64 or v64.
fn constant_bits(file: &[u8], c: Cursor, k: u64) -> Outcome<u64>
    requires { k ≤ 4 }
    ensures { Read (bits_of k) (2 ^ 64) file.now c.at result }
{
    match k {
        0 => c.be::<1>(file),
        1 => c.be::<2>(file),
        2 => c.be::<4>(file),
        3 => c.be::<8>(file),
        _ => c.v64(file),
    }
}

// A constant's value follows its number.
fn constant(file: &[u8], c: Cursor, k: u64) -> Outcome<Kind>
    requires { k ≤ 4 }
    ensures { KindReadBy (constant_of k) file.now c.at result }
{
    let (bits, next) = constant_bits(file, c, k)?;
    Ok((
        Kind {
            first: k,
            bits,
            last: 0,
        },
        next,
    ))
}

// An array's length and element kind follow its number.
fn array(file: &[u8], c: Cursor, named: Named) -> Outcome<Kind>
    ensures { KindReadBy (array_of (named? named)) file.now c.at result }
{
    let (length, next) = c.small(file)?;
    let (element, end) = element_kind(file, next, named)?;
    Ok((
        Kind {
            first: 15,
            bits: length,
            last: element,
        },
        end,
    ))
}

// Of a kind whose values have lengths of their own only the element kind follows the number.
fn many(file: &[u8], c: Cursor, named: Named, k: u64) -> Outcome<Kind>
    requires { (17 ≤ k) × (k ≤ 19) }
    ensures { KindReadBy (many_of (named? named) k) file.now c.at result }
{
    let (element, next) = element_kind(file, c, named)?;
    Ok((
        Kind {
            first: k,
            bits: 0,
            last: element,
        },
        next,
    ))
}

// A map has 2 to 8 types.
fn type_count(file: &[u8], c: Cursor) -> Outcome<u64>
    ensures { Read (number types_rules) 9 file.now c.at result }
{
    let at = c.at;
    let (n, next) = c.v64(file)?;
    match n {
        2..=8 => Ok((n, next)),
        _ => Err(Refusal {
            fault: Fault::Kind,
            place: at,
        }),
    }
}

// So many element kinds, a byte each, in one number. Eight bytes are the most that it holds.
fn packed_kinds(file: &[u8], c: Cursor, named: Named, count: u64) -> Outcome<u64>
    requires { count ≤ 8 }
    ensures { Read (packed_of (named? named) count) (2 ^ 64) file.now c.at result }
{
    let mut next = c;
    let mut packed: u64 = 0;
    for _ in 0..count {
        let (k, after) = element_kind(file, next, named)?;
        packed = packed * 256 + k.min(255);
        next = after;
    }
    Ok((packed, next))
}

// A map's number of types and its element kinds follow its number.
fn mapping(file: &[u8], c: Cursor, named: Named) -> Outcome<Kind>
    ensures { KindReadBy (mapping_of (named? named)) file.now c.at result }
{
    let (count, next) = type_count(file, c)?;
    let (packed, end) = packed_kinds(file, next, named, count)?;
    Ok((
        Kind {
            first: 20,
            bits: count,
            last: packed,
        },
        end,
    ))
}

// A kind. Its number tells which: the gaps at 16 and 21 to 31 are refused, and from 32 upwards it names a type.
pub fn read_kind(file: &[u8], c: Cursor, named: Named) -> Outcome<Kind>
    ensures { KindReads (named? named) file.now c.at result }
{
    let at = c.at;
    let (k, next) = c.v64(file)?;
    match k {
        0..=4 => constant(file, next, k),
        5..=14 => Ok((
            Kind {
                first: k,
                bits: 0,
                last: k,
            },
            next,
        )),
        15 => array(file, next, named),
        17..=19 => many(file, next, named, k),
        20 => mapping(file, next, named),
        32..=18446744073709551615 => {
            if is_named(named, k) {
                return Ok((
                    Kind {
                        first: 32,
                        bits: 0,
                        last: k,
                    },
                    next,
                ));
            }
            Err(Refusal {
                fault: Fault::Kind,
                place: at,
            })
        }
        16 | 21..=31 => Err(Refusal {
            fault: Fault::Kind,
            place: at,
        }),
    }
}
