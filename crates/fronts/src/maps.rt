// A new field of a map, from its line. What `parse` keeps of the element kinds is a byte of each, and a kind may be larger: so they
// are laid as they stand in the text.
ghost use Rattle.fronts.specs.Maps.{KindsFound, KindsLaid, MapLaid};

use numbers::write::put_v64;
use parse::NewLine;
use puts::put_two;
use words::read::Place;

const COMMA: u64 = 44;

// Where the element kinds stand in the line of a map's field, each behind a comma.
fn map_kinds(text: &[u8], p: Place) -> Option<Place>
    ensures { KindsFound text.now p.at result }
{
    let word = p.literal(text, b"new\t")?;
    let (_, types) = word.natural_ended(text, COMMA)?;
    let (_, kinds) = types.natural(text)?;
    Some(kinds)
}

// The n element kinds that stand at p.
fn put_kinds(text: &[u8], p: Place, n: u64, out: &mut [u8], at: usize) -> usize
    ensures { KindsLaid text.now p.at n out.old at out.new result }
{
    let mut from = p;
    let mut to = at;
    for _ in 0..n {
        let Some(word) = from.byte(text, COMMA) else {
            return to;
        };
        let Some((kind, next)) = word.natural(text) else {
            return to;
        };
        to = put_v64(out, to, kind);
        from = next;
    }
    to
}

// The new field whose line begins at p and says this, of a map, and where its chunk ends.
pub fn put_map(text: &[u8], p: Place, line: NewLine, end: u64, out: &mut [u8], at: usize) -> usize
    ensures { MapLaid text.now p.at line.kind.bits line.name end out.old at out.new result }
{
    let Some(kinds) = map_kinds(text, p) else {
        return at;
    };
    let types = put_two(out, at, 0, 20);
    let first = put_v64(out, types, line.kind.bits);
    let last = put_kinds(text, kinds, line.kind.bits, out, first);
    put_two(out, last, line.name, end)
}
