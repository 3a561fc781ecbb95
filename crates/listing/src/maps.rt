// The line of a new map. Its element kinds are printed as they stand in the file, number by number: the table keeps no more
// than a byte of each.
ghost use Rattle.std.specs.Prelude.{◌∷◌};
ghost use Rattle.paper.specs.Reader.{repeat};
ghost use Rattle.paper.specs.Numbers.{v64};
ghost use Rattle.paper.specs.Listing.{comma, decimal};
ghost use Rattle.laws.specs.Cells.{commas};
ghost use Rattle.show.specs.Shown.{Shown, Shows};
ghost use Rattle.listing.specs.Maps.{MapTypes, MapPrinted};

use lines::{put_map, put_map_kind, put_name};
use numbers::{Cursor, Outcome};
use reader::ruled::no_restrictions;
use show::Behind;

// The number of types of the new map at c. Before it stand the number of restrictions and the number of the kind itself.
fn map_types(file: &[u8], c: Cursor) -> Outcome<u64>
    ensures { MapTypes file.now c.at result }
{
    let (_, kind) = no_restrictions(file, c)?;
    let (_, types) = kind.v64(file)?;
    types.v64(file)
}

// A comma, and the element kind that comes next.
fn put_next_kind(file: &[u8], c: Cursor, out: &mut [u8], at: usize) -> Behind
    ensures { Shows (λ s. v64) (λ k. comma ∷ decimal k) file.now c.at out.old at out.new result }
{
    let a = c.v64(file);
    let Ok((k, next)) = a else {
        return Behind { next: c, at };
    };
    let end = put_map_kind(out, at, k);
    Behind { next, at: end }
}

// n of them.
fn put_kinds(file: &[u8], c: Cursor, n: u64, out: &mut [u8], at: usize) -> usize
    ensures { Shown (λ s. repeat n v64) (commas decimal) file.now c.at out.old at out.new result }
{
    let mut here = Behind { next: c, at };
    for _ in 0..n {
        here = put_next_kind(file, here.next, out, here.at);
    }
    here.at
}

// The line of the new map at c, which has this name.
pub fn put_new_map(file: &[u8], c: Cursor, name: u64, out: &mut [u8], at: usize) -> usize
    ensures { MapPrinted file.now c.at name out.old at out.new result }
{
    let a = map_types(file, c);
    let Ok((n, kinds)) = a else {
        return at;
    };
    let first = put_map(out, at, n);
    let last = put_kinds(file, kinds, n, out, first);
    put_name(out, last, name)
}
