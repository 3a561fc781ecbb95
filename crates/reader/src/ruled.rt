// A number that is held to one rule wherever it stands.
ghost use Rattle.paper.specs.File.{restrictions};
ghost use Rattle.numbers.specs.Cursors.{Read};

use numbers::{Cursor, Fault, Outcome, Refusal};

// The number of restrictions: none is known.
pub fn no_restrictions(file: &[u8], c: Cursor) -> Outcome<u64>
    ensures { Read restrictions 1 file.now c.at result }
{
    let at = c.at;
    let (n, next) = c.v64(file)?;
    if n != 0 {
        return Err(Refusal {
            fault: Fault::Restriction,
            place: at,
        });
    }
    Ok((n, next))
}
