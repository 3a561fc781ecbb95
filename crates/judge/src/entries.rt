// The entries of a pair, from the lines of a listing: each is its head and then its fields.
ghost use Rattle.table.specs.View.{Holds, said};
ghost use Rattle.reader.specs.Sound.{Sound};
ghost use Rattle.judge.specs.Entries.{entry_step, EntriesTold};
ghost use Rattle.judge.specs.EntriesLaws.{Walked};

use crate::fields::fields_text;
use crate::heads::head_text;
use words::read::Place;

// The head says which type's fields follow, and how many.
fn entry_text(text: &[u8], p: Place, work: &mut [u32]) -> Option<Place>
    requires holds { Holds text.now work.old }
    requires sound { Sound (said text.now work.old) }
    ensures { Walked text.now work.new result (entry_step (said text.now work.old) text.now p.at) }
{
    let ((top, n), next) = head_text(text, p, work)?;
    fields_text(text, next, work, top.name.typ, top.count, n)
}

// So many entries. The table has what they declare, and the chunks that are due, which have no size yet.
pub fn entries_text(text: &[u8], p: Place, n: u64, work: &mut [u32]) -> Option<Place>
    requires holds { Holds text.now work.old }
    requires sound { Sound (said text.now work.old) }
    ensures { EntriesTold text.now work.old n p.at work.new result }
{
    let mut at = p;
    for _ in 0..n {
        at = entry_text(text, at, work)?;
    }
    Some(at)
}
