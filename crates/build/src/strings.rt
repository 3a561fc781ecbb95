// The strings of a listed pair. Their hex digits stay in the text, and the table keeps where they stand.
ghost use Rattle.std.specs.Prelude.{◌+◌, ◌≤◌};
ghost use Rattle.paper.specs.Bounds.{most_strings};
ghost use Rattle.table.specs.View.{Holds, strings_in};
ghost use Rattle.build.specs.Strings.{StringsTold};

use parse::string_line;
use table::pushes::push_string;
use words::read::Place;

// The lines of n strings.
pub fn strings_text(text: &[u8], p: Place, n: u64, work: &mut [u32]) -> Option<Place>
    requires holds { Holds text.now work.old }
    requires n_bound { strings_in work.old + n ≤ most_strings }
    ensures { StringsTold text.now work.old n p.at result work.new }
{
    let mut at = p.at;
    for _ in 0..n {
        let (line, next) = string_line(text, Place { at })?;
        push_string(work, line.from as u32, line.to as u32);
        at = next.at;
    }
    Some(Place { at })
}
