// The front of a listed pair: its line, its strings and its entries go into the table, held to the rules of a file.
ghost use Rattle.std.specs.Prelude.{◌≡◌, ◌&&◌, List, ℕ};
ghost use Rattle.paper.specs.Rules.{small_rules, strings_rules};
ghost use Rattle.paper.specs.Keeps.{number?};
ghost use Rattle.table.specs.View.{view, Ok, Holds};
ghost use Rattle.build.specs.FrontLaws.{PairAsks};
ghost use Rattle.build.specs.FrontTold.{FrontTold};

use crate::strings::strings_text;
use judge::entries::entries_text;
use paper::Ledger;
use parse::pair_line;
use table::rows::{fields, strings};
use walk::region::kinds_stand;
use words::read::Place;

// How many entries there are, where their lines begin, and where those of the values do.
#[derive(Clone, Copy)]
pub struct Front {
    pub entries: u64,
    pub from: Place,
    pub values: Place,
}

// Whether there is room for n strings more, and m entries are not too many.
fn few(work: &[u32], n: u64, m: u64) -> bool
    requires { Ok work.now }
    ensures { (f : List ℕ) → Holds f work.now → result ≡ (number? (strings_rules (view f work.now)) n && number? small_rules m) }
{
    let room = Ledger::STRINGS - (strings(work) as u64);
    n <= room && Ledger::is_small(m)
}

// The front of the pair at p. Kinds are held to the types when all of these are known.
pub fn front_text(text: &[u8], p: Place, work: &mut [u32]) -> Option<Front>
    requires { PairAsks text.now work.old p.at }
    ensures { FrontTold text.now work.old p.at result work.new }
{
    let ((n, m), first) = pair_line(text, p)?;
    if !few(work, n, m) {
        return None;
    }
    let known = fields(work);
    let from = strings_text(text, first, n, work)?;
    let values = entries_text(text, from, m, work)?;
    if !kinds_stand(work, known) {
        return None;
    }
    Some(Front {
        entries: m,
        from,
        values,
    })
}
