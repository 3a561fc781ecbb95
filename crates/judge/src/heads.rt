// The head of a listed entry: each number of its line is held to the rules by the code that holds a file's numbers to them. The
// strings of the table stand in the text, as their hex digits.
ghost use Rattle.paper.specs.Lists.{given?};
ghost use Rattle.table.specs.View.{view, said, maybe, Holds};
ghost use Rattle.words.specs.Answers.{option};
ghost use Rattle.parse.specs.Answers.{head_of};
ghost use Rattle.reader.specs.Sound.{Sound};
ghost use Rattle.reader.specs.Heads.{Resolved};
ghost use Rattle.judge.specs.Heads.{SuperTold, StartTold, HeadJudged, HeadTold};

use numbers::Cursor;
use paper::Ledger;
use parse::{TypeLine, type_line};
use reader::heads::{Name, Super, Top, enter_top, judged_count, judged_name, judged_super};
use table::types::super_of;
use words::read::{Place, Scanned};

// `None` is all that is said of what breaks a rule: it has no place in a file, so a refusal is let go with `ok`.

// The super type of an entry's type, which is given exactly if the type is new. A known type has its super type already.
fn judged_above(text: &[u8], work: &[u32], name: Name, sup: Option<u64>) -> Option<Super>
    requires holds { Holds text.now work.now }
    requires resolved { Resolved (view text.now work.now) name }
    ensures { SuperTold (view text.now work.now) name (option sup) result }
{
    match sup {
        None => {
            if name.fresh {
                return None;
            }
            let up = super_of(work, name.typ);
            Some(Super { number: 0, up })
        }
        Some(n) => {
            if !name.fresh {
                return None;
            }
            let (above, _) = judged_super(text, work, name.typ, n, 0, Cursor { at: 0 }).ok()?;
            Some(above)
        }
    }
}

// The local start, which is given exactly if there is a super type.
fn judged_start(up: u32, start: Option<u64>) -> Option<u32>
    ensures { StartTold (given? (maybe up)) (option start) result }
{
    match start {
        None => {
            if up != 0 {
                return None;
            }
            Some(0)
        }
        Some(n) => {
            if up == 0 {
                return None;
            }
            if !Ledger::is_small(n) {
                return None;
            }
            Some(n as u32)
        }
    }
}

// The head of a line that was read.
fn judged_head(text: &[u8], work: &[u32], line: TypeLine) -> Option<Top>
    requires { Holds text.now work.now }
    ensures { HeadJudged (view text.now work.now) (head_of line) result }
{
    let nowhere = Cursor { at: 0 };
    let (name, _) = judged_name(text, work, line.name, 0, nowhere).ok()?;
    let above = judged_above(text, work, name, line.sup)?;
    let start = judged_start(above.up, line.start)?;
    let (n, _) = judged_count(work, above.up, start, line.count, 0, nowhere).ok()?;
    Some(Top {
        name,
        above,
        start,
        count: n as u32,
    })
}

// Reads the line of a head, and enters the head in the table. A head that breaks a rule leaves the table as it was. The number
// of its fields is answered with it.
pub fn head_text(text: &[u8], p: Place, work: &mut [u32]) -> Scanned<(Top, u64)>
    requires holds { Holds text.now work.old }
    requires sound { Sound (said text.now work.old) }
    ensures { HeadTold text.now work.old p.at result work.new }
{
    let (line, next) = type_line(text, p)?;
    let top = judged_head(text, work, line)?;
    enter_top(text, work, top);
    Some(((top, line.fields), next))
}
