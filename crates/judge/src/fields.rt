// The fields of an entry, from the lines of a listing: the known ones and then new ones, held to the rules of a file and
// entered in the table. Their chunks are due, and have no size yet.
ghost use Rattle.std.specs.Prelude.{◌+◌, ◌<◌, ◌≤◌, length};
ghost use Rattle.paper.specs.Bounds.{most_fields};
ghost use Rattle.table.specs.View.{flds_of, Holds, said, fields_in};
ghost use Rattle.reader.specs.Sound.{Open};
ghost use Rattle.judge.specs.Fields.{Ready, OldTold, OldsTold, new_step, news_step, fields_step, Stepped};

use numbers::Cursor;
use parse::{new_line, old_lines};
use reader::fields::{add_field, judged_field_count, judged_field_name, known_fields, values_due};
use table::ranges::objects_of;
use words::read::Place;

// The chunk of field i, where it is a known one of type t: it has a value for each object that is added.
fn due_if_known(work: &mut [u32], t: u32, i: u32, added: u32)
    requires ready { Ready work.old t i }
    requires i_bound { i < fields_in work.old }
    ensures { OldTold t i added work.old work.new }
{
    let row = table::rows::field_at(work, i);
    if row.owner != t {
        return;
    }
    let values = values_due(row.kind, added);
    table::pushes::push_due(work, i, values, 0);
}

// The chunks of the known fields of type t, in the order of their declaration. An entry that adds no object gives none of them.
fn known_due(work: &mut [u32], t: u32, added: u32)
    requires { Ready work.old t 0 }
    ensures { OldsTold t added work.old work.new }
{
    if added == 0 {
        return;
    }
    let own = table::names::stretch_of(work, t);
    for i in own.from..own.to {
        due_if_known(work, t, i, added);
    }
}

// A new field of type t, which has so many objects: a field that comes late has a value for each of them.
fn new_text(text: &[u8], p: Place, work: &mut [u32], t: u32, objects: u32) -> Option<Place>
    requires holds { Holds text.now work.old }
    requires fact { Open (said text.now work.old) t (length (flds_of work.old)) }
    requires work_bound { fields_in work.old < most_fields }
    ensures { Stepped text.now work.new t result (new_step t objects (said text.now work.old) text.now p.at) }
{
    let (line, next) = new_line(text, p)?;
    let name = line.name;
    judged_field_name(text, work, t, name, 0, Cursor { at: 0 }).ok()?;
    add_field(text, work, t, line.kind, name, objects, 0);
    Some(next)
}

// So many new fields of type t.
fn news_text(
    text: &[u8],
    p: Place,
    work: &mut [u32],
    t: u32,
    objects: u32,
    count: u64,
) -> Option<Place>
    requires holds { Holds text.now work.old }
    requires fact { Open (said text.now work.old) t (length (flds_of work.old)) }
    requires count_bound { fields_in work.old + count ≤ most_fields }
    ensures { Stepped text.now work.new t result (news_step t objects count (said text.now work.old) text.now p.at) }
{
    let mut at = p;
    for _ in 0..count {
        at = new_text(text, at, work, t, objects)?;
    }
    Some(at)
}

// All n fields of an entry of type t, whose range is the last of the log and adds so many objects: a line for each known one,
// and then new ones.
pub fn fields_text(
    text: &[u8],
    p: Place,
    work: &mut [u32],
    t: u32,
    added: u32,
    n: u64,
) -> Option<Place>
    requires holds { Holds text.now work.old }
    requires fact { Open (said text.now work.old) t 0 }
    ensures { Stepped text.now work.new t result (fields_step t added n (said text.now work.old) text.now p.at) }
{
    let objects = objects_of(work, t);
    let known = known_fields(work, t, added);
    judged_field_count(work, known, n, 0, Cursor { at: 0 }).ok()?;
    let news = old_lines(text, p, known as u64)?;
    known_due(work, t, added);
    let count = n - (known as u64);
    news_text(text, news, work, t, objects, count)
}
