// Whether the lent room is enough for whatever the listing is. Then nothing need be counted before it is written.
ghost use Rattle.std.specs.Prelude.{◌≡◌, false};
ghost use Rattle.paper.specs.Lists.{any};
ghost use Rattle.laws.specs.Room.{empty_field?};
ghost use Rattle.table.specs.View.{flds_of, Ok};
ghost use Rattle.table.specs.Answers.{field_in};
ghost use Rattle.listing.specs.Room.{Roomy};

use table::rows::{FieldRow, field_at, fields};

// An array of fixed length 0: its values are lines, and no bytes of the file.
fn is_empty(kind: FieldRow) -> bool
    ensures { result ≡ empty_field? (field_in kind) }
{
    if kind.kind == 15 {
        return kind.a == 0;
    }
    false
}

// Whether a field is one of these.
fn has_empty(table: &[u32]) -> bool
    requires { Ok table.now }
    ensures { result ≡ any empty_field? (flds_of table.now) }
{
    let n = fields(table);
    for i in 0..n {
        if is_empty(field_at(table, i)) {
            return true;
        }
    }
    false
}

// Nine bytes for each byte of the file, where no line stands for none.
pub fn is_roomy(file: &[u8], table: &[u32], room: usize) -> bool
    requires { Ok table.now }
    ensures { Roomy file.now table.now room result }
{
    if room / 9 < file.len() {
        return false;
    }
    !has_empty(table)
}
