// The objects that an annotation may name: those of the base type whose name a string has.
ghost use Rattle.std.specs.Prelude.{◌≡◌, ◌<◌, length};
ghost use Rattle.paper.specs.Numbers.{put_fixed};
ghost use Rattle.paper.specs.Lists.{all};
ghost use Rattle.laws.specs.Pools.{Pooled};
ghost use Rattle.table.specs.View.{view, types_of, flds_of, log_of, said, Ok, Holds, Now, strings_in};
ghost use Rattle.table.specs.Answers.{field_in};
ghost use Rattle.lookups.specs.Named.{base_pool, PoolTold, Pooling, unnamed?, unnamed_field?, PoolsDue};

use table::names::recall_type;
use table::ranges::objects_of;
use table::rows::{FieldRow, field_at, fields, strings};
use table::types::super_of;

// How many objects type t has if it is a base type, and else 0.
fn base_pool(work: &[u32], t: u32) -> u32
    requires { Ok work.now }
    ensures { result ≡ base_pool (types_of work.now) (log_of work.now) t }
{
    if super_of(work, t) != 0 {
        return 0;
    }
    objects_of(work, t)
}

// How many objects the base type has that the i-th string names, counted from 0: none where it names no base type.
fn pool_of(file: &[u8], work: &mut [u32], i: u32) -> u32
    requires { Holds file.now work.old × (i < strings_in work.old) }
    ensures { PoolTold file.now work.old i result work.new }
{
    let memo = recall_type(file, work, i);
    if memo < 33 {
        return 0;
    }
    base_pool(work, memo - 33)
}

// The same for all strings, at the front of the list: how many strings there are. What each names is noted in the table, so that
// it is looked for once in a file, and not in each pair.
pub fn pools(file: &[u8], work: &mut [u32], list: &mut [u32]) -> usize
    requires { Holds file.now work.old × (length list.old ≡ 1024) }
    ensures pooling { Pooling (view file.now work.old) list.new result × (result ≡ strings_in work.old) }
    ensures now { Now file.now work.new (said file.now work.old) }
{
    let n = strings(work);
    for i in 0..n {
        list[i as usize] = pool_of(file, work, i);
    }
    n as usize
}

// Whether none of a map's element kinds, which a row has in one number, a byte each, is that of annotations. They are asked from the
// last to the first, which is what is left of the number.
fn map_unnamed(count: u64, packed: u64) -> bool
    ensures { result ≡ unnamed? (put_fixed count packed) }
{
    if count == 0 {
        return true;
    }
    let mut rest = packed;
    for _ in 1..count {
        if rest % 256 == 5 {
            return false;
        }
        rest /= 256;
    }
    rest != 5
}

// Whether no element of a field is an annotation.
fn row_unnamed(kind: FieldRow) -> bool
    ensures { result ≡ unnamed_field? (field_in kind) }
{
    // A constant has no elements.
    if kind.kind <= 4 {
        return true;
    }
    if kind.kind == 20 {
        return map_unnamed(kind.a, kind.e);
    }
    kind.e != 5
}

// Whether no field has annotations.
fn all_unnamed(work: &[u32]) -> bool
    requires { Ok work.now }
    ensures { result ≡ all unnamed_field? (flds_of work.now) }
{
    for i in 0..fields(work) {
        if !row_unnamed(field_at(work, i)) {
            return false;
        }
    }
    true
}

// The same where a field has annotations; where none has, no string is asked for. It is found out once for all chunks of a pair.
pub fn pools_due(file: &[u8], work: &mut [u32], list: &mut [u32]) -> usize
    requires { Holds file.now work.old × Pooled (view file.now work.old) × (length list.old ≡ 1024) }
    ensures pools_due { PoolsDue (view file.now work.old) list.new result }
    ensures now { Now file.now work.new (said file.now work.old) }
{
    if all_unnamed(work) {
        return 0;
    }
    pools(file, work, list)
}
