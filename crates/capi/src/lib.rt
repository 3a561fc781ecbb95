// The calls for C and Rust. A reply is one signed number: what was done, from 0 up, or minus the number of the refusal.
#![tactic(auto)]

ghost use Rattle.std.specs.Prelude.{◌≡◌, [], pos};
ghost use Rattle.paper.specs.Calls.{after_check, after_objects, after_count, after_fill, after_listing, after_build};
ghost use Rattle.calls.specs.Told.{answer_of};
ghost use Rattle.capi.specs.Coded.{up_to_top, coded_up_to, Coded};

use build::build;
use calls::replies::Reply;
use calls::{check, count_values, fill_values, objects};
use listing::listing;

// No answer comes near the top of the range; what would pass it is not wrapped to another number.
fn up_to_top(n: u64) -> i64
    ensures { result ≡ pos (up_to_top n) }
{
    i64::try_from(n).unwrap_or(i64::MAX)
}

// The C interface knows no enums, so both answers go into one number.
fn one_number(r: Reply) -> i64
    ensures { result ≡ coded_up_to (answer_of r) }
{
    match r {
        Ok(n) => up_to_top(n),
        Err(e) => 0 - up_to_top(e.number),
    }
}

// Whether the file follows the rules: 0, or the refusal.
#[unsafe(no_mangle)]
pub extern "C" fn th_check(file: &[u8], work: &mut [u32]) -> i64
    ensures { Coded result work.new [] (after_check file.now work.old) }
{
    one_number(check(file, work))
}

// How many objects the type with this name has.
#[unsafe(no_mangle)]
pub extern "C" fn th_objects(file: &[u8], name: &[u8], work: &mut [u32]) -> i64
    ensures { Coded result work.new [] (after_objects file.now name.now work.old) }
{
    one_number(objects(file, name, work))
}

// How many values a field has, by the names of its type and its own and by its kind.
#[unsafe(no_mangle)]
pub extern "C" fn th_count_values(
    file: &[u8],
    owner: &[u8],
    name: &[u8],
    k: u64,
    work: &mut [u32],
) -> i64
    ensures { Coded result work.new [] (after_count file.now owner.now name.now k work.old) }
{
    one_number(count_values(file, owner, name, k, work))
}

// These values themselves, which become the first numbers of `out`.
#[unsafe(no_mangle)]
pub extern "C" fn th_fill_values(
    file: &[u8],
    owner: &[u8],
    name: &[u8],
    k: u64,
    work: &mut [u32],
    out: &mut [i64],
) -> i64
    ensures { Coded result work.new out.new (after_fill file.now owner.now name.now k work.old out.old) }
{
    one_number(fill_values(file, owner, name, k, work, out))
}

// The listing of a file: its bytes are the first of `out`.
#[unsafe(no_mangle)]
pub extern "C" fn th_listing(file: &[u8], work: &mut [u32], out: &mut [u8]) -> i64
    ensures { Coded result work.new out.new (after_listing file.now work.old out.old) }
{
    one_number(listing(file, work, out))
}

// The file with this listing: its bytes are the first of `out`.
#[unsafe(no_mangle)]
pub extern "C" fn th_build(text: &[u8], work: &mut [u32], out: &mut [u8]) -> i64
    ensures { Coded result work.new out.new (after_build text.now work.old out.old) }
{
    one_number(build(text, work, out))
}
