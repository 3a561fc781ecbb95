// The calls over a lent file: for every input, what is replied and what the lent memory holds afterwards.
#![tactic(auto)]

mod asks;
mod fills;
pub mod replies;

ghost use Rattle.std.specs.Prelude.{◌≡◌, [], length};
ghost use Rattle.paper.specs.Bounds.{table_length};
ghost use Rattle.paper.specs.Calls.{check, objects, count_values, fill_values, after_check, after_objects, after_count, after_fill};
ghost use Rattle.table.specs.Counts.{noughts};
ghost use Rattle.walk.specs.FileLaws.{FileRead};
ghost use Rattle.calls.specs.Told.{answer_of, Wrote, after};

use asks::{count_objects, tell_count, write_values};
use numbers::Step;
use paper::Ledger;
use replies::{Refused, Reply};
use table::counts::clear;
use walk::pairs::read;

// Behind the reading: the file's own refusal, or what is asked.
fn objects_read(a: Step, file: &[u8], work: &[u32], name: &[u8]) -> Reply
    requires { FileRead file.now work.now a }
    ensures { answer_of result ≡ objects name.now table_length file.now }
{
    a?;
    count_objects(file, work, name)
}

fn count_read(a: Step, file: &[u8], work: &[u32], owner: &[u8], name: &[u8], k: u64) -> Reply
    requires { FileRead file.now work.now a }
    ensures { answer_of result ≡ count_values owner.now name.now k table_length file.now }
{
    a?;
    tell_count(file, work, owner, name, k)
}

fn fill_read(
    a: Step,
    file: &[u8],
    work: &[u32],
    owner: &[u8],
    name: &[u8],
    k: u64,
    out: &mut [i64],
) -> Reply
    requires { FileRead file.now work.now a }
    ensures { Wrote (fill_values owner.now name.now k (length out.old) table_length file.now) out.old result out.new }
{
    a?;
    write_values(file, work, owner, name, k, out)
}

// The four calls over a table of just the length that reading needs: whatever stood in it, noughts are left.

fn check_in(file: &[u8], table: &mut [u32]) -> Reply
    requires { length table.old ≡ table_length }
    ensures { (answer_of result ≡ check table_length file.now) × (table.new ≡ noughts) }
{
    let a = read(file, table);
    clear(table);
    a?;
    Ok(0)
}

fn objects_in(file: &[u8], name: &[u8], table: &mut [u32]) -> Reply
    requires { length table.old ≡ table_length }
    ensures { (answer_of result ≡ objects name.now table_length file.now) × (table.new ≡ noughts) }
{
    let a = read(file, table);
    let r = objects_read(a, file, table, name);
    clear(table);
    r
}

fn count_in(file: &[u8], owner: &[u8], name: &[u8], k: u64, table: &mut [u32]) -> Reply
    requires { length table.old ≡ table_length }
    ensures { (answer_of result ≡ count_values owner.now name.now k table_length file.now) × (table.new ≡ noughts) }
{
    let a = read(file, table);
    let r = count_read(a, file, table, owner, name, k);
    clear(table);
    r
}

fn fill_in(
    file: &[u8],
    owner: &[u8],
    name: &[u8],
    k: u64,
    table: &mut [u32],
    out: &mut [i64],
) -> Reply
    requires { length table.old ≡ table_length }
    ensures { Wrote (fill_values owner.now name.now k (length out.old) table_length file.now) out.old result out.new × (table.new ≡ noughts) }
{
    let a = read(file, table);
    let r = fill_read(a, file, table, owner, name, k, out);
    clear(table);
    r
}

// Whether the file follows the rules: 0, or the refusal.
pub fn check(file: &[u8], work: &mut [u32]) -> Reply
    ensures { after result work.new [] ≡ after_check file.now work.old }
{
    let needed = Ledger::TABLE as usize;
    if work.len() < needed {
        return Err(Refused::TABLE);
    }
    check_in(file, &mut work[..needed])
}

// How many objects the type with this name has.
pub fn objects(file: &[u8], name: &[u8], work: &mut [u32]) -> Reply
    ensures { after result work.new [] ≡ after_objects file.now name.now work.old }
{
    let needed = Ledger::TABLE as usize;
    if work.len() < needed {
        return Err(Refused::TABLE);
    }
    objects_in(file, name, &mut work[..needed])
}

// How many values a field has, by the names of its type and its own and by its kind.
pub fn count_values(file: &[u8], owner: &[u8], name: &[u8], k: u64, work: &mut [u32]) -> Reply
    ensures { after result work.new [] ≡ after_count file.now owner.now name.now k work.old }
{
    let needed = Ledger::TABLE as usize;
    if work.len() < needed {
        return Err(Refused::TABLE);
    }
    count_in(file, owner, name, k, &mut work[..needed])
}

// These values themselves, which become the first numbers of `out`.
pub fn fill_values(
    file: &[u8],
    owner: &[u8],
    name: &[u8],
    k: u64,
    work: &mut [u32],
    out: &mut [i64],
) -> Reply
    ensures { after result work.new out.new ≡ after_fill file.now owner.now name.now k work.old out.old }
{
    let needed = Ledger::TABLE as usize;
    if work.len() < needed {
        return Err(Refused::TABLE);
    }
    fill_in(file, owner, name, k, &mut work[..needed], out)
}
