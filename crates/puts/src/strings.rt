// The string block of a pair. The strings are rows of the table, and their bytes stand in a text, in hex.
ghost use Rattle.std.specs.Prelude.{◌≡◌, true, List, map, ℕ, ◌-◌, ◌≤◌, ◌<◌, length, drop};
ghost use Rattle.std.proofs.Math.Seq.{slice};
ghost use Rattle.paper.specs.Numbers.{put_fixed};
ghost use Rattle.paper.specs.Lists.{flat, all};
ghost use Rattle.paper.specs.Listing.{hex};
ghost use Rattle.paper.specs.Keeps.{bytes?};
ghost use Rattle.laws.specs.Put.{put_strings};
ghost use Rattle.lay.specs.Laid.{Laid};
ghost use Rattle.table.specs.View.{strs_of, Ok, Holds, strings_in};
ghost use Rattle.puts.specs.Strings.{end_behind, ends_behind, bytes_in};

use numbers::write::{put_be, put_v64};
use table::rows::{Span, string_at, strings};
use words::read::Place;

// How many strings there are from a row on.
fn strings_from(work: &[u32], from: u32) -> u64
    requires { Ok work.now }
    ensures { result ≡ strings_in work.now - from }
{
    let n = strings(work);
    if n < from {
        return 0;
    }
    (n - from) as u64
}

// The digits of a string. A row that ends before it starts has none: no listing gives one, and no fact is needed of it.
fn digits(t: &[u8], s: Span) -> &[u8]
    requires { s.end ≤ length t.now }
    ensures { result.now ≡ slice s.start s.end t.now }
{
    let end = s.end as usize;
    let start = s.start.min(s.end) as usize;
    &t[start..end]
}

// The end offset behind n digits more, two of which are a byte. It stands still at the most that four bytes hold: rows that
// overlap could take it further.
fn end_behind(end: u64, n: usize) -> u64
    requires { end < 4294967296 }
    ensures { (result ≡ end_behind end n) × (result < 4294967296) }
{
    (end + (n / 2) as u64).min(4294967295)
}

// The end offset of each string from a row on.
fn put_ends(t: &[u8], work: &[u32], from: u32, out: &mut [u8], at: usize) -> usize
    requires { Holds t.now work.now }
    ensures { Laid out.old at (flat (put_fixed 4) (ends_behind 0 (drop from (strs_of t.now work.now)))) out.new result }
{
    let mut p = at;
    let mut end: u64 = 0;
    for i in from..strings(work) {
        let s = digits(t, string_at(work, i));
        end = end_behind(end, s.len());
        p = put_be::<4>(out, p, end);
    }
    p
}

// The bytes that stand in hex at the front of a text.
fn put_unhexed(s: &[u8], out: &mut [u8], at: usize) -> usize
    ensures { Laid out.old at (bytes_in s.now) out.new result }
{
    let front = Place { at: 0 };
    let bytes = front.hex_bytes(s, out, at);
    bytes.at
}

// The bytes of each string from a row on.
fn put_string_bytes(t: &[u8], work: &[u32], from: u32, out: &mut [u8], at: usize) -> usize
    requires { Holds t.now work.now }
    ensures { Laid out.old at (flat bytes_in (drop from (strs_of t.now work.now))) out.new result }
{
    let mut p = at;
    for i in from..strings(work) {
        p = put_unhexed(digits(t, string_at(work, i)), out, p);
    }
    p
}

// The block of the strings from a row on. An end has four bytes, so the promise is for strings of fewer than 2 ^ 32 bytes
// together.
pub fn put_strings(t: &[u8], work: &[u32], from: u32, out: &mut [u8], at: usize) -> usize
    requires { Holds t.now work.now }
    ensures { (ss : List (List ℕ)) → drop from (strs_of t.now work.now) ≡ map hex ss → all bytes? ss ≡ true → length (flat (λ s. s) ss) < 4294967296 → Laid out.old at (put_strings ss) out.new result }
{
    let ends = put_v64(out, at, strings_from(work, from));
    let bytes = put_ends(t, work, from, out, ends);
    put_string_bytes(t, work, from, out, bytes)
}
