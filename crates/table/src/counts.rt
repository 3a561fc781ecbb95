// How many rows there are of each kind: all begin with none, and can be cut back to fewer.
ghost use Rattle.std.specs.Prelude.{◌≡◌, ◌<◌, length, slice_index};
ghost use Rattle.table.specs.View.{Ok};
ghost use Rattle.table.specs.Counts.{noughts, Begun, Next, Cut, counts_in, Recounted, NotAbove, Zeroed};

use super::cells::put;
use super::rows::Counts;

pub fn counts(work: &[u32]) -> Counts
    requires { Ok work.now }
    ensures { result ≡ counts_in work.now }
{
    Counts {
        strings: work[0],
        types: work[1],
        fields: work[2],
        ranges: work[3],
        chunks: work[5],
    }
}

// The first cells, all at once: no chunk is due afterwards. The last two say whether the tallies are told, and whether what
// strings name is noted.
fn set_counts(work: &mut [u32], n: Counts, block: u32, told: u32, noted: u32)
    requires { length work.old ≡ 16384 }
    ensures recounted { Recounted n block work.old work.new }
    ensures work_after { (slice_index work.new 7 ≡ told) × (slice_index work.new 8 ≡ noted) }
{
    let none_due = 0;
    put(
        work,
        0,
        [
            n.strings, n.types, n.fields, n.ranges, none_due, n.chunks, block, told, noted,
        ],
    );
}

// No tallies, whatever stood there.
fn clear_tallies(work: &mut [u32])
    requires { length work.old ≡ 16384 }
    ensures { Zeroed 16384 work.new }
{
    work[16048..16384].fill(0);
}

// A table that knows nothing, whatever stood in the cells.
pub fn begin(work: &mut [u32])
    requires { length work.old ≡ 16384 }
    ensures { Begun work.new }
{
    let none = Counts {
        strings: 0,
        types: 0,
        fields: 0,
        ranges: 0,
        chunks: 0,
    };
    clear_tallies(work);
    set_counts(work, none, 0, 1, 1);
}

// The end of a block.
pub fn next_block(work: &mut [u32])
    requires ok { Ok work.old }
    requires work_bound { slice_index work.old 6 < 4294967295 }
    ensures { Next work.old work.new }
{
    let n = counts(work);
    let block = work[6];
    let told = work[7];
    let noted = work[8];
    set_counts(work, n, block + 1, told, noted);
}

// Back to what the table said when it had fewer rows. The tallies are not told any more, and nothing is noted: this is
// done once, to refuse.
pub fn cut_back(work: &mut [u32], n: Counts)
    requires ok { Ok work.old }
    requires not_above { NotAbove n work.old }
    ensures { Cut n work.old work.new }
{
    let block = work[6];
    set_counts(work, n, block, 0, 0);
}

// Every number is 0 afterwards.
pub fn clear(work: &mut [u32])
    requires { length work.old ≡ 16384 }
    ensures { work.new ≡ noughts }
{
    work.fill(0);
}
