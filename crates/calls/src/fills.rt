// A field's column, stored chunk by chunk from the places that the table has put down.
ghost use Rattle.calls.specs.Fill.{ChunkReady, ChunkStored, ColumnReady, ColumnStored};

use table::rows::{ChunkRow, chunk_at, chunks};
use values::columns::fill;

// The values of the chunk d, if it is of field i: the place behind the last.
fn fill_chunk(file: &[u8], d: ChunkRow, i: u32, k: u64, out: &mut [i64], at: usize) -> usize
    requires { ChunkReady file.now d i k }
    ensures { ChunkStored file.now d i k out.old at out.new result }
{
    if d.field != i {
        return at;
    }
    let start = d.start as usize;
    let end = d.end as usize;
    fill(&file[start..end], k, out, at)
}

// The values of field i, whose kind has the one number k: those of all its chunks, in the order of the file.
pub fn fill_column(file: &[u8], work: &[u32], i: u32, k: u64, out: &mut [i64])
    requires { ColumnReady file.now work.now i k out.old }
    ensures { ColumnStored file.now work.now i k out.old out.new }
{
    let n = chunks(work);
    let mut at: usize = 0;
    for j in 0..n {
        let d = chunk_at(work, j);
        at = fill_chunk(file, d, i, k, out, at);
    }
}
