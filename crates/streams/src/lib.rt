// What the programs share: each gives the bytes of standard input to a call, and the call's answer to standard output. What
// stands in the buffers is proved. That the bytes come from the one stream and go to the other is not: a contract cannot speak
// of streams.
#![tactic(auto)]

ghost use Rattle.lay.specs.Laid.{Laid};
ghost use Rattle.streams.specs.Answers.{refusal_line, Told};
ghost use Rattle.streams.specs.Reads.{Within};

use calls::replies::Reply;
use std::io;
use std::io::{Input, Read};
use words::write::put_decimal;

// Reads on until the input has ended or `buf` is full: a pipe hands over what it has, which may be less than was asked for. A read
// brings no byte only where the input has ended. How many bytes each brings is its own affair, so no `for` counts the reads.
fn read_all(input: &mut impl Read, buf: &mut [u8]) -> io::Result<usize>
    ensures { Within result buf.new }
{
    let mut done: usize = 0;
    while done < buf.len() {
        let n = input.read(&mut buf[done..])?;
        if n == 0 {
            return Ok(done);
        }
        done += n;
    }
    Ok(done)
}

// The input: how many bytes of it came. Where a read fails there is none: half an input is not the input. That is said on standard
// error, for what a program writes for an empty input is empty too, and its status is 0 either way.
pub fn read_input(rt: &(impl Input + Eprint), buf: &mut [u8]) -> io::Result<usize>
    ensures { Within result buf.new }
{
    let a = read_all(&mut rt.reader(), buf);
    if a.is_err() {
        let _ = rt.eprintln("standard input cannot be read");
    }
    a
}

// The line of a refusal.
pub fn put_refused(out: &mut [u8], number: u64) -> usize
    ensures { Laid out.old 0 (refusal_line number) out.new result }
{
    let second = lay::put_bytes(out, 0, b"refused\t");
    let end = put_decimal(out, second, number);
    lay::put_bytes(out, end, b"\n")
}

// How much of the output is to be written, once the call has replied: what it laid there, or the line of its refusal.
pub fn replied(a: Reply, out: &mut [u8]) -> usize
    ensures { Told a out.old out.new result }
{
    match a {
        Ok(n) => n as usize,
        Err(e) => put_refused(out, e.number),
    }
}

// Where a write fails, nothing more is written, and that is said on standard error.
pub fn write_answer(rt: &(impl Print + Eprint), text: &[u8]) {
    if rt.write_all(text).is_err() {
        let _ = rt.eprintln("standard output cannot be written");
    }
}
