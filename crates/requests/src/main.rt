// Runs stored requests, one a line, and prints their answers.
//
//     CALL name=value ..                      a request
//     CODE OBJECT BIT LENGTH name=value ..    its answer
//
// Bytes are lower-case hex, `-` if there are none; numbers are decimal. A lent output is given whole: in the request
// as it is before the call, in the answer as it is after. A state is KIND:v,v,.. (the fields that aren't reserved, from
// bit 0 up) or none; KIND is the type, except 31 for the signal of catalogue 3.0, which is 301 in the outside vectors.
// A standing is applied,late,gap,other. An element's catalogue is 1.0 if none is named. A line that begins with # is
// printed as it is. The program is proved safe and no more.
#![tactic(auto)]

mod objects;
mod operations;
mod under_table;
mod without_table;

ghost use Rattle.std.specs.Prelude.{◌≤◌, length, IfOk};

use script::{begins, bytes_of, find, print};
use shell::read_full;
use std::io;
use std::io::{Read, Write};
use under_table::ask;
use without_table::{check_element, list};

// The bytes of text that are held at a time; every line has to be shorter.
const TEXT: usize = 200000;
// How often text is read: over 12 megabytes in all.
const TURNS: usize = 64;
// Room for a table.
const TABLE: usize = 52000;
// Room for an image, a list or a backlog.
const FORM: usize = 12000;

fn main(rt: HostRuntime) -> io::Result<()> {
    let mut text = [0u8; TEXT];
    take_turns(&mut rt.stdin(), &mut io::writer(&rt), &mut text)
}

fn take_turns<R: Read, W: Write>(input: &mut R, output: &mut W, text: &mut [u8]) -> io::Result<()> {
    let mut held = 0;
    for _ in 0..TURNS {
        held = take_text(input, output, text, held)?;
    }
    Ok(())
}

// Reads on after what is held and answers each complete line. The rest is held at the front; returns its length.
fn take_text<R: Read, W: Write>(
    input: &mut R,
    output: &mut W,
    text: &mut [u8],
    held: usize,
) -> io::Result<usize> {
    if text.len() < held {
        return Ok(0);
    }
    let n = read_full(input, &mut text[held..])?;
    let end = held + n;
    let done = answer_lines(output, &text[..end])?;
    text.copy_within(done..end, 0);
    Ok(end - done)
}

// Answers each complete line; returns where the rest begins.
fn answer_lines<W: Write>(to: &mut W, text: &[u8]) -> io::Result<usize>
    ensures { IfOk result (λ r. r ≤ length text.now) }
{
    let mut at = 0;
    while let Some(end) = find(text, at, b'\n') {
        answer(to, &text[at..end])?;
        print(to, b"\n")?;
        at = end + 1;
    }
    Ok(at)
}

fn answer<W: Write>(to: &mut W, line: &[u8]) -> io::Result<()> {
    if begins(line, b"#") {
        print(to, line)
    } else if begins(line, b"check_element ") {
        check_element(to, line)
    } else if begins(line, b"listing ") {
        list(to, line)
    } else if begins(line, b"difference ") {
        ask_with(to, line, b" a=", b" b=")
    } else if begins(line, b"join ") {
        ask_with(to, line, b" first=", b" second=")
    } else if begins(line, b"backlog ") {
        ask_with(to, line, b" image=", b" lists=")
    } else {
        ask_with(to, line, b" image=", b" list=")
    }
}

// Asks with the table, two forms and the output that the line names; what it doesn't name is empty.
fn ask_with<W: Write>(to: &mut W, line: &[u8], first: &[u8], second: &[u8]) -> io::Result<()> {
    let mut table = [0u8; TABLE];
    let mut one = [0u8; FORM];
    let mut two = [0u8; FORM];
    let mut out = [0u8; FORM];
    let n = bytes_of(line, b" table=", &mut table);
    let m = bytes_of(line, first, &mut one);
    let k = bytes_of(line, second, &mut two);
    let o = bytes_of(line, b" out=", &mut out);
    ask(to, line, &table[..n], &one[..m], &two[..k], &mut out[..o])
}
