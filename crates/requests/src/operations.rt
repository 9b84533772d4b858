// The calls that make a list or an image from other forms: the operations, and a list or a backlog received.
use history::{Answer, Standing};
use script::{
    begins, numbers, print, print_answer, print_hex, print_number, print_numbers, value_of,
};
use std::io;
use std::io::Write;

pub fn operate<W: Write>(
    to: &mut W,
    line: &[u8],
    table: &[u8],
    one: &[u8],
    two: &[u8],
    out: &mut [u8],
) -> io::Result<()> {
    if begins(line, b"difference ") {
        let answer = changes::difference(table, one, two, out);
        print_written(to, answer, out)
    } else if begins(line, b"apply ") {
        let answer = changes::apply(table, one, two, out);
        print_written(to, answer, out)
    } else if begins(line, b"join ") {
        let answer = changes::join(table, one, two, out);
        print_written(to, answer, out)
    } else if begins(line, b"turn_back ") {
        let answer = changes::turn_back(table, two, out);
        print_written(to, answer, out)
    } else if begins(line, b"receive ") {
        receive(to, line, table, one, two, out)
    } else if begins(line, b"backlog ") {
        receive_backlog(to, line, table, one, two, out)
    } else {
        print(to, b"no such call")
    }
}

// Prints the answer's numbers, and the whole output as it is after the call.
pub fn print_written<W: Write>(to: &mut W, answer: Answer, out: &[u8]) -> io::Result<()> {
    print_answer(to, answer)?;
    print(to, b" out=")?;
    print_hex(to, out)
}

fn receive<W: Write>(
    to: &mut W,
    line: &[u8],
    table: &[u8],
    image: &[u8],
    list: &[u8],
    out: &mut [u8],
) -> io::Result<()> {
    let taken = receiver::received(table, image, list, out, standing_of(line));
    print_written(to, taken.answer, out)?;
    print_standing(to, taken.standing)
}

fn receive_backlog<W: Write>(
    to: &mut W,
    line: &[u8],
    table: &[u8],
    image: &[u8],
    lists: &[u8],
    out: &mut [u8],
) -> io::Result<()> {
    let advance = receiver::backlog_received(table, image, lists, out, standing_of(line));
    print_answer(to, advance.progress.answer)?;
    print(to, b" taken=")?;
    print_number(to, advance.progress.taken as u64)?;
    print(to, b" out=")?;
    print_hex(to, out)?;
    print_standing(to, advance.standing)
}

fn standing_of(line: &[u8]) -> Standing {
    let tallies = match value_of(line, b" standing=") {
        Some(at) => numbers(line, at),
        None => [0; 32],
    };
    Standing {
        applied: tallies[0],
        late: tallies[1],
        gap: tallies[2],
        other: tallies[3],
    }
}

fn print_standing<W: Write>(to: &mut W, standing: Standing) -> io::Result<()> {
    let mut tallies = [0u32; 32];
    tallies[0] = standing.applied;
    tallies[1] = standing.late;
    tallies[2] = standing.gap;
    tallies[3] = standing.other;
    print(to, b" standing=")?;
    print_numbers(to, tallies, 4)
}
