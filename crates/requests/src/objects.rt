// The calls that name an object: its state and its label.
use super::operations::print_written;
use fields::Plain;
use script::{
    decimal, find, number_of, numbers, print, print_answer, print_hex, print_number, print_numbers,
    value_of,
};
use std::io;
use std::io::Write;

fn object_of(line: &[u8]) -> u16 {
    (number_of(line, b" number=") % 65536) as u16
}

// The answer is that of the call that gives a state, the values those of the call that gives plain numbers.
pub fn read_state<W: Write>(to: &mut W, line: &[u8], table: &[u8], image: &[u8]) -> io::Result<()> {
    let object = object_of(line);
    print_answer(
        to,
        panel::answer_of(panel::read_state(table, image, object)),
    )?;
    print(to, b" state=")?;
    match fields::read_fields(table, image, object) {
        Ok(plain) => print_state(to, plain),
        Err(_) => print(to, b"none"),
    }
}

fn print_state<W: Write>(to: &mut W, plain: Plain) -> io::Result<()> {
    print_number(to, plain.kind as u64)?;
    print(to, b":")?;
    print_numbers(to, plain.fields, plain.count)
}

// Whatever follows a state's own values is ignored.
pub fn write_state<W: Write>(
    to: &mut W,
    line: &[u8],
    table: &[u8],
    image: &[u8],
    out: &mut [u8],
) -> io::Result<()> {
    let object = object_of(line);
    let (kind, values) = state_of(line);
    let position = number_of(line, b" position=");
    let answer = fields::write_fields(table, image, object, kind, values, position, out);
    print_written(to, answer, out)
}

// The kind and the values of the state that a line names; zeros if it names none.
fn state_of(line: &[u8]) -> (u32, [u32; 32]) {
    let Some(state) = value_of(line, b" state=") else {
        return (0, [0; 32]);
    };
    let kind = decimal(line, state);
    match find(line, state, b':') {
        Some(colon) => (kind, numbers(line, colon + 1)),
        None => (kind, [0; 32]),
    }
}

// Prints where in the table the label begins, and the label's bytes.
pub fn label<W: Write>(to: &mut W, line: &[u8], table: &[u8]) -> io::Result<()> {
    let object = object_of(line);
    print_answer(to, view::label_answer(table, object))?;
    print(to, b" offset=")?;
    let offset = tables::label_place(table, object).map_or(0, |label| label.offset);
    print_number(to, offset as u64)?;
    print(to, b" label=")?;
    print_hex(to, view::table_label(table, object))
}
