// The calls that take no table by itself: an element, and a listing, whose input is a table and an image together.
use script::{
    bytes_of, decimal, find, number_of, print, print_answer, print_four, print_hex, value_of,
};
use std::io;
use std::io::Write;

// Room for an element.
const ELEMENT: usize = 8;
// Room for a listing's input, one byte more than is accepted.
const DATA: usize = 65537;
// Room for its text.
const LISTED: usize = 65536;

// Uses the call for C, the only one that takes a catalogue.
pub fn check_element<W: Write>(to: &mut W, line: &[u8]) -> io::Result<()> {
    let mut element = [0u8; ELEMENT];
    let n = bytes_of(line, b" word=", &mut element);
    let (x, y) = catalogue_of(line);
    let ty = (number_of(line, b" type=") % 256) as u8;
    check_under(to, x, y, ty, &element[..n])
}

// The catalogue that a line names; 1.0 if it names none.
fn catalogue_of(line: &[u8]) -> (u8, u8) {
    match value_of(line, b" catalogue=") {
        Some(at) if at < line.len() => {
            let y = match find(line, at, b'.') {
                Some(dot) => decimal(line, dot + 1),
                None => 0,
            };
            ((decimal(line, at) % 256) as u8, (y % 256) as u8)
        }
        _ => (1, 0),
    }
}

fn check_under<W: Write>(to: &mut W, x: u8, y: u8, ty: u8, element: &[u8]) -> io::Result<()> {
    let mut answer = [0u32; 8];
    gateway::shefumbari_check_element(x, y, ty, element, &mut answer);
    print_four(to, answer[0], answer[1], answer[2], answer[3])
}

// Prints the answer of the call, and the text that the program `list` prints.
pub fn list<W: Write>(to: &mut W, line: &[u8]) -> io::Result<()> {
    let mut data = [0u8; DATA];
    let n = bytes_of(line, b" data=", &mut data);
    print_listing(to, &data[..n])
}

fn print_listing<W: Write>(to: &mut W, data: &[u8]) -> io::Result<()> {
    let mut text = [0u8; LISTED];
    print_answer(to, listing::list_into(data, &mut text))?;
    let n = listing::print_into(data, &mut text);
    print(to, b" text=")?;
    print_hex(to, &text[0..n])
}
