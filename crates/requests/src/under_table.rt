// The calls that take a table.
use super::objects::{label, read_state, write_state};
use super::operations::operate;
use script::{begins, print_answer};
use std::io;
use std::io::Write;

// `one` is an image and `two` a list, or a backlog of lists; for a difference both are images, for a join both lists.
pub fn ask<W: Write>(
    to: &mut W,
    line: &[u8],
    table: &[u8],
    one: &[u8],
    two: &[u8],
    out: &mut [u8],
) -> io::Result<()> {
    if begins(line, b"check_table ") {
        print_answer(to, tables::check_table(table))
    } else if begins(line, b"open ") {
        print_answer(to, view::open_answer(table))
    } else if begins(line, b"check_image ") {
        print_answer(to, forms::check_image(table, one))
    } else if begins(line, b"check_list ") {
        print_answer(to, forms::check_list(table, two))
    } else if begins(line, b"label ") {
        label(to, line, table)
    } else if begins(line, b"read_state ") {
        read_state(to, line, table, one)
    } else if begins(line, b"write_state ") {
        write_state(to, line, table, one, out)
    } else {
        operate(to, line, table, one, two, out)
    }
}
