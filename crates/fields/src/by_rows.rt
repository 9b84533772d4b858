// The loops over the rows of a span, and their values.
ghost use Rattle.std.specs.Prelude.{◌≡◌, ◌<◌};
ghost use Rattle.rows.specs.Rows.{cells, row_total, row_at, rows_from};
ghost use Rattle.rows.specs.Values.{padded};
ghost use Rattle.fields.specs.PlainFields.{shown_in, spread, check_named};

use rows::{Cells, Refusal, Span};

// The values of rows that are not reserved, and how many there are. C has 32 places and the count beside them.
#[derive(Clone, Copy)]
pub struct Shown {
    pub count: usize,
    pub fields: [u32; 32],
}

// The values of the rows that are not reserved. `take_rows` goes the other way: the arrays are exchanged, which no type
// or constant can say.
pub fn show_rows(values: [u32; 24], span: Span) -> Shown
    ensures { result ≡ shown_in (rows_from span.first span.count) values }
{
    let rows = rows::cells();
    let mut fields = [0u32; 32];
    let mut n = 0;
    for k in 0..span.count {
        if highest(&rows, span.first + k) != 0 {
            fields[n] = values[k];
            n += 1;
        }
    }
    Shown { count: n, fields }
}

// The values of all rows, from the fields handed in: 0 for reserved rows.
pub fn take_rows(fields: [u32; 32], span: Span) -> [u32; 24]
    ensures { result ≡ padded (spread (rows_from span.first span.count) fields) }
{
    let rows = rows::cells();
    let mut values = [0u32; 24];
    let mut n = 0;
    for k in 0..span.count {
        if highest(&rows, span.first + k) != 0 {
            values[k] = fields[n];
            n += 1;
        }
    }
    values
}

// Refuses the first value that has no named case: 11, with the field's lowest bit.
pub fn check_named(values: [u32; 24], span: Span) -> Result<(), Refusal>
    ensures { result ≡ check_named (rows_from span.first span.count) values }
{
    let rows = rows::cells();
    for k in 0..span.count {
        if highest(&rows, span.first + k) < values[k] {
            let bit = lowest(&rows, span.first + k);
            return Err(Refusal { code: 11, bit });
        }
    }
    Ok(())
}

// The highest value that a row admits; 0 if the row is reserved.
fn highest(rows: &Cells, row: usize) -> u32
    requires { (rows.now ≡ cells) × (row < row_total) }
    ensures { result ≡ (row_at row).top }
{
    rows::cell(rows, 4 * row + 3) as u32
}

// The row's lowest bit.
fn lowest(rows: &Cells, row: usize) -> u8
    requires { (rows.now ≡ cells) × (row < row_total) }
    ensures { result ≡ (row_at row).low }
{
    rows::cell(rows, 4 * row + 1)
}
