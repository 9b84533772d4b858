// The floor of rows: one constant with a row for every field of every layout, reading one field or all fields of an
// element's number by their rows, and composing a number of values. All arithmetic of elements is here, once for all
// rows. It knows no type by name, reads no bytes and writes nothing.
#![tactic(auto)]

mod catalogue;

ghost use Rattle.std.specs.Prelude.{◌≡◌, ◌<◌, ◌≤◌, ◌+◌, ◌-◌, ◌*◌};
ghost use Rattle.rows.specs.Rows.{cells, row_total, cell_at, row_at, rows_from};
ghost use Rattle.rows.specs.Values.{field_read, check_rows, values_read, compose_of, bearing};
ghost use Rattle.rows.specs.Marks.{carries_none};

pub use catalogue::Cells;
use catalogue::{ROW_TOTAL, ROWS};

// A layout: its number, which rows are its own, its width in bytes, and whether its bit 0 is DAT.
#[derive(Clone, Copy)]
pub struct Layout {
    pub number: u8,
    pub first: usize,
    pub count: usize,
    pub bytes: usize,
    pub dat: bool,
}

// Rows that follow each other, as a layout's do: `count` of them from row `first` on.
#[derive(Clone, Copy)]
pub struct Span {
    pub first: usize,
    pub count: usize,
    pub ghost inside: { first + count ≤ row_total },
    pub ghost few: { count ≤ 24 },
}

// A layout's marks, for a glance at all fields at once: what is added to each field that doesn't admit every value, and
// the bits that a value that isn't listed then carries into.
#[derive(Clone, Copy)]
pub struct Marks {
    pub add: u32,
    pub carry: u64,
}

// Why an element is refused: the code, and the lowest bit of the field.
#[derive(Clone, Copy)]
pub struct Refusal {
    pub code: u8,
    pub bit: u8,
}

// The rows' numbers. Whoever reads many rows takes them once, since a constant is copied wherever it is named.
pub fn cells() -> Cells
    ensures { result ≡ cells }
{
    ROWS
}

// The number at a place: four for each row.
pub fn cell(rows: &Cells, place: usize) -> u8
    requires { (rows.now ≡ cells) × (place < 4 * row_total) }
    ensures { result ≡ cell_at place }
{
    rows[place]
}

// The field of an element's number that a row describes.
fn read_field(rows: &Cells, word: u32, row: usize) -> Result<u32, Refusal>
    requires { (rows.now ≡ cells) × (row < row_total) }
    ensures { result ≡ field_read word (row_at row) }
{
    let low = cell(rows, 4 * row + 1);
    let width = cell(rows, 4 * row + 2);
    let top = cell(rows, 4 * row + 3);
    let value = (word >> low) % (1u32 << width);
    if value <= top as u32 {
        return Ok(value);
    }
    if top == 0 {
        Err(Refusal { code: 10, bit: low })
    } else {
        Err(Refusal { code: 11, bit: low })
    }
}

// The values by a span's rows of an element's number, in their order; all zeros if a field is refused, as in
// its definition.
pub fn read_rows(word: u32, span: Span) -> [u32; 24]
    ensures { result ≡ values_read word (rows_from span.first span.count) }
{
    let rows = cells();
    let mut values = [0u32; 24];
    for k in 0..span.count {
        let Ok(value) = read_field(&rows, word, span.first + k) else {
            return [0u32; 24];
        };
        values[k] = value;
    }
    values
}

// What is found of an element's number by its layout: the rows from the first on, as long as
// they have the layout's number.
pub fn check_rows(word: u32, number: u8, first: usize) -> Result<(), Refusal>
    ensures { result ≡ check_rows word (bearing number first (row_total - first)) }
{
    let rows = cells();
    for row in first..ROW_TOTAL {
        if cell(&rows, 4 * row) != number {
            return Ok(());
        }
        read_field(&rows, word, row)?;
    }
    Ok(())
}

// Whether adding the marks to an element's number carries nothing into a marked bit. With the marks of its rows, each
// field then has a listed value.
pub fn carries_none(word: u32, marks: Marks) -> bool
    ensures { result ≡ carries_none marks.add marks.carry word }
{
    let number = word as u64;
    let more = marks.add as u64;
    let carried = ((number + more) ^ number) ^ more;
    carried & marks.carry == 0
}

// The number whose fields, by a span's rows, are the values.
pub fn compose_rows(values: [u32; 24], span: Span) -> u32
    requires { compose_of (rows_from span.first span.count) values < 4294967296 }
    ensures { result ≡ compose_of (rows_from span.first span.count) values }
{
    let rows = cells();
    let mut word: u32 = 0;
    for k in 0..span.count {
        let low = cell(&rows, 4 * (span.first + k) + 1);
        word += values[k] << low;
    }
    word
}
