// The floor of labels: an object's label as the very bytes of the lent table, never a copy. A view holds the table and
// its count. Every label comes from `label_part`, which checks the table again, so a view made of any bytes is safe.
#![tactic(auto)]

ghost use Rattle.std.specs.Prelude.{◌≡◌};
ghost use Rattle.history.specs.Verdict.{told};
ghost use Rattle.history.specs.Calls.{table_call, label_call};
ghost use Rattle.view.specs.Parts.{count_of, given_place, Part};

use history::Answer;
use tables::{accepted, check_table, label_place, outline};

// A lent table, and how many objects it has: 0 if it is not accepted.
#[derive(Clone, Copy)]
pub struct TableView<'a> {
    pub table: &'a [u8],
    pub count: usize,
}

// A view of the table, accepted or not; `open_answer` returns this call's numbers.
pub fn open<'a>(table: &'a [u8]) -> TableView<'a>
    ensures { (result.table ≡ table.entry) × (result.count ≡ count_of (table_call table.now)) }
{
    let count = count_of(table);
    TableView { table, count }
}

// An object's label, or nothing if the request is refused; `label_answer` returns this call's numbers.
pub fn label<'a>(view: TableView<'a>, object: u16) -> &'a [u8]
    ensures { Part view.entry.table result (given_place (label_call view.entry.table.now object)) }
{
    label_part(view.table, object)
}

// `label`, for a caller that has a table and no view of it.
pub fn table_label(table: &[u8], object: u16) -> &[u8]
    ensures { Part table.entry result (given_place (label_call table.now object)) }
{
    label(open(table), object)
}

// The numbers of `open`: the answer of the table's check.
pub fn open_answer(table: &[u8]) -> Answer
    ensures { result ≡ told (table_call table.now) }
{
    check_table(table)
}

// The numbers of a label request: those of the table's check, then 13.
pub fn label_answer(table: &[u8], object: u16) -> Answer
    ensures { result ≡ told (label_call table.now object) }
{
    match label_place(table, object) {
        Ok(_) => accepted(),
        Err(answer) => answer,
    }
}

// The label as a part of the table; the empty part at the front if the request is refused.
pub fn label_part(table: &[u8], object: u16) -> &[u8]
    ensures { Part table.entry result (given_place (label_call table.now object)) }
{
    let Ok(found) = label_place(table, object) else {
        return &table[..0];
    };
    let start = found.offset;
    let end = start + found.size;
    &table[start..end]
}

// How many objects the table has; 0 if it is not accepted.
pub fn count_of(table: &[u8]) -> usize
    ensures { result ≡ count_of (table_call table.now) }
{
    match outline(table) {
        Ok(outline) => outline.plan().kinds.len(),
        Err(_) => 0,
    }
}
