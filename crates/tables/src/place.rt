// Where a label is in the table's bytes.
ghost use Rattle.std.specs.Prelude.{◌≡◌, ◌≤◌, Ok};
ghost use Rattle.history.specs.Verdict.{checked};
ghost use Rattle.history.specs.Calls.{table_call};
ghost use Rattle.heads.specs.Heads.{count_in};
ghost use Rattle.tables.specs.Places.{place_of};
ghost use Rattle.tables.specs.LabelPlaces.{LabelFound};

use super::answers::refused_at;
use super::table::{entry_size, read_table};
use heads::{byte_at, object_count, objects_place};
use history::Answer;

// Where a label is: the offset of its first byte, and its size.
#[derive(Clone, Copy)]
pub struct LabelAt {
    pub offset: usize,
    pub size: usize,
}

// Finds an object's label: the table's refusals, then 13.
pub fn label_place(table: &[u8], object: u16) -> Result<LabelAt, Answer>
    ensures { LabelFound table.now object result }
{
    read_table(table)?;
    let index = object as usize;
    if object_count(table) <= index {
        return Err(refused_at(13, object));
    }
    let at = entry_place(table, index);
    let offset = at + 2;
    let size = byte_at(table, at + 1);
    Ok(LabelAt { offset, size })
}

// Where an object's entry begins in an accepted table. Entries differ in length, so it steps over those before.
fn entry_place(table: &[u8], object: usize) -> usize
    requires { (Ok tt ≡ checked (table_call table.now)) × (object ≤ count_in table.now) }
    ensures { result ≡ place_of table.now object }
{
    let mut at = objects_place();
    for _ in 0..object {
        at += entry_size(table, at);
    }
    at
}
