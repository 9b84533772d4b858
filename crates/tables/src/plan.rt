// What the other forms are read by: X, Y and each object's kind, of an accepted table.
ghost use Rattle.std.specs.Prelude.{◌≡◌, ◌-◌, take, drop, replicate, get_or, Ok};
ghost use Rattle.kinds.specs.declared.Kind.{Kind};
ghost use Rattle.history.specs.Verdict.{given, checked, done};
ghost use Rattle.history.specs.Calls.{table_call, read_plan};
ghost use Rattle.heads.specs.Heads.{count_in};

use super::outlines::{Outline, hold};
use super::table::{entry_size, read_table};
use heads::{object_count, objects_place};
use history::Answer;
use kinds::Kind;

// Checks a table, and reads from an accepted one what the other forms are read by.
pub fn outline(table: &[u8]) -> Result<Outline, Answer>
    ensures { result ≡ given (λ p. p) (read_plan table.now) }
{
    read_table(table)?;
    let x = table[5];
    let y = table[6];
    let count = object_count(table);
    let kinds = kinds_in(table, count);
    Ok(hold(x, y, count, kinds))
}

// The kinds of an accepted table's objects, in table order, in the first places.
fn kinds_in(table: &[u8], count: usize) -> [Kind; 1024]
    requires { (Ok tt ≡ checked (table_call table.now)) × (count ≡ count_in table.now) }
    ensures plan { read_plan table.now
        ≡ done (record { x = get_or table.now 5 0; y = get_or table.now 6 0; kinds = take count result }) }
    ensures rest { drop count result ≡ replicate (1024 - count) Kind.Signal }
{
    let mut kinds = [Kind::Signal; 1024];
    let mut at = objects_place();
    for i in 0..count {
        kinds[i] = elements::kind_of(table[5], table[at]);
        at += entry_size(table, at);
    }
    kinds
}
