// Change lists, over the bytes of the forms: the list between two images, an image after a list (written, or in place),
// the join of two lists, a list turned back. The table is read once, then each other form in the order given; no byte
// is written before everything is checked.
#![tactic(auto)]

mod accepted;
mod under;

ghost use Rattle.history.specs.Verdict.{Leaves, Puts};
ghost use Rattle.history.specs.Calls.{difference_call, apply_call, join_call, turn_call};

use history::Answer;
use tables::outline;
pub use under::{apply_under, difference_under, join_under, take_under, turn_under};

// Writes the list from image a to image b.
pub fn difference(table: &[u8], a: &[u8], b: &[u8], out: &mut [u8]) -> Answer
    ensures { Leaves (difference_call table.now a.now b.now)
        out.old result out.new }
{
    put_difference(table, a, b, out).into()
}

// This and the three below differ in their forms and in the call under the plan: one function that took the rest as a
// closure would hold the lent output in it, and be no shorter.
fn put_difference(table: &[u8], a: &[u8], b: &[u8], out: &mut [u8]) -> Result<u32, Answer>
    ensures { Puts (difference_call table.now a.now b.now)
        out.old result out.new }
{
    let outline = outline(table)?;
    difference_under(outline.plan(), a, b, out)
}

// Writes the image after the list: 16 if the list is late, 17 if there is a gap, 18 if an old
// element is not the image's.
pub fn apply(table: &[u8], image: &[u8], list: &[u8], out: &mut [u8]) -> Answer
    ensures { Leaves (apply_call table.now image.now list.now)
        out.old result out.new }
{
    put_apply(table, image, list, out).into()
}

fn put_apply(table: &[u8], image: &[u8], list: &[u8], out: &mut [u8]) -> Result<u32, Answer>
    ensures { Puts (apply_call table.now image.now list.now)
        out.old result out.new }
{
    let outline = outline(table)?;
    apply_under(outline.plan(), image, list, out)
}

// Writes the join of two lists: 19 if the second does not start where the first ends, 20 if
// they do not agree on an object.
pub fn join(table: &[u8], first: &[u8], second: &[u8], out: &mut [u8]) -> Answer
    ensures { Leaves (join_call table.now first.now second.now)
        out.old result out.new }
{
    put_join(table, first, second, out).into()
}

fn put_join(table: &[u8], first: &[u8], second: &[u8], out: &mut [u8]) -> Result<u32, Answer>
    ensures { Puts (join_call table.now first.now second.now)
        out.old result out.new }
{
    let outline = outline(table)?;
    join_under(outline.plan(), first, second, out)
}

// Writes the list turned back.
pub fn turn_back(table: &[u8], list: &[u8], out: &mut [u8]) -> Answer
    ensures { Leaves (turn_call table.now list.now)
        out.old result out.new }
{
    put_turn_back(table, list, out).into()
}

fn put_turn_back(table: &[u8], list: &[u8], out: &mut [u8]) -> Result<u32, Answer>
    ensures { Puts (turn_call table.now list.now)
        out.old result out.new }
{
    let outline = outline(table)?;
    turn_under(outline.plan(), list, out)
}
