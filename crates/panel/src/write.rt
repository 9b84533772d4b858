// Writing an object's state, with the image's new position: the table's refusals, the image's, 13, 22, 12, 21.
ghost use Rattle.std.specs.Prelude.{◌≡◌};
ghost use Rattle.history.specs.Verdict.{checked, Leaves, Puts};
ghost use Rattle.history.specs.Calls.{check_state, write_state_under, write_state_call};
ghost use Rattle.tables.specs.Plans.{plan_in};

use forms::check_image_under;
use history::Answer;
use kinds::{Element, Kind, kind_in};
use outputs::write_element;
use tables::{Plan, outline, refused_at, refused_by};

// Writes the image with an object's new state and the new position to the front of the output.
pub fn write_state(
    table: &[u8],
    image: &[u8],
    object: u16,
    state: Element,
    position: u32,
    out: &mut [u8],
) -> Answer
    ensures { Leaves (write_state_call table.now image.now object state position)
        out.old result out.new }
{
    put_state(table, image, object, state, position, out).into()
}

// As `write_state`, with a result for its numbers: two lines, as each call is that reads the table first.
fn put_state(
    table: &[u8],
    image: &[u8],
    object: u16,
    state: Element,
    position: u32,
    out: &mut [u8],
) -> Result<u32, Answer>
    ensures { Puts (write_state_call table.now image.now object state position)
        out.old result out.new }
{
    let outline = outline(table)?;
    write_under(outline.plan(), image, object, state, position, out)
}

// Under an accepted table's plan: checks the image, then the state, then the room.
fn write_under(
    plan: Plan<'_>,
    image: &[u8],
    object: u16,
    state: Element,
    position: u32,
    out: &mut [u8],
) -> Result<u32, Answer>
    ensures { Puts (write_state_under (plan_in plan.entry) image.now object state position)
        out.old result out.new }
{
    check_image_under(plan, image)?;
    check_state(plan.kinds, object, state)?;
    let word = elements::word_of(state);
    write_element(plan, image, position, object as usize, word, out)
}

// Checks a state handed in for an object: 13, 22, 12.
fn check_state(kinds: &[Kind], object: u16, state: Element) -> Result<(), Answer>
    ensures { result ≡ checked (check_state kinds.now object state) }
{
    let index = object as usize;
    if kinds.len() <= index {
        return Err(refused_at(13, object));
    }
    let kind = kinds[index];
    if !elements::same_kind(kind_in(state), kind) {
        return Err(refused_at(22, object));
    }
    if let Err(r) = elements::check_element(elements::word_of(state), kind) {
        return Err(refused_by(r, object));
    }
    Ok(())
}
