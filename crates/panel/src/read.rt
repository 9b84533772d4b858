// Reading an object's state: the table's refusals, the image's, 13.
ghost use Rattle.std.specs.Prelude.{◌≡◌};
ghost use Rattle.history.specs.Calls.{read_state_under, read_state_call};
ghost use Rattle.tables.specs.Plans.{plan_in};
ghost use Rattle.panel.specs.Readings.{reading_of, answer_in};

use super::place::word_at;
use forms::check_image_under;
use heads::elements_of;
use history::Answer;
use kinds::Element;
use tables::{Plan, outline, refused_at};

// A reading's four numbers: code 0 where there is a state.
pub fn answer_of(reading: Result<Element, Answer>) -> Answer
    ensures { result ≡ answer_in reading }
{
    reading.map(|_| 0).into()
}

// Reads the state of an object in an image, under its table: two lines, as each call is that reads the table first.
pub fn read_state(table: &[u8], image: &[u8], object: u16) -> Result<Element, Answer>
    ensures { result ≡ reading_of (read_state_call table.now image.now object) }
{
    let outline = outline(table)?;
    read_under(outline.plan(), image, object)
}

// Under an accepted table's plan: checks the image, then the object's number.
fn read_under(plan: Plan<'_>, image: &[u8], object: u16) -> Result<Element, Answer>
    ensures { result ≡ reading_of (read_state_under (plan_in plan.entry) image.now object) }
{
    check_image_under(plan, image)?;
    let index = object as usize;
    if plan.kinds.len() <= index {
        return Err(refused_at(13, object));
    }
    let word = word_at(plan, elements_of(image), index);
    Ok(elements::state_of(word, plan.kinds[index]))
}
