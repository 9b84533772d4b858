// The check of an image: 1, 2, 9, 8, then its elements from object 0 up.
ghost use Rattle.std.specs.Prelude.{◌≡◌, ◌≤◌, length};
ghost use Rattle.history.specs.Verdict.{told, checked};
ghost use Rattle.history.specs.Image.{image_version_good, widths, read_words, read_image};
ghost use Rattle.history.specs.Calls.{image_call};
ghost use Rattle.tables.specs.Plans.{plan_in};

use super::objects::widths_of;
use heads::{elements_of, elements_place, is_under, is_whole};
use history::Answer;
use tables::{Plan, outline, refused, refused_by};

// Checks an image under its table.
pub fn check_image(table: &[u8], image: &[u8]) -> Answer
    ensures { result ≡ told (image_call table.now image.now) }
{
    read_image(table, image).into()
}

// As `check_image`, with a result for its numbers.
#[tactic(auto, using(crate::proofs::UnderPlan::image_read))]
fn read_image(table: &[u8], image: &[u8]) -> Result<(), Answer>
    ensures { result ≡ checked (image_call table.now image.now) }
{
    let outline = outline(table)?;
    check_image_under(outline.plan(), image)
}

// Checks an image under an accepted table's plan, so that a call with several forms reads the table once.
pub fn check_image_under(plan: Plan<'_>, image: &[u8]) -> Result<(), Answer>
    ensures { result ≡ checked (read_image (plan_in plan.entry) image.now) }
{
    if !is_whole(image, 7) {
        return Err(refused(1));
    }
    if !is_image_version(image[4]) {
        return Err(refused(2));
    }
    if !is_under(image, plan.x, plan.y) {
        return Err(refused(9));
    }
    if image.len() != elements_place(image[4]) + widths_of(plan.kinds) {
        return Err(refused(8));
    }
    check_words(plan, elements_of(image))
}

// Which versions of an image are read: only 1.
fn is_image_version(version: u8) -> bool
    ensures { result ≡ image_version_good version }
{
    version == 1
}

// Checks all objects' elements, in table order.
fn check_words(plan: Plan<'_>, words: &[u8]) -> Result<(), Answer>
    requires { length words.now ≡ widths plan.kinds.now }
    ensures { result ≡ checked (read_words 0 plan.entry.kinds.now words.now) }
{
    let mut at: usize = 0;
    for (i, kind) in plan.kinds.iter().enumerate() {
        if let Err(r) = elements::check_at(words, at, *kind) {
            return Err(refused_by(r, i as u16));
        }
        at += elements::width(*kind);
    }
    Ok(())
}
