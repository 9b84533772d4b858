// The operations on accepted forms: only positions and values are left to test, in the paper's
// order, and the room last.
ghost use Rattle.std.specs.Prelude.{◌≡◌, ◌≤◌, length};
ghost use Rattle.history.specs.Verdict.{checked, value_or, Puts};
ghost use Rattle.history.specs.Calls.{difference_under, apply_under, join_under, turn_under};
ghost use Rattle.history.specs.Image.{AcceptedImage};
ghost use Rattle.history.specs.Changes.{AcceptedList};
ghost use Rattle.tables.specs.Plans.{plan_in};

use heads::{elements_of, entries_of, entry_count, from_of, position_of, to_of};
use history::Answer;
use steps::Walk;
use tables::{Plan, refused, refused_at};
use walks::Size;

// Writes the list from image a to image b.
pub fn write_difference(plan: Plan<'_>, a: &[u8], b: &[u8], out: &mut [u8]) -> Result<u32, Answer>
    requires accepted_image { AcceptedImage (plan_in plan) a.now }
    requires accepted_image_2 { AcceptedImage (plan_in plan) b.now }
    ensures { Puts (difference_under (plan_in plan.entry) a.now b.now)
        out.old result out.new }
{
    let from = position_of(a);
    let to = position_of(b);
    let old = elements_of(a);
    let new = elements_of(b);
    let size = walks::measure_difference(plan, old, new);
    outputs::write_list(Walk::Difference, plan, from, to, old, new, size, out)
}

// Writes the image after the list: 16, 17, 18.
pub fn write_applied(
    plan: Plan<'_>,
    image: &[u8],
    list: &[u8],
    out: &mut [u8],
) -> Result<u32, Answer>
    requires accepted_image { AcceptedImage (plan_in plan) image.now }
    requires accepted_list { AcceptedList (plan_in plan) list.now }
    ensures { Puts (apply_under (plan_in plan.entry) image.now list.now)
        out.old result out.new }
{
    check_applies(plan, image, list)?;
    let to = to_of(list);
    outputs::write_image(plan, image, to, entries_of(list), out)
}

// Takes the list into the image, in place: 16, 17, 18.
pub fn take_applied(plan: Plan<'_>, list: &[u8], image: &mut [u8]) -> Result<(), Answer>
    requires accepted_image { AcceptedImage (plan_in plan) image.old }
    requires accepted_list { AcceptedList (plan_in plan) list.now }
    ensures { (result ≡ checked (apply_under (plan_in plan.entry) image.old list.now))
        × (image.new
        ≡ value_or image.old
        (apply_under (plan_in plan.entry) image.old list.now)) }
{
    check_applies(plan, image, list)?;
    outputs::take_entries(image, plan, to_of(list), entries_of(list));
    Ok(())
}

// Writes the join of two lists: 19, 20.
pub fn write_joined(
    plan: Plan<'_>,
    first: &[u8],
    second: &[u8],
    out: &mut [u8],
) -> Result<u32, Answer>
    requires accepted_list { AcceptedList (plan_in plan) first.now }
    requires accepted_list_2 { AcceptedList (plan_in plan) second.now }
    ensures { Puts (join_under (plan_in plan.entry) first.now second.now)
        out.old result out.new }
{
    let end = to_of(first);
    let start = from_of(second);
    if end != start {
        return Err(refused(19));
    }
    let one = entries_of(first);
    let other = entries_of(second);
    match walks::measure_join(plan, one, other) {
        Ok(size) => {
            let from = from_of(first);
            let to = to_of(second);
            outputs::write_list(Walk::Join, plan, from, to, one, other, size, out)
        }
        Err(object) => Err(refused_at(20, object as u16)),
    }
}

// Writes the list turned back. That is as long as the list, so nothing is measured;
// there is no second form, so that slice is empty.
pub fn write_turned(plan: Plan<'_>, list: &[u8], out: &mut [u8]) -> Result<u32, Answer>
    requires accepted_list { AcceptedList (plan_in plan) list.now }
    ensures { Puts (turn_under (plan_in plan.entry) list.now)
        out.old result out.new }
{
    let from = to_of(list);
    let to = from_of(list);
    let entries = entries_of(list);
    let size = Size {
        count: entry_count(list),
        bytes: entries.len(),
    };
    outputs::write_list(Walk::Turn, plan, from, to, entries, &[], size, out)
}

// Whether the list applies to the image: 16, 17, 18.
fn check_applies(plan: Plan<'_>, image: &[u8], list: &[u8]) -> Result<(), Answer>
    requires accepted_image { AcceptedImage (plan_in plan) image.now }
    requires accepted_list { AcceptedList (plan_in plan) list.now }
    ensures { result ≡ checked (apply_under (plan_in plan.entry) image.now list.now) }
{
    let position = position_of(image);
    let from = from_of(list);
    if from < position {
        return Err(refused(16));
    }
    if position < from {
        return Err(refused(17));
    }
    match walks::find_unfit(plan, entries_of(list), elements_of(image)) {
        Some(object) => Err(refused_at(18, object as u16)),
        None => Ok(()),
    }
}
