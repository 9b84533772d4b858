// The calls under an accepted table, known by its plan: each form is checked in the order given,
// then `accepted` decides. The image that `take_under` changes has been accepted before.
ghost use Rattle.std.specs.Prelude.{◌≡◌, ◌≤◌, length};
ghost use Rattle.history.specs.Verdict.{checked, value_or, Puts};
ghost use Rattle.history.specs.Image.{AcceptedImage};
ghost use Rattle.history.specs.Calls.{difference_under, apply_under, join_under, turn_under};
ghost use Rattle.tables.specs.Plans.{plan_in};

use super::accepted::{take_applied, write_applied, write_difference, write_joined, write_turned};
use forms::{check_image_under, check_list_under};
use history::Answer;
use tables::Plan;

// Each of these checks its own forms in its own order, so that no two are one function of another type or constant.

// Checks image a, then image b; then writes the list from a to b.
pub fn difference_under(plan: Plan<'_>, a: &[u8], b: &[u8], out: &mut [u8]) -> Result<u32, Answer>
    ensures { Puts (difference_under (plan_in plan.entry) a.now b.now)
        out.old result out.new }
{
    check_image_under(plan, a)?;
    check_image_under(plan, b)?;
    write_difference(plan, a, b, out)
}

// Checks the image, then the list; then writes the image after the list.
pub fn apply_under(plan: Plan<'_>, image: &[u8], list: &[u8], out: &mut [u8]) -> Result<u32, Answer>
    ensures { Puts (apply_under (plan_in plan.entry) image.now list.now)
        out.old result out.new }
{
    check_image_under(plan, image)?;
    check_list_under(plan, list)?;
    write_applied(plan, image, list, out)
}

// Checks the list, then takes it into the accepted image, in place. A refusal leaves the image as it was.
pub fn take_under(plan: Plan<'_>, list: &[u8], image: &mut [u8]) -> Result<(), Answer>
    requires accepted_image { AcceptedImage (plan_in plan) image.old }
    ensures { (result ≡ checked (apply_under (plan_in plan.entry) image.old list.now))
        × (image.new
        ≡ value_or image.old
        (apply_under (plan_in plan.entry) image.old list.now)) }
{
    check_list_under(plan, list)?;
    take_applied(plan, list, image)
}

// Checks the first list, then the second; then writes their join.
pub fn join_under(
    plan: Plan<'_>,
    first: &[u8],
    second: &[u8],
    out: &mut [u8],
) -> Result<u32, Answer>
    ensures { Puts (join_under (plan_in plan.entry) first.now second.now)
        out.old result out.new }
{
    check_list_under(plan, first)?;
    check_list_under(plan, second)?;
    write_joined(plan, first, second, out)
}

// Checks the list; then writes it turned back.
pub fn turn_under(plan: Plan<'_>, list: &[u8], out: &mut [u8]) -> Result<u32, Answer>
    ensures { Puts (turn_under (plan_in plan.entry) list.now)
        out.old result out.new }
{
    check_list_under(plan, list)?;
    write_turned(plan, list, out)
}
