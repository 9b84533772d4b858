// A backlog under an accepted table: the lists that lie end to end in one slice are taken in turn into a copy of the
// image, up to the first that is refused.
ghost use Rattle.std.specs.Prelude.{◌≡◌, []};
ghost use Rattle.history.specs.Form.{forms_in};
ghost use Rattle.history.specs.Image.{AcceptedImage};
ghost use Rattle.history.specs.Backlog.{nothing_taken, take_lists, backlog_under};
ghost use Rattle.tables.specs.Plans.{plan_in};
ghost use Rattle.receiver.specs.Backlogs.{advance_of, Advances};

use super::{Advance, Progress, count};
use changes::take_under;
use forms::check_image_under;
use heads::front_form;
use history::{Answer, Standing};
use tables::{Plan, put_front, with_length, written};

// Checks the image, and that the output has room for it. Then its copy at the front of the output takes the lists.
pub fn backlog_under(
    plan: Plan<'_>,
    image: &[u8],
    lists: &[u8],
    out: &mut [u8],
    standing: Standing,
) -> Advance
    ensures { Advances
        (backlog_under (plan_in plan.entry) image.now lists.now out.old
        standing) result out.new }
{
    if let Err(answer) = check_image_under(plan, image) {
        return none_taken(answer, standing);
    }
    match put_front(out, image) {
        Ok(size) => take_lists(plan, lists, &mut out[..size as usize], standing),
        Err(answer) => none_taken(answer, standing),
    }
}

// Nothing is taken or counted.
pub fn none_taken(answer: Answer, standing: Standing) -> Advance
    ensures { result ≡ advance_of (nothing_taken [] standing answer) }
{
    Advance {
        progress: Progress { answer, taken: 0 },
        standing,
    }
}

// Takes the lists in turn into the image, in place, and counts each.
// Bytes that hold no list in full are refused as a list is.
fn take_lists(plan: Plan<'_>, lists: &[u8], image: &mut [u8], standing: Standing) -> Advance
    requires accepted_image { AcceptedImage (plan_in plan) image.old }
    ensures { Advances
        (take_lists (plan_in plan.entry) image.old (forms_in lists.now) standing 0) result
        image.new }
{
    let size = image.len() as u32;
    let mut counted = standing;
    let mut taken: usize = 0;
    let mut rest = lists;
    while !rest.is_empty() {
        let list = front_form(rest);
        if let Err(answer) = take_under(plan, list, image) {
            return Advance {
                progress: Progress {
                    answer: with_length(answer, size),
                    taken,
                },
                standing: count(counted, answer.code),
            };
        }
        counted = count(counted, 0);
        taken += 1;
        rest = &rest[list.len()..];
    }
    Advance {
        progress: Progress {
            answer: written(size),
            taken,
        },
        standing: counted,
    }
}
