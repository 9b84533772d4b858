// The receiver: applies a list, or a whole backlog of lists, and counts each answer in a standing of four tallies that
// is lent to the call and updated there. The work is done by value in `received` and `backlog_received`; `receive` and
// `receive_backlog` only store the standing that these give. It uses changes and the checks below it, and keeps
// nothing.
#![tactic(auto)]

mod backlog;

ghost use Rattle.std.specs.Prelude.{◌≡◌};
ghost use Rattle.history.specs.Standing.{fresh, one_more, counted};
ghost use Rattle.history.specs.Backlog.{backlog_call};
ghost use Rattle.receiver.specs.Receive.{taken_of, answer_of, output_of, standing_of};
ghost use Rattle.receiver.specs.Backlogs.{progress_of, Advances};

use backlog::{backlog_under, none_taken};
use history::{Answer, Standing};
use tables::outline;

// What `received` gives: the answer of the application, and the standing that counts it. No `Result`: the standing
// counts a refusal too.
#[derive(Clone, Copy)]
pub struct Taken {
    pub answer: Answer,
    pub standing: Standing,
}

// What a backlog gives: the answer, and how many lists were taken, also where one is refused.
#[derive(Clone, Copy)]
pub struct Progress {
    pub answer: Answer,
    pub taken: usize,
}

// What `backlog_received` gives: that, and the standing that counts each list.
#[derive(Clone, Copy)]
pub struct Advance {
    pub progress: Progress,
    pub standing: Standing,
}

// The standing of a receiver that has received nothing.
#[tactic(auto, unfolding(history::specs::Standing::fresh))]
pub fn fresh() -> Standing
    ensures { result ≡ fresh }
{
    Standing {
        applied: 0,
        late: 0,
        gap: 0,
        other: 0,
    }
}

// Applies the list to the image, and counts the answer in the lent standing. Like `receive_backlog` it only stores what
// the call by value gives, which the paper asks of both.
pub fn receive(
    table: &[u8],
    image: &[u8],
    list: &[u8],
    out: &mut [u8],
    standing: &mut Standing,
) -> Answer
    ensures { (result ≡ answer_of table.now image.now list.now out.old)
        × ((out.new ≡ output_of table.now image.now list.now out.old)
        × (standing.new
        ≡ standing_of table.now image.now list.now out.old
        standing.old)) }
{
    let r = received(table, image, list, out, *standing);
    *standing = r.standing;
    r.answer
}

// As `receive`, with the standing taken and given back by value.
pub fn received(
    table: &[u8],
    image: &[u8],
    list: &[u8],
    out: &mut [u8],
    standing: Standing,
) -> Taken
    ensures { (result ≡ taken_of table.now image.now list.now out.old standing)
        × (out.new
        ≡ output_of table.now image.now list.now out.old) }
{
    let answer = changes::apply(table, image, list, out);
    Taken {
        answer,
        standing: count(standing, answer.code),
    }
}

// Receives the lists that lie end to end in `lists`, in turn up to the first that is refused, and counts each in the
// lent standing. The output gets the image after the lists taken, also where a list is refused.
pub fn receive_backlog(
    table: &[u8],
    image: &[u8],
    lists: &[u8],
    out: &mut [u8],
    standing: &mut Standing,
) -> Progress
    ensures { (result ≡ progress_of
        (backlog_call table.now image.now lists.now out.old
        standing.old))
        × ((out.new
        ≡ (backlog_call table.now image.now lists.now out.old
        standing.old).output)
        × (standing.new
        ≡ (backlog_call table.now image.now lists.now out.old
        standing.old).standing)) }
{
    let r = backlog_received(table, image, lists, out, *standing);
    *standing = r.standing;
    r.progress
}

// As `receive_backlog`, with the standing taken and given back by value.
pub fn backlog_received(
    table: &[u8],
    image: &[u8],
    lists: &[u8],
    out: &mut [u8],
    standing: Standing,
) -> Advance
    ensures { Advances
        (backlog_call table.now image.now lists.now out.old standing) result
        out.new }
{
    match outline(table) {
        Ok(outline) => backlog_under(outline.plan(), image, lists, out, standing),
        Err(answer) => none_taken(answer, standing),
    }
}

// Adds one to the tally of the answer's code: 0 is applied, 16 late, 17 gap, any other is other.
#[tactic(auto, unfolding(history::specs::Standing::counted))]
fn count(standing: Standing, code: u8) -> Standing
    ensures { result ≡ counted code standing }
{
    match code {
        0 => Standing {
            applied: one_more(standing.applied),
            ..standing
        },
        16 => Standing {
            late: one_more(standing.late),
            ..standing
        },
        17 => Standing {
            gap: one_more(standing.gap),
            ..standing
        },
        _ => Standing {
            other: one_more(standing.other),
            ..standing
        },
    }
}

// Adds one; a full tally stays full.
fn one_more(tally: u32) -> u32
    ensures { result ≡ one_more tally }
{
    tally.saturating_add(1)
}
