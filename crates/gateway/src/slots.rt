// Answers, label places, backlogs and tallies as arrays of numbers, in C's order. No `From` can say it: none of the
// types is this crate's, and those that have them know no C.
ghost use Rattle.std.specs.Prelude.{◌≡◌};
ghost use Rattle.history.specs.Verdict.{unnamed};
ghost use Rattle.history.specs.Calls.{label_call};
ghost use Rattle.tables.specs.LabelPlaces.{label_told};
ghost use Rattle.history.specs.Standing.{tallies_of};
ghost use Rattle.gateway.specs.Slots.{slots, answer_slots, label_slots, capped, progress_slots, standing_in};

use history::{Answer, Standing};
use receiver::Progress;
use tables::{accepted, label_place};

// An answer's four numbers, then zeros.
#[tactic(auto, unfolding(crate::specs::Slots::answer_slots))]
pub fn answer_slots(answer: Answer) -> [u32; 8]
    ensures { result ≡ answer_slots answer }
{
    slots(answer, 0, 0)
}

// Success, and the kind of the state that was read.
pub fn read_slots(kind: u32) -> [u32; 8]
    ensures { result ≡ slots (unnamed 0 0) kind 0 }
{
    slots(accepted(), kind, 0)
}

// Success, and a label's offset and size; or the refusal.
pub fn label_slots(table: &[u8], object: u16) -> [u32; 8]
    ensures { result ≡ label_slots (label_told (label_call table.now object)) }
{
    match label_place(table, object) {
        Ok(label) => slots(accepted(), label.offset as u32, label.size as u32),
        Err(answer) => answer_slots(answer),
    }
}

// The answer of a backlog, and how many lists were taken.
#[tactic(auto, unfolding(crate::specs::Slots::progress_slots))]
pub fn progress_slots(progress: Progress) -> [u32; 8]
    ensures { result ≡ progress_slots progress }
{
    slots(progress.answer, capped(progress.taken), 0)
}

// A count in 32 bits; the highest number if it has more.
fn capped(count: usize) -> u32
    ensures { result ≡ capped count }
{
    u32::try_from(count).unwrap_or(u32::MAX)
}

// An answer's four numbers, a place kept for a value, two more numbers, and a zero.
fn slots(answer: Answer, sixth: u32, seventh: u32) -> [u32; 8]
    ensures { result ≡ slots answer sixth seventh }
{
    [
        answer.code as u32,
        answer.object as u32,
        answer.bit as u32,
        answer.length,
        0,
        sixth,
        seventh,
        0,
    ]
}

// A standing from its tallies.
pub fn standing_in(tallies: [u32; 4]) -> Standing
    ensures { result ≡ standing_in tallies }
{
    Standing {
        applied: tallies[0],
        late: tallies[1],
        gap: tallies[2],
        other: tallies[3],
    }
}

// A standing's tallies, in the same order.
pub fn tallies_of(standing: Standing) -> [u32; 4]
    ensures { result ≡ tallies_of standing }
{
    [
        standing.applied,
        standing.late,
        standing.gap,
        standing.other,
    ]
}
