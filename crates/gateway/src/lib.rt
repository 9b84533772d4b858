// The gateway: the calls as C sees them; `gateway_c` exports them. Each wraps one call, which checks its input, and
// fills eight numbers: code, object, bit, length, a place kept for a value, then what the call adds, then zeros. It
// keeps nothing.
#![tactic(auto)]

mod calls;
mod slots;

ghost use Rattle.std.specs.Prelude.{◌≡◌};
ghost use Rattle.history.specs.Verdict.{told};
ghost use Rattle.history.specs.Calls.{table_call, image_call, list_call, read_state_call, label_call, difference_call};
ghost use Rattle.history.specs.Calls.{apply_call, join_call, turn_call};
ghost use Rattle.tables.specs.LabelPlaces.{label_told};
ghost use Rattle.panel.specs.Readings.{reading_of};
ghost use Rattle.fields.specs.PlainFields.{plain_of};
ghost use Rattle.fields.specs.Calls.{write_fields_call};
ghost use Rattle.history.specs.Backlog.{backlog_call};
ghost use Rattle.receiver.specs.Receive.{answer_of, output_of, standing_of};
ghost use Rattle.receiver.specs.Backlogs.{progress_of};
ghost use Rattle.listing.specs.Listing.{listing_call};
ghost use Rattle.history.specs.Standing.{tallies_of};
ghost use Rattle.gateway.specs.Slots.{answer_slots, LeavesSlots, read_slots, fields_after, label_slots};
ghost use Rattle.gateway.specs.Slots.{progress_slots};
ghost use Rattle.gateway.specs.Slots.{standing_in};
ghost use Rattle.gateway.specs.Calls.{element_call};

use calls::check_element_alone;
use fields::{read_fields, write_fields};
use forms::{check_image, check_list};
use receiver::{backlog_received, received};
use slots::{answer_slots, label_slots, progress_slots, read_slots, standing_in, tallies_of};
use tables::check_table;

// ---- checks

#[tactic(auto, using(history::proofs::OutputLaws::check_tells))]
pub fn shefumbari_check_element(x: u8, y: u8, ty: u8, element: &[u8], answer: &mut [u32; 8])
    ensures { answer.new ≡ answer_slots (told (element_call x y ty element.now)) }
{
    *answer = answer_slots(check_element_alone(x, y, ty, element).into());
}

pub fn shefumbari_check_table(table: &[u8], answer: &mut [u32; 8])
    ensures { answer.new ≡ answer_slots (told (table_call table.now)) }
{
    *answer = answer_slots(check_table(table));
}

pub fn shefumbari_check_image(table: &[u8], image: &[u8], answer: &mut [u32; 8])
    ensures { answer.new ≡ answer_slots (told (image_call table.now image.now)) }
{
    *answer = answer_slots(check_image(table, image));
}

pub fn shefumbari_check_list(table: &[u8], list: &[u8], answer: &mut [u32; 8])
    ensures { answer.new ≡ answer_slots (told (list_call table.now list.now)) }
{
    *answer = answer_slots(check_list(table, list));
}

// ---- states and labels

// The fields are the values that are not reserved, from bit 0 up; the kind is the sixth number.
// A refusal leaves the fields as they were.
pub fn shefumbari_read_state(
    table: &[u8],
    image: &[u8],
    object: u16,
    fields: &mut [u32; 32],
    answer: &mut [u32; 8],
)
    ensures fields_after { fields.new
        ≡ fields_after (read_state_call table.now image.now object) fields.old }
    ensures answer_after { answer.new
        ≡ read_slots (plain_of (reading_of (read_state_call table.now image.now object))) }
{
    match read_fields(table, image, object) {
        Ok(plain) => {
            *answer = read_slots(plain.kind);
            let shown = plain.fields;
            *fields = shown;
        }
        Err(refusal) => {
            *answer = answer_slots(refusal);
        }
    }
}

pub fn shefumbari_write_state(
    table: &[u8],
    image: &[u8],
    object: u16,
    kind: u32,
    fields: &[u32; 32],
    position: u32,
    out: &mut [u8],
    answer: &mut [u32; 8],
)
    ensures { LeavesSlots
        (write_fields_call table.now image.now object kind fields.now position)
        out.old answer.new out.new }
{
    *answer = answer_slots(write_fields(table, image, object, kind, *fields, position, out));
}

// The label's first byte in the table and its size are the sixth and the seventh number.
pub fn shefumbari_label(table: &[u8], object: u16, answer: &mut [u32; 8])
    ensures { answer.new ≡ label_slots (label_told (label_call table.now object)) }
{
    *answer = label_slots(table, object);
}

// ---- change lists

pub fn shefumbari_difference(
    table: &[u8],
    a: &[u8],
    b: &[u8],
    out: &mut [u8],
    answer: &mut [u32; 8],
)
    ensures { LeavesSlots (difference_call table.now a.now b.now)
        out.old answer.new out.new }
{
    *answer = answer_slots(changes::difference(table, a, b, out));
}

pub fn shefumbari_apply(
    table: &[u8],
    image: &[u8],
    list: &[u8],
    out: &mut [u8],
    answer: &mut [u32; 8],
)
    ensures { LeavesSlots (apply_call table.now image.now list.now)
        out.old answer.new out.new }
{
    *answer = answer_slots(changes::apply(table, image, list, out));
}

pub fn shefumbari_join(
    table: &[u8],
    first: &[u8],
    second: &[u8],
    out: &mut [u8],
    answer: &mut [u32; 8],
)
    ensures { LeavesSlots (join_call table.now first.now second.now)
        out.old answer.new out.new }
{
    *answer = answer_slots(changes::join(table, first, second, out));
}

pub fn shefumbari_turn_back(table: &[u8], list: &[u8], out: &mut [u8], answer: &mut [u32; 8])
    ensures { LeavesSlots (turn_call table.now list.now)
        out.old answer.new out.new }
{
    *answer = answer_slots(changes::turn_back(table, list, out));
}

// The lent standing has the tallies applied, late, gap and other. This and the next are alike but for the call: C has a
// name for each.
pub fn shefumbari_receive(
    table: &[u8],
    image: &[u8],
    list: &[u8],
    out: &mut [u8],
    standing: &mut [u32; 4],
    answer: &mut [u32; 8],
)
    ensures answer_after { answer.new
        ≡ answer_slots
        (answer_of table.now image.now list.now out.old) }
    ensures out_after { out.new
        ≡ output_of table.now image.now list.now out.old }
    ensures standing_after { standing.new
        ≡ tallies_of (standing_of table.now image.now list.now out.old
        (standing_in standing.old)) }
{
    let taken = received(table, image, list, out, standing_in(*standing));
    *standing = tallies_of(taken.standing);
    *answer = answer_slots(taken.answer);
}

// The lists lie end to end. How many were taken is the sixth number.
pub fn shefumbari_receive_backlog(
    table: &[u8],
    image: &[u8],
    lists: &[u8],
    out: &mut [u8],
    standing: &mut [u32; 4],
    answer: &mut [u32; 8],
)
    ensures answer_after { answer.new
        ≡ progress_slots
        (progress_of
        (backlog_call table.now image.now lists.now out.old
        (standing_in standing.old))) }
    ensures out_after { out.new
        ≡ (backlog_call table.now image.now lists.now out.old
        (standing_in standing.old)).output }
    ensures standing_after { standing.new
        ≡ tallies_of
        (backlog_call table.now image.now lists.now out.old
        (standing_in standing.old)).standing }
{
    let advance = backlog_received(table, image, lists, out, standing_in(*standing));
    *standing = tallies_of(advance.standing);
    *answer = progress_slots(advance.progress);
}

// ---- the listing

// The text of a table followed by its image.
pub fn shefumbari_listing(input: &[u8], out: &mut [u8], answer: &mut [u32; 8])
    ensures { LeavesSlots (listing_call input.now)
        out.old answer.new out.new }
{
    *answer = answer_slots(listing::list_into(input, out));
}
