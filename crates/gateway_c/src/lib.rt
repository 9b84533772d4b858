// The archive for C: the gateway's calls under the names that the header declares. Each hands its arguments on to the
// function of that name in `gateway` and has its contract.
#![tactic(auto)]

ghost use Rattle.std.specs.Prelude.{◌≡◌};
ghost use Rattle.history.specs.Verdict.{told};
ghost use Rattle.history.specs.Calls.{table_call, image_call, list_call, read_state_call, label_call, difference_call};
ghost use Rattle.history.specs.Calls.{apply_call, join_call, turn_call};
ghost use Rattle.tables.specs.LabelPlaces.{label_told};
ghost use Rattle.panel.specs.Readings.{reading_of};
ghost use Rattle.fields.specs.PlainFields.{plain_of};
ghost use Rattle.fields.specs.Calls.{write_fields_call};
ghost use Rattle.history.specs.Backlog.{backlog_call};
ghost use Rattle.receiver.specs.Receive.{answer_of, output_of, standing_of};
ghost use Rattle.receiver.specs.Backlogs.{progress_of};
ghost use Rattle.listing.specs.Listing.{listing_call};
ghost use Rattle.history.specs.Standing.{tallies_of};
ghost use Rattle.gateway.specs.Slots.{answer_slots, LeavesSlots, read_slots, fields_after, label_slots};
ghost use Rattle.gateway.specs.Slots.{progress_slots};
ghost use Rattle.gateway.specs.Slots.{standing_in};
ghost use Rattle.gateway.specs.Calls.{element_call};

// ---- checks

#[unsafe(no_mangle)]
pub extern "C" fn shefumbari_check_element(
    x: u8,
    y: u8,
    ty: u8,
    element: &[u8],
    answer: &mut [u32; 8],
)
    ensures { answer.new ≡ answer_slots (told (element_call x y ty element.now)) }
{
    gateway::shefumbari_check_element(x, y, ty, element, answer);
}

#[unsafe(no_mangle)]
pub extern "C" fn shefumbari_check_table(table: &[u8], answer: &mut [u32; 8])
    ensures { answer.new ≡ answer_slots (told (table_call table.now)) }
{
    gateway::shefumbari_check_table(table, answer);
}

#[unsafe(no_mangle)]
pub extern "C" fn shefumbari_check_image(table: &[u8], image: &[u8], answer: &mut [u32; 8])
    ensures { answer.new ≡ answer_slots (told (image_call table.now image.now)) }
{
    gateway::shefumbari_check_image(table, image, answer);
}

#[unsafe(no_mangle)]
pub extern "C" fn shefumbari_check_list(table: &[u8], list: &[u8], answer: &mut [u32; 8])
    ensures { answer.new ≡ answer_slots (told (list_call table.now list.now)) }
{
    gateway::shefumbari_check_list(table, list, answer);
}

// ---- states and labels

// The fields are the values that are not reserved, from bit 0 up; the kind is the sixth number.
// A refusal leaves the fields as they were.
#[unsafe(no_mangle)]
pub extern "C" fn shefumbari_read_state(
    table: &[u8],
    image: &[u8],
    object: u16,
    fields: &mut [u32; 32],
    answer: &mut [u32; 8],
)
    ensures fields_after { fields.new
        ≡ fields_after (read_state_call table.now image.now object) fields.old }
    ensures answer_after { answer.new
        ≡ read_slots (plain_of (reading_of (read_state_call table.now image.now object))) }
{
    gateway::shefumbari_read_state(table, image, object, fields, answer);
}

#[unsafe(no_mangle)]
pub extern "C" fn shefumbari_write_state(
    table: &[u8],
    image: &[u8],
    object: u16,
    kind: u32,
    fields: &[u32; 32],
    position: u32,
    out: &mut [u8],
    answer: &mut [u32; 8],
)
    ensures { LeavesSlots
        (write_fields_call table.now image.now object kind fields.now position)
        out.old answer.new out.new }
{
    gateway::shefumbari_write_state(table, image, object, kind, fields, position, out, answer);
}

// The label's first byte in the table and its size are the sixth and the seventh number.
#[unsafe(no_mangle)]
pub extern "C" fn shefumbari_label(table: &[u8], object: u16, answer: &mut [u32; 8])
    ensures { answer.new ≡ label_slots (label_told (label_call table.now object)) }
{
    gateway::shefumbari_label(table, object, answer);
}

// ---- change lists

#[unsafe(no_mangle)]
pub extern "C" fn shefumbari_difference(
    table: &[u8],
    a: &[u8],
    b: &[u8],
    out: &mut [u8],
    answer: &mut [u32; 8],
)
    ensures { LeavesSlots (difference_call table.now a.now b.now)
        out.old answer.new out.new }
{
    gateway::shefumbari_difference(table, a, b, out, answer);
}

#[unsafe(no_mangle)]
pub extern "C" fn shefumbari_apply(
    table: &[u8],
    image: &[u8],
    list: &[u8],
    out: &mut [u8],
    answer: &mut [u32; 8],
)
    ensures { LeavesSlots (apply_call table.now image.now list.now)
        out.old answer.new out.new }
{
    gateway::shefumbari_apply(table, image, list, out, answer);
}

#[unsafe(no_mangle)]
pub extern "C" fn shefumbari_join(
    table: &[u8],
    first: &[u8],
    second: &[u8],
    out: &mut [u8],
    answer: &mut [u32; 8],
)
    ensures { LeavesSlots (join_call table.now first.now second.now)
        out.old answer.new out.new }
{
    gateway::shefumbari_join(table, first, second, out, answer);
}

#[unsafe(no_mangle)]
pub extern "C" fn shefumbari_turn_back(
    table: &[u8],
    list: &[u8],
    out: &mut [u8],
    answer: &mut [u32; 8],
)
    ensures { LeavesSlots (turn_call table.now list.now)
        out.old answer.new out.new }
{
    gateway::shefumbari_turn_back(table, list, out, answer);
}

// The lent standing has the tallies applied, late, gap and other.
#[unsafe(no_mangle)]
pub extern "C" fn shefumbari_receive(
    table: &[u8],
    image: &[u8],
    list: &[u8],
    out: &mut [u8],
    standing: &mut [u32; 4],
    answer: &mut [u32; 8],
)
    ensures answer_after { answer.new
        ≡ answer_slots
        (answer_of table.now image.now list.now out.old) }
    ensures out_after { out.new
        ≡ output_of table.now image.now list.now out.old }
    ensures standing_after { standing.new
        ≡ tallies_of (standing_of table.now image.now list.now out.old
        (standing_in standing.old)) }
{
    gateway::shefumbari_receive(table, image, list, out, standing, answer);
}

// The lists lie end to end. How many were taken is the sixth number.
#[unsafe(no_mangle)]
pub extern "C" fn shefumbari_receive_backlog(
    table: &[u8],
    image: &[u8],
    lists: &[u8],
    out: &mut [u8],
    standing: &mut [u32; 4],
    answer: &mut [u32; 8],
)
    ensures answer_after { answer.new
        ≡ progress_slots
        (progress_of
        (backlog_call table.now image.now lists.now out.old
        (standing_in standing.old))) }
    ensures out_after { out.new
        ≡ (backlog_call table.now image.now lists.now out.old
        (standing_in standing.old)).output }
    ensures standing_after { standing.new
        ≡ tallies_of
        (backlog_call table.now image.now lists.now out.old
        (standing_in standing.old)).standing }
{
    gateway::shefumbari_receive_backlog(table, image, lists, out, standing, answer);
}

// ---- the listing

// The text of a table followed by its image.
#[unsafe(no_mangle)]
pub extern "C" fn shefumbari_listing(input: &[u8], out: &mut [u8], answer: &mut [u32; 8])
    ensures { LeavesSlots (listing_call input.now)
        out.old answer.new out.new }
{
    gateway::shefumbari_listing(input, out, answer);
}
