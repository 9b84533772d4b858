// A state as plain numbers: its kind's number, and the values of its fields that are not reserved, from bit 0 up, then
// zeros. It is for callers that can't hold a state, such as C. It reads and writes through `panel`, and checks only the
// numbers itself.
#![tactic(auto)]

mod by_rows;

ghost use Rattle.std.specs.Prelude.{◌≡◌};
ghost use Rattle.kinds.specs.Kinds.{rows_of, find_by_number};
ghost use Rattle.history.specs.Verdict.{told, Leaves};
ghost use Rattle.history.specs.Calls.{read_state_call};
ghost use Rattle.panel.specs.Readings.{reading_of};
ghost use Rattle.fields.specs.PlainFields.{shown_plain, plain_of, values_in, check_named};
ghost use Rattle.fields.specs.Calls.{write_fields_call, state_refused};

use by_rows::{check_named, show_rows, take_rows};
use history::Answer;
use kinds::{Element, Kind};
use panel::{read_state, write_state};
use rows::Refusal;
use tables::{refused_at, refused_by};

// A state: its kind's number, how many fields are not reserved, and their values, then zeros, as C takes them.
#[derive(Clone, Copy)]
pub struct Plain {
    pub kind: u32,
    pub count: usize,
    pub fields: [u32; 32],
}

// Reads the state of an object in an image, as numbers.
#[tactic(auto, unfolding(crate::specs::PlainFields::plain_of))]
pub fn read_fields(table: &[u8], image: &[u8], object: u16) -> Result<Plain, Answer>
    ensures { result ≡ plain_of (reading_of (read_state_call table.now image.now object)) }
{
    read_state(table, image, object).map(shown_plain)
}

// Writes the image with an object's new state, handed in as numbers, and the new position to the front of the output.
// Each refusal is `refuse_state`'s, so a `Result` within would be no plainer.
pub fn write_fields(
    table: &[u8],
    image: &[u8],
    object: u16,
    number: u32,
    fields: [u32; 32],
    position: u32,
    out: &mut [u8],
) -> Answer
    ensures { Leaves (write_fields_call table.now image.now object number fields position)
        out.old result out.new }
{
    let Some(kind) = find_kind(number) else {
        return refuse_state(table, image, object, number, Refusal { code: 22, bit: 255 });
    };
    let values = values_in(fields, kind);
    let finding = check_values(values, kind);
    if let Err(r) = finding {
        return refuse_state(table, image, object, number, r);
    }
    write_state(
        table,
        image,
        object,
        kinds::element_of(kind, values),
        position,
        out,
    )
}

#[tactic(auto, unfolding(crate::specs::PlainFields::shown_plain))]
fn shown_plain(element: Element) -> Plain
    ensures { result ≡ shown_plain element }
{
    let kind = kinds::kind_in(element);
    let shown = show_rows(kinds::values_of(element), elements::rows_of(kind));
    let fields = shown.fields;
    Plain {
        kind: elements::layout_number(kind) as u32,
        count: shown.count,
        fields,
    }
}

// The values of all of a kind's rows, from the fields handed in: 0 for reserved rows.
fn values_in(fields: [u32; 32], kind: Kind) -> [u32; 24]
    ensures { result ≡ values_in kind fields }
{
    take_rows(fields, elements::rows_of(kind))
}

// Refuses the first value that has no named case, with 11.
fn check_values(values: [u32; 24], kind: Kind) -> Result<(), Refusal>
    ensures { result ≡ check_named (rows_of kind) values }
{
    check_named(values, elements::rows_of(kind))
}

// The kind with a number, if there is one.
fn find_kind(number: u32) -> Option<Kind>
    ensures { result ≡ find_by_number number }
{
    let Ok(number) = u8::try_from(number) else {
        return None;
    };
    kinds::find_by_number(number)
}

// The answer where something is refused of a state handed in: table, image, 13 and 22 come before it.
fn refuse_state(table: &[u8], image: &[u8], object: u16, number: u32, found: Refusal) -> Answer
    ensures { result ≡ told (state_refused table.now image.now object number found) }
{
    match read_fields(table, image, object) {
        Err(answer) => answer,
        Ok(was) if was.kind != number => refused_at(22, object),
        Ok(_) => refused_by(found, object),
    }
}
