// The floor of elements: which types are carried, the check of an element, and a state as a number and back. It reads
// the rows of a kind's layout, or only takes a glance where that is enough, and names no kind but the one it gives
// where there is none.
// It knows no image and writes nothing.
#![tactic(auto)]

mod types;

ghost use Rattle.std.specs.Prelude.{◌≡◌, cond, ◌+◌, ◌≤◌, length, take, drop, Ok, Err};
ghost use Rattle.octets.specs.Octets.{number};
ghost use Rattle.rows.specs.Rows.{rows_from};
ghost use Rattle.rows.specs.Values.{code_at, check_rows, values_read};
ghost use Rattle.kinds.specs.Kinds.{layout_no, width_of, rows_of};
ghost use Rattle.elements.specs.Elements.{carried, kind_of, kind_numbered, same_kind, dat_rule, element_check};
ghost use Rattle.elements.specs.Elements.{state_read, word_of};

use kinds::{Element, Kind};
use rows::{Refusal, Span};
use types::find_by_type;

// Checks an element's number: the fields from bit 0 up, then the rule of DAT. Its rows are read only if a glance
// doesn't show that it is accepted.
pub fn check_element(word: u32, kind: Kind) -> Result<(), Refusal>
    ensures { result ≡ element_check kind word }
{
    if kinds::shows_listed(word, kind) && !is_stale(word, kind) {
        return Ok(());
    }
    check_by_rows(word, kind)
}

// Checks the element whose bytes begin at a place.
pub fn check_at(s: &[u8], at: usize, kind: Kind) -> Result<(), Refusal>
    requires { at + width_of kind ≤ length s.now }
    ensures { result ≡ element_check kind (number (take (width_of kind) (drop at s.now))) }
{
    let glance = kinds::glance_at(s, at, kind);
    if glance.listed && !is_stale(glance.word, kind) {
        return Ok(());
    }
    check_by_rows(glance.word, kind)
}

// The state of a number. If a field is refused, it is the state of zeros, so that no caller needs a case for it.
pub fn state_of(word: u32, kind: Kind) -> Element
    ensures { result ≡ state_read kind word }
{
    kinds::element_of(kind, read_values(word, kind))
}

// The number of a state.
pub fn word_of(element: Element) -> u32
    ensures { result ≡ word_of element }
{
    let kind = kinds::kind_in(element);
    let values = kinds::values_of(element);
    rows::compose_rows(values, rows_of(kind))
}

// Whether a type is carried under a catalogue's X.
#[tactic(auto, unfolding(crate::specs::Elements::carried))]
pub fn is_carried(x: u8, ty: u8) -> bool
    ensures { result ≡ carried x ty }
{
    find_by_type(x, ty).is_some()
}

// The kind of a type under a catalogue's X; if it is not carried, a kind that means nothing. No option, since its
// definition and laws are total.
#[tactic(auto, unfolding(crate::specs::Elements::kind_of))]
pub fn kind_of(x: u8, ty: u8) -> Kind
    ensures { result ≡ kind_of x ty }
{
    find_by_type(x, ty).unwrap_or(Kind::Signal)
}

// A kind as its layout's number.
pub fn layout_number(kind: Kind) -> u8
    ensures { result ≡ layout_no kind }
{
    kinds::layout(kind).number
}

// The kind whose layout has this number; if none has, a kind that means nothing, as for `kind_of`.
#[tactic(auto, unfolding(crate::specs::Elements::kind_numbered))]
pub fn kind_numbered(number: u8) -> Kind
    ensures { result ≡ kind_numbered number }
{
    kinds::find_by_number(number).unwrap_or(Kind::Signal)
}

// Whether two kinds are the same.
pub fn same_kind(one: Kind, other: Kind) -> bool
    ensures { result ≡ same_kind one other }
{
    one == other
}

// The rows of a kind's layout.
pub fn rows_of(kind: Kind) -> Span
    ensures { rows_from result.first result.count ≡ rows_of kind }
{
    let layout = kinds::layout(kind);
    Span {
        first: layout.first,
        count: layout.count,
    }
}

// A kind's width in bytes.
pub fn width(kind: Kind) -> usize
    ensures { (result ≡ width_of kind) × (result ≤ 4) }
{
    kinds::layout(kind).bytes
}

// Checks an element's number by its rows, which say which field is refused.
fn check_by_rows(word: u32, kind: Kind) -> Result<(), Refusal>
    ensures { result ≡ element_check kind word }
{
    check_fields(word, kind)?;
    dat_rule(word, kind)
}

// What its rows find of an element's number.
fn check_fields(word: u32, kind: Kind) -> Result<(), Refusal>
    ensures { result ≡ check_rows word (rows_of kind) }
{
    let layout = kinds::layout(kind);
    rows::check_rows(word, layout.number, layout.first)
}

// The values of an element's number; all zeros if a field is refused, as in its definition.
fn read_values(word: u32, kind: Kind) -> [u32; 24]
    ensures { result ≡ values_read word (rows_of kind) }
{
    rows::read_rows(word, rows_of(kind))
}

// The rule of DAT: where bit 0 is DAT and is 0, all other bits must be 0.
fn dat_rule(word: u32, kind: Kind) -> Result<(), Refusal>
    ensures { result ≡ dat_rule kind word }
{
    if is_stale(word, kind) {
        return Err(Refusal { code: 12, bit: 0 });
    }
    Ok(())
}

// Whether that rule is broken.
fn is_stale(word: u32, kind: Kind) -> bool
    ensures { dat_rule kind word ≡ cond result (Err (code_at 12 0)) (Ok tt) }
{
    if word % 2 == 1 {
        return false;
    }
    if word == 0 {
        return false;
    }
    kinds::layout(kind).dat
}
