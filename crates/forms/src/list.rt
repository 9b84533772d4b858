// The check of a change list: 1, 2, 9, then entry by entry 8, 13, 14, 8, old element, new element, 15; last 8.
ghost use Rattle.std.specs.Prelude.{◌≡◌, ◌+◌, ◌≤◌, ◌<◌, length, drop};
ghost use Rattle.history.specs.Verdict.{told, checked, given};
ghost use Rattle.history.specs.Changes.{read_number, read_elements, check_entry, read_entries, read_list};
ghost use Rattle.history.specs.Calls.{list_call};
ghost use Rattle.tables.specs.Plans.{plan_in};
ghost use Rattle.forms.specs.ListEntries.{passed};

use heads::{entries_of, entry_count, is_under, is_whole};
use history::Answer;
use kinds::Kind;
use tables::{Plan, outline, refused, refused_at, refused_by};

// Checks a change list under its table.
pub fn check_list(table: &[u8], list: &[u8]) -> Answer
    ensures { result ≡ told (list_call table.now list.now) }
{
    read_list(table, list).into()
}

// As `check_list`, with a result for its numbers.
fn read_list(table: &[u8], list: &[u8]) -> Result<(), Answer>
    ensures { result ≡ checked (list_call table.now list.now) }
{
    let outline = outline(table)?;
    check_list_under(outline.plan(), list)
}

// Checks a change list under an accepted table's plan, so that a call with several forms reads the table once.
pub fn check_list_under(plan: Plan<'_>, list: &[u8]) -> Result<(), Answer>
    ensures { result ≡ checked (read_list (plan_in plan.entry) list.now) }
{
    if !is_whole(list, 13) {
        return Err(refused(1));
    }
    if list[4] != 1 {
        return Err(refused(2));
    }
    if !is_under(list, plan.x, plan.y) {
        return Err(refused(9));
    }
    check_entries(plan, entry_count(list), entries_of(list))
}

// Checks `count` entries, which must fill the bytes exactly.
fn check_entries(plan: Plan<'_>, count: usize, entries: &[u8]) -> Result<(), Answer>
    ensures { result ≡ checked (read_entries plan.entry.kinds.now 0 count entries.now) }
{
    let mut at: usize = 0;
    let mut low: usize = 0;
    for _ in 0..count {
        let entry = check_entry(plan, low, entries, at)?;
        low = entry.object + 1;
        at = entry.next;
    }
    if at != entries.len() {
        return Err(refused(8));
    }
    Ok(())
}

// An entry that is accepted: its object, its elements and the place after it.
#[derive(Clone, Copy)]
pub struct Passed {
    pub object: usize,
    pub old: u32,
    pub new: u32,
    pub next: usize,
}

// Checks the entry at a place, whose object must not be below `low`: its number, 14, its elements, 15.
fn check_entry(plan: Plan<'_>, low: usize, entries: &[u8], at: usize) -> Result<Passed, Answer>
    requires { at ≤ length entries.now }
    ensures { result ≡ given (passed (at + 2)) (check_entry plan.entry.kinds.now low (drop at entries.now)) }
{
    let object = check_number(plan.kinds, entries, at)?;
    let index = object as usize;
    if index < low {
        return Err(refused_at(14, object));
    }
    let entry = check_elements(plan.kinds[index], object, entries, at + 2)?;
    if entry.old == entry.new {
        return Err(refused_at(15, object));
    }
    Ok(entry)
}

// Checks the object number at a place: 8, 13.
fn check_number(kinds: &[Kind], entries: &[u8], at: usize) -> Result<u16, Answer>
    requires { at ≤ length entries.now }
    ensures { result ≡ given (λ i. i) (read_number kinds.now (drop at entries.now)) }
{
    if entries.len() - at < 2 {
        return Err(refused(8));
    }
    let number = octets::get_at(entries, at, 2);
    let object = number as usize;
    if kinds.len() <= object {
        return Err(refused_at(13, number as u16));
    }
    Ok(number as u16)
}

// Checks the old and the new element from a place on: 8, the old, the new.
fn check_elements(kind: Kind, object: u16, entries: &[u8], at: usize) -> Result<Passed, Answer>
    requires { at ≤ length entries.now }
    ensures { result ≡ given (passed at) (read_elements object kind (drop at entries.now)) }
{
    let width = elements::width(kind);
    if entries.len() - at < width + width {
        return Err(refused(8));
    }
    let middle = at + width;
    let old = octets::get_at(entries, at, width);
    let new = octets::get_at(entries, middle, width);
    if let Err(r) = elements::check_element(old, kind) {
        return Err(refused_by(r, object));
    }
    if let Err(r) = elements::check_element(new, kind) {
        return Err(refused_by(r, object));
    }
    Ok(Passed {
        object: object as usize,
        old,
        new,
        next: middle + width,
    })
}
