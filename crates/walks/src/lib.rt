// The loops over the objects, for each operation on change lists: from object to object, with a cursor into each of two
// forms. Loops over lists jump over objects that no list names. A difference and an application require an image's
// elements to be exactly as long as the objects need; entries may be any bytes. It refuses nothing and knows no form's
// head; the caller has checked the forms.
#![tactic(auto)]

ghost use Rattle.std.specs.Prelude.{◌≡◌, ◌<◌, [], length, IfOk, IfErr, IfSome, IfNone};
ghost use Rattle.history.specs.Image.{widths};
ghost use Rattle.walks.specs.Walks.{walk_bytes, ElementsLong, Asked, Measured, misfit, unfit, renewal};

use steps::Walk;
use tables::Plan;

// How many entries a list has, and how many bytes they take.
#[derive(Clone, Copy)]
pub struct Size {
    pub count: usize,
    pub bytes: usize,
}

// ---- a list measured

// The size of the list from the elements of one image to those of another.
pub fn measure_difference(plan: Plan<'_>, old: &[u8], new: &[u8]) -> Size
    requires elements_long { ElementsLong plan.kinds.now old.now new.now }
    ensures { Measured Walk.Difference plan.entry.kinds.now old.now new.now result.count
        result.bytes }
{
    let mut count: usize = 0;
    let mut bytes: usize = 0;
    let mut at: usize = 0;
    for kind in plan.kinds {
        let width = elements::width(*kind);
        let before = octets::get_at(old, at, width);
        let after = octets::get_at(new, at, width);
        let differs = before != after;
        count += steps::count_if(differs);
        bytes += steps::size_if(differs, width);
        at += width;
    }
    Size { count, bytes }
}

// The size of the join of two lists; or the lowest object on which they do not agree, found in the same pass.
pub fn measure_join(plan: Plan<'_>, first: &[u8], second: &[u8]) -> Result<Size, usize>
    ensures agree { IfOk result (λ size. (misfit Walk.Join 0 plan.entry.kinds.now first.now second.now
        ≡ length plan.entry.kinds.now)
        × Measured Walk.Join plan.entry.kinds.now first.now second.now size.count size.bytes) }
    ensures lowest { IfErr result (λ object. (object ≡ misfit Walk.Join 0 plan.entry.kinds.now first.now second.now)
        × (object < length plan.entry.kinds.now)) }
{
    let mut count: usize = 0;
    let mut bytes: usize = 0;
    let mut near: usize = 0;
    let mut far: usize = 0;
    let mut i: usize = 0;
    // `while` here and below: `next` jumps to the object that a list names, and a `for` can't jump
    while i < plan.kinds.len() {
        let width = elements::width(plan.kinds[i]);
        let one = steps::look_at(first, near, i, width);
        let other = steps::look_at(second, far, i, width);
        if !steps::meet_at(one, other) {
            return Err(i);
        }
        let kept = steps::join_names(one, other);
        count += steps::count_if(kept);
        bytes += steps::size_if(kept, width);
        near += steps::size_if(one.named, width);
        far += steps::size_if(other.named, width);
        i = steps::next(i + 1, plan.kinds.len(), first, near, second, far);
    }
    Ok(Size { count, bytes })
}

// ---- a list written

// Fills the part with the entries of the walk's changes.
pub fn put_changes(part: &mut [u8], walk: Walk, plan: Plan<'_>, first: &[u8], second: &[u8])
    requires asked { Asked walk plan.kinds.now first.now second.now }
    requires part_len { length part.old ≡ length (walk_bytes walk 0 plan.kinds.now first.now second.now) }
    ensures { part.new
        ≡ walk_bytes walk 0 plan.entry.kinds.now first.now second.now }
{
    // no closure: of one that holds a plan nothing is inferred, so each call would spell it out
    match walk {
        Walk::Difference => put_difference(part, plan, first, second),
        Walk::Join => put_joined(part, plan, first, second),
        Walk::Turn => put_turned(part, plan, first),
    }
}

// The entries from the elements of one image to those of another.
fn put_difference(part: &mut [u8], plan: Plan<'_>, old: &[u8], new: &[u8])
    requires elements_long { ElementsLong plan.kinds.now old.now new.now }
    requires part_len { length part.old ≡ length (walk_bytes Walk.Difference 0 plan.kinds.now old.now new.now) }
    ensures { part.new
        ≡ walk_bytes Walk.Difference 0 plan.entry.kinds.now old.now new.now }
{
    let mut at: usize = 0;
    let mut place: usize = 0;
    for (i, kind) in plan.kinds.iter().enumerate() {
        let width = elements::width(*kind);
        let before = octets::get_at(old, place, width);
        let after = octets::get_at(new, place, width);
        let change = steps::differ(before, after);
        let end = at + steps::span(width, change);
        steps::put_change(&mut part[at..end], i as u32, width, change);
        at = end;
        place += width;
    }
}

// The entries of the join of two lists.
fn put_joined(part: &mut [u8], plan: Plan<'_>, first: &[u8], second: &[u8])
    requires part_len { length part.old ≡ length (walk_bytes Walk.Join 0 plan.kinds.now first.now second.now) }
    ensures { part.new
        ≡ walk_bytes Walk.Join 0 plan.entry.kinds.now first.now second.now }
{
    let mut at: usize = 0;
    let mut near: usize = 0;
    let mut far: usize = 0;
    let mut i: usize = 0;
    while i < plan.kinds.len() {
        let width = elements::width(plan.kinds[i]);
        let one = steps::look_at(first, near, i, width);
        let other = steps::look_at(second, far, i, width);
        let change = steps::join_change(one, other);
        let end = at + steps::span(width, change);
        steps::put_change(&mut part[at..end], i as u32, width, change);
        at = end;
        near += steps::size_if(one.named, width);
        far += steps::size_if(other.named, width);
        i = steps::next(i + 1, plan.kinds.len(), first, near, second, far);
    }
}

// The entries of the list turned back; there is no second form.
fn put_turned(part: &mut [u8], plan: Plan<'_>, entries: &[u8])
    requires part_len { length part.old ≡ length (walk_bytes Walk.Turn 0 plan.kinds.now entries.now []) }
    ensures { part.new ≡ walk_bytes Walk.Turn 0 plan.entry.kinds.now entries.now [] }
{
    let mut at: usize = 0;
    let mut entry_at: usize = 0;
    let mut i: usize = 0;
    while i < plan.kinds.len() {
        let width = elements::width(plan.kinds[i]);
        let said = steps::change_at(entries, entry_at, i, width);
        let change = steps::back(said);
        let end = at + steps::span(width, change);
        steps::put_change(&mut part[at..end], i as u32, width, change);
        at = end;
        entry_at += steps::span(width, said);
        i = steps::first_named(entries, entry_at, i + 1, plan.kinds.len());
    }
}

// ---- a list taken into an image

// The lowest object whose element is not its entry's old one.
pub fn find_unfit(plan: Plan<'_>, entries: &[u8], elements: &[u8]) -> Option<usize>
    requires elements_len { length elements.now ≡ widths plan.kinds.now }
    ensures fit { IfNone result (unfit 0 plan.entry.kinds.now entries.now elements.now ≡ length plan.entry.kinds.now) }
    ensures lowest { IfSome result (λ object. (object ≡ unfit 0 plan.entry.kinds.now entries.now elements.now)
        × (object < length plan.entry.kinds.now)) }
{
    let mut at: usize = 0;
    let mut entry_at: usize = 0;
    let mut i: usize = 0;
    while i < plan.kinds.len() {
        let width = elements::width(plan.kinds[i]);
        let end = at + width;
        let change = steps::change_at(entries, entry_at, i, width);
        if !steps::fits(change, octets::get_at(elements, at, width)) {
            return Some(i);
        }
        entry_at += steps::span(width, change);
        let after = i + 1;
        i = steps::first_named(entries, entry_at, after, plan.kinds.len());
        at = end + forms::widths_of(&plan.kinds[after..i]);
    }
    None
}

// Writes each entry's new element over the object's, in place.
pub fn renew(part: &mut [u8], plan: Plan<'_>, entries: &[u8])
    requires part_len { length part.old ≡ widths plan.kinds.now }
    ensures { part.new ≡ renewal 0 plan.entry.kinds.now entries.now part.old }
{
    let mut at: usize = 0;
    let mut entry_at: usize = 0;
    let mut i: usize = 0;
    while i < plan.kinds.len() {
        let width = elements::width(plan.kinds[i]);
        let end = at + width;
        let change = steps::change_at(entries, entry_at, i, width);
        steps::put_new(&mut part[at..end], change);
        entry_at += steps::span(width, change);
        let after = i + 1;
        i = steps::first_named(entries, entry_at, after, plan.kinds.len());
        at = end + forms::widths_of(&plan.kinds[after..i]);
    }
}
