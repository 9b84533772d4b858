// One object's part in the four operations on change lists: its change is found and written, and the next object is
// found. A difference compares the elements of two images; a join, the entries of two lists. Turning back takes the
// entry of one list; application, an entry and an element. It takes any bytes, refuses nothing and knows no form's
// head.
#![tactic(auto)]

ghost use Rattle.std.specs.Prelude.{◌≡◌, ◌+◌, ◌≤◌, ◌<◌, length, drop};
ghost use Rattle.history.specs.Changes.{differ, fits, meets, joined, back};
ghost use Rattle.steps.specs.Steps.{span, entry_bytes, names, count_if, size_if, said_if, change_at, is_swap, Silent};
ghost use Rattle.steps.specs.Steps.{AllIdle, renewed};

use history::Change;

// The operations that make a list; each is a walk over the objects.
#[derive(Clone, Copy)]
pub enum Walk {
    Difference,
    Join,
    Turn,
}

// Entries come with a place: to a proof `&entries[at..]` is `take .. (drop at entries)`, a step more in each law.

// ---- which object is next; the end where there is none, and no option: there the loops stop, with no test more

// The next object, from the given one on, that either list names; or the end.
pub fn next(
    object: usize,
    end: usize,
    first: &[u8],
    near: usize,
    second: &[u8],
    far: usize,
) -> usize
    requires { (near ≤ length first.now) × (far ≤ length second.now) × (object ≤ end) }
    ensures { AllIdle Walk.Join object result end (drop near first.now) (drop far second.now) }
{
    let one = first_named(first, near, object, end);
    first_named(second, far, object, one)
}

// The object that the entries from a place on name first; the end, if that object is not
// between the given one and the end.
pub fn first_named(entries: &[u8], at: usize, object: usize, end: usize) -> usize
    requires { (at ≤ length entries.now) × (object ≤ end) }
    ensures { Silent object result end (drop at entries.now) }
{
    if entries.len() - at < 2 {
        return end;
    }
    let name = octets::get_at(entries, at, 2) as usize;
    if name < object {
        return end;
    }
    if end < name {
        return end;
    }
    name
}

// ---- what is said of an object

// Whether a list names an object, and where its entry is.
#[derive(Clone, Copy)]
pub struct Said<'a> {
    pub named: bool,
    pub entries: &'a [u8],
    pub at: usize,
    pub width: usize,
    pub ghost inside: { at + size_if named width ≤ length entries.now },
    pub ghost narrow: { width ≤ 4 },
}

// What the entries from a place on say of the object, not read yet.
pub fn look_at(entries: &[u8], at: usize, object: usize, width: usize) -> Said<'_>
    requires { (at ≤ length entries.now) × (width ≤ 4) }
    ensures { (result.named ≡ names object width (drop at entries.now)) × (result.entries.now ≡ entries.now)
        × (result.at ≡ at) × (result.width ≡ width) }
{
    Said {
        named: names(entries, at, object, width),
        entries,
        at,
        width,
    }
}

// Whether the entry at a place is whole and names the object.
pub fn names(entries: &[u8], at: usize, object: usize, width: usize) -> bool
    requires { (at ≤ length entries.now) × (width ≤ 4) }
    ensures { result ≡ names object width (drop at entries.now) }
{
    if entries.len() - at < 2 + (width + width) {
        return false;
    }
    octets::get_at(entries, at, 2) as usize == object
}

// 1 if there is an entry, else 0.
pub fn count_if(named: bool) -> usize
    ensures { (result ≡ count_if named) × (result ≤ 1) }
{
    named as usize
}

// How many bytes the entry takes: its number and two elements, or none.
pub fn size_if(named: bool, width: usize) -> usize
    requires { width ≤ 4 }
    ensures { (result ≡ size_if named width) × (result ≤ 10) }
{
    if !named {
        return 0;
    }
    2 + (width + width)
}

// What the entry says: its old and its new element, or that the object keeps its own.
fn said_if(said: Said<'_>) -> Change
    ensures { result ≡ said_if said.entry.named said.entry.width (drop said.entry.at said.entry.entries.now) }
{
    if !said.named {
        return Change::Keep;
    }
    let middle = said.at + 2;
    let last = middle + said.width;
    Change::Swap(
        octets::get_at(said.entries, middle, said.width),
        octets::get_at(said.entries, last, said.width),
    )
}

// What the entries from a place on say of the object; only the first is looked at.
pub fn change_at(entries: &[u8], at: usize, object: usize, width: usize) -> Change
    requires { (at ≤ length entries.now) × (width ≤ 4) }
    ensures { result ≡ change_at object width (drop at entries.now) }
{
    said_if(look_at(entries, at, object, width))
}

// ---- an object in two lists, where it is known which of them name it:
// elements are read only where they are compared or kept

// Whether the lists agree on the object: if both name it, the first's new must be the second's old.
pub fn meet_at(one: Said<'_>, other: Said<'_>) -> bool
    ensures { result ≡ meets (said_if one.entry.named one.entry.width (drop one.entry.at one.entry.entries.now))
        (said_if other.entry.named other.entry.width (drop other.entry.at other.entry.entries.now)) }
{
    if !one.named {
        return true;
    }
    if !other.named {
        return true;
    }
    let new = octets::get_at(one.entries, one.at + 2 + one.width, one.width);
    let old = octets::get_at(other.entries, other.at + 2, other.width);
    new == old
}

// Whether the join names the object: not if neither list does, nor if both do and the first's old is the second's new.
pub fn join_names(one: Said<'_>, other: Said<'_>) -> bool
    ensures { result ≡ is_swap
        (joined (said_if one.entry.named one.entry.width (drop one.entry.at one.entry.entries.now))
        (said_if other.entry.named other.entry.width (drop other.entry.at other.entry.entries.now))) }
{
    if !one.named {
        return other.named;
    }
    if !other.named {
        return true;
    }
    let old = octets::get_at(one.entries, one.at + 2, one.width);
    let new = octets::get_at(other.entries, other.at + 2 + other.width, other.width);
    old != new
}

// The object's change in the join. In both lists: the first's old and the second's new, dropped if these are equal;
// in one: copied.
pub fn join_change(one: Said<'_>, other: Said<'_>) -> Change
    ensures { result ≡ joined (said_if one.entry.named one.entry.width (drop one.entry.at one.entry.entries.now))
        (said_if other.entry.named other.entry.width (drop other.entry.at other.entry.entries.now)) }
{
    if !one.named {
        return said_if(other);
    }
    if !other.named {
        return said_if(one);
    }
    let before = octets::get_at(one.entries, one.at + 2, one.width);
    let after = octets::get_at(other.entries, other.at + 2 + other.width, other.width);
    differ(before, after)
}

// Fills the part with the object's entry; for a kept object the part is empty.
pub fn put_change(part: &mut [u8], object: u32, width: usize, change: Change)
    requires { (length part.old ≡ span width change) × (width ≤ 4) }
    ensures { part.new ≡ entry_bytes object width change }
{
    if let Change::Swap(old, new) = change {
        let middle = 2 + width;
        let end = middle + width;
        octets::put(&mut part[0..2], object);
        octets::put(&mut part[2..middle], old);
        octets::put(&mut part[middle..end], new);
    }
}

// Fills the part with the new element; a kept object's part stays as it is.
pub fn put_new(part: &mut [u8], change: Change)
    requires { length part.old ≤ 4 }
    ensures { part.new ≡ renewed change part.old }
{
    if let Change::Swap(_, new) = change {
        octets::put(part, new);
    }
}

// ---- one object's change

// How many bytes a change's entry takes.
pub fn span(width: usize, change: Change) -> usize
    requires { width ≤ 4 }
    ensures { (result ≡ span width change) × (result ≤ 10) }
{
    if let Change::Keep = change {
        return 0;
    }
    2 + (width + width)
}

// The change from old to new; equal elements are kept.
pub fn differ(old: u32, new: u32) -> Change
    ensures { result ≡ differ old new }
{
    if old != new {
        return Change::Swap(old, new);
    }
    Change::Keep
}

// The change turned back: old and new are exchanged.
pub fn back(change: Change) -> Change
    ensures { result ≡ back change }
{
    let Change::Swap(old, new) = change else {
        return Change::Keep;
    };
    Change::Swap(new, old)
}

// Whether the element is the change's old one; a kept object fits any.
pub fn fits(change: Change, element: u32) -> bool
    ensures { result ≡ fits change element }
{
    let Change::Swap(old, _) = change else {
        return true;
    };
    old == element
}
