// The check of the table form.
ghost use Rattle.std.specs.Prelude.{◌≡◌, ◌&&◌, ◌+◌, ◌≤◌, ◌<◌, leb, length, get_or};
ghost use Rattle.history.specs.Verdict.{told, checked, given};
ghost use Rattle.history.specs.Table.{version_good, catalogue_good, label_limit};
ghost use Rattle.history.specs.Calls.{table_call};
ghost use Rattle.heads.specs.Heads.{objects_place};
ghost use Rattle.tables.specs.Places.{check_object_at, hash_at, objects_in};

use super::answers::{refused, refused_at};
use super::labels::check_label_at;
use heads::{byte_at, is_whole, object_count, objects_place};
use history::Answer;

const MOST_OBJECTS: usize = 1024;

const LONGEST_LABEL: usize = 32;

// The check of a table.
pub fn check_table(table: &[u8]) -> Answer
    ensures { result ≡ told (table_call table.now) }
{
    read_table(table).into()
}

// 1, 2, 3, 4, then the entries.
pub fn read_table(table: &[u8]) -> Result<(), Answer>
    ensures { result ≡ checked (table_call table.now) }
{
    if !is_whole(table, 5) {
        return Err(refused(1));
    }
    if !is_table_version(table[4]) {
        return Err(refused(2));
    }
    if !is_catalogue(table[5], table[6]) {
        return Err(refused(3));
    }
    let count = object_count(table);
    if MOST_OBJECTS < count {
        return Err(refused(4));
    }
    check_objects(table, count)
}

// For each entry its check, then 7; at the end 8 (bytes left over). Only earlier entries of the same hash can have the
// same type and label, so only these are searched, the last first, until one is the same. Two entries are compared by
// type, by length, and then by label from the last byte to the first, since the labels of a station begin alike.
// `lasts` has for each hash its last entry, `links` for each entry the one before it of the same hash: each as its
// number plus one, 0 for none. `starts` has for each entry where it begins. `links` and `starts` stay two arrays: one
// of pairs proves as easily, but to fill it takes some 3,800 instructions more a call, above the bar of 16 objects.
// The loops stay `while`s with labels: the search is to be a loop over earlier entries and one over label bytes inside
// the loop over entries, left by a label at the first repeat.
fn check_objects(table: &[u8], count: usize) -> Result<(), Answer>
    requires { (objects_place ≤ length table.now) × (count ≤ 1024) }
    ensures { result ≡ checked (objects_in table.now count) }
{
    let mut lasts = [0u16; 1024];
    let mut links = [0u16; 1024];
    let mut starts = [0u16; 1024];
    let mut k = 0;
    let mut at = objects_place();
    'entries: while k < count {
        let hash = check_object(table, at, k as u16)?;
        let size = entry_size(table, at);
        let mut j = lasts[hash] as usize;
        'earlier: while 0 < j {
            let e = j - 1;
            let was = starts[e] as usize;
            j = links[e] as usize;
            if table[was] != table[at] {
                continue 'earlier;
            }
            if entry_size(table, was) != size {
                continue 'earlier;
            }
            let mut i = size - 1;
            'bytes: while 1 < i {
                if table[was + i] != table[at + i] {
                    continue 'earlier;
                }
                i -= 1;
            }
            break 'entries;
        }
        links[k] = lasts[hash];
        starts[k] = at as u16;
        at = at + size;
        k += 1;
        lasts[hash] = k as u16;
    }
    if k < count {
        return Err(refused_at(7, k as u16));
    }
    if at != table.len() {
        return Err(refused(8));
    }
    Ok(())
}

// How many bytes an entry takes: its type, its label length and its label.
pub fn entry_size(table: &[u8], at: usize) -> usize
    requires { at + 2 ≤ length table.now }
    ensures { (result ≡ 2 + get_or table.now (at + 1) 0) × (result < 258) }
{
    2 + byte_at(table, at + 1)
}

// The hash of an entry that passes, except for repeats: 8 (two bytes missing), 5, 6 (length), 8 (label cut), 6 (bytes).
fn check_object(table: &[u8], at: usize, object: u16) -> Result<usize, Answer>
    requires { (objects_place ≤ length table.now) × (at ≤ length table.now) }
    ensures { result ≡ given (λ next. hash_at table.now at) (check_object_at table.now at object) }
{
    let left = table.len() - at;
    if left < 2 {
        return Err(refused(8));
    }
    if !elements::is_carried(table[5], table[at]) {
        return Err(refused_at(5, object));
    }
    let size = byte_at(table, at + 1);
    if !is_size(table[4], size) {
        return Err(refused_at(6, object));
    }
    if left - 2 < size {
        return Err(refused(8));
    }
    check_label_at(table, at, size).ok_or(refused_at(6, object))
}

// The version byte of a table that can be read.
fn is_table_version(version: u8) -> bool
    ensures { result ≡ version_good version }
{
    version == 1
}

// The catalogue versions that are carried: 1.0 and 3.0.
pub fn is_catalogue(x: u8, y: u8) -> bool
    ensures { result ≡ catalogue_good x y }
{
    match x {
        1 => return y == 0,
        3 => return y == 0,
        _ => return false,
    }
}

// The longest label that a version allows.
fn label_limit(version: u8) -> usize
    ensures { result ≡ label_limit version }
{
    LONGEST_LABEL
}

// A label has at least one byte, and no more than its version's limit.
fn is_size(version: u8, size: usize) -> bool
    ensures { result ≡ leb 1 size && leb size (label_limit version) }
{
    if size < 1 {
        return false;
    }
    size <= label_limit(version)
}
