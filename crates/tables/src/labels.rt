// Labels: bytes 33 to 126; some byte is a colon, and the first colon has a byte before and after it. The pass that
// tests the bytes also makes the hash of the entry's type and label, by which repeats are found.
ghost use Rattle.std.specs.Prelude.{◌≡◌, ◌+◌, ◌≤◌, ◌<◌, length, get_or, take, drop};
ghost use Rattle.history.specs.Table.{printable, first_colon, label_good};
ghost use Rattle.tables.specs.Hashes.{hash_from, hash_of, hashed};

use heads::byte_at;

// The hash continued from `first`, if all bytes are 33 to 126.
fn check_bytes(first: usize, label: &[u8]) -> Option<usize>
    requires { first < 1024 }
    ensures { result ≡ hashed (printable label.now) (hash_from first label.now) }
{
    let mut hash = first;
    for byte in label {
        let byte = *byte as usize;
        if byte < 33 {
            return None;
        }
        if 126 < byte {
            return None;
        }
        hash = (hash * 9 + byte) % 1024;
    }
    Some(hash)
}

// The place of the first colon; the length where there is none: an `Option` takes 8,000 instructions more a table of
// 1,024 objects, above its bar.
fn first_colon(label: &[u8]) -> usize
    ensures { (result ≡ first_colon label.now) × (result ≤ length label.now) }
{
    label
        .iter()
        .position(|byte| *byte == b':')
        .unwrap_or(label.len())
}

fn check_label(first: usize, label: &[u8]) -> Option<usize>
    requires { first < 1024 }
    ensures { result ≡ hashed (label_good label.now) (hash_from first label.now) }
{
    let colon = first_colon(label);
    if colon < 1 {
        return None;
    }
    if label.len() <= colon + 1 {
        return None;
    }
    check_bytes(first, label)
}

// Checks the label of the entry at `at`. The hash starts from the entry's type.
pub fn check_label_at(table: &[u8], at: usize, size: usize) -> Option<usize>
    requires { at + 2 + size ≤ length table.now }
    ensures { result ≡ hashed (label_good (take size (drop (at + 2) table.now)))
        (hash_of (get_or table.now at 0) (take size (drop (at + 2) table.now))) }
{
    let from = at + 2;
    let to = from + size;
    check_label(byte_at(table, at), &table[from..to])
}
