// Bytes and numbers: small functions that read a part of a slice or fill a part that the caller lends.
// The bottom floor: it uses no other crate, knows no form, and never touches a byte outside the part it is given.
#![tactic(auto)]

ghost use Rattle.std.specs.Prelude.{◌≡◌, ◌+◌, ◌≤◌, ◌<◌, ◌^◌, length, take, drop};
ghost use Rattle.octets.specs.Octets.{bytes, number};

// The number in at most four bytes.
pub fn get(part: &[u8]) -> u32
    requires { length part.now ≤ 4 }
    ensures { (result ≡ number part.now) × (result < 256 ^ length part.now) }
{
    get_at(part, 0, part.len())
}

// The number in `width` bytes, at most four, from a place on.
// The four steps are spelled out, since a loop takes more instructions.
pub fn get_at(s: &[u8], at: usize, width: usize) -> u32
    requires { (at + width ≤ length s.now) × (width ≤ 4) }
    ensures { (result ≡ number (take width (drop at s.now))) × (result < 256 ^ width) }
{
    if width == 0 {
        return 0;
    }
    let one = get_next(s, at, 0, 0);
    if width == 1 {
        return one;
    }
    let two = get_next(s, at, 1, one);
    if width == 2 {
        return two;
    }
    let three = get_next(s, at, 2, two);
    if width == 3 {
        return three;
    }
    get_next(s, at, 3, three)
}

// The number in i + 1 bytes, from that in the first i.
fn get_next(s: &[u8], at: usize, i: usize, value: u32) -> u32
    requires { (at + i < length s.now) × (i < 4) × (value ≡ number (take i (drop at s.now)))
        × (value < 256 ^ i) }
    ensures { (result ≡ number (take (i + 1) (drop at s.now))) × (result < 256 ^ (i + 1)) }
{
    value * 256 + s[at + i] as u32
}

// Fills the part, at most four bytes, with the number's lowest bytes; a number too large for it loses its highest ones.
// It works from the last byte to the first, with the four steps spelled out as in `get_at`.
pub fn put(part: &mut [u8], value: u32)
    requires { length part.old ≤ 4 }
    ensures { part.new ≡ bytes (length part.old) value }
{
    let size = part.len();
    if size < 1 {
        return;
    }
    part[size - 1] = (value % 256) as u8;
    if size < 2 {
        return;
    }
    let above = value / 256;
    part[size - 2] = (above % 256) as u8;
    if size < 3 {
        return;
    }
    let higher = above / 256;
    part[size - 3] = (higher % 256) as u8;
    if size < 4 {
        return;
    }
    let highest = higher / 256;
    part[size - 4] = (highest % 256) as u8;
}

// Fills the part with the bytes given, which are as many. A loop, since `copy_from_slice` has the archive for C ask for
// `memmove` from outside.
pub fn copy(part: &mut [u8], from: &[u8])
    requires { length part.old ≡ length from.now }
    ensures { part.new ≡ from.now }
{
    for i in 0..from.len() {
        part[i] = from[i];
    }
}
