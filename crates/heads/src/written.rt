// What is written before a list's entries, and an image's position.
ghost use Rattle.std.specs.Prelude.{◌≡◌, ◌≤◌, length};
ghost use Rattle.heads.specs.Heads.{image_head, elements_in, entries_place};
ghost use Rattle.heads.specs.Written.{opening, list_head, with_elements};

// Where a list's entries begin.
pub fn entries_place() -> usize
    ensures { (result ≡ entries_place) × (result ≤ 17) }
{
    17
}

// Fills the part with a list's head, for `count` entries of `size` bytes together.
pub fn put_list_head(part: &mut [u8], x: u8, y: u8, from: u32, to: u32, count: u32, size: u32)
    requires { (length part.old ≡ entries_place) × (size ≤ 10240) }
    ensures { part.new ≡ list_head x y from to count size }
{
    put_opening(&mut part[0..7], 13 + size, x, y);
    octets::put(&mut part[7..11], from);
    octets::put(&mut part[11..15], to);
    octets::put(&mut part[15..17], count);
}

// Fills the part with a list's first seven bytes: the length `after`, the version, X and Y.
fn put_opening(part: &mut [u8], after: u32, x: u8, y: u8)
    requires { length part.old ≡ 7 }
    ensures { part.new ≡ opening after x y }
{
    octets::put(&mut part[0..4], after);
    part[4] = 1;
    part[5] = x;
    part[6] = y;
}

// Writes a position into an image; all else stays.
pub fn put_position(image: &mut [u8], position: u32)
    requires { image_head image.old ≤ length image.old }
    ensures { image.new ≡ with_elements image.old position (elements_in image.old) }
{
    octets::put(&mut image[7..11], position);
}
