// A change list: its two positions, its count and its entries.
ghost use Rattle.std.specs.Prelude.{◌≡◌, ◌≤◌, length};
ghost use Rattle.heads.specs.Heads.{from_in, to_in, entry_count_in, entries_place, entries_in};

// The position that it starts from.
pub fn from_of(list: &[u8]) -> u32
    requires { entries_place ≤ length list.now }
    ensures { result ≡ from_in list.now }
{
    octets::get_at(list, 7, 4)
}

// The position that it reaches.
pub fn to_of(list: &[u8]) -> u32
    requires { entries_place ≤ length list.now }
    ensures { result ≡ to_in list.now }
{
    octets::get_at(list, 11, 4)
}

// How many entries it says it has. Only its check tells whether they are there.
pub fn entry_count(list: &[u8]) -> usize
    requires { entries_place ≤ length list.now }
    ensures { result ≡ entry_count_in list.now }
{
    octets::get_at(list, 15, 2) as usize
}

// Its entries: all that follows the head.
pub fn entries_of(list: &[u8]) -> &[u8]
    requires { entries_place ≤ length list.now }
    ensures { result.now ≡ entries_in list.now }
{
    &list[17..]
}
