// A table: its object count, and where its objects begin.
ghost use Rattle.std.specs.Prelude.{◌≡◌, ◌≤◌, length};
ghost use Rattle.heads.specs.Heads.{count_in, objects_place};

// How many objects it says it has. Only its check tells whether they are there.
pub fn object_count(table: &[u8]) -> usize
    requires { objects_place ≤ length table.now }
    ensures { result ≡ count_in table.now }
{
    octets::get_at(table, 7, 2) as usize
}

// Where the first object's entry begins.
pub fn objects_place() -> usize
    ensures { result ≡ objects_place }
{
    9
}
