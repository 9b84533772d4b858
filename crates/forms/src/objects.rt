// Widths and places of objects. They take kinds and their bound, no plan, since callers also have parts of its kinds.
ghost use Rattle.std.specs.Prelude.{◌≡◌, ◌≤◌, length};
ghost use Rattle.history.specs.Image.{widths};
ghost use Rattle.forms.specs.Places.{place_in};

use kinds::Kind;

// How many bytes the elements of all objects take.
pub fn widths_of(kinds: &[Kind]) -> usize
    requires { length kinds.now ≤ 1024 }
    ensures { (result ≡ widths kinds.now) × (result ≤ 4096) }
{
    let mut sum: usize = 0;
    for kind in kinds {
        sum += elements::width(*kind);
    }
    sum
}

// How many bytes the elements before an object's take.
pub fn place_of(kinds: &[Kind], object: usize) -> usize
    requires { (object ≤ length kinds.now) × (length kinds.now ≤ 1024) }
    ensures { (result ≡ place_in kinds.now object) × (result ≤ 4096) }
{
    widths_of(&kinds[..object])
}
