// Finds an object's element in an image.
ghost use Rattle.std.specs.Prelude.{◌≡◌, take, drop};
ghost use Rattle.octets.specs.Octets.{number};
ghost use Rattle.kinds.specs.Kinds.{width_of};
ghost use Rattle.history.specs.Table.{kind_at};
ghost use Rattle.forms.specs.Places.{place_in, Sized};

use forms::place_of;
use tables::Plan;

// The number of the object's element; `elements` are those of all objects.
pub fn word_at(plan: Plan<'_>, elements: &[u8], object: usize) -> u32
    requires { Sized plan.kinds.now elements.now object }
    ensures { result ≡ number
        (take (width_of (kind_at plan.entry.kinds.now object))
        (drop (place_in plan.entry.kinds.now object) elements.now)) }
{
    let at = place_of(plan.kinds, object);
    octets::get_at(elements, at, elements::width(plan.kinds[object]))
}
