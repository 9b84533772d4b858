// The call that only C has: the check of an element by itself.
ghost use Rattle.std.specs.Prelude.{◌≡◌};
ghost use Rattle.history.specs.Verdict.{checked};
ghost use Rattle.gateway.specs.Calls.{element_call};

use history::Answer;
use tables::{is_catalogue, refused, refused_by};

// Checks an element of a type under a catalogue. It names no object.
pub fn check_element_alone(x: u8, y: u8, ty: u8, element: &[u8]) -> Result<(), Answer>
    ensures { result ≡ checked (element_call x y ty element.now) }
{
    if !is_catalogue(x, y) {
        return Err(refused(3));
    }
    if !elements::is_carried(x, ty) {
        return Err(refused(5));
    }
    let kind = elements::kind_of(x, ty);
    if element.len() != elements::width(kind) {
        return Err(refused(8));
    }
    let finding = elements::check_element(octets::get(element), kind);
    if let Err(r) = finding {
        return Err(refused_by(r, 65535));
    }
    Ok(())
}
