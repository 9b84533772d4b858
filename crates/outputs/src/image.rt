// An image changed in place: a list's entries are taken into it, or one element is put; then its position is set. An
// image for an output is first copied to its front, and the copy is changed.
ghost use Rattle.std.specs.Prelude.{◌≡◌, ◌+◌, ◌≤◌, ◌<◌, length};
ghost use Rattle.history.specs.Verdict.{done, Puts};
ghost use Rattle.history.specs.Image.{widths};
ghost use Rattle.heads.specs.Heads.{image_head, elements_in};
ghost use Rattle.heads.specs.Written.{with_elements};
ghost use Rattle.outputs.specs.Outputs.{image_after, image_with};

use forms::place_of;
use history::Answer;
use tables::{Plan, put_front};

// Writes the image after the entries, at position `to`, to the front of the output.
pub fn write_image(
    plan: Plan<'_>,
    image: &[u8],
    to: u32,
    entries: &[u8],
    out: &mut [u8],
) -> Result<u32, Answer>
    requires image_len { length image.now ≡ image_head image.now + widths plan.kinds.now }
    ensures { Puts (done (image_after plan.entry.kinds.now to entries.now image.now))
        out.old result out.new }
{
    let size = put_front(out, image)?;
    take_entries(&mut out[..size as usize], plan, to, entries);
    Ok(size)
}

// Writes the image with a new element for one object, at position `to`, to the front of the output.
pub fn write_element(
    plan: Plan<'_>,
    image: &[u8],
    to: u32,
    object: usize,
    word: u32,
    out: &mut [u8],
) -> Result<u32, Answer>
    requires object_in_bounds { object < length plan.kinds.now }
    requires image_len { length image.now ≡ image_head image.now + widths plan.kinds.now }
    ensures { Puts (done (image_with plan.entry.kinds.now to object word image.now))
        out.old result out.new }
{
    let size = put_front(out, image)?;
    put_element(&mut out[..size as usize], plan, to, object, word);
    Ok(size)
}

// Takes a list's entries, and the position that it reaches, into the image.
pub fn take_entries(image: &mut [u8], plan: Plan<'_>, to: u32, entries: &[u8])
    requires image_len { length image.old ≡ image_head image.old + widths plan.kinds.now }
    ensures { image.new
        ≡ image_after plan.entry.kinds.now to entries.now image.old }
{
    let place = heads::image_head(&image[..]);
    let size = image.len();
    walks::renew(&mut image[place..size], plan, entries);
    finish(image, to);
}

// Puts an object's element, and a position, into the image.
pub fn put_element(image: &mut [u8], plan: Plan<'_>, to: u32, object: usize, word: u32)
    requires object_in_bounds { object < length plan.kinds.now }
    requires image_len { length image.old ≡ image_head image.old + widths plan.kinds.now }
    ensures { image.new ≡ image_with plan.entry.kinds.now to object word image.old }
{
    let place = heads::image_head(&image[..]);
    let at = place + place_of(plan.kinds, object);
    let end = at + elements::width(plan.kinds[object]);
    octets::put(&mut image[at..end], word);
    finish(image, to);
}

// Sets the position, as every change of an image does last.
fn finish(image: &mut [u8], to: u32)
    requires { image_head image.old ≤ length image.old }
    ensures { image.new ≡ with_elements image.old to (elements_in image.old) }
{
    heads::put_position(image, to);
}
