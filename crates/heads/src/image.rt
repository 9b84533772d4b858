// An image: its position, and its elements.
ghost use Rattle.std.specs.Prelude.{◌≡◌, ◌≤◌, length};
ghost use Rattle.heads.specs.Heads.{elements_place, image_head, position_in, elements_in};

// Where the elements begin in an image of this version.
pub fn elements_place(version: u8) -> usize
    ensures { (result ≡ elements_place version) × (result ≤ 16) }
{
    11
}

// Where they begin in this image, from its version byte.
pub fn image_head(image: &[u8]) -> usize
    requires { image_head image.now ≤ length image.now }
    ensures { (result ≡ image_head image.now) × (result ≤ 16) }
{
    elements_place(image[4])
}

// The image's position.
pub fn position_of(image: &[u8]) -> u32
    requires { image_head image.now ≤ length image.now }
    ensures { result ≡ position_in image.now }
{
    octets::get_at(image, 7, 4)
}

// The elements of all objects, end to end: all that follows the head.
pub fn elements_of(image: &[u8]) -> &[u8]
    requires { image_head image.now ≤ length image.now }
    ensures { result.now ≡ elements_in image.now }
{
    let place = image_head(image);
    &image[place..]
}
