// A list or an image written to the front of a lent output, and an image changed in place. The size is known before the
// first byte is written, so an output without room (21) stays as it was. It checks no form and refuses nothing else.
#![tactic(auto)]

mod image;
mod list;

pub use image::{put_element, take_entries, write_element, write_image};
pub use list::write_list;
