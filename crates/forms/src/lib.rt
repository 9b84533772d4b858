// The floor of forms: checks an image or a change list under its table. It uses tables, heads and elements;
// it writes no output and keeps nothing.
#![tactic(auto)]

mod image;
mod list;
mod objects;

pub use image::{check_image, check_image_under};
pub use list::{check_list, check_list_under};
pub use objects::{place_of, widths_of};
