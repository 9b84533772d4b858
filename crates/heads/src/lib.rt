// Where each part of a form is in its bytes. Only this crate knows the offsets of the parts after X and Y. It checks no
// contents and keeps nothing.
#![tactic(auto)]

mod image;
mod list;
mod table;
mod whole;
mod written;

pub use image::{elements_of, elements_place, image_head, position_of};
pub use list::{entries_of, entry_count, from_of, to_of};
pub use table::{object_count, objects_place};
pub use whole::{byte_at, front_form, is_under, is_whole};
pub use written::{entries_place, put_list_head, put_position};
