// The floor of states in an image: reads one object's state, or writes one together with the image's new position. It
// uses outputs to write the image, and forms and tables to check. Nothing is written before every check has passed and
// the size is known.
#![tactic(auto)]

mod place;
mod read;
mod write;

pub use read::{answer_of, read_state};
pub use write::write_state;
