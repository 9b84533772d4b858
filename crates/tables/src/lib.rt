// The floor of tables: the check of a table against the meaning in `history`, what the other forms are read by (X, Y
// and each object's kind), a label's place, and the answers that all calls return. It uses heads and elements, and
// keeps nothing. It writes an output only in `put_front`, with bytes that the caller has ready.
#![tactic(auto)]

mod answers;
mod labels;
mod outlines;
mod place;
mod plan;
mod table;

pub use answers::{
    accepted, put_front, refused, refused_at, refused_by, short, with_length, written,
};
pub use outlines::{Outline, Plan};
pub use place::{LabelAt, label_place};
pub use plan::outline;
pub use table::{check_table, is_catalogue};
