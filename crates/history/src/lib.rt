// The meaning of the product: definitions in specs/, laws in proofs/.
// The only code is the types that the definitions use, and the four numbers made of a step's result.
#![tactic(auto)]

mod answers;

// The four numbers that every call returns; `specs/Verdict.antt` says what they are.
#[derive(Clone, Copy)]
pub struct Answer {
    pub code: u8,
    pub object: u16,
    pub bit: u8,
    pub length: u32,
}

// A receiver's four tallies: lists applied, late (16), with a gap (17), and all other answers.
#[derive(Clone, Copy)]
pub struct Standing {
    pub applied: u32,
    pub late: u32,
    pub gap: u32,
    pub other: u32,
}

// What a change list says of one object: nothing, or its old and its new element. Not an `Option`: the definitions and
// laws speak of these two cases by their names, and a pair in `Some` would not say which element is which.
#[derive(Clone, Copy)]
pub enum Change {
    Keep,
    Swap(u32, u32),
}
