//! The circuit of vectors: a measurement is a list of numbers of a few bits each, and each call tests one bit. It meets
//! the trait of flp_circuits, with the laws of its lists.
#![tactic(auto)]

mod laws;
mod vector;

pub use laws::{lists_are_kept, only_lists_stay_valid};
pub use vector::{MOST_BITS, MOST_INPUT, MOST_NUMBERS, VectorCircuit};
