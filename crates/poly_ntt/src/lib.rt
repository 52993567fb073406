//! The fast transform between the coefficients of a polynomial and its values at the powers of a root of one, in place:
//! decimation in frequency. [`inverse`] meets the very contract of plain interpolation, so the layers above take either.
#![tactic(auto)]

mod butterflies;
mod digits;
mod transform;

pub use transform::{inverse, ntt};
