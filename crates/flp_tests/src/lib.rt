//! Tests of polynomials, circuits and proofs at both fields, and a circuit of any number of calls for them and for the
//! benchmark. Expected values were computed by an independent program of the same formulas in Python.
#![tactic(auto)]

#[cfg(test)]
mod tests;
mod wide;

pub use wide::Wide;
