//! The numbers modulo 2^64 - 2^32 + 1: `Field64`, one of the two fields of the measurement
//! functions. The layer above uses its calls of the trait `Field` of field_laws, whose laws hold
//! here by the instance, and say each result as a number (`results_are_modular`).
#![tactic(auto)]

mod element;
mod field;
mod numbers;

pub use element::Field64;
