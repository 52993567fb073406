//! The numbers modulo 2^128 - 7 * 2^66 + 1: `Field128`, one of the two fields of the measurement
//! functions. The layer above uses its calls of the trait `Field` of field_laws, whose laws hold
//! here by the instance, and say each result as a number (`results_are_modular`).
#![tactic(auto)]

mod element;
mod field;
mod numbers;
mod product;

pub use element::Field128;
