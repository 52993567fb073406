//! Tests of the drawing at whole fields: at both fields of the product, and at a small field in which
//! numbers are skipped so often that the bound on them shows. `SmallField` serves these and other tests alone.
#![tactic(auto)]

mod element;
mod field;
#[cfg(test)]
mod tests;

pub use element::SmallField;
