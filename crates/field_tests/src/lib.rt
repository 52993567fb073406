//! Tests of the two fields through their trait, each call at both types. Expected values were
//! computed by Python, with its whole numbers and `pow`.
#![tactic(auto)]

#[cfg(test)]
mod cases;
#[cfg(test)]
mod tests;
