//! Tests of Prio3's steps over the circuits of its three kinds, at both fields and at a small field at which drawings
//! are spent and query points are roots. Expected bytes, lengths and tags were computed by an independent program of
//! the same formulas in Python.
#![tactic(auto)]

#[cfg(test)]
mod tests;
