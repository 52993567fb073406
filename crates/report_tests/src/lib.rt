//! Tests of whole reports: of each kind of measurement, byte by byte against those of an independent program, and with
//! changed bits in the sealed shares.
#![tactic(auto)]

#[cfg(test)]
mod tests;
