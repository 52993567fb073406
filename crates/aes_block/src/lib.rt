//! The block cipher AES-128 (FIPS 197). `Key::new` expands a key once, and `Key::encrypt` encrypts
//! one block under it; a contract sees a `Key` as its 16 bytes, and says that the block is the
//! standard's. Decryption and longer keys are left out: CMAC and a counter stream need neither.
#![tactic(auto)]

mod columns;
mod key;
mod schedule;
mod tables;
#[cfg(test)]
mod tests;

pub use key::Key;
