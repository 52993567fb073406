//! The script of a load: measurements of one sum task, and the collections of the two batches in which they fall.
//!
//! `load_script` gives the text, whose definition spells its lines one by one; `loads_are_scripts` says that the text is
//! read as these lines. The layer above prints it, so that a big run has an input that needs no file.
#![tactic(auto)]

mod laws;
mod script;

pub use laws::loads_are_scripts;
pub use script::{MOST_MEASUREMENTS, load_script};

#[cfg(test)]
mod tests;
