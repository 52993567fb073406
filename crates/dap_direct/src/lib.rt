//! The direct path: what a script prints, with both halves of each report opened and prepared in one place and their out
//! shares added batch by batch, without messages or journals. The program uses `printed_text`, which gives the plain
//! model's text.
#![tactic(auto)]

mod accepted;
mod batch;
mod collect;
mod fault;
mod judge;
mod known;
mod offer;
mod offered;
mod prepared;
mod printed;
mod state;
mod step;
mod sums;
mod told;

pub use fault::RunFault;
pub use printed::printed_text;

#[cfg(test)]
mod tests;
