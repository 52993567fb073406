//! The journal of a part of a node, a lane or a front, with its records as values beside it: an append of a block goes
//! on through stops of the disk, of which it bears 63 since the opening, and behind each restart stands an Open record.
//! It knows no kind of record. The layers above hold a `PartJournal` and settle what hangs on a block by its `fate`.
#![tactic(auto)]

mod fault;
mod journal;
mod shelf;
mod spelling;
mod tries;

pub use fault::{Appended, MOST_STOPS, PartFault};
pub use journal::{PartJournal, PartRefused};
pub use spelling::copy_of;

#[cfg(test)]
mod tests;
