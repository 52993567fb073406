//! A journal of records on a disk. Whoever appends a block of records and is answered `Ok` finds it after every stop;
//! a stop inside an append leaves all of the block or none. The layers above hold a `Log`: its disk, its records, the
//! block in hand while it is down, and what a stop may leave in terms of records alone.
#![tactic(auto)]

mod block;
mod fault;
mod grammar;
mod laws;
mod log;
mod moves;
mod opening;
mod packing;
mod reader;
mod retry;

pub use fault::{AppendFault, LogFault, RestartFault};
pub use laws::reading_law;
pub use log::{Log, OpenRefused};
pub use opening::read_into;
pub use packing::{fitting, put_block};
pub use reader::{Blocks, ReadOnlyFault, read_blocks, read_only};

#[cfg(test)]
mod tests;
