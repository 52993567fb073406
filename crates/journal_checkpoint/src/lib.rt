//! A journal in a pair of disks. It grows on the one that is live, and is packed into few blocks on the other, which is
//! then the live one; a stop at any moment leaves the same records. The layers above open a pair, give it a head and
//! pack it, and then hold a `Log` over it, since a `PairDisk` is a disk: the live one behind its head.
#![tactic(auto)]

mod checkpoint;
mod fault;
mod first_head;
mod head;
mod laws;
mod making;
mod opening;
mod packing;
mod pair;

pub use fault::{CheckFault, CheckRefused, PairRefused};
pub use laws::blocks_have_no_head;
pub use pair::PairDisk;

#[cfg(test)]
mod tests;
