//! Prio3 for two shares (after draft-irtf-cfrg-vdaf-03), generic over the circuit: its definitions, from sharing to the
//! measurement function, and the client's calls `shard`, `shard_list` and `shard_input`. The layer above prepares the halves by these
//! definitions, with the streams, parts and joint randomness that both sides make alike.
#![tactic(auto)]

mod based;
mod faults;
mod halves;
mod joint;
mod keys;
mod laws;
mod report;
mod sharing;
mod splitting;
mod spreading;
mod streams;
mod texts;
mod usage;

pub use based::Based;
pub use laws::{halves_add_to_the_whole, shares_have_their_lengths};
pub use sharing::{shard, shard_input, shard_list};
pub use streams::{draw_for, joint_seed_of, part_of};
pub use texts::{info_text, push_elements};
pub use usage::Usage;
