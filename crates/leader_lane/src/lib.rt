//! The leader's lane: it judges uploads by its records, appends the reports that it accepts to its journal, and goes on
//! through stops of its disk. The layers above use that each call is a list of the lane's own steps, and that its answers
//! account for the uploads that it took.
#![tactic(auto)]

mod block;
mod book;
mod catalog;
mod faults;
mod judge;
mod lane;
mod opens;
mod parts;
mod pump;
mod pumped;
mod sends;

pub use lane::LeaderLane;
pub use opens::opens_fit;
pub use parts::{LaneParts, LaneRefused};
pub use pumped::{MOST_IN_HAND, Pumped};
