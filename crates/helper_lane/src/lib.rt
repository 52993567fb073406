//! A lane of the helper. It takes the leader's requests for reports of its lane and keeps what it answers in its
//! journal, so that a request that comes again is answered from there. `take` takes a message, or says why the lane
//! refuses it; `work_out` works it out beside the lane. What a lane answers is one function of its tasks, its records
//! and the message's bytes, with its laws.
#![tactic(auto)]

mod fits;
mod found;
mod judge;
mod known;
mod lane;
mod laws;
mod lookup;
mod made;
mod parts;
mod refusal;
mod steps;
mod taken;
mod taking;
mod work;
mod working;

pub use fits::records_fit;
pub use lane::{HelperLane, HelperParts, HelperRefused};
pub use laws::{replies_follow_the_rules, taken_messages_stay_answerable};
pub use made::{HelperDone, Made};
pub use refusal::{CheckFault, TakeFault, TakeRefusal};
pub use taken::Taken;
pub use work::HelperWork;
pub use working::work_out;
