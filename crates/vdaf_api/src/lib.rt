//! Measurement functions with two shares, as every layer above sees them: what a task measures, and the trait [`Vdaf`]
//! of the calls that shard a measurement, prepare both halves of a report, and add and answer out shares; [`ListVdaf`]
//! shards measurements that are lists of numbers. All of them speak of bytes. [`Space`] adds out shares for every
//! function alike, and [`Toy`] is a plain function for tests.
#![tactic(auto)]

mod adding;
mod answer;
mod bounds;
mod fault;
mod keys;
mod kind;
mod laws;
mod list_vdaf;
mod measurement;
mod numbers;
mod order;
mod role;
mod shares;
mod space;
mod step;
mod toy;
mod vdaf;

pub use adding::is_vector;
pub use answer::{Answer, Collected};
pub use bounds::Bounds;
pub use fault::{PrepFault, ShardFault};
pub use keys::SealKeys;
pub use kind::{Kind, MOST_BITS, MOST_BOUNDS, MOST_INPUT, MOST_NUMBER_BITS, MOST_NUMBERS};
pub use laws::{
    forms_are_needed, honest_reports_are_counted, lengths_are_bounded, out_shares_add_to_contents,
    sums_are_answered,
};
pub use list_vdaf::ListVdaf;
pub use measurement::Measurement;
pub use numbers::Numbers;
pub use order::no_order_changes_a_total;
pub use role::Role;
pub use shares::{MOST_HELPER, MOST_LEADER, MOST_PUBLIC, MOST_STEP, Shares};
pub use space::{MOST_OUT, Space};
pub use step::Step;
pub use toy::{Toy, ToyPrep};
pub use vdaf::Vdaf;

#[cfg(test)]
mod tests;
