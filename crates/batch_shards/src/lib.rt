//! What a lane holds of each batch: how many reports, how many rejected ones, the checksum of their identifiers, the
//! sum of their out shares, and whether the batch is closed. The lanes of both nodes add every report that they finish
//! here; what the table answers is that of the list of the batch's reports, in whichever order they came.
#![tactic(auto)]

mod bucket;
mod buckets;
mod change;
mod count;
mod laws;

pub use bucket::BucketFault;
pub use buckets::Buckets;
pub use count::Count;
pub use laws::{
    a_bucket_is_that_of_its_reports, a_change_is_of_one_batch, no_order_changes_a_bucket,
    room_is_no_report,
};

#[cfg(test)]
mod tests;
