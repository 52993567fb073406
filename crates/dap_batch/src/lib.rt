//! How reports are grouped: the bucket of a time, batches as spans of buckets, the lane of an identifier, and the checksum
//! by which two servers compare the identifiers of a batch. The tables and records of both nodes keep these, and the
//! laws say that a checksum depends on the identifiers alone and not on their order.
#![tactic(auto)]

mod checksum;
mod group;
mod laws;

pub use checksum::Checksum;
pub use dap_bytes::Span;
pub use group::{batch_of, lane_of};
pub use laws::{
    checksums_of_parts_join, no_order_changes_a_checksum, twice_is_never_for_checksums,
};

#[cfg(test)]
mod tests;
