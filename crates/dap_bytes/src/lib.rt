//! The small types that both servers' messages, records and scripts are made of: names and identifiers, byte
//! strings and texts, batches of time, the two nodes with their parts, numbers as big-endian bytes, the cursor that reads
//! them, and the limits that all of them share. The layers above see a name, a byte string and a text as the list of its bytes, write
//! numbers with `put_u8` to `put_u64`, and read with a `Cursor`, which they see as an input and a place.
#![tactic(auto)]

mod bytes;
mod cursor;
mod laws;
mod limits;
mod name;
mod node;
mod numbers;
mod part;
mod span;
mod text;

pub use bytes::Bytes;
pub use cursor::Cursor;
pub use laws::{
    a_held_bucket_has_one_number, batches_share_what_is_in_both, buckets_begin_at_times,
    single_buckets_are_shared_where_equal,
};
pub use limits::{
    GREATEST_MINIMUM, GREATEST_PRECISION, LATEST_TIME, LONGEST_BLOCK, LONGEST_SCRIPT,
    LONGEST_TASK_FILE, MOST_BUCKETS,
};
pub use name::Name;
pub use node::Node;
pub use numbers::{put_u8, put_u16, put_u32, put_u64};
pub use part::Part;
pub use span::Span;
pub use text::Text;

/// What tells a report from the others of its task: 16 bytes that its client drew.
pub type Id = [u8; 16];

#[cfg(test)]
mod tests;
