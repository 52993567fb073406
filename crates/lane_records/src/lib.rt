//! The records of both servers' journals as bytes. The lanes and the fronts above read a journal's records with
//! `read_records`, write each with `write_record`, and see it as a variant with its fields.
#![tactic(auto)]

mod batch;
mod bounds;
mod closed;
mod format;
mod fronts;
mod journal;
mod lanes;
mod laws;
mod outcome;
mod place;
mod reading;
mod record;
mod sizes;
mod stored;

pub use batch::Answered;
pub use bounds::MOST_OLD_BOUNDS;
pub use closed::Closed;
pub use format::Format;
pub use journal::{RecordsFault, read_records};
pub use laws::{
    MOST_RECORD, records_are_bounded, records_are_read, stored_tasks_are_within_ranges,
};
pub use outcome::Outcome;
pub use place::{FrontFault, LaneFault, MOST_LANES, Place};
pub use reading::{read_record, write_record};
pub use record::Record;
pub use stored::StoredTask;

#[cfg(test)]
mod tests;
