//! Legal journals: which record may follow which, the index over a lane's records, and `legal`, which walks a journal
//! once with it. The lanes and the agreement of both nodes stand on these rules; the lanes keep an index beside their
//! records.
#![tactic(auto)]

mod front_rules;
mod helper_index;
mod helper_rules;
mod items;
mod jobs;
mod laws;
mod leader_index;
mod leader_rules;
mod opens;
mod reports;
mod table;
mod waiting;
mod walk;
mod word_laws;

pub use helper_index::HelperIndex;
pub use laws::{
    identifiers_of_a_job_ascend, legal_journals_grow_by_allowed_records,
    one_record_is_the_first_refused, reports_are_continued_once, reports_are_finished_once,
};
pub use leader_index::LeaderIndex;
pub use waiting::Waiting;
pub use walk::legal;
pub use word_laws::{
    a_justified_message_stays_so, lists_of_a_job_have_its_identifiers, numbers_of_parts_add_up,
};

#[cfg(test)]
mod tests;
