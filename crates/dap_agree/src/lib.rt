//! Agreement of both nodes' journals: the counterpart of each record, and what legal journals that agree show of the
//! collections. The fronts, and whatever opens a pair of journals, stand on these laws; the definitions say what a record
//! of one node rests on at the other.
#![tactic(auto)]

mod laws;

pub use laws::{
    a_task_of_both_fronts_is_whole, agreeing_journals_show_their_collections,
    answers_hold_out_shares, answers_tell_of_the_plain_state, closes_count_whole_lanes,
    counterparts_stay_where_journals_grow, disks_are_in_the_order_of_their_parts,
    fresh_journals_agree, honest_collections_are_whole_sums, lanes_that_agree_tell_the_verdicts,
    lanes_that_keep_their_own_agree, one_record_is_the_first_without_its_counterpart,
};
