//! The plain model of a run: what each line of a script changes and prints, the limits of a run, and how a printed line
//! is spelled. The layers above prove their text to be `model_text` of the definitions, spell lines with `print_line`,
//! and take a run's `Limits`; the laws say what the model is in the words of who reads its output.
#![tactic(auto)]

mod laws;
mod limits;
mod printed;
mod printing;
mod sets;
mod whole;

pub use laws::{
    batches_are_counted, batches_hold_their_reports_once, collected_batches_share_no_bucket,
    collections_are_repeated, collections_go_by_the_first_cause, earlier_tasks_stay_known,
    honest_batches_are_counted, honest_uploads_are_measurements, known_tasks_are_counted_by_name,
    lines_change_what_they_name, lines_follow_one_another, lines_offer_what_is_judged,
    lines_print_by_their_number, measurements_go_by_the_first_cause, measurements_print_nothing,
    moments_are_the_greatest, offered_reports_are_judged, passed_limits_are_exact,
    reports_are_accepted_once, segments_are_a_front, segments_are_whole, states_only_grow,
    uploaded_scripts_print_the_same, uploads_go_by_the_first_cause, whole_segments_are_told,
};
pub use limits::Limits;
pub use printed::Printed;
pub use printing::print_line;
pub use sets::{same_states_move_alike, same_states_print_the_same};
pub use whole::{accepted_reports_were_offered, honest_batches_have_whole_sums};

#[cfg(test)]
mod tests;
