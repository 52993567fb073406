//! Sealed shares and honest reports: how a half of a report is sealed for one of the two aggregators and opened again,
//! the report that an honest client makes of a measurement, and what a task and a report come to: the helper's step,
//! the leader's item, the verdict and the content. The layers above make reports, prepare halves with `SealedHalf`, say of
//! them in messages what `prep_step`, `leader_item`, `leader_share` and `helper_outcome` answer, and reason about any
//! report by this crate's definitions.
#![tactic(auto)]

mod cmac_seal;
mod cover;
mod half;
mod head;
mod laws;
mod make;
mod part;
mod seal;
mod tag;
mod turn;
mod values;

pub use cmac_seal::CmacSeal;
pub use half::{Begun, SealedHalf};
pub use head::Head;
pub use laws::{
    helper_steps_are_of_their_half, honest_fair_reports_are_counted, sealed_shares_are_opened,
    turns_come_to_the_verdict, verdicts_go_by_the_first_rule,
};
pub use make::{make_list_report, make_report};
pub use part::prepare_part;
pub use seal::{OpenFault, Seal};
pub use turn::{helper_outcome, leader_item, leader_share, prep_step, told};
pub use values::{combined, finished};

#[cfg(test)]
mod tests;
