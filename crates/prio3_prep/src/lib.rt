//! Preparing the reports of Prio3 (draft-irtf-cfrg-vdaf-03), generic over the circuit: `init` makes a half's state and
//! prep share, `combine` the prep message of both prep shares, and `finish` the out share. The layer above uses these
//! calls, and the laws of a circuit's measurement function, among them that an honest report is accepted.
#![tactic(auto)]

mod asked;
mod faults;
mod forms;
mod half;
mod joining;
mod laws;
mod reading;
mod starting;
mod state;

pub use joining::{combine, finish};
pub use laws::{accepted_reports_are_decided, circuits_measure, honest_reports_are_accepted};
pub use starting::init;
pub use state::State;
