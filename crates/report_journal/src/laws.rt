//! Laws about the definitions, as contracts.
ghost use Rattle.report_journal.specs.Laws.{OneReading};

/// A law: a file stands for one list of records at most, in one number of blocks, or is no journal at one place at most, and never both.
#[tactic(auto, using(crate::proofs::OneReading::one_reading))]
pub fn reading_law()
    ensures { OneReading }
{}
