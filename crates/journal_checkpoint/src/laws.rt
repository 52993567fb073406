//! Laws about the definitions, as contracts.
ghost use Rattle.journal_checkpoint.specs.Laws.{BlocksHaveNoHead};

/// A law: a file that begins with a block has no head. So what a log over a pair without one leaves is what an opening
/// reads of any two images, once it has a record.
#[tactic(auto, using(crate::proofs::Begins::blocks_have_no_head))]
pub fn blocks_have_no_head()
    ensures { BlocksHaveNoHead }
{}
