//! What a take comes to.

use crate::work::HelperWork;

/// What a take comes to.
#[derive(Debug, Drop)]
pub enum Taken {
    /// A request came, which is in hand now.
    Work(HelperWork),
    /// No message is there.
    Nothing,
    /// A message came and was lost.
    Dropped,
    /// A message came and is held back.
    Held,
}
