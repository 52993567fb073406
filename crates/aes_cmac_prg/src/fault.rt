//! Why nothing is drawn.

use thiserror::Error;

/// Why nothing is drawn.
#[derive(Debug, PartialEq, Eq, Drop, Error)]
pub enum DrawFault {
    /// More than 128 numbers of the stream were skipped.
    #[error("the drawing is spent")]
    Spent,
    /// There is no memory for the elements.
    #[error("no memory")]
    NoMemory,
}
