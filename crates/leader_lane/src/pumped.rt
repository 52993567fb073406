//! What a pump of a lane comes to.

/// The most uploads in hand, and the most that one block judges.
pub const MOST_IN_HAND: usize = 64;

/// What a pump comes to.
#[derive(Clone, Copy, Debug, PartialEq, Eq)]
pub enum Pumped {
    /// It judged an upload.
    Took,
    /// There was none.
    Empty,
}
