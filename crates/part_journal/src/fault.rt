//! What an append comes to, and why a call is refused.

/// How many stops of the disk a journal may meet from its opening on: it bears all but the last of them, and answers
/// that one `Stopped`.
pub const MOST_STOPS: u32 = 64;

/// What an append comes to.
#[derive(Clone, Copy, Debug, PartialEq, Eq)]
pub enum Appended {
    /// The block is in the journal, and no stop came.
    Done,
    /// The disk stopped, and the journal is back with the block and an Open behind it.
    Kept,
    /// The disk stopped, and the journal is back without the block and with an Open.
    Lost,
}

/// Why a call is refused.
#[derive(Clone, Copy, Debug, PartialEq, Eq)]
pub enum PartFault {
    /// The disk didn't come back, or it stopped and may stop no more.
    Stopped,
    /// There was no memory.
    NoMemory,
}

/// What a try comes to.
#[derive(Clone, Copy, Debug, PartialEq, Eq)]
pub(crate) enum Tried {
    /// The block is in the journal.
    Done,
    /// The disk stopped, and a restart finds out.
    Stop,
}
