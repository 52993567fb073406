//! Where a lane stands, and why a lane or a front refuses.

use thiserror::Error;

/// The most lanes of a node.
pub const MOST_LANES: u8 = 16;

/// The place of a lane: how many lanes its node has, 1 to `MOST_LANES`, and which of them it is, from 0.
#[derive(Clone, Copy, Debug, PartialEq, Eq)]
pub struct Place {
    /// How many lanes there are.
    pub lanes: u8,
    /// Which one it is.
    pub lane: u8,
}

/// Why a lane refuses a call.
#[derive(Clone, Copy, Debug, PartialEq, Eq, Error)]
pub enum LaneFault {
    /// Its disk stopped for good, or too often.
    #[error("the lane's disk stopped")]
    Stopped,
    /// There was no memory.
    #[error("no memory")]
    NoMemory,
}

/// Why a front refuses a call.
#[derive(Clone, Copy, Debug, PartialEq, Eq, Error)]
pub enum FrontFault {
    /// Its disk stopped for good, or too often.
    #[error("the front's disk stopped")]
    Stopped,
    /// There was no memory.
    #[error("no memory")]
    NoMemory,
}
