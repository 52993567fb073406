//! What was done to a disk in memory.

use crate::Image;

/// A call that changed the disk, or a sync or restart that settled what its changes left.
#[derive(Drop)]
pub enum Event {
    /// These bytes were written from this place on.
    Wrote(usize, Vec<u8>),
    /// The file was cut to this length.
    Cut(usize),
    /// A sync (`New`) or a restart left what the rule says.
    Settled(Image),
}
