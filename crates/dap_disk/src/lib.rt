//! A disk as its users see it: the bytes that it holds, what a stop at each moment may leave of them, and how often
//! it has stopped or hasn't come back. The layers above use the trait `Disk`, `write_synced` and `cut_synced` with
//! their images at each moment, and the lemmas of `specs/RunLaws.antt` that join the moments of several calls.
//! `MemDisk` is a disk in memory for tests and replays.
#![tactic(auto)]

mod disk;
mod event;
mod image;
mod laws;
mod mem_disk;
mod place;
mod plan;
mod store;
mod synced;

pub use disk::{Dead, Disk, Down, StoreFault};
pub use image::{Image, Stop};
pub use laws::{calls_law, image_law};
pub use mem_disk::MemDisk;
pub use synced::{cut_synced, write_synced};

#[cfg(test)]
mod tests;
