//! What a lane is made of.

use dap_disk::Disk;
use dap_outside::Fates;
use dap_wire::{LaneEnd, LinkEnd};
use lane_records::LaneFault;
use report_journal::Log;

/// What a lane is made of that outlives it.
#[derive(Drop)]
pub struct LaneParts<D: Disk, T: Fates> {
    /// The log, which takes blocks where the lane was up.
    pub log: Log<D>,
    /// The lane's end of the ring of uploads.
    pub front: LaneEnd,
    /// The lane's end of the link.
    pub link: LinkEnd<T>,
}

/// Why an opening was refused, with what the lane was to be made of.
#[derive(Drop)]
pub struct LaneRefused<D: Disk, T: Fates> {
    /// The log: it has the records that it had and the Opens that count, and an Open may be in hand.
    pub log: Log<D>,
    /// The lane's end of the ring of uploads.
    pub front: LaneEnd,
    /// The lane's end of the link.
    pub link: LinkEnd<T>,
    /// Why.
    pub fault: LaneFault,
}
