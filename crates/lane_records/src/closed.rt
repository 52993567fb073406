//! What a lane had of a batch when it closed it.

use dap_bytes::{Bytes, Cursor, put_u32};
use dap_messages::{
    MOST_OUT, ReadFault, Spelled, are_bytes, is_array, is_u32, put_bytes, put_slice, read_array,
    read_bytes, read_u32,
};
use std::alloc::{AllocError, Global};

/// What a lane had of a batch when it closed it: how many reports it finished and how many it rejected, the checksum of
/// the finished ones' identifiers, and the sum of their out shares.
#[derive(Debug, Drop)]
pub struct Closed {
    /// How many reports were finished.
    pub count: u32,
    /// How many were rejected.
    pub rejected: u32,
    /// The checksum of the finished ones' identifiers.
    pub checksum: [u8; 32],
    /// The sum of their out shares, as its bytes, at most 16,384.
    pub share: Bytes,
}

impl Spelled for Closed {
    ghost use Rattle.lane_records.specs.Stored.{closed};
    ghost use Rattle.lane_records.specs.StoredLaws.{closed_lawful};

    ghost grammar = { closed };

    ghost laws = { closed_lawful };

    fn read(alloc: Global, cursor: &mut Cursor<'_>) -> Result<Self, ReadFault> {
        let count = read_u32(cursor, 0, u32::MAX)?;
        let rejected = read_u32(cursor, 0, u32::MAX)?;
        let checksum = read_array(cursor)?;
        let share = read_bytes(alloc, cursor, MOST_OUT)?;
        Ok(Closed {
            count,
            rejected,
            checksum,
            share,
        })
    }

    fn put(&self, out: &mut Vec<u8>) -> Result<(), AllocError> {
        put_u32(out, self.count)?;
        put_u32(out, self.rejected)?;
        put_slice(out, &self.checksum)?;
        put_bytes(out, &self.share)
    }

    fn is_allowed(&self) -> bool {
        is_u32(self.count, 0, u32::MAX)
            && is_u32(self.rejected, 0, u32::MAX)
            && is_array(&self.checksum)
            && are_bytes(&self.share, MOST_OUT)
    }
}
