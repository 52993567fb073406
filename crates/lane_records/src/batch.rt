//! What a front's record of an answer holds.

use dap_bytes::{Bytes, Cursor, put_u32};
use dap_messages::{
    MOST_OUT, ReadFault, Spelled, are_bytes, is_u32, put_bytes, read_bytes, read_u32,
};
use std::alloc::{AllocError, Global};

/// What the leader's front answered for a batch: how many reports were finished and how many rejected, and both nodes'
/// shares of the sum.
#[derive(Debug, Drop)]
pub struct Answered {
    /// How many reports of the batch were finished, by both nodes alike.
    pub count: u32,
    /// How many were rejected.
    pub rejected: u32,
    /// The leader's share of the sum: the bytes of its out shares' sum, at most 16,384.
    pub leader: Bytes,
    /// The helper's share, likewise.
    pub helper: Bytes,
}

impl Spelled for Answered {
    ghost use Rattle.lane_records.specs.Batch.{answered};
    ghost use Rattle.lane_records.specs.BatchLaws.{answered_lawful};

    ghost grammar = { answered };

    ghost laws = { answered_lawful };

    fn read(alloc: Global, cursor: &mut Cursor<'_>) -> Result<Self, ReadFault> {
        let count = read_u32(cursor, 0, u32::MAX)?;
        let rejected = read_u32(cursor, 0, u32::MAX)?;
        let leader = read_bytes(alloc, cursor, MOST_OUT)?;
        let helper = read_bytes(alloc, cursor, MOST_OUT)?;
        Ok(Answered {
            count,
            rejected,
            leader,
            helper,
        })
    }

    fn put(&self, out: &mut Vec<u8>) -> Result<(), AllocError> {
        put_u32(out, self.count)?;
        put_u32(out, self.rejected)?;
        put_bytes(out, &self.leader)?;
        put_bytes(out, &self.helper)
    }

    fn is_allowed(&self) -> bool {
        is_u32(self.count, 0, u32::MAX)
            && is_u32(self.rejected, 0, u32::MAX)
            && are_bytes(&self.leader, MOST_OUT)
            && are_bytes(&self.helper, MOST_OUT)
    }
}
