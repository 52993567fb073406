//! Numbers of jobs.

use crate::fault::ReadFault;
use crate::fields::{is_u8, is_u64, read_u8, read_u64};
use crate::spelled::Spelled;
use dap_bytes::{Cursor, put_u8, put_u64};
use std::alloc::{AllocError, Global};

/// The number of a job: the lane whose reports it prepares, the incarnation of the leader's lane that made it (how many
/// Open records that lane's journal had), and the lane's counter within the incarnation. Two numbers are one job's where
/// all three are the same.
#[derive(Clone, Copy, Debug, PartialEq, Eq)]
pub struct JobNo {
    /// The lane, from 0.
    pub lane: u8,
    /// The incarnation of the leader's lane, from 1.
    pub incarnation: u64,
    /// The lane's counter within the incarnation.
    pub counter: u64,
}

impl Spelled for JobNo {
    ghost use Rattle.dap_messages.specs.Forms.{job};
    ghost use Rattle.dap_messages.specs.FormLaws.{job_lawful};

    ghost grammar = { job };

    ghost laws = { job_lawful };

    fn read(_alloc: Global, cursor: &mut Cursor<'_>) -> Result<Self, ReadFault> {
        let lane = read_u8(cursor, 0, u8::MAX)?;
        let incarnation = read_u64(cursor, 0, u64::MAX)?;
        let counter = read_u64(cursor, 0, u64::MAX)?;
        Ok(JobNo {
            lane,
            incarnation,
            counter,
        })
    }

    fn put(&self, out: &mut Vec<u8>) -> Result<(), AllocError> {
        put_u8(out, self.lane)?;
        put_u64(out, self.incarnation)?;
        put_u64(out, self.counter)
    }

    fn is_allowed(&self) -> bool {
        is_u8(self.lane, 0, u8::MAX)
            && is_u64(self.incarnation, 0, u64::MAX)
            && is_u64(self.counter, 0, u64::MAX)
    }
}
