//! The helper's answers for a batch.

use crate::fault::ReadFault;
use crate::fields::{
    are_bytes, cut_off, is_array, is_u32, put_bytes, read_array, read_bytes, read_u32,
};
use crate::spelled::Spelled;
use dap_bytes::{Bytes, Cursor, put_u8, put_u32};
use std::alloc::{AllocError, Global};

/// The most bytes of an out share, and of a sum of them.
pub const MOST_OUT: u32 = 16_384;

/// What the helper answers for a batch.
#[derive(Debug, Drop)]
pub enum Reply {
    /// Its share of the batch's sum, at most `MOST_OUT` bytes.
    Share(Bytes),
    /// It finished too few reports: how many.
    Small(u32),
    /// It finished others than the leader: how many, and their checksum.
    Mismatch(u32, [u8; 32]),
}

impl Clone for Reply {
    ghost use Rattle.std.specs.Prelude.{◌≡◌};

    ghost is_clone = { λ value copy. copy ≡ value };

    fn clone(&self) -> Result<Reply, AllocError> {
        match self {
            Reply::Share(share) => Ok(Reply::Share(share.clone()?)),
            Reply::Small(total) => Ok(Reply::Small(*total)),
            Reply::Mismatch(total, checksum) => Ok(Reply::Mismatch(*total, *checksum)),
        }
    }
}

impl Spelled for Reply {
    ghost use Rattle.dap_messages.specs.Forms.{reply};
    ghost use Rattle.dap_messages.specs.FormLaws.{reply_lawful};

    ghost grammar = { reply };

    ghost laws = { reply_lawful };

    fn read(alloc: Global, cursor: &mut Cursor<'_>) -> Result<Self, ReadFault> {
        let at = cursor.place();
        match cursor.u8() {
            None => Err(cut_off(cursor).into()),
            Some(0) => {
                let share = read_bytes(alloc, cursor, MOST_OUT)?;
                Ok(Reply::Share(share))
            }
            Some(1) => {
                let total = read_u32(cursor, 0, u32::MAX)?;
                Ok(Reply::Small(total))
            }
            Some(2) => {
                let total = read_u32(cursor, 0, u32::MAX)?;
                let checksum = read_array(cursor)?;
                Ok(Reply::Mismatch(total, checksum))
            }
            Some(_) => Err(ReadFault::Form { at }),
        }
    }

    fn put(&self, out: &mut Vec<u8>) -> Result<(), AllocError> {
        match self {
            Reply::Share(share) => {
                put_u8(out, 0)?;
                put_bytes(out, share)
            }
            Reply::Small(total) => {
                put_u8(out, 1)?;
                put_u32(out, *total)
            }
            Reply::Mismatch(total, checksum) => {
                put_u8(out, 2)?;
                put_u32(out, *total)?;
                out.extend_from_slice(checksum)
            }
        }
    }

    fn is_allowed(&self) -> bool {
        match self {
            Reply::Share(share) => are_bytes(share, MOST_OUT),
            Reply::Small(total) => is_u32(*total, 0, u32::MAX),
            Reply::Mismatch(total, checksum) => is_u32(*total, 0, u32::MAX) && is_array(checksum),
        }
    }
}
