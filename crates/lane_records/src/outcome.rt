//! Outcomes of reports as a lane keeps them.

use dap_bytes::{Bytes, Cursor, put_u8};
use dap_messages::{Code, MOST_OUT, ReadFault, Spelled, are_bytes, cut_off, put_bytes, read_bytes};
use std::alloc::{AllocError, Global};

/// The outcome of a report in a lane's journal: it was finished, with the out share of the node whose lane it is, or why
/// not.
#[derive(Debug, Drop)]
pub enum Outcome {
    /// The out share, at most `MOST_OUT` bytes.
    Finished(Bytes),
    /// Why not.
    Failed(Code),
}

impl Spelled for Outcome {
    ghost use Rattle.lane_records.specs.Stored.{outcome};
    ghost use Rattle.lane_records.specs.StoredLaws.{outcome_lawful};

    ghost grammar = { outcome };

    ghost laws = { outcome_lawful };

    fn read(alloc: Global, cursor: &mut Cursor<'_>) -> Result<Self, ReadFault> {
        let at = cursor.place();
        match cursor.u8() {
            None => Err(cut_off(cursor).into()),
            Some(1) => {
                let share = read_bytes(alloc, cursor, MOST_OUT)?;
                Ok(Outcome::Finished(share))
            }
            Some(2) => {
                let code = Code::read(alloc, cursor)?;
                Ok(Outcome::Failed(code))
            }
            Some(_) => Err(ReadFault::Form { at }),
        }
    }

    fn put(&self, out: &mut Vec<u8>) -> Result<(), AllocError> {
        match self {
            Outcome::Finished(share) => {
                put_u8(out, 1)?;
                put_bytes(out, share)
            }
            Outcome::Failed(code) => {
                put_u8(out, 2)?;
                code.put(out)
            }
        }
    }

    fn is_allowed(&self) -> bool {
        match self {
            Outcome::Finished(share) => are_bytes(share, MOST_OUT),
            Outcome::Failed(_) => true,
        }
    }
}
