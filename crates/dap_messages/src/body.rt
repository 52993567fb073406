//! What messages say of one report.

use crate::code::Code;
use crate::fault::ReadFault;
use crate::fields::{are_bytes, cut_off, is_u64, put_bytes, read_bytes, read_u64};
use crate::spelled::Spelled;
use dap_bytes::{Bytes, Cursor, LATEST_TIME, put_u8, put_u64};
use std::alloc::{AllocError, Global};

/// The most bytes of a public share.
pub const MOST_PUBLIC: u32 = 32_000;

/// The most bytes of the helper's sealed input share.
pub const MOST_HELPER: u32 = 32_000;

/// The most bytes of a prep share or a prep message.
pub const MOST_PREP: u32 = 1_024;

/// What the helper gets of a report: its time, its public share and the helper's sealed input share.
#[derive(Debug, Drop)]
pub struct Half {
    /// In units of time, at most `LATEST_TIME`.
    pub time: u64,
    /// At most `MOST_PUBLIC` bytes.
    pub public: Bytes,
    /// At most `MOST_HELPER` bytes.
    pub helper: Bytes,
}

/// A prepare step of a report in an InitResp or a ContReq: the helper's prep share or the prep message, or why there is
/// none.
#[derive(Debug, Drop)]
pub enum Step {
    /// The share or message, at most `MOST_PREP` bytes.
    Continued(Bytes),
    /// Why there is none.
    Failed(Code),
}

/// A prepare step of a report in a ContResp: it was finished, or why not.
#[derive(Clone, Copy, Debug, PartialEq, Eq)]
pub enum Status {
    /// The report was finished.
    Finished,
    /// Why it wasn't.
    Failed(Code),
}

impl Clone for Half {
    ghost use Rattle.std.specs.Prelude.{◌≡◌};

    ghost is_clone = { λ value copy. copy ≡ value };

    fn clone(&self) -> Result<Half, AllocError> {
        let public = self.public.clone()?;
        let helper = self.helper.clone()?;
        Ok(Half {
            time: self.time,
            public,
            helper,
        })
    }
}

impl Spelled for Half {
    ghost use Rattle.dap_messages.specs.Forms.{half};
    ghost use Rattle.dap_messages.specs.FormLaws.{half_lawful};

    ghost grammar = { half };

    ghost laws = { half_lawful };

    fn read(alloc: Global, cursor: &mut Cursor<'_>) -> Result<Self, ReadFault> {
        let time = read_u64(cursor, 0, LATEST_TIME)?;
        let public = read_bytes(alloc, cursor, MOST_PUBLIC)?;
        let helper = read_bytes(alloc, cursor, MOST_HELPER)?;
        Ok(Half {
            time,
            public,
            helper,
        })
    }

    fn put(&self, out: &mut Vec<u8>) -> Result<(), AllocError> {
        put_u64(out, self.time)?;
        put_bytes(out, &self.public)?;
        put_bytes(out, &self.helper)
    }

    fn is_allowed(&self) -> bool {
        is_u64(self.time, 0, LATEST_TIME)
            && are_bytes(&self.public, MOST_PUBLIC)
            && are_bytes(&self.helper, MOST_HELPER)
    }
}

impl Clone for Step {
    ghost use Rattle.std.specs.Prelude.{◌≡◌};

    ghost is_clone = { λ value copy. copy ≡ value };

    fn clone(&self) -> Result<Step, AllocError> {
        match self {
            Step::Continued(prep) => Ok(Step::Continued(prep.clone()?)),
            Step::Failed(code) => Ok(Step::Failed(*code)),
        }
    }
}

impl Spelled for Step {
    ghost use Rattle.dap_messages.specs.Forms.{step};
    ghost use Rattle.dap_messages.specs.FormLaws.{step_lawful};

    ghost grammar = { step };

    ghost laws = { step_lawful };

    fn read(alloc: Global, cursor: &mut Cursor<'_>) -> Result<Self, ReadFault> {
        let at = cursor.place();
        match cursor.u8() {
            None => Err(cut_off(cursor).into()),
            Some(0) => {
                let prep = read_bytes(alloc, cursor, MOST_PREP)?;
                Ok(Step::Continued(prep))
            }
            Some(2) => {
                let code = Code::read(alloc, cursor)?;
                Ok(Step::Failed(code))
            }
            Some(_) => Err(ReadFault::Form { at }),
        }
    }

    fn put(&self, out: &mut Vec<u8>) -> Result<(), AllocError> {
        match self {
            Step::Continued(prep) => {
                put_u8(out, 0)?;
                put_bytes(out, prep)
            }
            Step::Failed(code) => {
                put_u8(out, 2)?;
                code.put(out)
            }
        }
    }

    fn is_allowed(&self) -> bool {
        match self {
            Step::Continued(prep) => are_bytes(prep, MOST_PREP),
            Step::Failed(code) => code.is_allowed(),
        }
    }
}

impl Spelled for Status {
    ghost use Rattle.dap_messages.specs.Forms.{status};
    ghost use Rattle.dap_messages.specs.FormLaws.{status_lawful};

    ghost grammar = { status };

    ghost laws = { status_lawful };

    fn read(alloc: Global, cursor: &mut Cursor<'_>) -> Result<Self, ReadFault> {
        let at = cursor.place();
        match cursor.u8() {
            None => Err(cut_off(cursor).into()),
            Some(1) => Ok(Status::Finished),
            Some(2) => {
                let code = Code::read(alloc, cursor)?;
                Ok(Status::Failed(code))
            }
            Some(_) => Err(ReadFault::Form { at }),
        }
    }

    fn put(&self, out: &mut Vec<u8>) -> Result<(), AllocError> {
        match self {
            Status::Finished => put_u8(out, 1),
            Status::Failed(code) => {
                put_u8(out, 2)?;
                code.put(out)
            }
        }
    }

    fn is_allowed(&self) -> bool {
        match self {
            Status::Finished => true,
            Status::Failed(code) => code.is_allowed(),
        }
    }
}
