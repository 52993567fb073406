//! Why a report is not counted.

use crate::fault::ReadFault;
use crate::fields::cut_off;
use crate::spelled::Spelled;
use dap_bytes::{Cursor, put_u8};
use std::alloc::{AllocError, Global};

/// Why a report is not counted: the report errors of draft-ietf-ppm-dap-02, section 4.4, that this project has. In bytes
/// they are 0, 1, 4 and 5.
#[derive(Clone, Copy, Debug, PartialEq, Eq)]
pub enum Code {
    /// The report's batch was collected before.
    BatchCollected,
    /// The report was finished in another job.
    ReportReplayed,
    /// A ciphertext doesn't open.
    HpkeDecryptError,
    /// Preparing has no value.
    VdafPrepError,
}

impl Code {
    ghost use Rattle.std.specs.Prelude.{◌≡◌};
    ghost use Rattle.dap_messages.specs.Forms.{byte_of, code_of};

    /// Its byte: 0, 1, 4 or 5.
    pub fn byte(&self) -> u8
        ensures { result ≡ byte_of self.now }
    {
        match self {
            Code::BatchCollected => 0,
            Code::ReportReplayed => 1,
            Code::HpkeDecryptError => 4,
            Code::VdafPrepError => 5,
        }
    }

    /// The code of a byte, if it has one.
    pub fn of_byte(byte: u8) -> Option<Code>
        ensures { result ≡ code_of byte }
    {
        match byte {
            0 => Some(Code::BatchCollected),
            1 => Some(Code::ReportReplayed),
            4 => Some(Code::HpkeDecryptError),
            5 => Some(Code::VdafPrepError),
            _ => None,
        }
    }
}

impl Spelled for Code {
    ghost use Rattle.dap_messages.specs.Forms.{code};
    ghost use Rattle.dap_messages.specs.FormLaws.{code_lawful};

    ghost grammar = { code };

    ghost laws = { code_lawful };

    fn read(_alloc: Global, cursor: &mut Cursor<'_>) -> Result<Self, ReadFault> {
        let at = cursor.place();
        let Some(byte) = cursor.u8() else {
            return Err(cut_off(cursor).into());
        };
        Code::of_byte(byte).ok_or(ReadFault::Form { at })
    }

    fn put(&self, out: &mut Vec<u8>) -> Result<(), AllocError> {
        put_u8(out, self.byte())
    }

    fn is_allowed(&self) -> bool {
        true
    }
}
