//! Formats of a journal's records.

ghost use Rattle.std.specs.Prelude.{◌≡◌};
ghost use Rattle.lane_records.specs.Formats.{byte_of_format, format_of, by_format};

use dap_bytes::{Cursor, put_u8};
use dap_messages::{ReadFault, Spelled, cut_off};
use std::alloc::{AllocError, Global};

/// The format that an Open begins, which the Tasks behind it have. Whoever opens a journal appends an Open of format 2;
/// journals that begin in format 1 are carried over so, and none of their records is changed.
#[derive(Clone, Copy, Debug, PartialEq, Eq)]
pub enum Format {
    /// A histogram has at most `MOST_OLD_BOUNDS` bounds, and no task expires.
    One,
    /// A histogram has at most `MOST_BOUNDS` bounds, and a task may expire.
    Two,
}

impl Format {
    /// Its byte: 1 or 2.
    pub fn byte(&self) -> u8
        ensures { result ≡ byte_of_format self.now }
    {
        self.choose(1, 2)
    }

    /// The format of a byte, if it has one.
    pub fn of_byte(byte: u8) -> Option<Format>
        ensures { result ≡ format_of byte }
    {
        match byte {
            1 => Some(Format::One),
            2 => Some(Format::Two),
            _ => None,
        }
    }

    /// The first number in format 1, the second in format 2.
    pub(crate) fn choose(&self, one: u8, two: u8) -> u8
        ensures { result ≡ by_format one two self.now }
    {
        match self {
            Format::One => one,
            Format::Two => two,
        }
    }
}

impl Spelled for Format {
    ghost use Rattle.lane_records.specs.Formats.{format};
    ghost use Rattle.lane_records.specs.FormatLaws.{format_lawful};

    ghost grammar = { format };

    ghost laws = { format_lawful };

    fn read(_alloc: Global, cursor: &mut Cursor<'_>) -> Result<Self, ReadFault> {
        let at = cursor.place();
        let Some(byte) = cursor.u8() else {
            return Err(cut_off(cursor).into());
        };
        Format::of_byte(byte).ok_or(ReadFault::Form { at })
    }

    fn put(&self, out: &mut Vec<u8>) -> Result<(), AllocError> {
        put_u8(out, self.byte())
    }

    fn is_allowed(&self) -> bool {
        true
    }
}
