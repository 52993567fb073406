//! The sizes of a vector as fields.

ghost use Rattle.std.specs.Prelude.{◌≡◌, ◌*◌, ◌++◌, OnOk, nat_le};
ghost use Rattle.vdaf_api.specs.declared.kind.TheConstants.{MOST_INPUT};
ghost use Rattle.dap_messages.specs.Spelled.{Finds};
ghost use Rattle.lane_records.specs.Sizes.{vector_bits, sizes};

use dap_bytes::{Cursor, put_u8, put_u16};
use dap_messages::{Form, is_u8, read_u8, read_u16};
use std::alloc::AllocError;
use vdaf_api::{MOST_INPUT, MOST_NUMBER_BITS, MOST_NUMBERS};

/// How many numbers a vector has, and of how many bits.
pub(crate) fn read_sizes(cursor: &mut Cursor<'_>) -> Result<(u16, u8), Form>
    ensures { Finds sizes cursor.old result cursor.new }
{
    let len = read_u16(cursor, 1, MOST_NUMBERS)?;
    let bits = read_bits(cursor, len)?;
    Ok((len, bits))
}

/// How many bits each of so many numbers has.
fn read_bits(cursor: &mut Cursor<'_>, len: u16) -> Result<u8, Form>
    ensures { Finds (vector_bits len) cursor.old result cursor.new }
{
    let at = cursor.place();
    let bits = read_u8(cursor, 1, MOST_NUMBER_BITS)?;
    if !are_few(len, bits) {
        return Err(Form { at });
    }
    Ok(bits)
}

/// Whether so many numbers of so many bits have few enough bits together.
fn are_few(len: u16, bits: u8) -> bool
    ensures { result ≡ nat_le (len * bits) MOST_INPUT }
{
    usize::from(len) * usize::from(bits) <= usize::from(MOST_INPUT)
}

/// Appends both.
pub(crate) fn put_sizes(out: &mut Vec<u8>, len: u16, bits: u8) -> Result<(), AllocError>
    ensures { OnOk result (out.new.items ≡ out.old.items ++ sizes.spell (len, bits)) }
{
    put_u16(out, len)?;
    put_u8(out, bits)
}

/// Whether a vector has so many numbers of so many bits.
pub(crate) fn are_sizes(len: u16, bits: u8) -> bool
    ensures { result ≡ sizes.allowed (len, bits) }
{
    (1..=MOST_NUMBERS).contains(&len) && is_u8(bits, 1, MOST_NUMBER_BITS) && are_few(len, bits)
}
