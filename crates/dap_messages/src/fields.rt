//! The fields of which reports, messages and records are made: a reader for each, what appends it, and whether a value
//! has a spelling. The readers of this module but `read_bytes` take no memory. After a refusal nothing is said of the
//! cursor, and what was appended to may have a part of the field.

ghost use Rattle.std.specs.Prelude.{◌≡◌, ◌≤◌, ◌<◌, ◌^◌, ◌++◌, ◌∷◌, length, OnOk};
ghost use Rattle.std.specs.Int.{w16, w32, w64, to_be_bytes};
ghost use Rattle.dap_messages.specs.Grammar.{byte, number, cells, any_text, bytes, name};
ghost use Rattle.dap_messages.specs.Spelled.{Finds, Gives};

use crate::fault::{Form, ReadFault};
use dap_bytes::{Bytes, Cursor, Name, put_u8, put_u32};
use std::alloc::{AllocError, Global};

/// The fault of a field whose bytes run out. The cursor goes to the input's end.
#[tactic(auto, using(crate::specs::Laws::input_past))]
pub fn cut_off(cursor: &mut Cursor<'_>) -> Form
    ensures place { result.at ≡ length cursor.old.input }
    ensures input { cursor.new.input ≡ cursor.old.input }
    ensures end { cursor.new.place ≡ length cursor.old.input }
{
    let left = cursor.rest().len();
    cursor.take(left);
    Form { at: cursor.place() }
}

/// One byte from `low` to `high`, both included.
#[tactic(auto, using(crate::specs::Laws::input_past))]
pub fn read_u8(cursor: &mut Cursor<'_>, low: u8, high: u8) -> Result<u8, Form>
    ensures { Finds (byte low high) cursor.old result cursor.new }
{
    let at = cursor.place();
    match cursor.u8() {
        None => Err(cut_off(cursor)),
        Some(byte) if low <= byte && byte <= high => Ok(byte),
        Some(_) => Err(Form { at }),
    }
}

/// Two bytes that are a number from `low` to `high`, both included, the most significant byte first.
#[tactic(auto, using(crate::specs::Laws::input_past))]
pub fn read_u16(cursor: &mut Cursor<'_>, low: u16, high: u16) -> Result<u16, Form>
    ensures { Finds (number w16 low high) cursor.old result cursor.new }
{
    let at = cursor.place();
    match cursor.u16() {
        None => Err(cut_off(cursor)),
        Some(number) if low <= number && number <= high => Ok(number),
        Some(_) => Err(Form { at }),
    }
}

/// Four bytes, by the same rule.
#[tactic(auto, using(crate::specs::Laws::input_past))]
pub fn read_u32(cursor: &mut Cursor<'_>, low: u32, high: u32) -> Result<u32, Form>
    ensures { Finds (number w32 low high) cursor.old result cursor.new }
{
    let at = cursor.place();
    match cursor.u32() {
        None => Err(cut_off(cursor)),
        Some(number) if low <= number && number <= high => Ok(number),
        Some(_) => Err(Form { at }),
    }
}

/// Eight bytes, by the same rule.
#[tactic(auto, using(crate::specs::Laws::input_past))]
pub fn read_u64(cursor: &mut Cursor<'_>, low: u64, high: u64) -> Result<u64, Form>
    ensures { Finds (number w64 low high) cursor.old result cursor.new }
{
    let at = cursor.place();
    match cursor.u64() {
        None => Err(cut_off(cursor)),
        Some(number) if low <= number && number <= high => Ok(number),
        Some(_) => Err(Form { at }),
    }
}

/// `N` bytes.
#[tactic(auto, using(crate::specs::Laws::input_past))]
pub fn read_array<const N: usize>(cursor: &mut Cursor<'_>) -> Result<[u8; N], Form>
    ensures { Finds (cells N any_text) cursor.old result cursor.new }
{
    let Some(part) = cursor.take(N) else {
        return Err(cut_off(cursor));
    };
    let mut array = [0; N];
    array.copy_from_slice(part);
    Ok(array)
}

/// A u8 length and the name of a task.
#[tactic(auto, using(crate::specs::Laws::input_past))]
pub fn read_name(cursor: &mut Cursor<'_>) -> Result<Name, Form>
    ensures { Finds name cursor.old result cursor.new }
{
    let len = read_u8(cursor, 1, 32)?;
    let at = cursor.place();
    let Some(part) = cursor.take(len as usize) else {
        return Err(cut_off(cursor));
    };
    match Name::new(part) {
        None => Err(Form { at }),
        Some(name) => Ok(name),
    }
}

/// A u32 length of at most `longest`, and that many bytes.
#[tactic(auto, using(crate::specs::Laws::input_past))]
pub fn read_bytes(alloc: Global, cursor: &mut Cursor<'_>, longest: u32) -> Result<Bytes, ReadFault>
    ensures { Gives (bytes longest) cursor.old result cursor.new }
{
    let len = read_u32(cursor, 0, longest)?;
    let Some(part) = cursor.take(len as usize) else {
        return Err(cut_off(cursor).into());
    };
    Ok(Bytes::new(part.to_vec(alloc)?))
}

/// Appends bytes as they are.
pub fn put_slice(out: &mut Vec<u8>, part: &[u8]) -> Result<(), AllocError>
    ensures { OnOk result (out.new.items ≡ out.old.items ++ part.now) }
{
    out.extend_from_slice(part)
}

/// Appends a name with its length.
pub fn put_name(out: &mut Vec<u8>, name: &Name) -> Result<(), AllocError>
    ensures { OnOk result (out.new.items ≡ out.old.items ++ (length name.now ∷ name.now)) }
{
    let text = name.as_bytes();
    put_u8(out, text.len() as u8)?;
    out.extend_from_slice(text)
}

/// Appends bytes with their length.
pub fn put_bytes(out: &mut Vec<u8>, bytes: &Bytes) -> Result<(), AllocError>
    requires { length bytes.now < 2 ^ 32 }
    ensures { OnOk result (out.new.items ≡ out.old.items ++ (to_be_bytes w32 (length bytes.now) ++ bytes.now)) }
{
    put_u32(out, bytes.len() as u32)?;
    out.extend_from_slice(bytes.as_slice())
}

/// Whether a number is a field of one byte from `low` to `high`, both included. It takes no memory.
pub fn is_u8(given: u8, low: u8, high: u8) -> bool
    ensures { result ≡ (byte low high).allowed given }
{
    low <= given && given <= high
}

/// The same of four bytes. It takes no memory.
pub fn is_u32(given: u32, low: u32, high: u32) -> bool
    ensures { result ≡ (number w32 low high).allowed given }
{
    low <= given && given <= high
}

/// The same of eight bytes. It takes no memory.
pub fn is_u64(given: u64, low: u64, high: u64) -> bool
    ensures { result ≡ (number w64 low high).allowed given }
{
    low <= given && given <= high
}

/// Whether they are `N` bytes, which they always are. It takes no memory.
pub fn is_array<const N: usize>(given: &[u8; N]) -> bool
    ensures { result ≡ (cells N any_text).allowed given.now }
{
    given.len() == N
}

/// Whether a name has a length of its field, which it always has. It takes no memory.
pub fn is_name(given: &Name) -> bool
    ensures { result ≡ name.allowed given.now }
{
    (1..=Name::MAX_LEN).contains(&given.as_bytes().len())
}

/// Whether there are at most so many bytes. It takes no memory.
pub fn are_bytes(given: &Bytes, longest: u32) -> bool
    ensures { result ≡ (bytes longest).allowed given.now }
{
    given.len() <= longest as usize
}
