//! The bounds of a histogram as a field.

ghost use Rattle.std.specs.Prelude.{◌≡◌, ◌++◌, IsTrue, OnOk, None, Option, ℕ, length};
ghost use Rattle.dap_messages.specs.Spelled.{Finds, Gives, Answers};
ghost use Rattle.lane_records.specs.Bounds.{is_over, bound, bounds_at, allowed_bounds, bound_count, bounds};

use crate::format::Format;
use dap_bytes::{Cursor, put_u8, put_u16, put_u64};
use dap_messages::{Form, ReadFault, read_u8, read_u16, read_u64};
use std::alloc::{AllocError, Global};
use vdaf_api::{Bounds, MOST_BOUNDS};

/// The most bounds of a histogram in a record of format 1.
pub const MOST_OLD_BOUNDS: u8 = 63;

/// A number of bounds, and the bounds, which ascend strictly.
pub(crate) fn read_bounds(
    alloc: Global,
    cursor: &mut Cursor<'_>,
    format: Format,
) -> Result<Bounds, ReadFault>
    ensures { Gives (bounds format) cursor.old result cursor.new }
{
    let count = read_count(cursor, format)?;
    read_some(alloc, cursor, count)
}

/// How many bounds there are: in format 1 a u8, in format 2 a u16.
fn read_count(cursor: &mut Cursor<'_>, format: Format) -> Result<u16, Form>
    ensures { Finds (bound_count format) cursor.old result cursor.new }
{
    match format {
        Format::One => {
            let count = read_u8(cursor, 1, MOST_OLD_BOUNDS)?;
            Ok(u16::from(count))
        }
        Format::Two => read_u16(cursor, 1, MOST_BOUNDS as u16),
    }
}

/// So many bounds.
fn read_some(alloc: Global, cursor: &mut Cursor<'_>, count: u16) -> Result<Bounds, ReadFault>
    ensures { Answers (bounds_at None count cursor.old) result cursor.new }
{
    let mut found = Vec::new(alloc);
    let mut last = None;
    for _ in 0..count {
        let one = read_bound(cursor, last)?;
        last = Some(one);
        found.push(one)?;
    }
    Ok(Bounds::new(found))
}

/// A bound above the last one.
fn read_bound(cursor: &mut Cursor<'_>, last: Option<u64>) -> Result<u64, Form>
    ensures { Finds (bound last) cursor.old result cursor.new }
{
    let at = cursor.place();
    let number = read_u64(cursor, 0, u64::MAX)?;
    if !is_over(last, number) {
        return Err(Form { at });
    }
    Ok(number)
}

fn is_over(last: Option<u64>, number: u64) -> bool
    ensures { result ≡ is_over last number }
{
    match last {
        None => true,
        Some(last) => last < number,
    }
}

/// Appends the number of bounds and the bounds.
pub(crate) fn put_bounds(
    out: &mut Vec<u8>,
    given: &Bounds,
    format: Format,
) -> Result<(), AllocError>
    requires { IsTrue ((bounds format).allowed given.now) }
    ensures { OnOk result (out.new.items ≡ out.old.items ++ (bounds format).spell given.now) }
{
    let numbers = given.as_slice();
    put_count(out, numbers.len(), format)?;
    for number in numbers {
        put_u64(out, *number)?;
    }
    Ok(())
}

/// Appends a number of bounds.
fn put_count(out: &mut Vec<u8>, count: usize, format: Format) -> Result<(), AllocError>
    requires { IsTrue ((bound_count format).allowed count) }
    ensures { OnOk result (out.new.items ≡ out.old.items ++ (bound_count format).spell count) }
{
    match format {
        Format::One => put_u8(out, count as u8),
        Format::Two => put_u16(out, count as u16),
    }
}

/// Whether they are the bounds of a histogram in the format.
pub(crate) fn are_bounds(given: &Bounds, format: Format) -> bool
    ensures { result ≡ (bounds format).allowed given.now }
{
    let numbers = given.as_slice();
    is_count(numbers.len(), format) && do_ascend(numbers)
}

/// Whether a histogram has so many bounds in the format.
fn is_count(count: usize, format: Format) -> bool
    ensures { result ≡ (bound_count format).allowed count }
{
    match format {
        Format::One => (1..=usize::from(MOST_OLD_BOUNDS)).contains(&count),
        Format::Two => (1..=MOST_BOUNDS).contains(&count),
    }
}

/// Whether each is above the one before it.
fn do_ascend(numbers: &[u64]) -> bool
    ensures { result ≡ allowed_bounds None numbers.now }
{
    let mut last = None;
    for number in numbers {
        if !is_over(last, *number) {
            return false;
        }
        last = Some(*number);
    }
    true
}
