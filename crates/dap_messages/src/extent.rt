//! How a form holds a batch.

ghost use Rattle.std.specs.Prelude.{◌≡◌, ◌++◌, IsTrue, OnOk};
ghost use Rattle.dap_messages.specs.Shares.{extent_of, span_as};
ghost use Rattle.dap_messages.specs.Spelled.{Finds};

use crate::fault::Form;
use crate::fields::{is_u8, is_u64, read_u8, read_u64};
use dap_bytes::{Cursor, LATEST_TIME, MOST_BUCKETS, Span, put_u8, put_u64};
use std::alloc::AllocError;

/// How a form of a message or record holds a batch. A batch has one of them, so a value has one spelling.
#[derive(Clone, Copy, Debug, PartialEq, Eq)]
pub enum Extent {
    /// A batch of one bucket, by its start alone.
    Single,
    /// A batch of 2 to `MOST_BUCKETS` buckets, by its start and the number of its buckets.
    Several,
}

impl Extent {
    /// The extent of the form that a batch has. It takes no memory.
    pub fn of(span: &Span) -> Extent
        ensures { result ≡ extent_of span.now }
    {
        if span.buckets == 1 {
            Extent::Single
        } else {
            Extent::Several
        }
    }
}

/// A batch in a form of this extent: its start, at most `LATEST_TIME`, and for `Several` a byte from 2 to
/// `MOST_BUCKETS`.
pub fn read_span(cursor: &mut Cursor<'_>, extent: Extent) -> Result<Span, Form>
    ensures { Finds (span_as extent) cursor.old result cursor.new }
{
    let start = read_u64(cursor, 0, LATEST_TIME)?;
    let buckets = match extent {
        Extent::Single => 1,
        Extent::Several => read_u8(cursor, 2, MOST_BUCKETS)?,
    };
    Ok(Span { start, buckets })
}

/// Appends a batch as its form holds it.
pub fn put_span(out: &mut Vec<u8>, span: &Span) -> Result<(), AllocError>
    ensures { OnOk result (out.new.items ≡ out.old.items ++ (span_as (extent_of span.now)).spell span.now) }
{
    put_u64(out, span.start)?;
    match Extent::of(span) {
        Extent::Single => Ok(()),
        Extent::Several => put_u8(out, span.buckets),
    }
}

/// Whether a batch has a form: its start is a time, and it has 1 to `MOST_BUCKETS` buckets. It takes no memory.
pub fn is_span(span: &Span) -> bool
    ensures { result ≡ (span_as (extent_of span.now)).allowed span.now }
{
    is_u64(span.start, 0, LATEST_TIME) && is_u8(span.buckets, 1, MOST_BUCKETS)
}
