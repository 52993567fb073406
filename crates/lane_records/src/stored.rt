//! Tasks as a front keeps them.

ghost use Rattle.std.specs.Prelude.{◌≡◌, ◌++◌, IsTrue, OnOk, Option, ℕ};
ghost use Rattle.vdaf_api.specs.declared.kind.Kind.TheVariants.{Vector};
ghost use Rattle.dap_messages.specs.Spelled.{Gives, Finds};
ghost use Rattle.lane_records.specs.Stored.{kind, any_expiry, expiry, keys, task_fields, fields_of, stored};

use crate::bounds::{are_bounds, put_bounds, read_bounds};
use crate::format::Format;
use crate::sizes::{are_sizes, put_sizes, read_sizes};
use dap_bytes::{
    Cursor, GREATEST_MINIMUM, GREATEST_PRECISION, LATEST_TIME, Name, put_u8, put_u32, put_u64,
};
use dap_messages::{
    Form, ReadFault, cut_off, is_array, is_name, is_u8, is_u32, is_u64, put_name, put_slice,
    read_array, read_name, read_u8, read_u32, read_u64,
};
use std::alloc::{AllocError, Global};
use vdaf_api::{Kind, MOST_BITS, SealKeys};

/// A task as one node keeps it: with its own keys, and none of the other node's. Its numbers are in the ranges of a
/// task, in format 1 in those of old: then it is no vector, a
/// histogram has at most `MOST_OLD_BOUNDS` bounds, and it never expires.
#[derive(Debug, Drop)]
pub struct StoredTask {
    /// In which format it is written.
    pub format: Format,
    /// What tells it from other tasks.
    pub name: Name,
    /// What it measures.
    pub kind: Kind,
    /// From how many reports on a batch may be collected.
    pub min: u32,
    /// How long a bucket is, in units of time.
    pub precision: u32,
    /// From which moment on it takes no report, a time, if ever.
    pub expires: Option<u64>,
    /// The key with which both nodes verify reports.
    pub verify: [u8; 16],
    /// This node's own sealing keys.
    pub keys: SealKeys,
}

impl StoredTask {
    /// The task at the cursor, in a format.
    pub(crate) fn read(
        alloc: Global,
        cursor: &mut Cursor<'_>,
        format: Format,
    ) -> Result<Self, ReadFault>
        ensures { Gives (stored format) cursor.old result cursor.new }
    {
        let name = read_name(cursor)?;
        let kind = read_kind(alloc, cursor, format)?;
        let min = read_u32(cursor, 1, GREATEST_MINIMUM)?;
        let precision = read_u32(cursor, 1, GREATEST_PRECISION)?;
        let expires = read_expiry(cursor, format)?;
        let verify = read_array(cursor)?;
        let keys = read_keys(cursor)?;
        Ok(StoredTask {
            format,
            name,
            kind,
            min,
            precision,
            expires,
            verify,
            keys,
        })
    }

    /// Appends its spelling in its format.
    pub(crate) fn put(&self, out: &mut Vec<u8>) -> Result<(), AllocError>
        requires { IsTrue ((stored self.now.format).allowed self.now) }
        ensures { OnOk result (out.new.items ≡ out.old.items ++ (stored self.now.format).spell self.now) }
    {
        self.put_fields(out)
    }

    fn put_fields(&self, out: &mut Vec<u8>) -> Result<(), AllocError>
        requires { IsTrue ((task_fields self.now.format).allowed (fields_of self.now)) }
        ensures { OnOk result
            (out.new.items ≡ out.old.items ++ (task_fields self.now.format).spell (fields_of self.now)) }
    {
        put_name(out, &self.name)?;
        put_kind(out, &self.kind, self.format)?;
        put_u32(out, self.min)?;
        put_u32(out, self.precision)?;
        put_expiry(out, self.expires, self.format)?;
        put_slice(out, &self.verify)?;
        put_keys(out, &self.keys)
    }

    /// Whether it has a spelling in its format.
    #[tactic(auto, using(crate::specs::StoredLaws::fields_allowed))]
    pub(crate) fn is_allowed(&self) -> bool
        ensures { result ≡ (stored self.now.format).allowed self.now }
    {
        self.are_fields_allowed()
    }

    fn are_fields_allowed(&self) -> bool
        ensures { result ≡ (task_fields self.now.format).allowed (fields_of self.now) }
    {
        is_name(&self.name)
            && is_kind(&self.kind, self.format)
            && is_u32(self.min, 1, GREATEST_MINIMUM)
            && is_u32(self.precision, 1, GREATEST_PRECISION)
            && is_expiry(self.expires, self.format)
            && is_array(&self.verify)
            && are_keys(&self.keys)
    }
}

fn read_kind(alloc: Global, cursor: &mut Cursor<'_>, format: Format) -> Result<Kind, ReadFault>
    ensures { Gives (kind format) cursor.old result cursor.new }
{
    let at = cursor.place();
    match cursor.u8() {
        None => Err(cut_off(cursor).into()),
        Some(0) => Ok(Kind::Count),
        Some(1) => {
            let bits = read_u8(cursor, 1, MOST_BITS)?;
            Ok(Kind::Sum { bits })
        }
        Some(2) => {
            let bounds = read_bounds(alloc, cursor, format)?;
            Ok(Kind::Histogram { bounds })
        }
        Some(3) => match format {
            Format::One => Err(ReadFault::Form { at }),
            Format::Two => {
                let (len, bits) = read_sizes(cursor)?;
                Ok(Kind::Vector { len, bits })
            }
        },
        Some(_) => Err(ReadFault::Form { at }),
    }
}

fn put_kind(out: &mut Vec<u8>, one: &Kind, format: Format) -> Result<(), AllocError>
    requires { IsTrue ((kind format).allowed one.now) }
    ensures { OnOk result (out.new.items ≡ out.old.items ++ (kind format).spell one.now) }
{
    match one {
        Kind::Count => put_u8(out, 0),
        Kind::Sum { bits } => {
            put_u8(out, 1)?;
            put_u8(out, *bits)
        }
        Kind::Histogram { bounds } => {
            put_u8(out, 2)?;
            put_bounds(out, bounds, format)
        }
        Kind::Vector { len, bits } => put_vector(out, *len, *bits, format),
    }
}

/// Appends a vector, which format 1 doesn't know.
fn put_vector(out: &mut Vec<u8>, len: u16, bits: u8, format: Format) -> Result<(), AllocError>
    requires { IsTrue ((kind format).allowed (Vector len bits)) }
    ensures { OnOk result (out.new.items ≡ out.old.items ++ (kind format).spell (Vector len bits)) }
{
    match format {
        Format::One => Ok(()),
        Format::Two => {
            put_u8(out, 3)?;
            put_sizes(out, len, bits)
        }
    }
}

fn is_kind(given: &Kind, format: Format) -> bool
    ensures { result ≡ (kind format).allowed given.now }
{
    match given {
        Kind::Count => true,
        Kind::Sum { bits } => is_u8(*bits, 1, MOST_BITS),
        Kind::Histogram { bounds } => are_bounds(bounds, format),
        Kind::Vector { len, bits } => is_vector(*len, *bits, format),
    }
}

fn is_vector(len: u16, bits: u8, format: Format) -> bool
    ensures { result ≡ (kind format).allowed (Vector len bits) }
{
    match format {
        Format::One => false,
        Format::Two => are_sizes(len, bits),
    }
}

fn read_expiry(cursor: &mut Cursor<'_>, format: Format) -> Result<Option<u64>, Form>
    ensures { Finds (expiry format) cursor.old result cursor.new }
{
    match format {
        Format::One => Ok(None),
        Format::Two => read_some_expiry(cursor),
    }
}

/// In format 2: 00, or 01 and a time.
fn read_some_expiry(cursor: &mut Cursor<'_>) -> Result<Option<u64>, Form>
    ensures { Finds any_expiry cursor.old result cursor.new }
{
    let at = cursor.place();
    match cursor.u8() {
        None => Err(cut_off(cursor)),
        Some(0) => Ok(None),
        Some(1) => {
            let time = read_u64(cursor, 0, LATEST_TIME)?;
            Ok(Some(time))
        }
        Some(_) => Err(Form { at }),
    }
}

fn put_expiry(out: &mut Vec<u8>, given: Option<u64>, format: Format) -> Result<(), AllocError>
    requires { IsTrue ((expiry format).allowed given) }
    ensures { OnOk result (out.new.items ≡ out.old.items ++ (expiry format).spell given) }
{
    match (format, given) {
        (Format::One, _) => Ok(()),
        (Format::Two, None) => put_u8(out, 0),
        (Format::Two, Some(time)) => {
            put_u8(out, 1)?;
            put_u64(out, time)
        }
    }
}

fn is_expiry(given: Option<u64>, format: Format) -> bool
    ensures { result ≡ (expiry format).allowed given }
{
    match (format, given) {
        (_, None) => true,
        (Format::One, Some(_)) => false,
        (Format::Two, Some(time)) => is_u64(time, 0, LATEST_TIME),
    }
}

fn read_keys(cursor: &mut Cursor<'_>) -> Result<SealKeys, Form>
    ensures { Finds keys cursor.old result cursor.new }
{
    let enc = read_array(cursor)?;
    let mac = read_array(cursor)?;
    Ok(SealKeys { enc, mac })
}

fn put_keys(out: &mut Vec<u8>, one: &SealKeys) -> Result<(), AllocError>
    ensures { OnOk result (out.new.items ≡ out.old.items ++ keys.spell one.now) }
{
    put_slice(out, &one.enc)?;
    put_slice(out, &one.mac)
}

fn are_keys(given: &SealKeys) -> bool
    ensures { result ≡ keys.allowed given.now }
{
    is_array(&given.enc) && is_array(&given.mac)
}
