//! What a task line says that its task measures.

ghost use Rattle.std.specs.Prelude.{◌≡◌, IfOk};
ghost use Rattle.dap_script.specs.Fields.{count_of, sum_of, ranged, histogram_of, vector_of, form_of, kind_of};
ghost use Rattle.dap_script.specs.Words.{texts};

use crate::fields::number;
use crate::list::list;
use std::alloc::{AllocError, Global};
use vdaf_api::{Bounds, Kind};

/// Nothing after `count`.
fn count(parts: &[&str]) -> Option<Kind>
    ensures { result ≡ count_of (texts parts.now) }
{
    parts.is_empty().then_some(Kind::Count)
}

/// The kind, if it is within its ranges.
fn ranged(kind: Kind) -> Option<Kind>
    ensures { result ≡ ranged kind }
{
    if kind.is_valid() { Some(kind) } else { None }
}

/// `BITS`
fn sum(parts: &[&str]) -> Option<Kind>
    ensures { result ≡ sum_of (texts parts.now) }
{
    let [bits] = *parts else {
        return None;
    };
    let bits = u8::try_from(number(bits)?).ok()?;
    ranged(Kind::Sum { bits })
}

/// `B0,B1`
fn histogram(alloc: Global, parts: &[&str]) -> Result<Option<Kind>, AllocError>
    ensures { IfOk result (λ kind. kind ≡ histogram_of (texts parts.now)) }
{
    let [bounds] = *parts else {
        return Ok(None);
    };
    match list(alloc, bounds)? {
        None => Ok(None),
        Some(bounds) => {
            let bounds = Bounds::new(bounds);
            Ok(ranged(Kind::Histogram { bounds }))
        }
    }
}

/// `LEN BITS`
fn vector(parts: &[&str]) -> Option<Kind>
    ensures { result ≡ vector_of (texts parts.now) }
{
    let [len, bits] = *parts else {
        return None;
    };
    let len = number(len)?;
    let bits = number(bits)?;
    ranged(Kind::Vector {
        len: u16::try_from(len).ok()?,
        bits: u8::try_from(bits).ok()?,
    })
}

/// `count`, `sum BITS`, `histogram B0,B1`, `vector LEN BITS`.
pub fn kind(alloc: Global, words: &[&str]) -> Result<Option<Kind>, AllocError>
    ensures { IfOk result (λ kind. kind ≡ kind_of (texts words.now)) }
{
    let [form, parts @ ..] = words else {
        return Ok(None);
    };
    match *form {
        "count" => Ok(count(parts)),
        "sum" => Ok(sum(parts)),
        "histogram" => histogram(alloc, parts),
        "vector" => Ok(vector(parts)),
        _ => Ok(None),
    }
}
