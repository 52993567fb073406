//! Printing task lines, and the numbers and batches of other lines.

ghost use Rattle.std.specs.Prelude.{◌≡◌, ◌++◌, None, OnOk, OnErr};
ghost use Rattle.std.specs.Fmt.{decimal};
ghost use Rattle.std.specs.List.{join_with_byte};
ghost use Rattle.dap_script.specs.Spelling.{ended, expiry_text, kind_words, list_text, span_text, spelling};
ghost use Rattle.dap_script.specs.declared.line.Line.TheVariants.{Task};

use dap_bytes::{Name, Span};
use std::alloc::{AllocError, Global};
use vdaf_api::Kind;

/// Appends a number in decimal. An `Err` changes nothing.
pub fn put_number(alloc: Global, out: &mut Vec<u8>, number: u128) -> Result<(), AllocError>
    ensures ok { OnOk result (out.new.items ≡ out.old.items ++ decimal number) }
    ensures err { OnErr result (out.new.items ≡ out.old.items) }
{
    let text = number.to_string(alloc)?;
    out.extend_from_slice(text.as_str().as_bytes())
}

/// Appends the numbers with a comma between any two.
fn put_bounds(alloc: Global, out: &mut Vec<u8>, bounds: &[u64]) -> Result<(), AllocError>
    ensures { OnOk result (out.new.items ≡ out.old.items ++ list_text bounds.now) }
{
    let [first, others @ ..] = bounds else {
        return Ok(());
    };
    put_number(alloc, out, u128::from(*first))?;
    for bound in others {
        out.push(b',')?;
        put_number(alloc, out, u128::from(*bound))?;
    }
    Ok(())
}

/// Appends the words of a kind.
fn put_kind(alloc: Global, out: &mut Vec<u8>, kind: &Kind) -> Result<(), AllocError>
    ensures { OnOk result (out.new.items ≡ out.old.items ++ join_with_byte 32 (kind_words kind.now)) }
{
    match kind {
        Kind::Count => out.extend_from_slice(b"count"),
        Kind::Sum { bits } => {
            out.extend_from_slice(b"sum ")?;
            put_number(alloc, out, u128::from(*bits))
        }
        Kind::Histogram { bounds } => {
            out.extend_from_slice(b"histogram ")?;
            put_bounds(alloc, out, bounds.as_slice())
        }
        Kind::Vector { len, bits } => {
            out.extend_from_slice(b"vector ")?;
            put_number(alloc, out, u128::from(*len))?;
            out.push(b' ')?;
            put_number(alloc, out, u128::from(*bits))
        }
    }
}

/// Appends a batch: its start, and behind a space how many buckets it has, where it isn't one. After an `Err` a part of
/// it may stand there.
pub fn put_span(alloc: Global, out: &mut Vec<u8>, span: &Span) -> Result<(), AllocError>
    ensures { OnOk result (out.new.items ≡ out.old.items ++ span_text span.now) }
{
    put_number(alloc, out, u128::from(span.start))?;
    if span.buckets == 1 {
        return Ok(());
    }
    out.push(b' ')?;
    put_number(alloc, out, u128::from(span.buckets))
}

/// Appends the words that say when a task expires, if it does, each behind a space.
fn put_expiry(alloc: Global, out: &mut Vec<u8>, expires: Option<u64>) -> Result<(), AllocError>
    ensures { OnOk result (out.new.items ≡ out.old.items ++ expiry_text expires) }
{
    match expires {
        None => Ok(()),
        Some(t) => {
            out.extend_from_slice(b" expires ")?;
            put_number(alloc, out, u128::from(t))
        }
    }
}

/// Appends the line without its end and its expiry. After an `Err` a part of it may stand there.
fn put_lasting(
    alloc: Global,
    out: &mut Vec<u8>,
    name: &Name,
    kind: &Kind,
    min: u32,
    precision: u32,
) -> Result<(), AllocError>
    ensures { OnOk result (out.new.items ≡ out.old.items ++ spelling (Task name.now kind.now min precision None)) }
{
    out.extend_from_slice(b"task ")?;
    out.extend_from_slice(name.as_bytes())?;
    out.push(b' ')?;
    put_kind(alloc, out, kind)?;
    out.push(b' ')?;
    put_number(alloc, out, u128::from(min))?;
    out.push(b' ')?;
    put_number(alloc, out, u128::from(precision))
}

/// Appends the line of a task and its end: `task NAME KIND.. MIN PRECISION`, then `expires T` where it expires, and a
/// line feed. An `Err` changes nothing.
pub fn print_task(
    alloc: Global,
    name: &Name,
    kind: &Kind,
    min: u32,
    precision: u32,
    expires: Option<u64>,
    out: &mut Vec<u8>,
) -> Result<(), AllocError>
    ensures ok { OnOk result (out.new.items ≡ out.old.items ++ ended (Task name.now kind.now min precision expires)) }
    ensures err { OnErr result (out.new.items ≡ out.old.items) }
{
    let mut text = Vec::new(alloc);
    put_lasting(alloc, &mut text, name, kind, min, precision)?;
    put_expiry(alloc, &mut text, expires)?;
    text.push(b'\n')?;
    out.extend_from_slice(&text)
}
