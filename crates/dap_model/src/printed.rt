//! The printed lines.

ghost use Rattle.std.specs.Prelude.{◌≡◌, ◌++◌, OnOk};
ghost use Rattle.dap_model.specs.Printed.{answer_text, cause_word, numbers_text};

use dap_bytes::{Name, Span};
use dap_script::{put_number, put_span};
use dap_tasks::Cause;
use std::alloc::{AllocError, Global};
use vdaf_api::{Answer, Collected};

/// A line of output.
#[derive(Debug, PartialEq, Eq, Drop)]
pub enum Printed {
    /// The task's batch was collected, now or before.
    Collected {
        name: Name,
        span: Span,
        what: Collected,
    },
    /// The task's batch has too few reports to be collected.
    Small {
        name: Name,
        span: Span,
        reports: u32,
    },
    /// The line of this number, counted from 1, was refused.
    Refused {
        line: u32,
        cause: Cause,
    },
    /// The line of this number, counted from 1, was refused, since its batch shares a bucket with this collected batch of
    /// its task, of which it isn't a repeat.
    Overlap {
        line: u32,
        other: Span,
    },
}

fn put_text(out: &mut Vec<u8>, text: &str) -> Result<(), AllocError>
    ensures ok { OnOk result (out.new.items ≡ out.old.items ++ text.now) }
{
    out.extend_from_slice(text.as_bytes())
}

/// The word of a cause.
fn cause_word(cause: Cause) -> &'static str
    ensures { result.now ≡ cause_word cause }
{
    match cause {
        Cause::Task => "task",
        Cause::Form => "form",
        Cause::Value => "value",
        Cause::Early => "early",
        Cause::Expired => "expired",
        Cause::Conflict => "conflict",
        Cause::Collected => "collected",
        Cause::Start => "start",
    }
}

/// Appends the numbers with a comma between any two.
fn put_numbers(alloc: Global, out: &mut Vec<u8>, numbers: &[u128]) -> Result<(), AllocError>
    ensures { OnOk result (out.new.items ≡ out.old.items ++ numbers_text numbers.now) }
{
    let [first, rest @ ..] = numbers else {
        return Ok(());
    };
    put_number(alloc, out, *first)?;
    for number in rest {
        put_text(out, ",")?;
        put_number(alloc, out, *number)?;
    }
    Ok(())
}

fn put_answer(alloc: Global, out: &mut Vec<u8>, answer: &Answer) -> Result<(), AllocError>
    ensures { OnOk result (out.new.items ≡ out.old.items ++ answer_text answer.now) }
{
    match answer {
        Answer::Count(number) => {
            put_text(out, " count ")?;
            put_number(alloc, out, u128::from(*number))
        }
        Answer::Sum(number) => {
            put_text(out, " sum ")?;
            put_number(alloc, out, *number)
        }
        Answer::Histogram(numbers) => {
            put_text(out, " histogram ")?;
            put_numbers(alloc, out, numbers.as_slice())
        }
        Answer::Vector(numbers) => {
            put_text(out, " vector ")?;
            put_numbers(alloc, out, numbers.as_slice())
        }
    }
}

impl Printed {
    ghost use Rattle.dap_model.specs.Printed.{line_text};

    /// Appends the line without its end. After an `Err` a part of it may stand there.
    pub fn put(&self, alloc: Global, out: &mut Vec<u8>) -> Result<(), AllocError>
        ensures { OnOk result (out.new.items ≡ out.old.items ++ line_text self.now) }
    {
        match self {
            Printed::Collected { name, span, what } => {
                put_text(out, "collected ")?;
                out.extend_from_slice(name.as_bytes())?;
                put_text(out, " ")?;
                put_span(alloc, out, span)?;
                put_text(out, " reports ")?;
                put_number(alloc, out, u128::from(what.reports))?;
                put_text(out, " rejected ")?;
                put_number(alloc, out, u128::from(what.rejected))?;
                put_answer(alloc, out, &what.answer)
            }
            Printed::Small {
                name,
                span,
                reports,
            } => {
                put_text(out, "small ")?;
                out.extend_from_slice(name.as_bytes())?;
                put_text(out, " ")?;
                put_span(alloc, out, span)?;
                put_text(out, " reports ")?;
                put_number(alloc, out, u128::from(*reports))
            }
            Printed::Refused { line, cause } => {
                put_text(out, "refused ")?;
                put_number(alloc, out, u128::from(*line))?;
                put_text(out, " ")?;
                put_text(out, cause_word(*cause))
            }
            Printed::Overlap { line, other } => {
                put_text(out, "refused ")?;
                put_number(alloc, out, u128::from(*line))?;
                put_text(out, " overlap ")?;
                put_number(alloc, out, u128::from(other.start))?;
                put_text(out, " ")?;
                put_number(alloc, out, u128::from(other.buckets))
            }
        }
    }
}
