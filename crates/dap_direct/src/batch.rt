//! The collected batches.

ghost use Rattle.std.specs.Prelude.{◌≡◌, ◌≤◌, Some, if◌then◌else◌};
ghost use Rattle.dap_bytes.specs.Spans.{HasBuckets};
ghost use Rattle.dap_model.specs.State.{earliest, has_bucket, is_batch, is_closed, is_collected, sharing, shares_with};
ghost use Rattle.dap_direct.specs.Earlier.{earlier_of};

use dap_bytes::{LATEST_TIME, Name, Span};
use dap_tasks::Task;
use std::marker::Model;

/// A batch that was collected: its task, and its buckets. A contract sees it as the model's.
#[derive(Debug, Drop)]
pub struct Batch {
    pub task: Name,
    pub span: Span,
}

impl Model for Batch {
    ghost use Rattle.std.specs.Prelude.{◌≤◌};
    ghost use Rattle.dap_bytes.specs.Spans.{HasBuckets};
    ghost use Rattle.dap_bytes.specs.declared.limits.TheConstants.{LATEST_TIME};
    ghost use Rattle.dap_model.specs.State.{Batch as PlainBatch};

    ghost Value = { PlainBatch };

    ghost view = { λ b. record { task = b.task; span = b.span } };

    ghost invariant = { λ b. HasBuckets b.span × (b.span.start ≤ LATEST_TIME) };
}

/// The one that starts first, of those so far and another.
fn earlier(first: Option<Span>, other: Span) -> Span
    ensures { result ≡ earlier_of first other }
{
    match first {
        Some(first) if first.start <= other.start => first,
        _ => other,
    }
}

impl Batch {
    fn is(&self, task: &Name, span: &Span) -> bool
        ensures { result ≡ is_batch task.now span.now self.now }
    {
        self.task == *task && self.span == *span
    }

    fn has_bucket(&self, task: &Name, precision: u32, bucket: u64) -> bool
        ensures { result ≡ has_bucket task.now precision bucket self.now }
    {
        self.task == *task && self.span.holds(bucket, precision)
    }

    fn shares_with(&self, task: &Task, span: &Span) -> bool
        requires buckets { HasBuckets span.now }
        requires time { span.now.start ≤ LATEST_TIME }
        ensures { result ≡ shares_with task.now span.now self.now }
    {
        self.task == task.name && self.span.shares(span, task.precision)
    }

    /// The one that starts first, of those so far and this batch, if it's one of the task's that share a bucket with the
    /// other.
    fn or_first(&self, first: Option<Span>, task: &Task, span: &Span) -> Option<Span>
        requires buckets { HasBuckets span.now }
        requires time { span.now.start ≤ LATEST_TIME }
        ensures { result ≡ (if shares_with task.now span.now self.now then Some
            (earlier_of first self.now.span) else first) }
    {
        if self.shares_with(task, span) {
            Some(earlier(first, self.span))
        } else {
            first
        }
    }

    /// Whether the task's batch of these buckets is among these. It takes no memory.
    pub fn any(collected: &[Batch], task: &Name, span: &Span) -> bool
        ensures { result ≡ is_collected collected.now task.now span.now }
    {
        collected.iter().any(|batch| batch.is(task, span))
    }

    /// Whether one of these holds the task's bucket, where the task has this precision. It takes no memory.
    pub fn any_with(collected: &[Batch], task: &Name, precision: u32, bucket: u64) -> bool
        ensures { result ≡ is_closed collected.now task.now precision bucket }
    {
        collected
            .iter()
            .any(|batch| batch.has_bucket(task, precision, bucket))
    }

    /// Of these the one of the task that shares a bucket with this batch, the one that starts first, if there is one. It
    /// takes no memory.
    pub fn overlap(collected: &[Batch], task: &Task, span: &Span) -> Option<Span>
        requires buckets { HasBuckets span.now }
        requires time { span.now.start ≤ LATEST_TIME }
        ensures { result ≡ earliest (sharing task.now span.now collected.now) }
    {
        let mut first = None;
        for batch in collected {
            first = batch.or_first(first, task, span);
        }
        first
    }
}
