//! Batches as intervals of time.

ghost use Rattle.std.specs.Prelude.{◌≡◌, ◌<◌, ◌≤◌};
ghost use Rattle.dap_bytes.specs.Spans.{HasBuckets, bucket_at, holds_bucket, passes_start, shares_bucket};

use crate::limits::LATEST_TIME;

/// A batch: some buckets of time, one behind the other. A bucket is as long as its task's precision, and is named by its
/// start. A script and a message name a batch of 1 to `MOST_BUCKETS` buckets. None of these calls takes memory.
#[derive(Clone, Copy, Debug, PartialEq, Eq)]
pub struct Span {
    /// Where its first bucket begins, in units of time.
    pub start: u64,
    /// How many buckets it has.
    pub buckets: u8,
}

impl Span {
    /// The start of its bucket `i`, counted from 0.
    pub fn bucket(&self, precision: u32, i: u8) -> u64
        requires within { i < self.now.buckets }
        requires time { self.now.start ≤ LATEST_TIME }
        ensures { result ≡ bucket_at self.now precision i }
    {
        self.start + u64::from(i) * u64::from(precision)
    }

    /// Whether one of its buckets begins at `start`.
    pub fn holds(&self, start: u64, precision: u32) -> bool
        requires { self.now.start ≤ LATEST_TIME }
        ensures { result ≡ holds_bucket self.now precision start }
    {
        (0..self.buckets).any(|i| self.bucket(precision, i) == start)
    }

    /// Whether the two share a bucket: whether one start is a bucket of the other batch. That is so exactly where some
    /// bucket is in both (a law, `batches_share_what_is_in_both`).
    pub fn shares(&self, other: &Span, precision: u32) -> bool
        requires times { (self.now.start ≤ LATEST_TIME) × (other.now.start ≤ LATEST_TIME) }
        requires buckets { HasBuckets self.now × HasBuckets other.now }
        ensures { result ≡ shares_bucket self.now other.now precision }
    {
        self.holds(other.start, precision) || other.holds(self.start, precision)
    }

    /// Whether it may be a batch of a task of this precision: it starts at a multiple of the precision, and its last
    /// bucket at a time.
    pub fn passes_start(&self, precision: u32) -> bool
        requires { 0 < precision }
        ensures { result ≡ passes_start self.now precision }
    {
        let behind = u64::from(self.buckets.saturating_sub(1)) * u64::from(precision);
        self.start % u64::from(precision) == 0
            && self.start <= LATEST_TIME
            && self.start + behind <= LATEST_TIME
    }
}
