//! Laws of batches.

ghost use Rattle.std.specs.Prelude.{◌≡◌, ◌↔◌, ◌<◌, ◌≤◌, ◌%◌, ℕ, IsTrue, nat_eq};
ghost use Rattle.dap_bytes.specs.declared.span.Span.{Span};
ghost use Rattle.dap_bytes.specs.Spans.{HasBuckets, ShareSome, bucket_at, holds_bucket, one_bucket, passes_start, shares_bucket};

use crate::limits::LATEST_TIME;

/// A law: a batch holds a start exactly where it is that of a bucket with a number below its buckets; under a positive
/// precision that number is one.
pub fn a_held_bucket_has_one_number()
    ensures numbered { (span : Span) (precision start : ℕ) → IsTrue (holds_bucket span precision start)
        ↔ ((i : ℕ) × (i < span.buckets) × (start ≡ bucket_at span precision i)) }
    ensures one { (span : Span) (precision i j : ℕ) → 0 < precision
        → bucket_at span precision i ≡ bucket_at span precision j → i ≡ j }
{}

/// A law: a bucket of a batch that may be a task's begins at a multiple of the precision, and at a time.
pub fn buckets_begin_at_times()
    ensures { (span : Span) (precision start : ℕ) → 0 < precision → IsTrue (passes_start span precision)
        → IsTrue (holds_bucket span precision start) → (start % precision ≡ 0) × (start ≤ LATEST_TIME) }
{}

/// A law: two batches share a bucket exactly where some bucket is in both, so none is said of which comes first.
pub fn batches_share_what_is_in_both()
    ensures both { (a b : Span) (precision : ℕ) → HasBuckets a → HasBuckets b
        → IsTrue (shares_bucket a b precision) ↔ ShareSome a b precision }
    ensures turned { (a b : Span) (precision : ℕ) → shares_bucket a b precision ≡ shares_bucket b a precision }
{}

/// A law: batches of one bucket share it exactly where their starts are equal.
pub fn single_buckets_are_shared_where_equal()
    ensures { (s t precision : ℕ) → shares_bucket (one_bucket s) (one_bucket t) precision ≡ nat_eq s t }
{}
