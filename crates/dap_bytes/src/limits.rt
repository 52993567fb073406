//! The limits that several layers have alike. Clauses, specs and proofs cite them as
//! `Rattle.dap_bytes.specs.declared.limits.TheConstants.{LATEST_TIME}`, which stands for the number itself; in clauses of
//! this crate they need no import.

/// The latest time of a report or a moment, and the latest start of a bucket, in units of time.
pub const LATEST_TIME: u64 = 999_999_999_999_999_999;

/// The greatest minimum of a task, in reports of a batch.
pub const GREATEST_MINIMUM: u32 = 1_000_000;

/// The greatest precision of a task, in units of time.
pub const GREATEST_PRECISION: u32 = 1_000_000_000;

/// How many buckets a batch has at most.
pub const MOST_BUCKETS: u8 = 64;

/// The longest script, in bytes.
pub const LONGEST_SCRIPT: usize = 67_108_864;

/// The longest task file, in bytes.
pub const LONGEST_TASK_FILE: usize = 1_048_576;

/// The longest block of a journal, in bytes of its records with their lengths.
pub const LONGEST_BLOCK: usize = 16_777_216;
