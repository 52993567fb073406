//! Why a line is refused.

/// By how much a report's time may be above the moment, in units of time, since clocks differ.
pub const MOST_AHEAD: u64 = 300;

/// Why a line of a script, or an upload, is refused.
#[derive(Clone, Copy, Debug, PartialEq, Eq)]
pub enum Cause {
    /// No task of this name is known.
    Task,
    /// The bytes of an upload are no report.
    Form,
    /// The measurement isn't of the task's kind, or it has no shares.
    Value,
    /// The report's time is more than `MOST_AHEAD` units above the moment.
    Early,
    /// The moment is at or past the task's expiry.
    Expired,
    /// Another report of the task has the identifier.
    Conflict,
    /// The report's bucket lies in a collected batch.
    Collected,
    /// The batch's start is no multiple of the task's precision, or its last bucket begins later than any time.
    Start,
}

/// What became of an upload.
#[derive(Clone, Copy, Debug, PartialEq, Eq)]
pub struct Answer {
    /// The line that offered it, counted from 1.
    pub line: u32,
    /// Why it was refused; none where it was accepted, now or before.
    pub cause: Option<Cause>,
}

/// What a report comes to that is offered.
#[derive(Clone, Copy, Debug, PartialEq, Eq)]
pub enum Judged {
    /// It was accepted before.
    Again,
    /// It is barred by a cause.
    Barred(Cause),
    /// It is added.
    Added,
}
