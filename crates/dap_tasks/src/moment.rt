//! What the moment says of a report. The moment is the latest time that a script has told, once it has told one.

ghost use Rattle.std.specs.Prelude.{◌≡◌};
ghost use Rattle.dap_tasks.specs.Judged.{is_early, is_expired};

use crate::cause::MOST_AHEAD;

/// Whether a moment is known and the report's time is more than `MOST_AHEAD` units above it. It takes no memory.
pub fn is_early(moment: Option<u64>, time: u64) -> bool
    ensures { result ≡ is_early moment time }
{
    match moment {
        Some(moment) => moment.saturating_add(MOST_AHEAD) < time,
        None => false,
    }
}

/// Whether a moment is known and is at or past the expiry of a task, where it has one. It takes no memory.
pub fn is_expired(moment: Option<u64>, expires: Option<u64>) -> bool
    ensures { result ≡ is_expired moment expires }
{
    match (moment, expires) {
        (Some(moment), Some(expires)) => expires <= moment,
        _ => false,
    }
}
