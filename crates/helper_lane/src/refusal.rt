//! Why a lane refuses a message.

use lane_records::LaneFault;
use thiserror::Error;

/// Why a message is no request that the lane answers. Of several causes the first one here counts.
#[derive(Clone, Copy, Debug, PartialEq, Eq, Error)]
pub enum TakeRefusal {
    /// It is neither an InitReq nor a ContReq. `at` is 0 where its first byte is neither 01 nor 03, else the place of its
    /// first fault.
    #[error("no request at byte {at}")]
    Form { at: usize },
    /// Its job or a report is of another lane.
    #[error("of another lane")]
    WrongLane,
    /// An InitReq of a name under which the lane has no task.
    #[error("no such task")]
    NoTask,
    /// An InitReq whose job is known with another name or other reports.
    #[error("the job is known with another request")]
    JobConflict,
    /// A ContReq whose job wasn't started.
    #[error("no such job")]
    NoJob,
    /// A ContReq whose identifiers aren't those of its job's Start, in order.
    #[error("not the reports of the job")]
    ReportsDiffer,
}

/// Why a lane refuses a request that was viewed. Of several causes the first one here counts.
#[derive(Clone, Copy, Debug, PartialEq, Eq, Error)]
pub enum CheckFault {
    /// Its job or a report is of another lane.
    #[error("of another lane")]
    WrongLane,
    /// The lane has no task of its name.
    #[error("no such task")]
    NoTask,
    /// Its job is known with another name or other reports.
    #[error("the job is known with another request")]
    JobConflict,
}

impl CheckFault {
    ghost use Rattle.std.specs.Prelude.{◌≡◌};
    ghost use Rattle.helper_lane.specs.Refusals.{as_taken};

    /// The same as a refusal of a message.
    pub(crate) fn as_taken(self) -> TakeRefusal
        ensures { result ≡ as_taken self }
    {
        match self {
            CheckFault::WrongLane => TakeRefusal::WrongLane,
            CheckFault::NoTask => TakeRefusal::NoTask,
            CheckFault::JobConflict => TakeRefusal::JobConflict,
        }
    }
}

/// Why a lane took no work.
#[derive(Clone, Copy, Debug, PartialEq, Eq, Error)]
pub enum TakeFault {
    /// A message came that it refuses. It is consumed.
    #[error("the message is refused")]
    Refused(TakeRefusal),
    /// The lane refuses: there was no memory, and a message that came is consumed.
    #[error("the lane refuses")]
    Lane(LaneFault),
}
