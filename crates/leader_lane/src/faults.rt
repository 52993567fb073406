//! What a lane answers of its journal's calls.

ghost use Rattle.std.specs.Prelude.{◌≡◌};
ghost use Rattle.leader_lane.specs.Faults.{fault_of, of_lane, has_stopped};

use lane_records::LaneFault;
use part_journal::PartFault;

/// The fault of a lane by that of its journal.
pub(crate) fn fault_of(fault: PartFault) -> LaneFault
    ensures { result ≡ fault_of fault }
{
    match fault {
        PartFault::Stopped => LaneFault::Stopped,
        PartFault::NoMemory => LaneFault::NoMemory,
    }
}

/// The answer of a journal's call as a lane gives it.
pub(crate) fn of_lane<A: Drop>(outcome: Result<A, PartFault>) -> Result<A, LaneFault>
    ensures { result ≡ of_lane outcome }
{
    match outcome {
        Ok(a) => Ok(a),
        Err(fault) => Err(fault_of(fault)),
    }
}

/// Whether a journal's call answered `Stopped`.
pub(crate) fn has_stopped<A>(outcome: &Result<A, PartFault>) -> bool
    ensures { result ≡ has_stopped outcome.now }
{
    match outcome {
        Err(PartFault::Stopped) => true,
        Err(PartFault::NoMemory) | Ok(_) => false,
    }
}
