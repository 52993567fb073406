//! What a fault of a lower call is to a step of preparing.
ghost use Rattle.std.specs.Prelude.{◌≡◌};
ghost use Rattle.prio3_prep.specs.Faults.{of_draw, of_query};

use aes_cmac_prg::DrawFault;
use flp_proof::QueryFault;
use vdaf_api::PrepFault;

/// A spent drawing makes a report invalid.
pub(crate) fn of_draw(fault: DrawFault) -> PrepFault
    ensures { result ≡ of_draw fault }
{
    match fault {
        DrawFault::Spent => PrepFault::Invalid,
        DrawFault::NoMemory => PrepFault::NoMemory,
    }
}

/// A query point that is a root makes a report invalid.
pub(crate) fn of_query(fault: QueryFault) -> PrepFault
    ensures { result ≡ of_query fault }
{
    match fault {
        QueryFault::Root => PrepFault::Invalid,
        QueryFault::NoMemory => PrepFault::NoMemory,
    }
}
