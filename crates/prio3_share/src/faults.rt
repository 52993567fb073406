//! What a fault of a lower call is to a step of sharing.
ghost use Rattle.std.specs.Prelude.{◌≡◌};
ghost use Rattle.prio3_share.specs.Faults.{of_draw, of_encode};

use aes_cmac_prg::DrawFault;
use flp_circuits::EncodeFault;
use vdaf_api::ShardFault;

/// A spent drawing is told as such.
pub(crate) fn of_draw(fault: DrawFault) -> ShardFault
    ensures { result ≡ of_draw fault }
{
    match fault {
        DrawFault::Spent => ShardFault::Spent,
        DrawFault::NoMemory => ShardFault::NoMemory,
    }
}

/// A value that isn't one of the kind is told as such.
pub(crate) fn of_encode(fault: EncodeFault) -> ShardFault
    ensures { result ≡ of_encode fault }
{
    match fault {
        EncodeFault::BadValue => ShardFault::BadValue,
        EncodeFault::NoMemory => ShardFault::NoMemory,
    }
}
