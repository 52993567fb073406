//! Measurement functions of lists of numbers.
ghost use Rattle.vdaf_api.specs.Answered.{Shards};

use crate::fault::ShardFault;
use crate::shares::Shares;
use crate::vdaf::Vdaf;
use dap_bytes::Id;
use std::alloc::Global;

/// A measurement function whose measurements may be lists of numbers. A measurement of every kind but a vector is a list
/// of one number.
pub trait ListVdaf: Vdaf {
    /// The shares of a list of numbers; for a list of one they are those of `shard`. It is `BadValue` exactly where the
    /// list isn't a measurement of the kind, and `Spent` only where it is and a drawing from the seed is spent.
    /// `BadValue` is told however little memory there is.
    fn shard_list(
        &self,
        alloc: Global,
        id: &Id,
        m: &[u64],
        seed: &[u8; 16],
    ) -> Result<Shares, ShardFault>
        ensures { Shards result ((Self.functions self.now).encoding m.now)
            ((Self.functions self.now).shard id.now m.now seed.now) };
}
