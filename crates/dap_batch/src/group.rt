//! Batches and lanes.

ghost use Rattle.std.specs.Prelude.{◌≡◌, ◌+◌, ◌%◌, ◌<◌, ◌≤◌};
ghost use Rattle.dap_batch.specs.Group.{batch_start, lane_number};

use dap_bytes::Id;

/// The batch of a report's time: the start of the time bucket in which it lies. Buckets are `precision` units of time
/// long and begin at its multiples. It takes no memory.
pub fn batch_of(time: u64, precision: u32) -> u64
    requires { 0 < precision }
    ensures value { result ≡ batch_start time precision }
    ensures multiple { result % precision ≡ 0 }
    ensures starts_no_later { result ≤ time }
    ensures ends_later { time < result + precision }
{
    time - time % u64::from(precision)
}

/// The lane of a report's identifier, counted from 0: its first byte modulo the number of lanes. It takes no memory.
pub fn lane_of(id: &Id, lanes: u8) -> u8
    requires { 0 < lanes }
    ensures value { result ≡ lane_number id.now lanes }
    ensures within { result < lanes }
{
    id[0] % lanes
}
