//! A lane may move to another thread, where its parameters may.

use crate::LeaderLane;
use dap_disk::Disk;
use dap_outside::Fates;
use vdaf_api::Vdaf;

fn is_send<T: Send>() {}

fn lanes_are_send<V: Vdaf + Send, D: Disk + Send, T: Fates + Send>() {
    is_send::<LeaderLane<V, D, T>>();
}
