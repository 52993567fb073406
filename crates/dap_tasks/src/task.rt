//! Tasks.

use dap_bytes::Name;
use std::marker::Model;
use vdaf_api::{Kind, SealKeys};

/// What is measured, under which name, in which batches, and with which keys. A contract sees it as the record of its
/// fields, and its numbers are always within their ranges.
#[derive(Clone, Debug, Drop)]
pub struct Task {
    /// The task's name.
    pub name: Name,
    /// What it measures.
    pub kind: Kind,
    /// How many reports a batch must have to be collected: 1 to 1,000,000.
    pub min: u32,
    /// The length of its buckets in units of time: 1 to 1,000,000,000.
    pub precision: u32,
    /// The moment from which it takes no more reports, in units of time and at most `LATEST_TIME`, if there is one.
    pub expires: Option<u64>,
    /// The key with which both aggregators verify reports.
    pub verify: [u8; 16],
    /// The keys of the leader's half.
    pub leader: SealKeys,
    /// The keys of the helper's half.
    pub helper: SealKeys,
}

impl Model for Task {
    ghost use Rattle.dap_tasks.specs.Task.{PlainTask};
    ghost use Rattle.vdaf_api.specs.TaskNumbers.{AreTaskNumbers, IsExpiry};

    ghost Value = { PlainTask };

    ghost view = { λ t. record {
      name = t.name;
      kind = t.kind;
      min = t.min;
      precision = t.precision;
      expires = t.expires;
      verify = t.verify;
      leader = t.leader;
      helper = t.helper;
    } };

    ghost invariant = { λ t. AreTaskNumbers t.kind t.min t.precision × IsExpiry t.expires };
}
