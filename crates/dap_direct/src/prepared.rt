//! Both halves of a report, opened and prepared together.

ghost use Rattle.std.specs.Prelude.{◌≡◌, IfOk};
ghost use Rattle.dap_seal.specs.Reports.{content_numbers_of};
ghost use Rattle.dap_direct.specs.Sums.{AreOutShares, content_with};

use dap_messages::Report;
use dap_seal::{Begun, Head, SealedHalf, combined, finished};
use dap_tasks::Task;
use std::alloc::{AllocError, Global};
use vdaf_api::{Role, Vdaf};

/// The out shares of a report whose verdict is ok.
#[derive(Debug, Drop)]
pub struct OutShares {
    pub leader: Vec<u8>,
    pub helper: Vec<u8>,
}

/// The out shares of a report under a task, or none where its verdict is failed.
pub fn prepare<V: Vdaf>(
    alloc: Global,
    vdaf: &V,
    task: &Task,
    report: &Report,
) -> Result<Option<OutShares>, AllocError>
    ensures content { IfOk result
        (λ outs. content_with (V.functions vdaf.now) outs ≡ content_numbers_of
        (V.functions vdaf.now) task.now report.now) }
    ensures outs { IfOk result (AreOutShares (V.functions vdaf.now)) }
{
    let head = Head::of_report(report)?;
    let half = SealedHalf::of_helper(task, &head, report.helper.as_slice());
    let Begun::Ready(helper, theirs) = half.begin(alloc, vdaf, Role::Helper)? else {
        return Ok(None);
    };
    let half = SealedHalf::of_leader(task, &head, report.leader.as_slice());
    let Begun::Ready(leader, ours) = half.begin(alloc, vdaf, Role::Leader)? else {
        return Ok(None);
    };
    let Some(message) = combined(alloc, vdaf, &ours, &theirs)? else {
        return Ok(None);
    };
    let Some(leader) = finished(alloc, vdaf, &leader, &message)? else {
        return Ok(None);
    };
    let Some(helper) = finished(alloc, vdaf, &helper, &message)? else {
        return Ok(None);
    };
    Ok(Some(OutShares { leader, helper }))
}
