//! Honest reports.

ghost use Rattle.std.specs.Prelude.{◌≡◌, ◌≤◌, [], ◌∷◌, IfOk, IfSome, IsTrue};
ghost use Rattle.std.specs.Option.{option_map};
ghost use Rattle.dap_bytes.specs.Name.{IsName};
ghost use Rattle.dap_bytes.specs.declared.limits.TheConstants.{LATEST_TIME};
ghost use Rattle.dap_messages.specs.Messages.{report};
ghost use Rattle.vdaf_api.specs.Answered.{parts_of};
ghost use Rattle.vdaf_api.specs.Promises.{PartsAreShort};
ghost use Rattle.dap_seal.specs.Answered.{Makes};
ghost use Rattle.dap_seal.specs.Reports.{honest_report, report_of};

use crate::cmac_seal::CmacSeal;
use crate::head::Head;
use crate::seal::Seal;
use dap_bytes::{Bytes, Id, Name};
use dap_messages::{Report, write_report};
use dap_tasks::Task;
use std::alloc::{AllocError, Global};
use vdaf_api::{ListVdaf, Role, ShardFault, Shares, Vdaf};

/// The bytes of the report that an honest client of a task makes of a measurement of one number, with a time of at most
/// `LATEST_TIME`. It is within the limits of a report's fields, so that its bytes are read again. `BadValue`
/// exactly where the measurement isn't one of the kind, and `Spent` exactly where it is and a drawing from the seed is
/// spent.
pub fn make_report<V: Vdaf>(
    alloc: Global,
    task: &Task,
    vdaf: &V,
    id: &Id,
    time: u64,
    m: u64,
    seed: &[u8; 16],
) -> Result<Vec<u8>, ShardFault>
    requires { time ≤ LATEST_TIME }
    ensures made { Makes result ((V.functions vdaf.now).encoding (m ∷ []))
        (option_map report.spell (honest_report (V.functions vdaf.now) task.now id.now time (m ∷ []) seed.now)) }
    ensures allowed { IfOk result (λ _. IfSome
        (honest_report (V.functions vdaf.now) task.now id.now time (m ∷ []) seed.now)
        (λ r. IsTrue (report.allowed r))) }
{
    let shares = vdaf.shard(alloc, id, m, seed)?;
    Ok(report_bytes(alloc, task, id, time, shares)?)
}

/// The bytes of the report that an honest client of a task makes of a list of numbers, with a time of at most
/// `LATEST_TIME`; of a list of one they are those of `make_report`. It is within the limits of a report's fields, so
/// that its bytes are read again. `BadValue` exactly where the list isn't a measurement of the kind, and `Spent` exactly
/// where it is and a drawing from the seed is spent.
pub fn make_list_report<V: ListVdaf>(
    alloc: Global,
    task: &Task,
    vdaf: &V,
    id: &Id,
    time: u64,
    m: &[u64],
    seed: &[u8; 16],
) -> Result<Vec<u8>, ShardFault>
    requires { time ≤ LATEST_TIME }
    ensures made { Makes result ((V.functions vdaf.now).encoding m.now)
        (option_map report.spell (honest_report (V.functions vdaf.now) task.now id.now time m.now seed.now)) }
    ensures allowed { IfOk result (λ _. IfSome
        (honest_report (V.functions vdaf.now) task.now id.now time m.now seed.now)
        (λ r. IsTrue (report.allowed r))) }
{
    let shares = vdaf.shard_list(alloc, id, m, seed)?;
    Ok(report_bytes(alloc, task, id, time, shares)?)
}

/// The bytes of the report of short shares.
fn report_bytes(
    alloc: Global,
    task: &Task,
    id: &Id,
    time: u64,
    shares: Shares,
) -> Result<Vec<u8>, AllocError>
    requires time { time ≤ LATEST_TIME }
    requires short { PartsAreShort (parts_of shares) }
    ensures bytes { IfOk result (λ v. v.items ≡ report.spell (report_of task.now id.now time (parts_of shares))) }
    ensures allowed { IfOk result (λ _. IsTrue (report.allowed (report_of task.now id.now time (parts_of shares)))) }
{
    let made = sealed_report(alloc, task, id, time, shares)?;
    write_report(alloc, &made)
}

/// The report of shares, each half sealed for its aggregator.
fn sealed_report(
    alloc: Global,
    task: &Task,
    id: &Id,
    time: u64,
    shares: Shares,
) -> Result<Report, AllocError>
    ensures report { IfOk result (λ r. r ≡ report_of task.now id.now time (parts_of shares)) }
    ensures name { IfOk result (λ r. IsName r.name) }
{
    let name = name_of(task);
    let Shares {
        public,
        leader,
        helper,
    } = shares;
    let head = Head {
        name,
        id: *id,
        time,
        public,
    };
    let leader = CmacSeal::new(&task.leader, Role::Leader).seal(alloc, &head, leader.as_slice())?;
    let helper = CmacSeal::new(&task.helper, Role::Helper).seal(alloc, &head, helper.as_slice())?;
    let Head { public, .. } = head;
    Ok(Report {
        name,
        id: *id,
        time,
        public,
        leader: Bytes::new(leader),
        helper: Bytes::new(helper),
    })
}

/// A task's name, of which a caller then knows that it is one.
fn name_of(task: &Task) -> Name
    ensures same { result ≡ task.now.name }
    ensures name { IsName result }
{
    let name = task.name;
    let _bytes = name.as_bytes();
    name
}
