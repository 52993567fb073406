//! Reports that are offered.

ghost use Rattle.std.specs.Prelude.{◌≡◌, ◌⊎◌, ◌+◌, ◌<◌, ◌≤◌, ◌^◌, [], ◌∷◌, Some, None, Ok, IsTrue, IfOk, IfSome, OnOk, length};
ghost use Rattle.std.specs.Option.{option_to_list};
ghost use Rattle.dap_bytes.specs.Name.{IsName};
ghost use Rattle.vdaf_api.specs.declared.fault.ShardFault.TheVariants as shard;
ghost use Rattle.dap_messages.specs.Messages.{report};
ghost use Rattle.dap_seal.specs.Reports.{honest_report};
ghost use Rattle.dap_model.specs.Step.{name_in, report_in};
ghost use Rattle.dap_direct.specs.Honest.{Spell};

use crate::prepared::prepare;
use crate::state::Direct;
use crate::sums::Sums;
use dap_batch::batch_of;
use dap_bytes::{Id, LATEST_TIME, Name};
use dap_messages::{ReadFault, Report, read_report};
use dap_model::Printed;
use dap_seal::make_list_report;
use dap_tasks::{Cause, Judged, Task};
use std::alloc::{AllocError, Global};
use vdaf_api::{ListVdaf, Measurement, ShardFault, Vdaf};

/// A measurement that a line gives: the report's identifier, its time, the value that is measured, and the seed from which
/// the client draws.
#[derive(Clone, Copy, Debug)]
pub struct Measured<'a> {
    pub id: Id,
    pub time: u64,
    pub value: &'a Measurement,
    pub seed: [u8; 16],
}

/// The printed line of a line that is refused.
pub fn refusal(line: u32, cause: Cause) -> Option<Printed>
    ensures { option_to_list result ≡ Printed.Refused line cause ∷ [] }
{
    Some(Printed::Refused { line, cause })
}

/// The name that bytes begin with, after its length, if they begin so. It takes no memory.
pub fn name_in(bytes: &[u8]) -> Option<Name>
    ensures { result ≡ name_in bytes.now }
{
    let [size, rest @ ..] = bytes else {
        return None;
    };
    let size = usize::from(*size);
    if size > rest.len() {
        return None;
    }
    Name::new(&rest[..size])
}

/// The report that bytes spell, if they spell one.
fn report_in(alloc: Global, bytes: &[u8]) -> Result<Option<Report>, AllocError>
    ensures report { IfOk result (λ found. found ≡ report_in bytes.now) }
    ensures spelled { IfOk result (λ found. IfSome found (λ r. IsTrue (report.allowed r))) }
    ensures bytes { IfOk result (λ found. IfSome found (λ r. bytes.now ≡ report.spell r)) }
{
    match read_report(alloc, bytes) {
        Ok(report) => Ok(Some(report)),
        Err(ReadFault::Form { .. }) => Ok(None),
        Err(ReadFault::NoMemory) => Err(AllocError),
    }
}

/// What a refusal to make a report comes to: there is none, unless it was for want of memory, which goes on.
fn none_after(fault: ShardFault) -> Result<Option<Vec<u8>>, AllocError>
    ensures none { (fault ≡ shard.NoMemory) ⊎ (result ≡ Ok None) }
    ensures memory { fault ≡ shard.NoMemory → OnOk result ⊥ }
{
    match fault {
        ShardFault::BadValue => Ok(None),
        ShardFault::Spent => Ok(None),
        ShardFault::NoMemory => Err(AllocError),
    }
}

/// The bytes of the report that an honest client makes of a measurement, if it has shares.
pub fn honest_bytes<V: ListVdaf>(
    alloc: Global,
    task: &Task,
    vdaf: &V,
    given: &Measured,
) -> Result<Option<Vec<u8>>, AllocError>
    requires time { given.now.time ≤ LATEST_TIME }
    requires name { IsName task.now.name }
    ensures { IfOk result
        (Spell task.now.name
        (honest_report
        (V.functions vdaf.now) task.now given.now.id given.now.time given.now.value.now given.now.seed)) }
{
    match make_list_report(
        alloc,
        task,
        vdaf,
        &given.id,
        given.time,
        given.value.as_slice(),
        &given.seed,
    ) {
        Ok(bytes) => Ok(Some(bytes)),
        Err(fault) => none_after(fault),
    }
}

impl Direct {
    ghost use Rattle.dap_direct.specs.Direct.{AddsReport, HasSums, IsAt, Offers, Uploads};

    /// Accepts a report of the task, and adds its out shares to the sums of its bucket.
    fn add<V: Vdaf>(
        &mut self,
        alloc: Global,
        task: &Task,
        vdaf: &V,
        new: Report,
    ) -> Result<(), AllocError>
        requires kind { V.functions vdaf.now ≡ V.of_kind task.now.kind }
        requires of_task { new.name ≡ task.now.name }
        requires spelled { IsTrue (report.allowed new) }
        requires few { length self.old.accepted + 1 < 2 ^ 32 }
        requires sums { HasSums V.of_kind task.now self.old }
        ensures { IfOk result (λ _. AddsReport V.of_kind task.now new self.old self.new) }
    {
        let outs = prepare(alloc, vdaf, task, &new)?;
        let start = batch_of(new.time, task.precision);
        let place = Sums::ready(&mut self.sums, alloc, vdaf, &task.name, start)?;
        self.accepted.push(new)?;
        let sums = &mut self.sums[place];
        sums.count(vdaf, &outs);
        Ok(())
    }

    /// Offers a report of the task.
    fn offer<V: Vdaf>(
        &mut self,
        alloc: Global,
        task: &Task,
        vdaf: &V,
        line: u32,
        new: Report,
    ) -> Result<Option<Printed>, AllocError>
        requires kind { V.functions vdaf.now ≡ V.of_kind task.now.kind }
        requires of_task { new.name ≡ task.now.name }
        requires spelled { IsTrue (report.allowed new) }
        requires few { length self.old.accepted + 1 < 2 ^ 32 }
        requires sums { HasSums V.of_kind task.now self.old }
        ensures { IfOk result (Offers V.of_kind task.now line new self.old self.new) }
    {
        match self.judge(task, &new) {
            Judged::Again => Ok(None),
            Judged::Barred(cause) => Ok(refusal(line, cause)),
            Judged::Added => {
                self.add(alloc, task, vdaf, new)?;
                Ok(None)
            }
        }
    }

    /// Offers bytes that begin with the task's name.
    pub fn upload_to<V: Vdaf>(
        &mut self,
        alloc: Global,
        task: &Task,
        vdaf: &V,
        line: u32,
        bytes: &[u8],
    ) -> Result<Option<Printed>, AllocError>
        requires kind { V.functions vdaf.now ≡ V.of_kind task.now.kind }
        requires named { name_in bytes.now ≡ Some task.now.name }
        requires number { line ≤ 2 ^ 31 }
        requires at { IsAt line self.old }
        requires sums { HasSums V.of_kind task.now self.old }
        ensures { IfOk result (Uploads V.of_kind task.now line bytes.now self.old self.new) }
    {
        match report_in(alloc, bytes)? {
            None => Ok(refusal(line, Cause::Form)),
            Some(new) => {
                self.offered.count(bytes.len());
                self.offer(alloc, task, vdaf, line, new)
            }
        }
    }
}
