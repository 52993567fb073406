//! Collections.

ghost use Rattle.std.specs.Prelude.{◌≡◌, ◌+◌, ◌<◌, ◌≤◌, ◌^◌, IfOk, true, length};
ghost use Rattle.dap_bytes.specs.Spans.{HasBuckets, passes_start};
ghost use Rattle.dap_script.specs.declared.line.Line.TheVariants.{Collect};
ghost use Rattle.dap_model.specs.State.{contents_in, rejected_in};
ghost use Rattle.dap_direct.specs.Sums.{AreOuts, AreSumsOver, JoinsBucket};

use crate::batch::Batch;
use crate::offer::refusal;
use crate::state::Direct;
use crate::sums::Sums;
use dap_bytes::{LATEST_TIME, Name, Span};
use dap_model::Printed;
use dap_tasks::{Cause, Task, Tasks};
use std::alloc::{AllocError, Global};
use vdaf_api::Vdaf;

impl Direct {
    ghost use Rattle.dap_direct.specs.Direct.{Collects, HasSums, MayRun, Runs};

    /// Adds the sums of the task's bucket that starts there, if it has any.
    fn join_bucket<V: Vdaf>(&self, task: &Task, vdaf: &V, start: u64, total: &mut Sums)
        requires kind { V.functions vdaf.now ≡ V.of_kind task.now.kind }
        requires sums { HasSums V.of_kind task.now self.now }
        requires total { AreOuts (V.of_kind task.now.kind) total.old }
        requires reports { total.old.reports + length
            (contents_in V.of_kind task.now start self.now.accepted) < 2 ^ 32 }
        requires rejected { total.old.rejected + rejected_in V.of_kind task.now start self.now.accepted < 2 ^ 32 }
        ensures { JoinsBucket V.of_kind task.now start self.now.accepted total.old total.new }
    {
        if let Some(bucket) = Sums::find(&self.sums, &task.name, start) {
            total.join(vdaf, bucket);
        }
    }

    /// The sums of the task's batch: those of its buckets together.
    fn batch_sums<V: Vdaf>(
        &self,
        alloc: Global,
        task: &Task,
        vdaf: &V,
        span: &Span,
    ) -> Result<Sums, AllocError>
        requires kind { V.functions vdaf.now ≡ V.of_kind task.now.kind }
        requires sums { HasSums V.of_kind task.now self.now }
        requires few { length self.now.accepted < 2 ^ 32 }
        requires time { span.now.start ≤ LATEST_TIME }
        ensures { IfOk result (AreSumsOver V.of_kind task.now span.now self.now.accepted) }
    {
        let mut total = Sums::none(alloc, vdaf, task.name, span.start)?;
        for i in 0..span.buckets {
            self.join_bucket(task, vdaf, span.bucket(task.precision, i), &mut total);
        }
        Ok(total)
    }

    /// Collects the task's batch, which passes the test of its start: it is printed if it was collected before; else the
    /// collected batch is named that shares a bucket with it, if one does; else it is collected if it has enough reports.
    fn collect_batch<V: Vdaf>(
        &mut self,
        alloc: Global,
        task: &Task,
        vdaf: &V,
        line: u32,
        span: Span,
    ) -> Result<Printed, AllocError>
        requires kind { V.functions vdaf.now ≡ V.of_kind task.now.kind }
        requires sums { HasSums V.of_kind task.now self.old }
        requires few { length self.old.accepted < 2 ^ 32 }
        requires buckets { HasBuckets span }
        requires time { span.start ≤ LATEST_TIME }
        requires passes { passes_start span task.now.precision ≡ true }
        ensures { IfOk result (Collects V.of_kind task.now line span self.old self.new) }
    {
        let name = task.name;
        let sums = self.batch_sums(alloc, task, vdaf, &span)?;
        if Batch::any(&self.collected, &name, &span) {
            return sums.line(alloc, vdaf, name, span);
        }
        if let Some(other) = Batch::overlap(&self.collected, task, &span) {
            return Ok(Printed::Overlap { line, other });
        }
        if sums.reports < task.min {
            let reports = sums.reports;
            return Ok(Printed::Small {
                name,
                span,
                reports,
            });
        }
        let printed = sums.line(alloc, vdaf, name, span)?;
        self.collected.push(Batch { task: name, span })?;
        Ok(printed)
    }

    /// Collects a batch of a known task.
    pub fn collect<V: Vdaf>(
        &mut self,
        alloc: Global,
        tasks: &Tasks<V>,
        line: u32,
        name: &Name,
        span: Span,
    ) -> Result<Option<Printed>, AllocError>
        requires buckets { HasBuckets span }
        requires time { span.start ≤ LATEST_TIME }
        requires may_run { MayRun V.of_kind tasks.now line self.old }
        ensures { IfOk result (Runs V.of_kind tasks.now line (Collect name.now span) self.old self.new) }
    {
        let Some((task, vdaf)) = tasks.find(name) else {
            return Ok(refusal(line, Cause::Task));
        };
        if !span.passes_start(task.precision) {
            return Ok(refusal(line, Cause::Start));
        }
        Ok(Some(self.collect_batch(alloc, task, vdaf, line, span)?))
    }
}
