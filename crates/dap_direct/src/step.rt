//! What a line changes and prints.

ghost use Rattle.std.specs.Prelude.{◌≤◌, IfOk};
ghost use Rattle.dap_bytes.specs.Name.{IsName};
ghost use Rattle.dap_script.specs.Spelling.{IsInRange};
ghost use Rattle.dap_script.specs.declared.line.Line.TheVariants.{Measure, Upload};

use crate::offer::{Measured, honest_bytes, name_in, refusal};
use crate::state::Direct;
use dap_bytes::{LATEST_TIME, Name};
use dap_model::Printed;
use dap_script::Line;
use dap_tasks::{Cause, Tasks};
use std::alloc::{AllocError, Global};
use vdaf_api::{ListVdaf, Vdaf};

impl Direct {
    ghost use Rattle.dap_direct.specs.Direct.{MayRun, Runs};

    /// Offers the report of a measurement.
    fn measure<V: ListVdaf>(
        &mut self,
        alloc: Global,
        tasks: &Tasks<V>,
        line: u32,
        name: &Name,
        given: &Measured,
    ) -> Result<Option<Printed>, AllocError>
        requires time { given.now.time ≤ LATEST_TIME }
        requires name { IsName name.now }
        requires may_run { MayRun V.of_kind tasks.now line self.old }
        ensures { IfOk result
            (Runs V.of_kind tasks.now line
            (Measure name.now given.now.id given.now.time given.now.value.now given.now.seed) self.old self.new) }
    {
        let Some((task, vdaf)) = tasks.find(name) else {
            return Ok(refusal(line, Cause::Task));
        };
        let Some(bytes) = honest_bytes(alloc, task, vdaf, given)? else {
            return Ok(refusal(line, Cause::Value));
        };
        self.upload_to(alloc, task, vdaf, line, &bytes)
    }

    /// Offers bytes to the task whose name they begin with.
    fn upload<V: Vdaf>(
        &mut self,
        alloc: Global,
        tasks: &Tasks<V>,
        line: u32,
        bytes: &[u8],
    ) -> Result<Option<Printed>, AllocError>
        requires may_run { MayRun V.of_kind tasks.now line self.old }
        ensures { IfOk result (Runs V.of_kind tasks.now line (Upload bytes.now) self.old self.new) }
    {
        let Some(name) = name_in(bytes) else {
            return Ok(refusal(line, Cause::Form));
        };
        let Some((task, vdaf)) = tasks.find(&name) else {
            return Ok(refusal(line, Cause::Task));
        };
        self.upload_to(alloc, task, vdaf, line, bytes)
    }

    /// What a line changes and prints.
    pub fn step<V: ListVdaf>(
        &mut self,
        alloc: Global,
        tasks: &Tasks<V>,
        line: u32,
        command: &Line,
    ) -> Result<Option<Printed>, AllocError>
        requires range { IsInRange command.now }
        requires may_run { MayRun V.of_kind tasks.now line self.old }
        ensures { IfOk result (Runs V.of_kind tasks.now line command.now self.old self.new) }
    {
        match command {
            Line::Now { t } => {
                self.raise(*t);
                Ok(None)
            }
            Line::Measure {
                name,
                id,
                time,
                value,
                seed,
            } => {
                let given = Measured {
                    id: *id,
                    time: *time,
                    value,
                    seed: *seed,
                };
                self.measure(alloc, tasks, line, name, &given)
            }
            Line::Upload { report } => self.upload(alloc, tasks, line, report.as_slice()),
            Line::Collect { name, span } => self.collect(alloc, tasks, line, name, *span),
            Line::Blank => Ok(None),
            Line::Task { .. } => Ok(None),
            Line::Restart { .. } => Ok(None),
        }
    }
}
