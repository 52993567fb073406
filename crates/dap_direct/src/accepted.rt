//! The accepted reports.

ghost use Rattle.std.specs.Prelude.{◌≡◌, [], ◌∷◌, ◌++◌, IsTrue, IfSome, OnOk};
ghost use Rattle.std.specs.Option.{option_map};
ghost use Rattle.dap_messages.specs.Messages.{report};
ghost use Rattle.dap_messages.specs.Reports.{known_in};

use dap_bytes::{Id, Name};
use dap_messages::Report;
use std::alloc::{AllocError, Global};
use std::marker::Model;

/// The accepted reports, in order. Each has a spelling, and is kept as its fields. A contract sees them as their list.
#[derive(Debug, Drop)]
pub struct Accepted {
    reports: Vec<Report>,
}

impl Model for Accepted {
    ghost use Rattle.std.specs.Prelude.{List, All, IsTrue};
    ghost use Rattle.dap_messages.specs.Messages.{report};
    ghost use Rattle.dap_messages.specs.declared.report.Report.{Report};

    ghost Value = { List Report };

    ghost view = { λ a. a.reports.items };

    ghost invariant = { λ a. All (λ r. IsTrue (report.allowed r)) a.reports.items };
}

impl Accepted {
    /// No reports. It takes no memory.
    pub fn new(alloc: Global) -> Accepted
        ensures { result ≡ [] }
    {
        Accepted {
            reports: Vec::new(alloc),
        }
    }

    /// The report of this task with this identifier, if there is one. It takes no memory.
    pub fn find(&self, task: &Name, id: &Id) -> Option<&Report>
        ensures known { option_map (λ r. report.spell r.now) result ≡ known_in self.now task.now id.now }
        ensures spelled { IfSome result (λ r. IsTrue (report.allowed r.now)) }
    {
        for report in &self.reports {
            if report.has_key(task, id) {
                return Some(report);
            }
        }
        None
    }

    /// Adds a report behind the others.
    pub fn push(&mut self, new: Report) -> Result<(), AllocError>
        requires { IsTrue (report.allowed new) }
        ensures { OnOk result (self.new ≡ self.old ++ new ∷ []) }
    {
        self.reports.push(new)?;
        Ok(())
    }
}
