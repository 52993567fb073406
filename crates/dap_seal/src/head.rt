//! What a sealed share belongs to.

ghost use Rattle.std.specs.Prelude.{◌≡◌, IfOk};

use dap_bytes::{Bytes, Id, Name};
use dap_messages::{Half, Report, Tagged};
use dap_views::PartView;
use std::alloc::{AllocError, Global};

/// What a sealed share is bound to: its task's name, its report's identifier, time and public share.
#[derive(Debug, Drop)]
pub struct Head {
    /// The task.
    pub name: Name,
    /// The report.
    pub id: Id,
    /// The report's time, in units of time.
    pub time: u64,
    /// The report's public share.
    pub public: Bytes,
}

impl Head {
    ghost use Rattle.dap_views.specs.Parts.{item_of};
    ghost use Rattle.dap_seal.specs.Reports.{head_of};
    ghost use Rattle.dap_seal.specs.Steps.{half_head};

    /// The head of a report.
    pub fn of_report(report: &Report) -> Result<Head, AllocError>
        ensures { IfOk result (λ head. head ≡ head_of report.now) }
    {
        Ok(Head {
            name: report.name,
            id: report.id,
            time: report.time,
            public: report.public.clone()?,
        })
    }

    /// The head of what the helper gets of a report in a request of a task.
    pub fn of_half(name: &Name, half: &Tagged<Half>) -> Result<Head, AllocError>
        ensures { IfOk result (λ head. head ≡ half_head name.now half.now) }
    {
        Ok(Head {
            name: *name,
            id: half.id,
            time: half.body.time,
            public: half.body.public.clone()?,
        })
    }

    /// The head of a part of a request of a task.
    pub fn of_part(alloc: Global, name: &Name, part: &PartView<'_>) -> Result<Head, AllocError>
        ensures { IfOk result (λ head. head ≡ half_head name.now (item_of part.now)) }
    {
        Ok(Head {
            name: *name,
            id: part.id,
            time: part.time,
            public: Bytes::new(part.public.to_vec(alloc)?),
        })
    }
}
