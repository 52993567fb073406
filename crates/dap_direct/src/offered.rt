//! The reports that were offered.

ghost use Rattle.std.specs.Prelude.{◌≡◌, ◌+◌, ◌<◌, ◌^◌, [], List};
ghost use Rattle.dap_messages.specs.declared.report.Report.{Report};
ghost use Rattle.dap_model.specs.Limits.{limit_passed};

use dap_model::Limits;

/// How many reports were offered, and how many bytes they have together.
#[derive(Clone, Copy, Debug)]
pub struct Offered {
    pub reports: u32,
    pub bytes: u64,
}

impl Offered {
    ghost use Rattle.dap_direct.specs.Offered.{AreOffered};

    /// No reports. It takes no memory.
    pub fn none() -> Offered
        ensures { AreOffered [] result }
    {
        Offered {
            reports: 0,
            bytes: 0,
        }
    }

    /// Counts a report of so many bytes. It takes no memory.
    pub fn count(&mut self, bytes: usize)
        requires reports { self.old.reports + 1 < 2 ^ 32 }
        requires bytes { self.old.bytes + bytes < 2 ^ 64 }
        ensures { self.new ≡ record { reports = self.old.reports + 1; bytes = self.old.bytes + bytes } }
    {
        self.reports += 1;
        self.bytes += bytes as u64;
    }

    /// The number of the limit that is passed, if one is: 2 is that of the reports, 3 that of their bytes. It takes no
    /// memory.
    pub fn passed_limit(&self, limits: &Limits) -> Option<u8>
        ensures { (reports : List Report) → AreOffered reports self.now → result ≡ limit_passed limits.now reports }
    {
        if self.reports > limits.reports {
            Some(2)
        } else if self.bytes > limits.bytes {
            Some(3)
        } else {
            None
        }
    }
}
