//! The calls at which a device in memory fails.

ghost use Rattle.std.specs.Prelude.{◌≡◌, ◌≤◌, ◌+◌, IsTrue, false};
ghost use Rattle.dap_bytes.specs.Causes.{Rose};

/// The calls that fail, counted from 1, and how many calls were made.
#[derive(Debug, Drop)]
pub struct Plan {
    pub fails: Vec<u64>,
    pub calls: u64,
}

impl Plan {
    ghost use Rattle.dap_outside.specs.Plan.{failed_calls, fails_next, calls_after};

    /// These calls fail, and none was made yet.
    pub fn new(fails: Vec<u64>) -> Self
        ensures { result ≡ record { fails = fails; calls = 0 } }
    {
        Plan { fails, calls: 0 }
    }

    /// Whether the next call is listed.
    pub fn fails_next(&self) -> bool
        ensures { result ≡ fails_next self.now }
    {
        if self.calls == u64::MAX {
            return false;
        }
        let next = self.calls + 1;
        self.fails.contains(&next)
    }

    /// Counts a call.
    pub fn count(&mut self)
        ensures calls { self.new ≡ record self.old { calls = calls_after self.old.calls } }
        ensures later { failed_calls self.old ≤ failed_calls self.new }
        ensures risen { IsTrue (fails_next self.old) → Rose (failed_calls self.old) (failed_calls self.new) }
        ensures calm { fails_next self.old ≡ false → failed_calls self.new ≡ failed_calls self.old }
        ensures one { failed_calls self.new ≤ failed_calls self.old + 1 }
    {
        self.calls = self.calls.saturating_add(1);
    }
}
