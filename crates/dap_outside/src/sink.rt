//! Where bytes go.

ghost use Rattle.std.specs.Prelude.{◌≡◌, ◌≤◌, ◌<◌, ◌+◌, ◌⊎◌, false, List, ℕ, [], length, Option, Some, IfOk, IsOk, IsErrOf, IsTrue};
ghost use Rattle.std.specs.Io.{WritesAtMost};
ghost use Rattle.std.specs.Io.KnownBytes.{WriteAppends};
ghost use Rattle.dap_bytes.specs.Causes.{Counts};
ghost use Rattle.dap_outside.specs.Plan.{failed_calls, calls_after};

use crate::plan::Plan;
use std::alloc::Global;

/// Why a write was refused.
#[derive(Clone, Copy, Debug, PartialEq, Eq)]
pub enum SinkFault {
    /// The device failed.
    Failed,
    /// There was no memory to keep the bytes.
    NoMemory,
}

/// Where bytes go, as standard output.
pub trait Sink {
    /// The bytes that were taken so far, where that is told.
    ghost held: { Self → Option (List ℕ) };

    /// How often a write has failed. It never falls.
    ghost faults: { Self → ℕ };

    /// Takes the first bytes, at least one of a piece that isn't empty, and says how many.
    /// It fails only where the faults rose by one, and else they stay. A refusal leaves what is held.
    fn write(&mut self, bytes: &[u8]) -> Result<usize, SinkFault>
        ensures bound { WritesAtMost result bytes.now }
        ensures some { 0 < length bytes.now → IfOk result (λ n. 0 < n) }
        ensures bytes { WriteAppends (held self.old) (held self.new) result bytes.now }
        ensures faults { Counts (IsErrOf result SinkFault.Failed) (faults self.old) (faults self.new) };
}

/// Keeps what is written in memory. Its writes fail at the calls that are listed, counted from 1.
#[derive(Debug, Drop)]
pub struct MemSink {
    bytes: Vec<u8>,
    plan: Plan,
}

impl MemSink {
    ghost use Rattle.dap_outside.specs.Devices.{bytes_held, writes_made};

    /// A sink that holds nothing yet. It keeps the allocator and takes no memory.
    pub fn new(alloc: Global, fails: Vec<u64>) -> Self
        ensures none { bytes_held result ≡ [] }
        ensures unwritten { writes_made result ≡ 0 }
        ensures listed { result.plan.fails ≡ fails }
    {
        MemSink {
            bytes: Vec::new(alloc),
            plan: Plan::new(fails),
        }
    }

    /// What was written.
    pub fn bytes(&self) -> &[u8]
        ensures { result.now ≡ bytes_held self.now }
    {
        &self.bytes
    }
}

impl Sink for MemSink {
    ghost use Rattle.dap_outside.specs.Devices.{bytes_held, writes_made, write_fails};

    ghost held = { λ s. Some s.bytes.items };

    ghost faults = { λ s. failed_calls s.plan };

    fn write(&mut self, bytes: &[u8]) -> Result<usize, SinkFault>
        ensures bound { WritesAtMost result bytes.now }
        ensures some { 0 < length bytes.now → IfOk result (λ n. 0 < n) }
        ensures bytes { WriteAppends (Some (bytes_held self.old)) (Some (bytes_held self.new)) result bytes.now }
        ensures faults { Counts (IsErrOf result SinkFault.Failed) (failed_calls self.old.plan)
            (failed_calls self.new.plan) }

        // It fails at the listed calls alone, and else takes all. Without memory nothing changes.
        ensures fails { IsErrOf result SinkFault.Failed → IsTrue (write_fails self.old) }
        ensures all { IfOk result (λ n. n ≡ length bytes.now) }
        ensures passes { IsOk result → write_fails self.old ≡ false }
        ensures memory { IsErrOf result SinkFault.NoMemory → self.new.plan ≡ self.old.plan }
        ensures calls { IsErrOf result SinkFault.NoMemory
            ⊎ (writes_made self.new ≡ calls_after (writes_made self.old)) }
        ensures listed { self.new.plan.fails ≡ self.old.plan.fails }
    {
        self.bytes
            .try_reserve(bytes.len())
            .map_err(|_| SinkFault::NoMemory)?;
        if self.plan.fails_next() {
            self.plan.count();
            return Err(SinkFault::Failed);
        }
        self.bytes
            .extend_from_slice(bytes)
            .map_err(|_| SinkFault::NoMemory)?;
        self.plan.count();
        Ok(bytes.len())
    }
}
