//! Where bytes come from.

ghost use Rattle.std.specs.Prelude.{◌≡◌, ◌≤◌, ◌+◌, ◌↔◌, List, ℕ, Option, Some, drop, length, min, take, IsErr, IsTrue, IfOk, OnErr};
ghost use Rattle.std.specs.Io.{ReadsAtMost};
ghost use Rattle.std.specs.Io.KnownBytes.{ReadConsumes};
ghost use Rattle.dap_bytes.specs.Causes.{Counts};
ghost use Rattle.dap_outside.specs.Plan.{failed_calls, calls_after};

use crate::plan::Plan;

/// A device failed.
#[derive(Clone, Copy, Debug, PartialEq, Eq)]
pub struct Failed;

/// Where bytes come from, as standard input or a file.
pub trait Source {
    /// The bytes that reads give from here on, where that is told.
    ghost left: { Self → Option (List ℕ) };

    /// How often a read has failed. It never falls.
    ghost faults: { Self → ℕ };

    /// Takes bytes from the front of what is left into the front of the buffer, and says how many.
    /// 0 for a buffer that isn't empty is the end.
    /// It fails only where the faults rose by one, and then nothing was taken. Else they stay.
    fn read(&mut self, buf: &mut [u8]) -> Result<usize, Failed>
        ensures bound { ReadsAtMost result buf.new }
        ensures bytes { ReadConsumes (left self.old) (left self.new) result buf.new }
        ensures faults { Counts (IsErr result) (faults self.old) (faults self.new) };
}

/// Copies as many bytes as there are and as there is room for, and says how many.
fn copy_front(from: &[u8], to: &mut [u8]) -> usize
    ensures count { result ≡ min (length from.now) (length to.old) }
    ensures front { take result to.new ≡ take result from.now }
{
    let count = from.len().min(to.len());
    to[..count].copy_from_slice(&from[..count]);
    count
}

/// Bytes in memory, whose reads fail at the calls that are listed, counted from 1.
#[derive(Debug, Drop)]
pub struct MemSource {
    bytes: Vec<u8>,
    place: usize,
    plan: Plan,
    ghost within: { place ≤ length bytes.items },
}

impl MemSource {
    ghost use Rattle.dap_outside.specs.Devices.{bytes_left, reads_made};

    /// A source of these bytes. It takes no memory.
    pub fn new(bytes: Vec<u8>, fails: Vec<u64>) -> Self
        ensures bytes { bytes_left result ≡ bytes.items }
        ensures unread { reads_made result ≡ 0 }
        ensures listed { result.plan.fails ≡ fails }
    {
        MemSource {
            bytes,
            place: 0,
            plan: Plan::new(fails),
        }
    }
}

impl Source for MemSource {
    ghost use Rattle.dap_outside.specs.Devices.{bytes_left, reads_made, read_fails};

    ghost left = { λ s. Some (drop s.place s.bytes.items) };

    ghost faults = { λ s. failed_calls s.plan };

    fn read(&mut self, buf: &mut [u8]) -> Result<usize, Failed>
        ensures bound { ReadsAtMost result buf.new }
        ensures bytes { ReadConsumes (Some (bytes_left self.old)) (Some (bytes_left self.new)) result buf.new }
        ensures faults { Counts (IsErr result) (failed_calls self.old.plan) (failed_calls self.new.plan) }

        // It fails exactly at the listed calls, where it leaves the buffer, and else fills it as far as bytes are left.
        ensures untouched { OnErr result (buf.new ≡ buf.old) }
        ensures fails { IsErr result ↔ IsTrue (read_fails self.old) }
        ensures full { IfOk result (λ n. n ≡ min (length (bytes_left self.old)) (length buf.old)) }
        ensures calls { reads_made self.new ≡ calls_after (reads_made self.old) }
        ensures listed { self.new.plan.fails ≡ self.old.plan.fails }
    {
        let fails = self.plan.fails_next();
        self.plan.count();
        if fails {
            return Err(Failed);
        }
        let count = copy_front(&self.bytes[self.place..], buf);
        self.place += count;
        Ok(count)
    }
}
