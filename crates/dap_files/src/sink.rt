//! A writer as a sink.

ghost use Rattle.std.specs.Prelude.{◌≡◌, ℕ};

use dap_outside::{Sink, SinkFault};
use std::io::Write;

/// A writer, such as standard output, with a count of its errors. A write that takes nothing of a piece that isn't empty
/// counts as one.
#[derive(Drop)]
pub struct FileSink<W: Write> {
    inner: W,
    faults: u64,
}

impl<W: Write> FileSink<W> {
    /// Counts this writer's errors from 0. It takes no memory.
    pub fn new(inner: W) -> Self
        ensures { result ≡ record { inner = inner; faults = 0 } }
    {
        FileSink { inner, faults: 0 }
    }
}

impl<W: Write> Sink for FileSink<W> {
    ghost held = { λ s. W.contents s.inner };

    ghost faults = { λ s. s.faults };

    fn write(&mut self, bytes: &[u8]) -> Result<usize, SinkFault> {
        match self.inner.write(bytes) {
            Ok(0) if !bytes.is_empty() => {
                self.faults = self.faults.saturating_add(1);
                Err(SinkFault::Failed)
            }
            Ok(count) => Ok(count),
            Err(_) => {
                self.faults = self.faults.saturating_add(1);
                Err(SinkFault::Failed)
            }
        }
    }
}
