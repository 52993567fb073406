//! A reader as a source.

ghost use Rattle.std.specs.Prelude.{◌≡◌, ℕ};

use dap_outside::{Failed, Source};
use std::io::Read;

/// A reader, such as standard input or a file, with a count of its errors.
#[derive(Drop)]
pub struct FileSource<R: Read> {
    inner: R,
    faults: u64,
}

impl<R: Read> FileSource<R> {
    /// Counts this reader's errors from 0. It takes no memory.
    pub fn new(inner: R) -> Self
        ensures { result ≡ record { inner = inner; faults = 0 } }
    {
        FileSource { inner, faults: 0 }
    }
}

impl<R: Read> Source for FileSource<R> {
    ghost left = { λ s. R.remaining s.inner };

    ghost faults = { λ s. s.faults };

    fn read(&mut self, buf: &mut [u8]) -> Result<usize, Failed> {
        match self.inner.read(buf) {
            Ok(count) => Ok(count),
            Err(_) => {
                self.faults = self.faults.saturating_add(1);
                Err(Failed)
            }
        }
    }
}
