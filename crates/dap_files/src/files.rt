//! The system's files, read whole.

ghost use Rattle.std.specs.Prelude.{◌≡◌, ◌<◌, ◌≤◌, ℕ, None, length, take, IfOk, IfSome};
ghost use Rattle.dap_files.specs.Taken.{TakesIn};
ghost use Rattle.dap_outside.specs.declared.files.TheConstants.{MAX_READ};

use dap_outside::{FileFault, MAX_READ};
use std::alloc::Global;
use std::fs;
use std::io::Read;
use std::rt::Files;

/// The files that a runtime reaches, by their paths, with a count of its errors.
#[derive(Drop)]
pub struct DirFiles<'a, R: Files> {
    runtime: &'a R,
    faults: u64,
}

impl<'a, R: Files> DirFiles<'a, R> {
    /// Counts errors from 0. It takes no memory.
    pub fn new(runtime: &'a R) -> Self
        ensures { result.faults ≡ 0 }
    {
        DirFiles { runtime, faults: 0 }
    }

    fn read_front(&self, alloc: Global, name: &str) -> Result<Vec<u8>, FileFault>
        ensures { IfOk result (λ read. length read.items ≤ MAX_READ) }
    {
        let mut file = fs::open(self.runtime, name).map_err(|_| FileFault::Failed)?;
        read_front(alloc, &mut file)
    }
}

/// Takes some more bytes in.
fn read_more<F: Read>(file: &mut F, buf: &mut [u8], bytes: &mut Vec<u8>) -> Result<usize, FileFault>
    requires { 0 < length buf.old }
    ensures { IfOk result (TakesIn (F.remaining file.old) (F.remaining file.new) bytes.old.items bytes.new.items) }
{
    let count = file.read(buf).map_err(|_| FileFault::Failed)?;
    bytes
        .extend_from_slice(&buf[..count])
        .map_err(|_| FileFault::NoMemory)?;
    Ok(count)
}

/// The first `MAX_READ` bytes of a reader, or all where there are fewer.
pub(crate) fn read_front<F: Read>(alloc: Global, file: &mut F) -> Result<Vec<u8>, FileFault>
    ensures bytes { IfOk result (λ read. IfSome (F.remaining file.old) (λ left. read.items ≡ take MAX_READ left)) }
    ensures size { IfOk result (λ read. length read.items ≤ MAX_READ) }
{
    let mut bytes = Vec::new(alloc);
    let mut buf = [0; 4096];
    while bytes.len() < MAX_READ {
        if read_more(file, &mut buf, &mut bytes)? == 0 {
            return Ok(bytes);
        }
    }
    bytes.truncate(MAX_READ);
    Ok(bytes)
}

impl<'a, R: Files> dap_outside::Files for DirFiles<'a, R> {
    ghost contents = { λ _ _. None };

    ghost missing = { λ _ _. ⊥ };

    ghost faults = { λ f. f.faults };

    fn read_file(&mut self, alloc: Global, name: &str) -> Result<Vec<u8>, FileFault> {
        let read = self.read_front(alloc, name);
        if let Err(FileFault::Failed) = read {
            self.faults = self.faults.saturating_add(1);
        }
        read
    }
}
