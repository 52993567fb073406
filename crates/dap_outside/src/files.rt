//! Files that are read whole, by their names.

ghost use Rattle.std.specs.Prelude.{◌≡◌, ◌≤◌, ◌+◌, ◌⊎◌, ◌↔◌, List, ℕ, Option, Some, None, false, take, length, IfOk, IfSome, IsErrOf, IsOk, IsTrue, MatchOption, ◌≢◌};
ghost use Rattle.dap_bytes.specs.Causes.{Counts};
ghost use Rattle.dap_outside.specs.Plan.{failed_calls, calls_after};
ghost use Rattle.dap_outside.specs.Filed.{file_in};

use crate::plan::Plan;
use dap_bytes::LONGEST_TASK_FILE;
use std::alloc::Global;

/// Why a file wasn't read.
#[derive(Clone, Copy, Debug, PartialEq, Eq)]
pub enum FileFault {
    /// The device failed, or there is no such file.
    Failed,
    /// There was no memory for its bytes.
    NoMemory,
}

/// How many bytes of a file are read at most: one more than any file that is wanted may have, so that a longer one shows.
pub const MAX_READ: usize = LONGEST_TASK_FILE + 1;

/// Files, as those of a directory.
pub trait Files {
    /// What the file of a name holds, where that is told. None where it isn't, or where there is no such file.
    ghost contents: { Self → List ℕ → Option (List ℕ) };

    /// It is told that there is no file of this name.
    ghost missing: { Self → List ℕ → Type 0 };

    /// How often a reading has failed. It never falls.
    ghost faults: { Self → ℕ };

    /// The first `MAX_READ` bytes of the file of this name, or all where it is shorter.
    /// It fails only where the faults rose by one, as for a file that isn't there, and else they stay. No file changes,
    /// and one that is told to be missing isn't read.
    fn read_file(&mut self, alloc: Global, name: &str) -> Result<Vec<u8>, FileFault>
        ensures bytes { IfOk result
            (λ read. IfSome (contents self.old name.now) (λ bytes. read.items ≡ take MAX_READ bytes)) }
        ensures size { IfOk result (λ read. length read.items ≤ MAX_READ) }
        ensures gone { missing self.old name.now → ¬ (IsOk result) }
        ensures kept { (file : List ℕ) → contents self.new file ≡ contents self.old file }
        ensures faults { Counts (IsErrOf result FileFault.Failed) (faults self.old) (faults self.new) };
}

/// Files in memory, by name; of two of one name the first counts. Readings fail at the calls that are listed, counted
/// from 1, and where there is no file of the name.
#[derive(Debug, Drop)]
pub struct MemFiles {
    files: Vec<(String, Vec<u8>)>,
    plan: Plan,
    // How often a file was asked for that isn't there.
    missed: u64,
}

impl MemFiles {
    ghost use Rattle.dap_outside.specs.Filed.{file_of, files_read, files_missed};

    /// These files. It takes no memory.
    pub fn new(files: Vec<(String, Vec<u8>)>, fails: Vec<u64>) -> Self
        ensures files { (name : List ℕ) → file_of result name ≡ file_in files.items name }
        ensures unread { files_read result ≡ 0 }
        ensures found { files_missed result ≡ 0 }
        ensures listed { result.plan.fails ≡ fails }
    {
        MemFiles {
            files,
            plan: Plan::new(fails),
            missed: 0,
        }
    }
}

/// What the first file of this name holds.
fn find<'a>(files: &'a [(String, Vec<u8>)], name: &str) -> Option<&'a [u8]>
    ensures { MatchOption result (file_in files.now name.now ≡ None)
        (λ bytes. file_in files.now name.now ≡ Some bytes.now) }
{
    for file in files {
        if file.0.as_str() == name {
            return Some(&file.1);
        }
    }
    None
}

/// The first bytes that are read of a file.
fn front(bytes: &[u8]) -> &[u8]
    ensures front { result.now ≡ take MAX_READ bytes.now }
    ensures size { length result.now ≤ MAX_READ }
{
    &bytes[..MAX_READ.min(bytes.len())]
}

impl Files for MemFiles {
    ghost use Rattle.dap_outside.specs.Filed.{file_of, faults_of, files_read, files_missed, missed_after, reading_fails};

    ghost contents = { λ f name. file_of f name };

    ghost missing = { λ f name. file_of f name ≡ None };

    ghost faults = { λ f. faults_of f };

    fn read_file(&mut self, alloc: Global, name: &str) -> Result<Vec<u8>, FileFault>
        ensures bytes { IfOk result
            (λ read. IfSome (file_of self.old name.now) (λ bytes. read.items ≡ take MAX_READ bytes)) }
        ensures size { IfOk result (λ read. length read.items ≤ MAX_READ) }
        ensures gone { file_of self.old name.now ≡ None → ¬ (IsOk result) }
        ensures kept { (file : List ℕ) → file_of self.new file ≡ file_of self.old file }
        ensures faults { Counts (IsErrOf result FileFault.Failed) (faults_of self.old) (faults_of self.new) }

        // It fails exactly at the listed calls and where there is no such file. Without memory nothing changes.
        ensures fails { IsErrOf result FileFault.Failed → IsTrue (reading_fails self.old)
            ⊎ (file_of self.old name.now ≡ None) }
        ensures passes { IsOk result → (reading_fails self.old ≡ false) × (file_of self.old name.now ≢ None) }
        ensures memory { IsErrOf result FileFault.NoMemory → self.new ≡ self.old }
        ensures calls { IsErrOf result FileFault.NoMemory ⊎ (files_read self.new ≡ calls_after (files_read self.old)) }
        ensures missed { IsErrOf result FileFault.NoMemory ⊎ (files_missed self.new ≡ missed_after self.old name.now) }
        ensures listed { self.new.plan.fails ≡ self.old.plan.fails }
    {
        let read = match find(&self.files, name) {
            Some(bytes) => Ok(front(bytes).to_vec(alloc).map_err(|_| FileFault::NoMemory)?),
            None => Err(FileFault::Failed),
        };
        let fails = self.plan.fails_next();
        self.plan.count();
        if fails {
            return Err(FileFault::Failed);
        }
        if read.is_err() {
            self.missed = self.missed.saturating_add(1);
        }
        read
    }
}
