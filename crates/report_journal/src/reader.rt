//! Reading a journal as it stands, without opening it.
ghost use Rattle.std.specs.Prelude.{◌≡◌, ◌⊎◌, ℕ, drop, IfOk, Err, IsTrue, false};
ghost use Rattle.dap_disk.specs.Disk.{CountsStop, Tells, NoMore, LeavesOnly};
ghost use Rattle.report_journal.specs.Journal.{EachFits, NoJournal, Stands};
ghost use Rattle.report_journal.specs.Log.{contents};
ghost use Rattle.report_journal.specs.Reading.{StandsIn};
ghost use Rattle.report_journal.specs.Reader.{as_read};

use crate::LogFault;
use crate::grammar::parse_blocks;
use crate::opening::{is_fresh, read_all};
use dap_disk::Disk;
use std::alloc::Global;

/// Why a reading was refused.
#[derive(Clone, Copy, Debug, PartialEq, Eq)]
pub enum ReadOnlyFault {
    /// The disk stopped.
    Down,
    /// The bytes are no journal: at this place, behind whole blocks, a gate is open and no block stands.
    NotAJournal { at: u64 },
    /// There was no memory.
    NoMemory,
}

impl From<LogFault> for ReadOnlyFault {
    ghost from_gives = { λ fault read. read ≡ as_read fault };

    fn from(fault: LogFault) -> Self {
        match fault {
            LogFault::Down => ReadOnlyFault::Down,
            LogFault::NotAJournal { at } => ReadOnlyFault::NotAJournal { at },
            LogFault::NoMemory => ReadOnlyFault::NoMemory,
        }
    }
}

/// The records of a journal, and how many blocks they stand in.
#[derive(Drop)]
pub struct Blocks {
    /// The records, the oldest first.
    pub records: Vec<Vec<u8>>,
    /// How many blocks there are.
    pub count: usize,
}

/// Reads the records of a journal that begins at this place of the disk, and counts their blocks. It takes `len` and
/// `read` alone, so that nothing is written. No byte and a single one stand for no records.
#[tactic(auto, using(crate::proofs::Sizes::each_fits))]
pub fn read_blocks<D: Disk>(
    alloc: Global,
    disk: &mut D,
    start: u64,
) -> Result<Blocks, ReadOnlyFault>
    requires { IsTrue (D.up disk.old) }
    ensures records { IfOk result (λ r. Tells (D.holds disk.old)
        (λ c. StandsIn (contents r.records.items) r.count (drop start c))) }
    ensures fits { IfOk result (λ r. EachFits (contents r.records.items)) }
    ensures none { (at : ℕ) → result ≡ Err (ReadOnlyFault.NotAJournal at)
        → Tells (D.holds disk.old) (λ c. NoJournal at (drop start c)) }
    ensures same { D.holds disk.new ≡ D.holds disk.old }
    ensures images { NoMore (D.may_leave disk.old) (D.may_leave disk.new) }
    ensures any_moment { LeavesOnly D.moment D.left_since disk.old disk.new (D.may_leave disk.old) }
    ensures up { (result ≡ Err ReadOnlyFault.Down) ⊎ IsTrue (D.up disk.new) }
    ensures down { result ≡ Err ReadOnlyFault.Down → D.up disk.new ≡ false }
    ensures counts { CountsStop D.downs D.deads (result ≡ Err ReadOnlyFault.Down) disk.old disk.new }
{
    let file = read_all(alloc, disk)?;
    let part = part_from(&file, start as usize);
    if is_fresh(part) {
        return Ok(Blocks {
            records: Vec::new(alloc),
            count: 0,
        });
    }
    let (records, _, count) = parse_blocks(alloc, part)?;
    Ok(Blocks { records, count })
}

/// The bytes from a place on.
fn part_from(file: &[u8], start: usize) -> &[u8]
    ensures { result.now ≡ drop start file.now }
{
    if start > file.len() {
        return &[];
    }
    &file[start..]
}

/// Reads the records of a journal, the oldest first, by `len` and `read` alone, so that nothing is written.
pub fn read_only<D: Disk>(alloc: Global, disk: &mut D) -> Result<Vec<Vec<u8>>, ReadOnlyFault>
    requires { IsTrue (D.up disk.old) }
    ensures records { IfOk result (λ r. Tells (D.holds disk.old) (Stands (contents r.items))) }
    ensures none { (at : ℕ) → result ≡ Err (ReadOnlyFault.NotAJournal at) → Tells (D.holds disk.old) (NoJournal at) }
    ensures same { D.holds disk.new ≡ D.holds disk.old }
    ensures images { NoMore (D.may_leave disk.old) (D.may_leave disk.new) }
    ensures any_moment { LeavesOnly D.moment D.left_since disk.old disk.new (D.may_leave disk.old) }
    ensures up { (result ≡ Err ReadOnlyFault.Down) ⊎ IsTrue (D.up disk.new) }
    ensures down { result ≡ Err ReadOnlyFault.Down → D.up disk.new ≡ false }
    ensures counts { CountsStop D.downs D.deads (result ≡ Err ReadOnlyFault.Down) disk.old disk.new }
{
    let blocks = read_blocks(alloc, disk, 0)?;
    Ok(blocks.records)
}
