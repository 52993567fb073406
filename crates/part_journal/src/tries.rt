//! A log and a shelf together.
ghost use Rattle.std.specs.Prelude.{◌≡◌, ◌⊎◌, ◌≤◌, ◌<◌, ◌++◌, [], map, length, IsTrue, OnErr, Ok};
ghost use Rattle.dap_disk.specs.Disk.{CountsStop};
ghost use Rattle.report_journal.specs.Journal.{body};
ghost use Rattle.report_journal.specs.Log.{contents, Leaves};
ghost use Rattle.part_journal.specs.Pages.{settled};

use crate::fault::Tried;
use crate::shelf::Shelf;
use dap_bytes::LONGEST_BLOCK;
use dap_disk::Disk;
use dap_messages::Spelled;
use report_journal::{AppendFault, Log};
use std::alloc::{AllocError, Global};

/// Appends a block, up to a stop of the disk.
pub(crate) fn append_block<D: Disk>(
    alloc: Global,
    log: &mut Log<D>,
    block: &[Vec<u8>],
) -> Result<Tried, AllocError>
    requires up { IsTrue log.old.up }
    requires some { 0 < length block.now }
    requires size { length (body (contents block.now)) ≤ LONGEST_BLOCK }
    ensures done { result ≡ Ok Tried.Done → (log.new.records ≡ log.old.records ++ contents block.now)
        × (log.new.coming ≡ [])
        × IsTrue log.new.up }
    ensures stop { result ≡ Ok Tried.Stop → (log.new.records ≡ log.old.records)
        × (log.new.coming ≡ contents block.now) }
    ensures err { OnErr result ((log.new.records ≡ log.old.records) × (log.new.coming ≡ []) × IsTrue log.new.up) }
    ensures images { Leaves D.may_leave log.new }
    ensures counts { CountsStop D.downs D.deads (result ≡ Ok Tried.Stop) log.old.disk log.new.disk }
{
    match log.append(alloc, block) {
        Ok(()) => Ok(Tried::Done),
        Err(AppendFault::Down) => Ok(Tried::Stop),
        Err(AppendFault::NoMemory) => Err(AllocError),
    }
}

/// After a restart the block in hand counts where the log holds it.
pub(crate) fn settle<D: Disk, R: Spelled>(log: &Log<D>, shelf: &mut Shelf<R>) -> bool
    requires { (log.now.records ≡ map R.grammar.spell shelf.old.records)
        ⊎ (log.now.records ≡ map R.grammar.spell shelf.old.records ++ map R.grammar.spell shelf.old.block) }
    ensures settled { shelf.new ≡ settled result shelf.old }
    ensures records { log.now.records ≡ map R.grammar.spell shelf.new.records }
{
    let kept = log.records().len() > shelf.records().len();
    shelf.settle(kept);
    kept
}
