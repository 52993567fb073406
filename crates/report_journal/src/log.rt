//! A journal: blocks of records, each behind a gate byte that is opened once the block is on the disk.
ghost use Rattle.std.specs.Prelude.{◌≡◌, ◌⊎◌, ◌≤◌, ◌<◌, ◌^◌, ◌+◌, ◌++◌, [], List, ℕ, length, IfOk, IfErr, OnOk, OnErr, IsErrOf, IsTrue, Some, false};
ghost use Rattle.dap_disk.specs.Disk.{CountsRestart, CountsStop, Tells, LeavesOnly, of_told};
ghost use Rattle.report_journal.specs.Retry.{WithOrWithout};
ghost use Rattle.report_journal.specs.Journal.{Closed, NoJournal, Stands, body, with_block};
ghost use Rattle.report_journal.specs.Log.{AddsBlock, ComesBack, IsDownWith, Leaves, StaysUp};
ghost use Rattle.report_journal.specs.Reading.{IsAsBefore, SameRecords, TellsNone, opened};

use crate::block::{block_bytes, keep_copies};
use crate::moves::{gate_after_restart, write_block};
use crate::opening::start;
use crate::{AppendFault, LogFault, RestartFault};
use dap_bytes::LONGEST_BLOCK;
use dap_disk::{Disk, StoreFault};
use std::alloc::Global;
use std::marker::Model;

/// A journal on a disk. Contracts see its disk, its records, the block in hand whose fate is open while it is down,
/// and whether it is up. After `Down` or `Dead` only `restart`, `up` and `into_disk` are of use.
#[derive(Drop)]
pub struct Log<D: Disk> {
    disk: D,
    // The records, and behind them those of the block in hand.
    records: Vec<Vec<u8>>,
    durable: usize,
    // Where the last gate stands.
    gate: u64,
    // How many bytes the block in hand has behind its gate, with the gate behind it.
    size: u64,
    up: bool,
}

impl<D: Disk> Model for Log<D> {
    ghost use Rattle.std.specs.Prelude.{take, drop};
    ghost use Rattle.report_journal.specs.Log.{LogView, log_code, IsLog, contents};

    ghost Value = { LogView D };

    ghost coded = { log_code D.code };

    ghost view = { λ a. record {
      disk = a.disk;
      records = contents (take a.durable a.records.items);
      coming = contents (drop a.durable a.records.items);
      up = a.up;
    } };

    ghost invariant = { λ a. IsLog D.holds D.up D.may_leave a.disk a.records.items a.durable a.gate a.size a.up };
}

/// Why an opening was refused, with the disk.
#[derive(Drop)]
pub struct OpenRefused<D> {
    /// The disk, which is up but for `Down`.
    pub disk: D,
    /// Why.
    pub fault: LogFault,
}

impl<D: Disk> Log<D> {
    ghost use Rattle.report_journal.specs.Log.{contents};

    /// Opens a journal. It begins with a sync and reads the file; an empty file, or one open gate alone, is made a
    /// journal without records. After `NoMemory` the disk is up and its bytes give the same records as before, after
    /// `NotAJournal` they are as before.
    pub fn open(alloc: Global, disk: D) -> Result<Log<D>, OpenRefused<D>>
        requires { IsTrue (D.up disk) }

        ensures up { IfOk result (λ log. IsTrue log.up) }
        ensures at_rest { IfOk result (λ log. log.coming ≡ []) }
        ensures records { IfOk result (λ log. Tells (D.holds disk) (Stands log.records)) }
        ensures held { IfOk result (λ log. Tells (D.holds log.disk) (Stands log.records)) }
        ensures file { IfOk result (λ log. D.holds log.disk ≡ of_told opened (D.holds disk)) }
        ensures images { IfOk result (λ log. Leaves D.may_leave log) }

        // At every moment a stop leaves what it might have left before, or a file with the same records.
        ensures any_moment { IfOk result (λ log. LeavesOnly D.moment D.left_since disk log.disk
            (IsAsBefore (D.may_leave disk) (D.holds disk))) }
        ensures any_moment_err { IfErr result (λ e. LeavesOnly D.moment D.left_since disk e.disk
            (IsAsBefore (D.may_leave disk) (D.holds disk))) }

        ensures none { IfErr result (λ e. (at : ℕ) → e.fault ≡ LogFault.NotAJournal at
            → TellsNone at (D.holds disk) × (D.holds e.disk ≡ D.holds disk) × IsTrue (D.up e.disk)) }
        ensures memory { IfErr result (λ e. e.fault ≡ LogFault.NoMemory
            → IsTrue (D.up e.disk) × Tells (D.holds e.disk) (SameRecords (D.holds disk))) }
        ensures down { IfErr result (λ e. e.fault ≡ LogFault.Down → D.up e.disk ≡ false) }

        // Where it succeeds no fault of the disk is counted, and else one stop, that of `Down`.
        ensures counts { IfOk result (λ log. CountsStop D.downs D.deads ⊥ disk log.disk) }
        ensures counts_err { IfErr result (λ e. CountsStop D.downs D.deads (e.fault ≡ LogFault.Down) disk e.disk) }
    {
        let mut disk = disk;
        match start(alloc, &mut disk) {
            Ok((records, gate)) => {
                let durable = records.len();
                Ok(Log {
                    disk,
                    records,
                    durable,
                    gate: gate as u64,
                    size: 0,
                    up: true,
                })
            }
            Err(fault) => Err(OpenRefused { disk, fault }),
        }
    }

    /// Whether it takes records.
    pub fn up(&self) -> bool
        ensures up { result ≡ self.now.up }
        ensures at_rest { IsTrue self.now.up → self.now.coming ≡ [] }
        ensures images { Leaves D.may_leave self.now }
    {
        self.up
    }

    /// The records as opened and appended, the oldest first.
    pub fn records(&self) -> &[Vec<u8>]
        ensures records { contents result.now ≡ self.now.records }
        ensures at_rest { IsTrue self.now.up → self.now.coming ≡ [] }
        ensures images { Leaves D.may_leave self.now }
    {
        &self.records[..self.durable]
    }

    /// The disk.
    pub fn into_disk(self) -> D
        ensures disk { result ≡ self.disk }
        ensures up { IsTrue self.up → IsTrue (D.up result) }
        ensures images { Leaves D.may_leave self }
        ensures held { IsTrue self.up → Tells (D.holds self.disk) (Stands self.records) }
    {
        let Log {
            disk,
            records: _,
            durable: _,
            gate: _,
            size: _,
            up: _,
        } = self;
        disk
    }

    /// Adds records as one block, at least one and `LONGEST_BLOCK` bytes at most. It writes the block behind the shut
    /// gate, syncs, opens the gate and syncs, so a stop at any moment leaves all of them or none. After `Ok` every
    /// stop leaves them. After `Down` they are in hand, and a restart finds out whether they count. After `NoMemory`
    /// the records are as before, in every image too.
    pub fn append(&mut self, alloc: Global, records: &[Vec<u8>]) -> Result<(), AppendFault>
        requires up { IsTrue self.old.up }
        requires some { 0 < length records.now }
        requires size { length (body (contents records.now)) ≤ LONGEST_BLOCK }

        ensures added { OnOk result ((self.new.records ≡ self.old.records ++ contents records.now)
            × IsTrue self.new.up) }
        ensures file { OnOk result (AddsBlock D.holds (contents records.now) self.old self.new) }
        ensures durable { OnOk result ((c : List ℕ) → D.may_leave self.new.disk c → Stands self.new.records c) }
        ensures any_moment { LeavesOnly D.moment D.left_since self.old.disk self.new.disk
            (WithOrWithout self.old.records (contents records.now)) }
        ensures memory { IsErrOf result AppendFault.NoMemory → StaysUp D.may_leave self.old self.new }
        ensures in_hand { IsErrOf result AppendFault.Down → IsDownWith (contents records.now) self.old self.new }
        ensures at_rest { IsTrue self.new.up → self.new.coming ≡ [] }
        ensures images { Leaves D.may_leave self.new }
        ensures counts { CountsStop D.downs D.deads (IsErrOf result AppendFault.Down) self.old.disk self.new.disk }
        ensures down { IsErrOf result AppendFault.Down → D.up self.new.disk ≡ false }
    {
        let gate = self.gate;
        let bytes = block_bytes(alloc, records)?;
        let size = bytes.len() as u64;
        if gate >= u64::MAX - size {
            return Err(AppendFault::NoMemory);
        }
        keep_copies(alloc, &mut self.records, records)?;
        match write_block(&mut self.disk, &self.records, self.durable, gate, &bytes) {
            Ok(()) => {
                self.durable = self.records.len();
                self.gate = gate + size;
                self.size = 0;
                Ok(())
            }
            Err(StoreFault::NoMemory) => {
                self.records.truncate(self.durable);
                Err(AppendFault::NoMemory)
            }
            Err(StoreFault::Down) => {
                self.size = size;
                self.up = false;
                Err(AppendFault::Down)
            }
        }
    }

    /// Restarts the disk, and finds by the byte at the last gate whether the block in hand is on it. It takes no
    /// memory. After a refusal it is down, with the records and the block in hand as before.
    pub fn restart(&mut self) -> Result<(), RestartFault>
        ensures records { OnOk result (ComesBack self.old self.new) }
        ensures told { OnOk result (Tells (D.holds self.new.disk) (Stands self.new.records)) }
        ensures image { OnOk result (Tells (D.holds self.new.disk) (D.may_leave self.old.disk)) }
        ensures durable { OnOk result ((c : List ℕ) → D.may_leave self.new.disk c → Stands self.new.records c) }
        ensures any_moment { LeavesOnly D.moment D.left_since self.old.disk self.new.disk
            (WithOrWithout self.old.records self.old.coming) }
        ensures same { OnErr result (IsDownWith self.old.coming self.old self.new) }
        ensures at_rest { OnOk result (self.new.coming ≡ []) }
        ensures images { Leaves D.may_leave self.new }
        ensures counts { CountsRestart D.downs D.deads (IsErrOf result RestartFault.Down)
            (IsErrOf result RestartFault.Dead) self.old.disk self.new.disk }
    {
        self.up = false;
        let open_gate = gate_after_restart(&mut self.disk, self.gate)?;
        if open_gate {
            self.durable = self.records.len();
            self.gate += self.size;
            self.size = 0;
            self.up = true;
            return Ok(());
        }
        self.records.truncate(self.durable);
        self.size = 0;
        self.up = true;
        Ok(())
    }
}
