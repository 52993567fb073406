//! How a leader's lane takes uploads and judges them.

ghost use Rattle.std.specs.Prelude.{◌≡◌, ◌↔◌, ◌≤◌, ◌<◌, ◌+◌, ◌∷◌, ◌++◌, [], length, drop, IsTrue, IfOk, OnOk, Ok, Err, true, false};
ghost use Rattle.dap_wire.specs.declared.upload.Upload as upload;
ghost use Rattle.part_journal.specs.Counts.{CountsStops};
ghost use Rattle.leader_lane.specs.Lane.{Goes, Fills, FindsNone, IsBackWith, IsJudged, Pumps};

use crate::block::{Block, judge_all};
use crate::faults::{has_stopped, of_lane};
use crate::lane::LeaderLane;
use crate::pumped::{MOST_IN_HAND, Pumped};
use dap_disk::Disk;
use dap_outside::Fates;
use lane_records::LaneFault;
use part_journal::Appended;
use std::alloc::Global;
use vdaf_api::Vdaf;

impl<V: Vdaf, D: Disk, T: Fates> LeaderLane<V, D, T> {
    fn hand_len(&self) -> usize
        ensures { result ≡ length self.now.book.hand }
    {
        self.book.hand().len()
    }

    /// Takes an upload more from the ring, and says whether there was one.
    fn take_one(&mut self) -> Result<bool, LaneFault>
        requires up { IsTrue self.old.part.up }
        requires few { length self.old.book.hand < MOST_IN_HAND }
        ensures goes { Goes D.downs D.deads self.old self.new }
        ensures part { (self.new.part ≡ self.old.part) × (self.new.stopped ≡ self.old.stopped) }
        ensures memory { result ≡ Err LaneFault.Stopped → ⊥ }
        ensures took { result ≡ Ok true → (u : upload.Upload)
            × (self.new.book ≡ record self.old.book { hand = self.old.book.hand ++ u ∷ [] })
            × (self.new.front.received ≡ self.old.front.received ++ u ∷ []) }
        ensures none { result ≡ Ok false → (self.new.book ≡ self.old.book)
            × (self.new.front.received ≡ self.old.front.received) × (self.new.front.waiting ≡ []) }
        ensures err { result ≡ Err LaneFault.NoMemory → (self.new.book ≡ self.old.book)
            × (self.new.front ≡ self.old.front) }
    {
        let _up = self.journal.up();
        match self.book.take_from(&mut self.front) {
            Ok(took) => Ok(took),
            Err(_) => Err(LaneFault::NoMemory),
        }
    }

    /// Takes uploads from the ring, until so many are in hand or there are no more.
    fn fill(&mut self, most: usize) -> Result<(), LaneFault>
        requires up { IsTrue self.old.part.up }
        requires few { most ≤ MOST_IN_HAND }
        ensures goes { Goes D.downs D.deads self.old self.new }
        ensures part { (self.new.part ≡ self.old.part) × (self.new.stopped ≡ self.old.stopped) }
        ensures memory { result ≡ Err LaneFault.Stopped → ⊥ }
        ensures fills { OnOk result (Fills most self.old self.new) }
    {
        'taking: while self.hand_len() < most {
            match self.take_one() {
                Ok(true) => {}
                Ok(false) => return Ok(()),
                Err(fault) => return Err(fault),
            }
        }
        Ok(())
    }

    /// Judges the first so many uploads in hand as one block, and appends it where it has a record.
    fn judge_block(&mut self, alloc: Global, judged: usize) -> Result<Appended, LaneFault>
        requires up { IsTrue self.old.part.up }
        requires within { judged ≤ length self.old.book.hand }
        ensures goes { Goes D.downs D.deads self.old self.new }
        ensures counts { CountsStops D.downs D.deads (result ≡ Err LaneFault.Stopped) self.old.part.left
            self.new.part.left self.old.part.disk self.new.part.disk }
        ensures stopped { IsTrue self.new.stopped ↔ (result ≡ Err LaneFault.Stopped) }
        ensures done { result ≡ Ok Appended.Done → IsJudged judged self.old self.new }
        ensures kept { result ≡ Ok Appended.Kept → IsJudged judged self.old self.new }
        ensures lost { result ≡ Ok Appended.Lost → IsBackWith self.old self.new }
        ensures front { self.new.front ≡ self.old.front }
    {
        let _up = self.journal.up();
        let us = &self.book.hand()[..judged];
        let Ok(block) = judge_all(
            alloc,
            self.place,
            &self.tasks,
            self.journal.records(),
            &mut self.catalog,
            us,
        ) else {
            return Err(LaneFault::NoMemory);
        };
        let Block { records, answers } = block;
        let Ok(()) = self.book.propose(judged, answers) else {
            self.catalog.settle(Some(false));
            return Err(LaneFault::NoMemory);
        };
        if records.is_empty() {
            self.book.settle(Some(true));
            return Ok(Appended::Done);
        }
        let outcome = self.journal.append(alloc, records);
        self.book.settle(self.journal.fate());
        self.catalog.settle(self.journal.fate());
        self.stopped = has_stopped(&outcome);
        of_lane(outcome)
    }

    /// Judges the first so many uploads in hand, once more where a stop has lost their block.
    fn judge_hand(&mut self, alloc: Global, judged: usize) -> Result<(), LaneFault>
        requires up { IsTrue self.old.part.up }
        requires within { judged ≤ length self.old.book.hand }
        ensures goes { Goes D.downs D.deads self.old self.new }
        ensures counts { CountsStops D.downs D.deads (result ≡ Err LaneFault.Stopped) self.old.part.left
            self.new.part.left self.old.part.disk self.new.part.disk }
        ensures stopped { IsTrue self.new.stopped ↔ (result ≡ Err LaneFault.Stopped) }
        ensures ok { OnOk result (IsJudged judged self.old self.new) }
        ensures front { self.new.front ≡ self.old.front }
    {
        let _up = self.up();
        'tries: loop {
            match self.judge_block(alloc, judged) {
                Ok(Appended::Done) => return Ok(()),
                Ok(Appended::Kept) => return Ok(()),
                Ok(Appended::Lost) => {}
                Err(fault) => return Err(fault),
            }
        }
    }

    /// Takes uploads, 1 to `MOST_IN_HAND` at most, those in hand first, judges them in order, and appends the Accepts of
    /// those that are accepted as one block. It answers how many it took: 0 exactly where none was in hand and the ring
    /// as read in this call is empty. A stop of the disk is restarted, and a block that is lost is judged again. Where
    /// memory runs out the uploads that were taken and not judged stay in hand.
    pub fn pump_many(&mut self, alloc: Global, most: u8) -> Result<u8, LaneFault>
        requires up { IsTrue self.old.part.up }
        requires some { 1 ≤ most }
        requires few { most ≤ MOST_IN_HAND }

        ensures took { IfOk result (λ n. Pumps most n self.old self.new) }
        ensures none { result ≡ Ok 0 → FindsNone self.old self.new }

        // On every answer.
        ensures goes { Goes D.downs D.deads self.old self.new }
        ensures counts { CountsStops D.downs D.deads (result ≡ Err LaneFault.Stopped) self.old.part.left
            self.new.part.left self.old.part.disk self.new.part.disk }
        ensures stopped { IsTrue self.new.stopped ↔ (result ≡ Err LaneFault.Stopped) }
    {
        let _up = self.up();
        let most = usize::from(most);
        match self.fill(most) {
            Ok(()) => {}
            Err(fault) => return Err(fault),
        }
        let judged = self.hand_len().min(most);
        if judged == 0 {
            return Ok(0);
        }
        match self.judge_hand(alloc, judged) {
            Ok(()) => Ok(judged as u8),
            Err(fault) => Err(fault),
        }
    }

    /// Takes an upload, one in hand first, and judges it, as `pump_many` does.
    pub fn pump(&mut self, alloc: Global) -> Result<Pumped, LaneFault>
        requires up { IsTrue self.old.part.up }

        ensures took { result ≡ Ok Pumped.Took → Pumps 1 1 self.old self.new }
        ensures empty { result ≡ Ok Pumped.Empty → FindsNone self.old self.new }

        // On every answer.
        ensures goes { Goes D.downs D.deads self.old self.new }
        ensures counts { CountsStops D.downs D.deads (result ≡ Err LaneFault.Stopped) self.old.part.left
            self.new.part.left self.old.part.disk self.new.part.disk }
        ensures stopped { IsTrue self.new.stopped ↔ (result ≡ Err LaneFault.Stopped) }
    {
        match self.pump_many(alloc, 1) {
            Ok(0) => Ok(Pumped::Empty),
            Ok(_) => Ok(Pumped::Took),
            Err(fault) => Err(fault),
        }
    }
}
