//! The uploads in hand and the answers that are kept.

ghost use Rattle.std.specs.Prelude.{◌≡◌, ◌≤◌, ◌∷◌, ◌++◌, [], length, OnOk, OnErr, Ok, true, false};
ghost use Rattle.dap_wire.specs.declared.upload.Upload as upload;
ghost use Rattle.leader_lane.specs.Book.{landed, lost, proposed, held, emptied, settled_by, no_book};

use dap_tasks::Answer;
use dap_wire::{LaneEnd, Upload};
use std::alloc::{AllocError, Global};
use std::marker::Model;

/// The uploads in hand, and the answers. While a block is in hand that judges the first of the uploads, their answers
/// stand behind the kept ones, so that nothing takes memory once the block is durable.
#[derive(Drop)]
pub(crate) struct Book {
    answers: Vec<Answer>,
    kept: usize,
    hand: Vec<Upload>,
    in_block: usize,
}

impl Model for Book {
    ghost use Rattle.std.specs.Prelude.{◌≤◌, take, drop, length};
    ghost use Rattle.leader_lane.specs.Book.{BookView};

    ghost Value = { BookView };

    ghost view = { λ a. record {
      answers = take a.kept a.answers.items;
      block_answers = drop a.kept a.answers.items;
      hand = a.hand.items;
      in_block = a.in_block;
    } };

    ghost invariant = { λ a. (a.kept ≤ length a.answers.items) × (a.in_block ≤ length a.hand.items) };
}

impl Book {
    /// No answers and no uploads. It takes no memory.
    pub(crate) fn new(alloc: Global) -> Self
        ensures { result ≡ no_book }
    {
        Book {
            answers: Vec::new(alloc),
            kept: 0,
            hand: Vec::new(alloc),
            in_block: 0,
        }
    }

    /// The uploads in hand, the oldest first.
    pub(crate) fn hand(&self) -> &[Upload]
        ensures { result.now ≡ self.now.hand }
    {
        &self.hand
    }

    /// Takes an upload more from the ring, and says whether there was one.
    pub(crate) fn take_from(&mut self, front: &mut LaneEnd) -> Result<bool, AllocError>
        ensures took { result ≡ Ok true → (u : upload.Upload) × (self.new ≡ held u self.old)
            × (front.new.received ≡ front.old.received ++ u ∷ []) }
        ensures none { result ≡ Ok false → (self.new ≡ self.old) × (front.new.received ≡ front.old.received)
            × (front.new.waiting ≡ []) }
        ensures err { OnErr result ((self.new ≡ self.old) × (front.new ≡ front.old)) }
        ensures ring { front.new.into ≡ front.old.into }
    {
        self.hand.try_reserve(1)?;
        match front.next() {
            None => Ok(false),
            Some(u) => {
                self.hand.push_reserved(u);
                Ok(true)
            }
        }
    }

    /// A block judges the first so many uploads in hand, with these answers.
    pub(crate) fn propose(
        &mut self,
        judged: usize,
        mut answers: Vec<Answer>,
    ) -> Result<(), AllocError>
        requires within { judged ≤ length self.old.hand }
        requires none { self.old.block_answers ≡ [] }
        ensures ok { OnOk result (self.new ≡ proposed judged answers.items self.old) }
        ensures err { OnErr result (self.new ≡ self.old) }
    {
        self.answers.append(&mut answers)?;
        self.in_block = judged;
        Ok(())
    }

    fn land(&mut self)
        ensures { self.new ≡ landed self.old }
    {
        self.kept = self.answers.len();
        self.hand.drain(..self.in_block);
        self.in_block = 0;
    }

    fn lose(&mut self)
        ensures { self.new ≡ lost self.old }
    {
        self.answers.truncate(self.kept);
        self.in_block = 0;
    }

    /// By what became of the block in hand; nothing while that is open. It takes no memory.
    pub(crate) fn settle(&mut self, fate: Option<bool>)
        ensures { self.new ≡ settled_by fate self.old }
    {
        match fate {
            Some(true) => self.land(),
            Some(false) => self.lose(),
            None => {}
        }
    }

    /// The kept answers, which are handed out. It takes no memory.
    pub(crate) fn take_answers(&mut self, alloc: Global) -> Vec<Answer>
        requires { self.old.block_answers ≡ [] }
        ensures answers { result.items ≡ self.old.answers }
        ensures rest { self.new ≡ emptied self.old }
    {
        self.kept = 0;
        std::mem::replace(&mut self.answers, Vec::new(alloc))
    }
}
