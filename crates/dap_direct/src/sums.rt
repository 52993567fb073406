//! The sums of buckets and of batches.

ghost use Rattle.std.specs.Prelude.{◌≡◌, ◌+◌, ◌^◌, ◌<◌, [], IfOk};
ghost use Rattle.std.specs.List.{find, position_or_len};
ghost use Rattle.std.specs.Option.{option_map};
ghost use Rattle.vdaf_api.specs.Vectors.{IsOut, plus};

use crate::prepared::OutShares;
use dap_bytes::{Name, Span};
use dap_model::Printed;
use std::alloc::{AllocError, Global};
use vdaf_api::{Collected, Vdaf};

/// The sums of a bucket: those of its reports' out shares at the leader and at the helper, and how many reports are in them
/// and how many were rejected; or those of a batch that starts there, which are its buckets' together.
#[derive(Debug, Drop)]
pub struct Sums {
    pub task: Name,
    pub start: u64,
    pub leader: Vec<u8>,
    pub helper: Vec<u8>,
    pub reports: u32,
    pub rejected: u32,
}

/// Adds an out share to a sum.
fn add_share<V: Vdaf>(vdaf: &V, total: &mut Vec<u8>, out: &[u8])
    requires total { IsOut (V.functions vdaf.now).space total.old.items }
    requires out { IsOut (V.functions vdaf.now).space out.now }
    ensures { total.new.items ≡ plus (V.functions vdaf.now).space total.old.items out.now }
{
    vdaf.add(total, out);
}

impl Sums {
    ghost use Rattle.dap_direct.specs.Sums.{is_of, AddsSums, AreSums, AreOutShares, Counts, IsReady, answer_of, line_of};

    /// No reports of the task's bucket, or batch, that starts there.
    pub fn none<V: Vdaf>(
        alloc: Global,
        vdaf: &V,
        task: Name,
        start: u64,
    ) -> Result<Sums, AllocError>
        ensures task { IfOk result (λ s. s.task ≡ task) }
        ensures start { IfOk result (λ s. s.start ≡ start) }
        ensures sums { IfOk result (AreSums (V.functions vdaf.now) [] 0) }
    {
        Ok(Sums {
            task,
            start,
            leader: vdaf.zero(alloc)?,
            helper: vdaf.zero(alloc)?,
            reports: 0,
            rejected: 0,
        })
    }

    /// Counts a report with its out shares, or as a rejected one where it has none.
    pub fn count<V: Vdaf>(&mut self, vdaf: &V, outs: &Option<OutShares>)
        requires leader { IsOut (V.functions vdaf.now).space self.old.leader.items }
        requires helper { IsOut (V.functions vdaf.now).space self.old.helper.items }
        requires outs { AreOutShares (V.functions vdaf.now) outs.now }
        requires reports { self.old.reports + 1 < 2 ^ 32 }
        requires rejected { self.old.rejected + 1 < 2 ^ 32 }
        ensures { Counts (V.functions vdaf.now) outs.now self.old self.new }
    {
        match outs {
            Some(outs) => {
                add_share(vdaf, &mut self.leader, &outs.leader);
                add_share(vdaf, &mut self.helper, &outs.helper);
                self.reports += 1;
            }
            None => self.rejected += 1,
        }
    }

    /// Adds the sums of another bucket.
    pub fn join<V: Vdaf>(&mut self, vdaf: &V, other: &Sums)
        requires leader { IsOut (V.functions vdaf.now).space self.old.leader.items }
        requires helper { IsOut (V.functions vdaf.now).space self.old.helper.items }
        requires other_leader { IsOut (V.functions vdaf.now).space other.now.leader.items }
        requires other_helper { IsOut (V.functions vdaf.now).space other.now.helper.items }
        requires reports { self.old.reports + other.now.reports < 2 ^ 32 }
        requires rejected { self.old.rejected + other.now.rejected < 2 ^ 32 }
        ensures { AddsSums (V.functions vdaf.now) other.now self.old self.new }
    {
        add_share(vdaf, &mut self.leader, &other.leader);
        add_share(vdaf, &mut self.helper, &other.helper);
        self.reports += other.reports;
        self.rejected += other.rejected;
    }

    fn is_of(&self, task: &Name, start: u64) -> bool
        ensures { result ≡ is_of task.now start self.now }
    {
        self.task == *task && self.start == start
    }

    /// The sums of the task's bucket that starts there, if it has any. It takes no memory.
    pub fn find<'a>(sums: &'a [Sums], task: &Name, start: u64) -> Option<&'a Sums>
        ensures { option_map (λ s. s.now) result ≡ find (is_of task.now start) sums.now }
    {
        sums.iter().find(|bucket| bucket.is_of(task, start))
    }

    /// The place of the sums of the task's bucket that starts there, which is the number of all sums where it has none.
    fn place(sums: &[Sums], task: &Name, start: u64) -> usize
        ensures { result ≡ position_or_len (is_of task.now start) sums.now }
    {
        let mut place = 0;
        for batch in sums {
            if batch.is_of(task, start) {
                return place;
            }
            place += 1;
        }
        place
    }

    /// The place of the sums of the task's bucket that starts there, which are made where it has none.
    pub fn ready<V: Vdaf>(
        sums: &mut Vec<Sums>,
        alloc: Global,
        vdaf: &V,
        task: &Name,
        start: u64,
    ) -> Result<usize, AllocError>
        ensures { IfOk result (IsReady (V.functions vdaf.now) task.now start sums.old.items sums.new.items) }
    {
        let place = Sums::place(sums, task, start);
        if place == sums.len() {
            sums.push(Sums::none(alloc, vdaf, *task, start)?)?;
        }
        Ok(place)
    }

    /// What the sums come to.
    fn collection<V: Vdaf>(&self, alloc: Global, vdaf: &V) -> Result<Collected, AllocError>
        requires leader { IsOut (V.functions vdaf.now).space self.now.leader.items }
        requires helper { IsOut (V.functions vdaf.now).space self.now.helper.items }
        ensures { IfOk result (λ what. what ≡ record {
          reports = self.now.reports;
          rejected = self.now.rejected;
          answer = answer_of (V.functions vdaf.now) self.now;
        }) }
    {
        Ok(Collected {
            reports: self.reports,
            rejected: self.rejected,
            answer: vdaf.answer(alloc, &self.leader, &self.helper)?,
        })
    }

    /// The printed line of a collected batch of these sums.
    pub fn line<V: Vdaf>(
        &self,
        alloc: Global,
        vdaf: &V,
        name: Name,
        span: Span,
    ) -> Result<Printed, AllocError>
        requires leader { IsOut (V.functions vdaf.now).space self.now.leader.items }
        requires helper { IsOut (V.functions vdaf.now).space self.now.helper.items }
        ensures { IfOk result (λ line. line ≡ line_of (V.functions vdaf.now) name span self.now) }
    {
        let what = self.collection(alloc, vdaf)?;
        Ok(Printed::Collected { name, span, what })
    }
}
