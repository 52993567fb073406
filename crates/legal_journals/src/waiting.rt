//! The reports of a leader lane that wait.

ghost use Rattle.std.specs.Prelude.{◌≡◌, ℕ, Bool, ◌≤◌, length, ◌++◌, ◌∷◌, [], List, OnErr, OnOk, IfSome, IfNone, IsSome, Some, None, false};
ghost use Rattle.dap_messages.specs.declared.report.Report.{Report};
ghost use Rattle.lane_records.specs.declared.record.Record.{Record};
ghost use Rattle.lane_records.specs.declared.record.Record.TheVariants.{Accept};
ghost use Rattle.lane_records.specs.Records.{accept_of};
ghost use Rattle.legal_journals.specs.Accepts.{accept_at};
ghost use Rattle.legal_journals.specs.Waiting.{settled_with, waits_at, Waits};

use crate::table::Table;
use dap_bytes::Id;
use std::alloc::{AllocError, Global};
use std::cmp::Ordering;

/// The reports that wait, each in a group and at the place of its Accept: those of a task that wait for a job, with the
/// task's name as the group, or those of a bucket that aren't finished, with the name and the bucket's start. What a
/// report waits for is known to the lane, which settles its place once the record that it waited for is written.
#[derive(Drop)]
pub struct Waiting<G: Ord> {
    reports: Table<(G, usize), Id>,
}

impl<G: Ord + Copy + Drop> Waiting<G> {
    /// None. It takes no memory.
    pub fn new(alloc: Global) -> Self
        ensures { (of : Report → G) (settled : ℕ → Bool) → Waits G.cmp of settled result [] }
    {
        Waiting {
            reports: Table::new(alloc),
        }
    }

    /// The report of one Accept more, which stands at this place, behind all others. It waits in this group.
    pub fn enter(&mut self, group: G, place: usize, id: &Id) -> Result<(), AllocError>
        ensures ok { OnOk result ((of : Report → G) (settled : ℕ → Bool) (records : List Record) (r : Report)
            → Waits G.cmp of settled self.old records → of r ≡ group → r.id ≡ id.now → place ≡ length records
            → settled place ≡ false → Waits G.cmp of settled self.new (records ++ Accept r ∷ [])) }
        ensures err { OnErr result (self.new ≡ self.old) }
    {
        self.reports.enter((group, place), *id)
    }

    /// Without the report of the newest record, an Accept at this place. It takes no memory.
    pub fn take_back(&mut self, group: G, place: usize)
        ensures { (of : Report → G) (settled : ℕ → Bool) (records : List Record) (r : Report)
            → Waits G.cmp of settled self.old (records ++ Accept r ∷ []) → of r ≡ group → place ≡ length records
            → Waits G.cmp of settled self.new records }
    {
        self.reports.leave(&(group, place));
    }

    /// Settles the place of a report of the group, which waits no more. It takes no memory.
    pub fn settle(&mut self, group: G, place: usize)
        ensures { (of : Report → G) (settled : ℕ → Bool) (records : List Record)
            → Waits G.cmp of settled self.old records
            → ((r : Report) → accept_at place records ≡ Some r → of r ≡ group)
            → Waits G.cmp of (settled_with place settled) self.new records }
    {
        self.reports.leave(&(group, place));
    }

    /// The place of the oldest report that waits in the group, from this place on. None where there is none. It takes no
    /// memory.
    pub fn next(&self, group: G, from: usize) -> Option<usize>
        ensures oldest { (of : Report → G) (settled : ℕ → Bool) (records : List Record)
            → Waits G.cmp of settled self.now records
            → IfSome result (λ p. (from ≤ p) × IsSome (waits_at G.cmp of settled records (group, p))
            × ((k : ℕ) → from ≤ k → IsSome (waits_at G.cmp of settled records (group, k)) → p ≤ k)) }
        ensures none { (of : Report → G) (settled : ℕ → Bool) (records : List Record)
            → Waits G.cmp of settled self.now records
            → IfNone result ((k : ℕ) → from ≤ k → waits_at G.cmp of settled records (group, k) ≡ None) }
    {
        let Some(entry) = self.reports.next((group, from)) else {
            return None;
        };
        let key = entry.0;
        match key.0.cmp(&group) {
            Ordering::Equal => Some(key.1),
            Ordering::Less | Ordering::Greater => None,
        }
    }

    /// A law: what waits goes by the Accepts alone, and by what is settled at their places.
    pub fn waits_for_accepts_alone(&self)
        ensures other { (of : Report → G) (settled : ℕ → Bool) (records : List Record) (x : Record)
            → accept_of x ≡ None → Waits G.cmp of settled self.now records
            → Waits G.cmp of settled self.now (records ++ x ∷ []) }
        ensures other_back { (of : Report → G) (settled : ℕ → Bool) (records : List Record) (x : Record)
            → accept_of x ≡ None → Waits G.cmp of settled self.now (records ++ x ∷ [])
            → Waits G.cmp of settled self.now records }
        ensures same { (of : Report → G) (settled so : ℕ → Bool) (records : List Record)
            → ((p : ℕ) (r : Report) → accept_at p records ≡ Some r → settled p ≡ so p)
            → Waits G.cmp of settled self.now records → Waits G.cmp of so self.now records }
    {}
}
