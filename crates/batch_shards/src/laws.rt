//! What is kept of a batch against the list of its reports.

ghost use Rattle.std.specs.Prelude.{◌≡◌, ◌≢◌, ◌⊎◌, ◌+◌, ◌∷◌, ◌++◌, [], Bool, true, false, List, ℕ};
ghost use Rattle.vdaf_api.specs.Vectors.{IsOut};
ghost use Rattle.vdaf_api.specs.Totals.{total};
ghost use Rattle.batch_shards.specs.Bucket.{closed_for_good, nothing, sum_or_zero, told_of, with_rejected, with_report, with_room, HasSum, IsSum};
ghost use Rattle.batch_shards.specs.Batches.{Kept, bucket_of, changed, IsHeld};
ghost use Rattle.batch_shards.specs.declared.bucket.Bucket.{Bucket};
ghost use Rattle.batch_shards.specs.Reports.{Report, AreOuts, outs, tally};

use vdaf_api::Vdaf;

/// A law: a change of one batch leaves what is kept of every other batch.
pub fn a_change_is_of_one_batch()
    ensures changed { (kept : Kept) (name : List ℕ) (start : ℕ) (b : Bucket)
        → bucket_of (changed kept name start b) name start ≡ b }
    ensures others { (kept : Kept) (name other : List ℕ) (start later : ℕ) (b : Bucket)
        → ((name ≢ other) ⊎ (start ≢ later))
        → bucket_of (changed kept name start b) other later ≡ bucket_of kept other later }
{}

/// A law: what is kept of a batch is that of the list of its reports: nothing at first, a report more after each report
/// that is added, a rejected one more after each rejection; and the total is the sum of the out shares.
pub fn a_bucket_is_that_of_its_reports<V: Vdaf>(vdaf: &V)
    ensures first { nothing ≡ tally (V.functions vdaf.now).space [] 0 false }
    ensures added { (reports : List Report) (rejected : ℕ) (closed : Bool) (r : Report)
        → AreOuts (V.functions vdaf.now).space reports → IsOut (V.functions vdaf.now).space r.out
        → with_report (V.functions vdaf.now).space r.id r.out
        (tally (V.functions vdaf.now).space reports rejected closed)
        ≡ tally (V.functions vdaf.now).space (reports ++ r ∷ []) rejected closed }
    ensures rejected { (reports : List Report) (rejected : ℕ) (closed : Bool)
        → with_rejected (tally (V.functions vdaf.now).space reports rejected closed)
        ≡ tally (V.functions vdaf.now).space reports (rejected + 1) closed }
    ensures closed { (reports : List Report) (rejected : ℕ) (closed : Bool)
        → closed_for_good (tally (V.functions vdaf.now).space reports rejected closed)
        ≡ tally (V.functions vdaf.now).space reports rejected true }
    ensures total { (reports : List Report) (rejected : ℕ) (closed : Bool)
        → sum_or_zero (V.functions vdaf.now).space (tally (V.functions vdaf.now).space reports rejected closed).sum
        ≡ total (V.functions vdaf.now).space (outs reports) }
{}

/// A law: what is kept of a batch doesn't depend on when a report was added.
pub fn no_order_changes_a_bucket<V: Vdaf>(vdaf: &V)
    ensures { (before after : List Report) (r : Report) (rejected : ℕ) (closed : Bool)
        → tally (V.functions vdaf.now).space (before ++ r ∷ after) rejected closed
        ≡ tally (V.functions vdaf.now).space (r ∷ (before ++ after)) rejected closed }
{}

/// A law: room for a sum is no report. What is told of a batch stays, every change comes to the same with room as
/// without it, and a batch with room keeps it through every change.
pub fn room_is_no_report<V: Vdaf>(vdaf: &V)
    ensures told { (b : Bucket)
        → told_of (V.functions vdaf.now).space (with_room (V.functions vdaf.now).space b)
        ≡ told_of (V.functions vdaf.now).space b }
    ensures added { (id out : List ℕ) (b : Bucket) → IsOut (V.functions vdaf.now).space out
        → with_report (V.functions vdaf.now).space id out (with_room (V.functions vdaf.now).space b)
        ≡ with_report (V.functions vdaf.now).space id out b }
    ensures rejected { (b : Bucket) → with_rejected (with_room (V.functions vdaf.now).space b)
        ≡ with_room (V.functions vdaf.now).space (with_rejected b) }
    ensures closed { (b : Bucket) → closed_for_good (with_room (V.functions vdaf.now).space b)
        ≡ with_room (V.functions vdaf.now).space (closed_for_good b) }
    ensures again { (b : Bucket) → HasSum (V.functions vdaf.now).space b.sum
        → with_room (V.functions vdaf.now).space b ≡ b }
    ensures ready { (b : Bucket) → IsSum (V.functions vdaf.now).space b.sum
        → HasSum (V.functions vdaf.now).space (with_room (V.functions vdaf.now).space b).sum }
    ensures stays { (id out : List ℕ) (b : Bucket) → IsOut (V.functions vdaf.now).space out
        → HasSum (V.functions vdaf.now).space b.sum
        → HasSum (V.functions vdaf.now).space (with_report (V.functions vdaf.now).space id out b).sum }
    ensures held { (kept : Kept) (name : List ℕ) (start : ℕ)
        → HasSum (V.functions vdaf.now).space (bucket_of kept name start).sum → IsHeld kept name start }
{}
