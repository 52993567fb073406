//! Laws of legal journals.

ghost use Rattle.std.specs.Prelude.{◌≡◌, ◌↔◌, ℕ, List, [], ◌∷◌, ◌++◌, reverse, Option};
ghost use Rattle.dap_bytes.specs.declared.node.Node.{Node};
ghost use Rattle.dap_bytes.specs.declared.node.Node.TheVariants.{Leader, Helper};
ghost use Rattle.dap_bytes.specs.declared.part.Part.{Part};
ghost use Rattle.dap_bytes.specs.declared.part.Part.TheVariants.{Lane};
ghost use Rattle.dap_messages.specs.declared.body.Half.{Half};
ghost use Rattle.dap_messages.specs.declared.body.Step.{Step};
ghost use Rattle.dap_messages.specs.declared.item.Tagged.{Tagged};
ghost use Rattle.dap_messages.specs.declared.job.JobNo.{JobNo};
ghost use Rattle.dap_messages.specs.Items.{ids_of, IsAscending};
ghost use Rattle.legal_journals.specs.History.{Mem};
ghost use Rattle.legal_journals.specs.Legal.{May, IsLegalJournal, IsFirstRefused};
ghost use Rattle.legal_journals.specs.LegalLanes.{Finishes};
ghost use Rattle.lane_records.specs.declared.outcome.Outcome.{Outcome};
ghost use Rattle.lane_records.specs.declared.record.Record.{Record};
ghost use Rattle.lane_records.specs.declared.record.Record.TheVariants.{Continue, Start, Commit};

use dap_messages::{Half, Step, items_ascend};

/// A law: an empty journal is legal. With one record more a journal is legal exactly where it was and the record may
/// follow.
pub fn legal_journals_grow_by_allowed_records()
    ensures empty { (node : Node) (part : Part) → IsLegalJournal node part [] }
    ensures grown { (node : Node) (part : Part) (journal : List Record) (x : Record) →
        IsLegalJournal node part (journal ++ x ∷ [])
        ↔ (IsLegalJournal node part journal × May node part x (reverse journal)) }
{}

/// A law: a journal has one place of the first record that is refused, or none.
pub fn one_record_is_the_first_refused()
    ensures { (node : Node) (part : Part) (journal : List Record) (here there : Option ℕ) →
        IsFirstRefused node part journal here → IsFirstRefused node part journal there → here ≡ there }
{}

/// A law: the identifiers of a job strictly ascend, at both lanes, so that no report stands twice in one.
pub fn identifiers_of_a_job_ascend()
    ensures continued { (lane : ℕ) (journal : List Record) → IsLegalJournal Leader (Lane lane) journal →
        (name : List ℕ) (job : JobNo) (steps : List (Tagged Step)) →
        Mem (Continue name job steps) journal → IsAscending (ids_of steps) }
    ensures started { (lane : ℕ) (journal : List Record) → IsLegalJournal Helper (Lane lane) journal →
        (name : List ℕ) (job : JobNo) (halves : List (Tagged Half)) →
        Mem (Start job name halves) journal → IsAscending (ids_of halves) }
{
    items_ascend::<Step>();
    items_ascend::<Half>();
}

/// A law: a leader's lane takes no report of a task into two jobs.
pub fn reports_are_continued_once()
    ensures { (lane : ℕ) (journal : List Record) → IsLegalJournal Leader (Lane lane) journal →
        (name id : List ℕ) (job other : JobNo) (steps others : List (Tagged Step)) →
        Mem (Continue name job steps) journal → Mem id (ids_of steps) →
        Mem (Continue name other others) journal → Mem id (ids_of others) → job ≡ other }
{}

/// A law: a helper's lane finishes no report of a task in two jobs.
pub fn reports_are_finished_once()
    ensures { (lane : ℕ) (journal : List Record) → IsLegalJournal Helper (Lane lane) journal →
        (name id : List ℕ) (job other : JobNo) (halves others : List (Tagged Half))
        (outs results : List (Tagged Outcome)) →
        Mem (Start job name halves) journal → Mem (Commit job outs) journal → Finishes id outs →
        Mem (Start other name others) journal → Mem (Commit other results) journal → Finishes id results →
        job ≡ other }
{}
