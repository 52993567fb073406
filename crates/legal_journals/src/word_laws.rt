//! Laws of what stands beside the reports of a job, of what a lane told of a bucket, and of what justifies a message.

ghost use Rattle.std.specs.Prelude.{◌≡◌, ◌+◌, ◌++◌, ◌∷◌, ℕ, List, Option, Result};
ghost use Rattle.dap_batch.specs.Checksum.{xor_bytes};
ghost use Rattle.dap_messages.specs.declared.body.Half.{Half};
ghost use Rattle.dap_messages.specs.declared.body.Status.{Status};
ghost use Rattle.dap_messages.specs.declared.body.Step.{Step};
ghost use Rattle.dap_messages.specs.declared.code.Code.{Code};
ghost use Rattle.dap_messages.specs.declared.item.Tagged.{Tagged};
ghost use Rattle.dap_messages.specs.declared.message.Message.{Message};
ghost use Rattle.dap_messages.specs.declared.report.Report.{Report};
ghost use Rattle.dap_messages.specs.Items.{ids_of};
ghost use Rattle.dap_messages.specs.Reports.{report_ids};
ghost use Rattle.lane_records.specs.declared.outcome.Outcome.{Outcome};
ghost use Rattle.lane_records.specs.declared.record.Record.{Record};
ghost use Rattle.legal_journals.specs.JobReports.{AreTested, items_from, outs_by, steps_of, told_statuses};
ghost use Rattle.legal_journals.specs.Sent.{LeaderJustifies};
ghost use Rattle.legal_journals.specs.Told.{failed_ids, finished_ids, numbers_of};
ghost use Rattle.vdaf_api.specs.declared.space.Space.{Space};
ghost use Rattle.vdaf_api.specs.Vectors.{plus, SpaceLaws};

/// A law: whatever stands beside the reports of a job, their identifiers stand in their order.
pub fn lists_of_a_job_have_its_identifiers()
    ensures items { (item : Report → Step → Step) (reports : List Report) (steps : List (Tagged Step))
        → report_ids reports ≡ ids_of steps → ids_of (items_from item reports steps) ≡ report_ids reports }
    ensures outcomes { (share : Report → Step → List ℕ) (reports : List Report) (items : List (Tagged Step))
        (statuses : List (Tagged Status)) → report_ids reports ≡ ids_of items → report_ids reports ≡ ids_of statuses
        → ids_of (outs_by share reports items statuses) ≡ report_ids reports }
    ensures steps { (step : Tagged Half → Step) (halves : List (Tagged Half))
        → ids_of (steps_of step halves) ≡ ids_of halves }
    ensures tested { (outcome : Tagged Half → Step → Result (List ℕ) Code) (precision : ℕ) (name : List ℕ)
        (halves : List (Tagged Half)) (items : List (Tagged Step)) (earlier : List Record) (outs : List (Tagged Outcome))
        → AreTested outcome precision name halves items earlier outs → ids_of outs ≡ ids_of halves }
    ensures statuses { (outs : List (Tagged Outcome)) → ids_of (told_statuses outs) ≡ ids_of outs }
{}

/// A law: the numbers of what was told in two parts are the sums of theirs: reports and rejected ones are added,
/// checksums combined, out shares added.
pub fn numbers_of_parts_add_up()
    ensures count { (space : Space) (told more : List (Tagged Outcome))
        → (numbers_of space (told ++ more)).count ≡ (numbers_of space told).count + (numbers_of space more).count }
    ensures rejected { (space : Space) (told more : List (Tagged Outcome))
        → (numbers_of space (told ++ more)).rejected
        ≡ (numbers_of space told).rejected + (numbers_of space more).rejected }
    ensures checksum { (space : Space) (told more : List (Tagged Outcome))
        → (numbers_of space (told ++ more)).checksum
        ≡ xor_bytes (numbers_of space told).checksum (numbers_of space more).checksum }
    ensures share { (space : Space) (told more : List (Tagged Outcome)) → SpaceLaws space
        → (numbers_of space (told ++ more)).share ≡ plus space (numbers_of space told).share (numbers_of space more).share }
{}

/// A law: what justifies a leader's message justifies it with more records, too.
pub fn a_justified_message_stays_so()
    ensures { (x : Record) (earlier : List Record) (m : Message) → LeaderJustifies earlier m
        → LeaderJustifies (x ∷ earlier) m }
{}
