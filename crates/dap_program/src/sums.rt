//! What a script prints where it collects a batch of honest fair reports.

ghost use Rattle.std.specs.Prelude.{◌≡◌, ℕ, List, Option, ◌∷◌, ◌++◌};
ghost use Rattle.dap_bytes.specs.declared.span.Span.{Span};
ghost use Rattle.prio3_kinds.specs.Kinds.{functions_of_kind};
ghost use Rattle.dap_tasks.specs.Task.{PlainTask};
ghost use Rattle.dap_script.specs.declared.line.Line.{Line};
ghost use Rattle.dap_script.specs.declared.line.Line.TheVariants.{Collect};
ghost use Rattle.dap_model.specs.WholeLines.{IsHonestBatch};
ghost use Rattle.dap_program.specs.Headline.{Reads, output_of, status_of};
ghost use Rattle.dap_program.specs.WholeSums.{HasLine, printed_before, reached, sum_line};
ghost use Rattle.dap_program.specs.Work.{Scripted};
ghost use Rattle.dap_program.specs.declared.status.Status.TheVariants.{Done};

/// A law: where a script that is done collects a batch of which each accepted report is honest and fair, its output has
/// this line behind what the lines before print: as many reports as these carry measurements, none rejected, and how many
/// of the measurements are 1, their sum, how many fall into each bucket, or their sum number by number, in whole numbers.
/// Whatever else the lines do, and whatever other batches hold, plays no part.
pub fn honest_batches_print_their_sums()
    ensures { (file : Option (List ℕ)) (script : List ℕ) (r : Reads file script) (before : List Line)
        (name : List ℕ) (span : Span) (behind : List Line) (task : PlainTask) (measurements : List (List ℕ))
        → r.lines ≡ before ++ Collect name span ∷ behind → status_of (Scripted file script) ≡ Done
        → IsHonestBatch functions_of_kind (reached r.given before name span behind) task name span measurements
        → HasLine (output_of (Scripted file script)) (printed_before r.given before name span behind)
        (sum_line task name span measurements) }
{}
