//! Laws of batches of honest fair reports in whole numbers.

ghost use Rattle.std.specs.Prelude.{◌≡◌, ◌≤◌, ℕ, ◌+◌, List, [], ◌∷◌, length};
ghost use Rattle.vdaf_api.specs.Functions.{Functions};
ghost use Rattle.vdaf_api.specs.declared.kind.Kind.{Kind};
ghost use Rattle.dap_bytes.specs.declared.span.Span.{Span as PlainSpan};
ghost use Rattle.dap_tasks.specs.Task.{PlainTask};
ghost use Rattle.dap_script.specs.declared.line.Line.{Line as PlainLine};
ghost use Rattle.dap_script.specs.declared.line.Line.TheVariants.{Collect};
ghost use Rattle.dap_model.specs.Limits.{reports_offered};
ghost use Rattle.dap_model.specs.Run.{state_after};
ghost use Rattle.dap_model.specs.State.{State};
ghost use Rattle.dap_model.specs.Step.{step};
ghost use Rattle.dap_model.specs.WholeLines.{IsHonestBatch, PrintsWithin, StayBelow, state_before, whole_line};

use vdaf_api::Vdaf;

/// A law: in any state, and behind any lines of a script that begins in any state, a collection that prints a batch whose
/// accepted reports are honest and fair prints as many reports as these carry measurements, none rejected, and the answer
/// of the sum of the measurements' vectors in whole numbers, where no sum of entries reaches the modulus. Lines that are
/// refused, repeated, early or in conflict play no part, and neither do other batches and their rejected reports.
pub fn honest_batches_have_whole_sums<V: Vdaf>(_: &V)
    ensures state { (state : State) (number : ℕ) (name : List ℕ) (span : PlainSpan) (task : PlainTask)
        (measurements : List (List ℕ))
        → IsHonestBatch V.of_kind state task name span measurements → StayBelow V.of_kind task measurements
        → (step V.of_kind state number (Collect name span)).1
        ≡ whole_line V.of_kind task name span measurements ∷ [] }
    ensures script { (opened : State) (before : List PlainLine) (name : List ℕ) (span : PlainSpan)
        (behind : List PlainLine) (task : PlainTask) (measurements : List (List ℕ))
        → IsHonestBatch V.of_kind (state_before V.of_kind opened before (Collect name span) behind) task name span
        measurements
        → StayBelow V.of_kind task measurements
        → PrintsWithin V.of_kind opened before name span behind
        (whole_line V.of_kind task name span measurements) }
{}

/// A law: over any lines no more reports come to the accepted ones than the lines offer.
pub fn accepted_reports_were_offered()
    ensures { (f : Kind → Functions) (state : State) (number : ℕ) (lines : List PlainLine)
        → length (state_after f state number lines).accepted
        ≤ length state.accepted + length (reports_offered f state.tasks lines) }
{}
