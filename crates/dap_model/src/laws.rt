//! Laws of the plain model, in the words of who reads its output.

ghost use Rattle.std.specs.Prelude.{◌≡◌, ◌⊎◌, ◌<◌, ◌≤◌, ℕ, ◌+◌, List, [], ◌∷◌, ◌++◌, length, None, Some, true, false, take, filter_map, if◌then◌else◌};
ghost use Rattle.std.specs.List.{All, AllZip, IsDistinct, list_any};
ghost use Rattle.std.specs.Str.{bytes_eq};
ghost use Rattle.dap_bytes.specs.Spans.{HasBuckets, passes_start};
ghost use Rattle.dap_bytes.specs.declared.span.Span.{Span as PlainSpan};
ghost use Rattle.vdaf_api.specs.Functions.{Functions};
ghost use Rattle.vdaf_api.specs.Kind.{IsKind};
ghost use Rattle.vdaf_api.specs.declared.answer.Collected.{Collected as Counts};
ghost use Rattle.vdaf_api.specs.declared.kind.Kind.{Kind};
ghost use Rattle.dap_messages.specs.Messages.{report};
ghost use Rattle.dap_messages.specs.declared.report.Report.{Report};
ghost use Rattle.dap_tasks.specs.Task.{PlainTask};
ghost use Rattle.dap_script.specs.Script.{is_among};
ghost use Rattle.dap_script.specs.Spelling.{IsInRange};
ghost use Rattle.dap_script.specs.declared.line.Line.{Line as PlainLine};
ghost use Rattle.dap_script.specs.declared.line.Line.TheVariants.{Collect, Measure, Upload};
ghost use Rattle.dap_model.specs.Apart.{HoldsCollected, IsApart};
ghost use Rattle.dap_model.specs.Changes.{AreDistinct, ChangesNamed};
ghost use Rattle.dap_model.specs.Collections.{CollectsByTheFirstCause, HoldsReportsOnce, IsFirstOverlap, IsFree, IsRepeated, WasCollected, batch_reports};
ghost use Rattle.dap_model.specs.Counts.{AreTaken, PrintsCounted, collects, is_collection};
ghost use Rattle.dap_model.specs.Growth.{GrowsTo};
ghost use Rattle.dap_model.specs.Honest.{CarryEach, honest_line};
ghost use Rattle.dap_model.specs.Limits.{count_names, report_offered, reports_offered, text_before, whole_segments};
ghost use Rattle.dap_model.specs.Moments.{IsGreatest, times_since};
ghost use Rattle.dap_model.specs.Numbers.{PrintsByItsNumber};
ghost use Rattle.dap_model.specs.Offering.{CountsWhatIsJudged};
ghost use Rattle.dap_model.specs.Segments.{AreWholeSegments, TellsWholeSegments};
ghost use Rattle.dap_model.specs.Offers.{IsJudged};
ghost use Rattle.dap_model.specs.Passes.{IsExact, IsFullExact};
ghost use Rattle.dap_model.specs.declared.limits.Limits.{Limits as PlainLimits};
ghost use Rattle.dap_model.specs.Run.{model_text, opening_of, printed_from, state_after, tasks_of};
ghost use Rattle.dap_model.specs.State.{State, shares_with, task_named};
ghost use Rattle.dap_model.specs.Step.{offered, step};
ghost use Rattle.dap_model.specs.Uploaded.{IsOrUploads};
ghost use Rattle.dap_model.specs.Uploads.{GoesByTheFirstCause, IsHonest, MeasuresByTheFirstCause};

use vdaf_api::Vdaf;

/// A law: where each measurement of the lines is a fair one of a known task that hasn't expired, isn't early, and is under
/// an identifier and in a bucket that neither the state in which the lines begin nor a line before it takes, a collection
/// of a batch of which no bucket was collected prints one line. To the reports that the batch had before the lines come the
/// measurements that fall in it, none of which is rejected, and its answer is that of the sum of its contents and of their
/// vectors.
pub fn batches_are_counted<V: Vdaf>(_: &V)
    ensures { (opened : State) (task : PlainTask) (span : PlainSpan) (number : ℕ) (lines : List PlainLine)
        → task_named opened.tasks task.name ≡ Some task → HasBuckets span → passes_start span task.precision ≡ true
        → AreTaken V.of_kind opened [] lines → list_any (shares_with task span) opened.collected ≡ false
        → list_any (collects (shares_with task span)) lines ≡ false
        → PrintsCounted V.of_kind opened task span number lines }
{}

/// A law: such lines print nothing, if none of them is a collection.
pub fn measurements_print_nothing()
    ensures { (f : Kind → Functions) (opened : State) (lines : List PlainLine)
        → AreTaken f opened [] lines → list_any is_collection lines ≡ false
        → printed_from f opened 1 lines ≡ [] }
{}

/// A law: a line changes nothing but what it names.
pub fn lines_change_what_they_name()
    ensures { (f : Kind → Functions) (state : State) (number : ℕ) (line : PlainLine)
        → ChangesNamed state (step f state number line).0 line }
{}

/// A law: no two accepted reports have the same task and identifier, so that no report is counted twice. Each line
/// keeps this, so it holds after all lines, where it holds before them, as where no report is accepted.
pub fn reports_are_accepted_once()
    ensures line { (f : Kind → Functions) (state : State) (number : ℕ) (line : PlainLine)
        → AreDistinct state.accepted → AreDistinct (step f state number line).0.accepted }
    ensures run { (f : Kind → Functions) (state : State) (number : ℕ) (lines : List PlainLine)
        → AreDistinct state.accepted → AreDistinct (state_after f state number lines).accepted }
{}

/// A law: an upload of the bytes of the honest report of a measurement changes and prints what the measurement does.
pub fn honest_uploads_are_measurements<V: Vdaf>(_: &V)
    ensures { (state : State) (number : ℕ) (name id : List ℕ) (time : ℕ) (value seed : List ℕ) (r : Report)
        → IsHonest V.of_kind state.tasks name id time value seed r
        → step V.of_kind state number (Upload (report.spell r))
        ≡ step V.of_kind state number (Measure name id time value seed) }
{}

/// A law: a script in which some measurements of known tasks are replaced by uploads of their honest reports prints the
/// same.
pub fn uploaded_scripts_print_the_same<V: Vdaf>(_: &V)
    ensures { (opened : State) (lines others : List PlainLine)
        → AllZip (IsOrUploads V.of_kind (opening_of opened lines).tasks) lines others
        → model_text V.of_kind opened others ≡ model_text V.of_kind opened lines }
{}

/// A law: a measurement is refused `task` where its name is no known task's, else `value` where sharding has no value;
/// else its honest report is offered to the task.
pub fn measurements_go_by_the_first_cause()
    ensures { (f : Kind → Functions) (state : State) (number : ℕ) (name id : List ℕ) (time : ℕ) (value seed : List ℕ)
        → let after = step f state number (Measure name id time value seed) in
        MeasuresByTheFirstCause f state number name id time value seed after }
{}

/// A law: an upload is refused `task` exactly where the bytes begin with a whole name field that names no known task,
/// else `form` exactly where they are no report; else the report, which begins with the name of a known task, is
/// judged.
pub fn uploads_go_by_the_first_cause()
    ensures { (f : Kind → Functions) (state : State) (number : ℕ) (bytes : List ℕ)
        → GoesByTheFirstCause state number bytes (step f state number (Upload bytes)) }
{}

/// A law: a report that is offered to its task goes by the first that applies. It is known already, and nothing is
/// printed; it is early; its task has expired; its identifier is known with other bytes; its bucket lies in a batch that
/// was collected; else it is accepted.
pub fn offered_reports_are_judged()
    ensures { (state : State) (number : ℕ) (task : PlainTask) (r : Report)
        → AreDistinct state.accepted → IsJudged state number task r (offered state number task r) }
{}

/// A law: a collection is refused `task` where its name is no known task's, else `start` where the start is no multiple
/// of the precision or the last bucket starts too late. Else a batch that was collected is printed again. Else, where a
/// collected batch shares a bucket with it, the one of these that starts first is named. Else the batch is collected where
/// enough of its accepted reports have a content: each of its reports is counted once, as a report or as rejected, and its
/// buckets take no more reports. Else how many have a content is told, and the batch stays open.
pub fn collections_go_by_the_first_cause()
    ensures { (f : Kind → Functions) (state : State) (number : ℕ) (name : List ℕ) (span : PlainSpan)
        → CollectsByTheFirstCause f state number name span (step f state number (Collect name span)) }
{}

/// A law: once a batch was collected, each later collection of it prints the same line, whatever the lines between do.
pub fn collections_are_repeated()
    ensures { (f : Kind → Functions) (state : State) (number later : ℕ) (name : List ℕ) (span : PlainSpan)
        (what : Counts) (lines : List PlainLine) → IsRepeated f state number later name span what lines }
{}

/// A law: the collected batches of a task share no bucket, so that no report counts in two of them. Each line keeps this,
/// so it holds after all lines, where it holds before them, as where no batch is collected. A bucket then lies in one
/// collected batch at most, and of those that share a bucket with a batch one alone starts first.
pub fn collected_batches_share_no_bucket()
    ensures line { (f : Kind → Functions) (state : State) (number : ℕ) (line : PlainLine)
        → IsInRange line → IsApart state → IsApart (step f state number line).0 }
    ensures run { (f : Kind → Functions) (state : State) (number : ℕ) (lines : List PlainLine)
        → All IsInRange lines → IsApart state → IsApart (state_after f state number lines) }
    ensures bucket { (state : State) (task : PlainTask) (span other : PlainSpan) (bucket : ℕ)
        → IsApart state → task_named state.tasks task.name ≡ Some task
        → HoldsCollected state task span bucket → HoldsCollected state task other bucket → span ≡ other }
    ensures first { (state : State) (task : PlainTask) (span one other : PlainSpan)
        → IsApart state → task_named state.tasks task.name ≡ Some task
        → IsFirstOverlap state task.name task.precision span one
        → IsFirstOverlap state task.name task.precision span other → one ≡ other }
{}

/// A law: each accepted report of a task whose bucket lies in a batch is among the batch's reports once, and they are no
/// others.
pub fn batches_hold_their_reports_once()
    ensures { (state : State) (task : PlainTask) (span : PlainSpan) → 0 < task.precision
        → HoldsReportsOnce state task span }
{}

/// A law: the moment is the greatest of the one that was known before the lines and of the times that they told, and there
/// is none where none was known and none told.
pub fn moments_are_the_greatest()
    ensures { (f : Kind → Functions) (state : State) (number : ℕ) (lines : List PlainLine)
        → IsGreatest (times_since state.moment lines) (state_after f state number lines).moment }
{}

/// A law: a limit is passed exactly where the reports of the whole script are more or longer than it. The line that is
/// told is the first with which one is passed, and limit 2 is told where both are passed with it.
pub fn passed_limits_are_exact()
    ensures { (f : Kind → Functions) (limits : PlainLimits) (opened : State) (lines : List PlainLine)
        → IsExact f limits opened lines }
{}

/// A law: too many tasks are known exactly where those from before a script and its own have too many different names. The
/// line that is told is the first with which they have, and 0 where those from before have. A name counts where it is none
/// of those before it, and only there; so where all names are different they are as many as the tasks.
pub fn known_tasks_are_counted_by_name()
    ensures told { (most : ℕ) (opened : State) (lines : List PlainLine) → IsFullExact most opened lines }
    ensures once { (names : List (List ℕ)) (name : List ℕ)
        → count_names (names ++ name ∷ []) ≡ count_names names + (if is_among names name then 0 else 1) }
    ensures different { (names : List (List ℕ)) → IsDistinct bytes_eq names → count_names names ≡ length names }
{}

/// A law: a name is that of the task that was known before the script, where one has it, and else that of the script's.
pub fn earlier_tasks_stay_known()
    ensures earlier { (opened : State) (lines : List PlainLine) (name : List ℕ) (task : PlainTask)
        → task_named opened.tasks name ≡ Some task → task_named (opening_of opened lines).tasks name ≡ Some task }
    ensures own { (opened : State) (lines : List PlainLine) (name : List ℕ)
        → task_named opened.tasks name ≡ None
        → task_named (opening_of opened lines).tasks name ≡ task_named (tasks_of lines) name }
{}

/// A law: a line's report counts for the limits exactly where it is judged: that of a measurement of a known task with
/// shares, and that of uploaded bytes which spell one of a known task, also where it is barred or known already.
/// Reports count in the order of their lines.
pub fn lines_offer_what_is_judged()
    ensures line { (f : Kind → Functions) (state : State) (number : ℕ) (line : PlainLine)
        → CountsWhatIsJudged f state number line }
    ensures lines { (f : Kind → Functions) (tasks : List PlainTask) (lines : List PlainLine)
        → reports_offered f tasks lines ≡ filter_map (report_offered f tasks) lines }
{}

/// A law: each line of a script prints between what the lines before and behind it print, as the line of its number
/// counted from 1, and a refusal names that number.
pub fn lines_print_by_their_number()
    ensures { (f : Kind → Functions) (opened : State) (before : List PlainLine) (line : PlainLine)
        (behind : List PlainLine) → PrintsByItsNumber f opened before line behind }
{}

/// A law: lines print what the first of them print, and then what the others do, which begin in the state behind these
/// and are numbered on.
pub fn lines_follow_one_another()
    ensures printed { (f : Kind → Functions) (state : State) (number : ℕ) (first rest : List PlainLine)
        → let after = state_after f state number first in
        printed_from f state number (first ++ rest)
        ≡ printed_from f state number first ++ printed_from f after (number + length first) rest }
    ensures state { (f : Kind → Functions) (state : State) (number : ℕ) (first rest : List PlainLine)
        → let after = state_after f state number first in
        state_after f state number (first ++ rest) ≡ state_after f after (number + length first) rest }
{}

/// A law: what is told before a line is what the segments print that ended before it. Not a line more is told, and none
/// less.
pub fn whole_segments_are_told()
    ensures { (f : Kind → Functions) (opened : State) (lines : List PlainLine) (number : ℕ)
        → TellsWholeSegments f opened lines number (text_before f opened lines number) }
{}

/// A law: what the whole segments before a line print is a front of what the script prints.
pub fn segments_are_a_front()
    ensures { (f : Kind → Functions) (opened : State) (lines : List PlainLine) (number : ℕ)
        → (n : ℕ) × (text_before f opened lines number ≡ take n (model_text f opened lines)) }
{}

/// A law: whole segments are a front of the lines. They end with the last line that ends a segment.
pub fn segments_are_whole()
    ensures { (lines : List PlainLine) → AreWholeSegments lines (whole_segments lines) }
{}

/// A law: over any lines the same tasks stay known, the moment doesn't fall, and the accepted reports and the collected
/// batches only grow. So the state after a front of the lines is contained in the one after all.
pub fn states_only_grow()
    ensures lines { (f : Kind → Functions) (state : State) (number : ℕ) (lines : List PlainLine)
        → GrowsTo state (state_after f state number lines) }
    ensures front { (f : Kind → Functions) (state : State) (number : ℕ) (first rest : List PlainLine)
        → GrowsTo (state_after f state number first) (state_after f state number (first ++ rest)) }
{}

/// A law: in any state, where each accepted report of a batch is honest and fair, a collection that is due prints as
/// many reports as these carry measurements, none rejected, and the answer of the sum of the measurements' vectors.
/// Where the reports came from, and what other batches hold, plays no part.
pub fn honest_batches_are_counted<V: Vdaf>(_: &V)
    ensures { (state : State) (number : ℕ) (name : List ℕ) (span : PlainSpan) (task : PlainTask)
        (measurements : List (List ℕ))
        → IsKind task.kind → length task.verify ≡ 16
        → CarryEach V.of_kind task measurements (batch_reports state task span)
        → task_named state.tasks name ≡ Some task → passes_start span task.precision ≡ true
        → WasCollected state name span
        ⊎ (IsFree state name task.precision span × (task.min ≤ length measurements))
        → (step V.of_kind state number (Collect name span)).1
        ≡ honest_line V.of_kind task name span measurements ∷ [] }
{}
