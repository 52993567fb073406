//! How lines are spelled, and small rows of the definitions.

ghost use Rattle.std.specs.Prelude.{◌≡◌, ℕ, ◌+◌, List, [], ◌∷◌, ◌++◌, codes, length, true, false, Some, None};
ghost use Rattle.dap_bytes.specs.Spans.{one_bucket};
ghost use Rattle.dap_bytes.specs.declared.span.Span.{Span as PlainSpan};
ghost use Rattle.vdaf_api.specs.Functions.{Functions};
ghost use Rattle.vdaf_api.specs.declared.kind.Kind.{Kind};
ghost use Rattle.vdaf_api.specs.declared.kind.Kind.TheVariants.{Count};
ghost use Rattle.dap_messages.specs.Messages.{report};
ghost use Rattle.dap_messages.specs.declared.report.Report.{Report};
ghost use Rattle.dap_bytes.specs.declared.node.Node.{Node};
ghost use Rattle.dap_tasks.specs.Task.{PlainTask};
ghost use Rattle.dap_tasks.specs.Trial.{trial_of};
ghost use Rattle.dap_tasks.specs.declared.cause.Cause.TheVariants.{Early as EarlyCause, Expired as ExpiredCause, Form as FormCause, Task as TaskCause};
ghost use Rattle.dap_script.specs.declared.line.Line.TheVariants.{Blank, Collect, Measure, Now, Restart, Task, Upload};
ghost use Rattle.dap_model.specs.Limits.{bytes_in, count_names, full_line_of, limit_passed, whole_segments};
ghost use Rattle.dap_model.specs.Run.{opening_of, state_after, tasks_of};
ghost use Rattle.dap_model.specs.State.{Batch, State, earliest, is_closed, opening, sharing};
ghost use Rattle.dap_model.specs.Step.{name_in, offered, raised, refused, step};

use super::*;
use dap_bytes::{Name, Span};
use dap_tasks::Cause;
use std::test::Fail;
use vdaf_api::{Answer, Collected, Numbers};

/// A batch of one bucket, of which the number is told in an overlap alone.
const ONE: Span = Span {
    start: 3600,
    buckets: 1,
};

/// A batch of two.
const TWO: Span = Span {
    start: 0,
    buckets: 2,
};

#[test]
fn each_answer_is_spelled(rt: HostRuntime) -> Result<(), Fail> {
    let alloc = rt.alloc();
    let name = Name::new(b"v").ok_or("a name")?;
    let mut out = Vec::new(alloc);
    let answers = [
        Answer::Count(2),
        Answer::Sum(55340232221128654845),
        Answer::Histogram(Numbers::new([1, 0, 20].to_vec(alloc)?)),
        Answer::Vector(Numbers::new([256, 2, 7].to_vec(alloc)?)),
    ];
    for answer in answers {
        let what = Collected {
            reports: 3,
            rejected: 1,
            answer,
        };
        let line = Printed::Collected {
            name,
            span: ONE,
            what,
        };
        print_line(alloc, &line, &mut out)?;
    }
    assert_eq!(rt;
        str::from_utf8(&out).ok(),
        Some(
            "collected v 3600 reports 3 rejected 1 count 2
collected v 3600 reports 3 rejected 1 sum 55340232221128654845
collected v 3600 reports 3 rejected 1 histogram 1,0,20
collected v 3600 reports 3 rejected 1 vector 256,2,7
"
        )
    );
    Ok(())
}

#[test]
fn the_buckets_of_a_batch_are_told(rt: HostRuntime) -> Result<(), Fail> {
    let alloc = rt.alloc();
    let name = Name::new(b"v").ok_or("a name")?;
    let mut out = Vec::new(alloc);
    for (span, reports) in [(ONE, 2), (TWO, 1)] {
        let small = Printed::Small {
            name,
            span,
            reports,
        };
        print_line(alloc, &small, &mut out)?;
    }
    for other in [ONE, TWO] {
        print_line(alloc, &Printed::Overlap { line: 7, other }, &mut out)?;
    }
    assert_eq!(rt;
        str::from_utf8(&out).ok(),
        Some(
            "small v 3600 reports 2
small v 0 2 reports 1
refused 7 overlap 3600 1
refused 7 overlap 0 2
"
        )
    );
    Ok(())
}

const CAUSES: [(Cause, &str); 8] = [
    (Cause::Task, "refused 4294967295 task\n"),
    (Cause::Form, "refused 4294967295 form\n"),
    (Cause::Value, "refused 4294967295 value\n"),
    (Cause::Early, "refused 4294967295 early\n"),
    (Cause::Expired, "refused 4294967295 expired\n"),
    (Cause::Conflict, "refused 4294967295 conflict\n"),
    (Cause::Collected, "refused 4294967295 collected\n"),
    (Cause::Start, "refused 4294967295 start\n"),
];

#[test]
fn each_cause_has_its_word(rt: HostRuntime) -> Result<(), Fail> {
    let alloc = rt.alloc();
    for (cause, text) in CAUSES {
        let mut out = Vec::new(alloc);
        let refused = Printed::Refused {
            line: u32::MAX,
            cause,
        };
        print_line(alloc, &refused, &mut out)?;
        assert_eq!(rt; out.as_slice(), text.as_bytes());
    }
    Ok(())
}

/// The first bytes of an upload: no name, a name that ends it, and one that isn't whole.
fn names_that_bytes_begin_with()
    ensures no_length { name_in [] ≡ None }
    ensures length_zero { name_in (0 ∷ 0 ∷ 0 ∷ []) ≡ None }
    ensures name { name_in (1 ∷ 120 ∷ 0 ∷ []) ≡ Some (codes "x") }
    ensures at_the_end { name_in (2 ∷ 120 ∷ 45 ∷ []) ≡ Some (codes "x-") }
    ensures cut_short { name_in (2 ∷ 120 ∷ []) ≡ None }
    ensures capital { name_in (1 ∷ 88 ∷ 0 ∷ []) ≡ None }
{}

/// Uploads of three bytes: without a name, and with that of no task and of a task.
fn uploads_of_three_bytes()
    ensures nameless { (f : Kind → Functions)
        → step f (opening []) 7 (Upload (0 ∷ 0 ∷ 0 ∷ [])) ≡ refused (opening []) 7 FormCause }
    ensures unknown { (f : Kind → Functions)
        → step f (opening []) 7 (Upload (1 ∷ 120 ∷ 0 ∷ [])) ≡ refused (opening []) 7 TaskCause }
    ensures no_report { (f : Kind → Functions) → let known = opening (trial_of (codes "x") Count 1 3600 None ∷ []) in
        step f known 7 (Upload (1 ∷ 120 ∷ 0 ∷ [])) ≡ refused known 7 FormCause }
{}

/// The moment rises and never falls.
fn moments()
    ensures first { raised None 5 ≡ Some 5 }
    ensures later { raised (Some 5) 7 ≡ Some 7 }
    ensures earlier { raised (Some 5) 3 ≡ Some 5 }
{}

/// A report is early from 301 above the moment on, and never where no moment is known.
fn early_times()
    ensures last { (task : PlainTask) (r : Report) → let s = record (opening []) { moment = Some 5 } in
        let t = record task { expires = None } in
        offered s 7 t (record r { time = 305 }) ≡ (record s { accepted = record r { time = 305 } ∷ [] }, []) }
    ensures first { (t : PlainTask) (r : Report) → let s = record (opening []) { moment = Some 5 } in
        offered s 7 t (record r { time = 306 }) ≡ refused s 7 EarlyCause }
    ensures never { (t : PlainTask) (r : Report) → let s = opening [] in
        offered s 7 t (record r { time = 306 }) ≡ (record s { accepted = record r { time = 306 } ∷ [] }, []) }
{}

/// A task expires at its moment, and what is early is called so first.
fn expired_tasks()
    ensures last { (task : PlainTask) (r : Report) → let s = record (opening []) { moment = Some 5 } in
        let t = record task { expires = Some 6 } in
        offered s 7 t (record r { time = 305 }) ≡ (record s { accepted = record r { time = 305 } ∷ [] }, []) }
    ensures first { (task : PlainTask) (r : Report) → let s = record (opening []) { moment = Some 5 } in
        let t = record task { expires = Some 5 } in
        offered s 7 t (record r { time = 305 }) ≡ refused s 7 ExpiredCause }
    ensures early { (task : PlainTask) (r : Report) → let s = record (opening []) { moment = Some 5 } in
        let t = record task { expires = Some 5 } in
        offered s 7 t (record r { time = 306 }) ≡ refused s 7 EarlyCause }
{}

/// The buckets that a collected batch of two holds, and the batches that share one with it: not at equal starts alone.
fn buckets()
    ensures before { let two : Batch = record { task = codes "v"; span = record { start = 10; buckets = 2 } } in
        is_closed (two ∷ []) (codes "v") 10 0 ≡ false }
    ensures first { let two : Batch = record { task = codes "v"; span = record { start = 10; buckets = 2 } } in
        is_closed (two ∷ []) (codes "v") 10 10 ≡ true }
    ensures last { let two : Batch = record { task = codes "v"; span = record { start = 10; buckets = 2 } } in
        is_closed (two ∷ []) (codes "v") 10 20 ≡ true }
    ensures behind { let two : Batch = record { task = codes "v"; span = record { start = 10; buckets = 2 } } in
        is_closed (two ∷ []) (codes "v") 10 30 ≡ false }
    ensures of_another { let two : Batch = record { task = codes "v"; span = record { start = 10; buckets = 2 } } in
        is_closed (two ∷ []) (codes "w") 10 10 ≡ false }
    ensures shared { let t = trial_of (codes "v") Count 1 10 None in
        sharing t (one_bucket 20) (record { task = codes "v"; span = record { start = 10; buckets = 2 } } ∷ [])
        ≡ record { start = 10; buckets = 2 } ∷ [] }
    ensures held { let two : Batch = record { task = codes "v"; span = record { start = 10; buckets = 2 } } in
        sharing (trial_of (codes "v") Count 1 10 None) (record { start = 0; buckets = 2 }) (two ∷ [])
        ≡ record { start = 10; buckets = 2 } ∷ [] }
    ensures apart { let t = trial_of (codes "v") Count 1 10 None in
        sharing t (one_bucket 30) (record { task = codes "v"; span = record { start = 10; buckets = 2 } } ∷ []) ≡ [] }
    ensures starts_first { (a b c : ℕ) → let first : PlainSpan = record { start = 10; buckets = b } in
        earliest (record { start = 40; buckets = a } ∷ first ∷ record { start = 20; buckets = c } ∷ []) ≡ Some first }
{}

/// Limits are passed by one more, and 2 is told before 3.
fn limits()
    ensures none { limit_passed (record { reports = 0; bytes = 0 }) [] ≡ None }
    ensures reports { (r : Report) → limit_passed (record { reports = 1; bytes = 0 }) (r ∷ r ∷ []) ≡ Some 2 }
{}

/// Tasks are counted by their names, each once.
fn known_names()
    ensures twice { count_names (codes "v" ∷ codes "w" ∷ codes "v" ∷ []) ≡ 2 }
    ensures none { count_names [] ≡ 0 }
    ensures before { (k : Kind) → let tasks = trial_of (codes "v") k 1 1 None ∷ trial_of (codes "w") k 1 1 None ∷ [] in
        full_line_of 1 (opening tasks) [] ≡ Some 0 }
    ensures again { (k : Kind) → let known = opening (trial_of (codes "v") k 1 1 None ∷ []) in
        full_line_of 1 known (Task (codes "v") k 1 1 None ∷ Task (codes "w") k 1 1 None ∷ []) ≡ Some 2 }
    ensures few { (k : Kind) → let known = opening (trial_of (codes "v") k 1 1 None ∷ []) in
        full_line_of 2 known (Task (codes "v") k 1 1 None ∷ Task (codes "w") k 1 1 None ∷ []) ≡ None }
{}

/// A script begins in the state before it, with its own tasks behind those that were known.
fn opened_states()
    ensures tasks { (s : State) (t : PlainTask) (name : List ℕ) (kind : Kind)
        → let first = record s { tasks = t ∷ [] } in opening_of first (Task name kind 3 3600 None ∷ [])
        ≡ record first { tasks = t ∷ trial_of name kind 3 3600 None ∷ [] } }
    ensures moment { (f : Kind → Functions) → let first = record (opening []) { moment = Some 7 } in
        state_after f (opening_of first (Now 5 ∷ [])) 1 (Now 5 ∷ []) ≡ first }
{}

/// The trial task of a task line, and none of another; and the bytes of reports.
fn tasks_and_bytes()
    ensures tasks { (name : List ℕ) (kind : Kind)
        → tasks_of (Now 5 ∷ Task name kind 3 3600 (Some 9) ∷ Collect name (one_bucket 0) ∷ [])
        ≡ trial_of name kind 3 3600 (Some 9) ∷ [] }
    ensures bytes { (r other : Report)
        → bytes_in (r ∷ other ∷ []) ≡ length (report.spell r) + (length (report.spell other) + 0) }
{}

/// The lines up to the last that ends a segment.
fn segments()
    ensures none { whole_segments (Blank ∷ Blank ∷ []) ≡ [] }
    ensures front { (name : List ℕ) (span : PlainSpan) (node : Node)
        → let front = Blank ∷ Collect name span ∷ Restart node ∷ [] in
        whole_segments (front ++ Blank ∷ []) ≡ front }
    ensures collected { (name : List ℕ) (span : PlainSpan)
        → whole_segments (Collect name span ∷ Blank ∷ []) ≡ Collect name span ∷ [] }
    ensures open { (name id bytes : List ℕ) (kind : Kind)
        → whole_segments (Task name kind 1 1 None ∷ Now 0 ∷ Measure name id 0 (0 ∷ []) bytes ∷ Upload bytes ∷ []) ≡ [] }
{}

#[test]
fn the_definitions_have_these_rows(_rt: HostRuntime) -> Result<(), Fail> {
    names_that_bytes_begin_with();
    uploads_of_three_bytes();
    moments();
    early_times();
    expired_tasks();
    buckets();
    limits();
    known_names();
    opened_states();
    tasks_and_bytes();
    segments();
    Ok(())
}
