//! The laws of sealed shares and of reports.

ghost use Rattle.std.specs.Prelude.{◌≡◌, length, List, Some, true, ℕ};
ghost use Rattle.dap_messages.specs.declared.report.Report.{Report};
ghost use Rattle.dap_tasks.specs.Task.{PlainTask};
ghost use Rattle.vdaf_api.specs.declared.kind.Kind.{Kind};
ghost use Rattle.vdaf_api.specs.Functions.{Functions};
ghost use Rattle.vdaf_api.specs.Verdict.{helper_step};
ghost use Rattle.dap_seal.specs.declared.head.Head.{Head};
ghost use Rattle.dap_seal.specs.Reports.{content_numbers_of, head_of, helper_step_of, honest_report, opened_report, verdict_of};
ghost use Rattle.dap_seal.specs.Rules.{GoesByTheFirstRule};
ghost use Rattle.dap_seal.specs.Turns.{ComesToTheVerdict};

use crate::seal::Seal;
use vdaf_api::Vdaf;

/// A law: what was sealed under a head opens under the same head.
pub fn sealed_shares_are_opened<S: Seal>(seal: &S)
    ensures { (head : Head) (plain : List ℕ) → S.opened seal.now head (S.sealed seal.now head plain) ≡ Some plain }
{}

/// A law: the helper's step on a report depends on its half of the task and on the report's name, identifier, time,
/// public share and helper's share alone.
pub fn helper_steps_are_of_their_half()
    ensures { (f : Functions) (t : PlainTask) (r : Report)
        → helper_step f (opened_report t r) ≡ helper_step_of f t.verify t.helper (head_of r) r.helper }
{}

/// A law: the verdict on a report is that of the first rule that applies: the helper's half doesn't open (4), it has no
/// prep share (5), the leader's half doesn't open (4), the leader's prep share, the prep message or its own out share has
/// no value (5), the helper's out share has none (5); else it is ok, with both out shares.
pub fn verdicts_go_by_the_first_rule()
    ensures { (f : Functions) (t : PlainTask) (r : Report)
        → GoesByTheFirstRule f (opened_report t r) (verdict_of f t r) }
{}

/// A law: what both aggregators say of a report in turn, from the helper's first step to the leader's share and the helper's
/// outcome, is what the report's verdict says.
pub fn turns_come_to_the_verdict()
    ensures { (f : Kind → Functions) (t : PlainTask) (r : Report) → ComesToTheVerdict f t r }
{}

/// A law: an honest fair report has the verdict ok, and its content is the measurement's vector.
pub fn honest_fair_reports_are_counted<V: Vdaf>(vdaf: &V)
    ensures { (t : PlainTask) (id : List ℕ) (time : ℕ) (m seed : List ℕ) (r : Report)
        → length t.verify ≡ 16 → length id ≡ 16 → length seed ≡ 16
        → honest_report (V.functions vdaf.now) t id time m seed ≡ Some r → (V.functions vdaf.now).is_fair t.verify id ≡ true
        → content_numbers_of (V.functions vdaf.now) t r ≡ (V.functions vdaf.now).encoding m }
{}
