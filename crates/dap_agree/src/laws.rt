//! Laws of agreement. Lists of records have the newest first.

ghost use Rattle.std.specs.Prelude.{◌≡◌, ◌↔◌, ℕ, ◌+◌, ◌*◌, ◌<◌, ◌≤◌, List, ◌∷◌, ◌++◌, Option, Some};
ghost use Rattle.vdaf_api.specs.Functions.{Functions};
ghost use Rattle.vdaf_api.specs.Kind.{IsKind};
ghost use Rattle.vdaf_api.specs.Promises.{FunctionLaws};
ghost use Rattle.vdaf_api.specs.Vectors.{IsOut};
ghost use Rattle.vdaf_api.specs.declared.kind.Kind.{Kind};
ghost use Rattle.dap_bytes.specs.declared.node.Node.{Node};
ghost use Rattle.dap_bytes.specs.declared.node.Node.TheVariants.{Leader, Helper};
ghost use Rattle.dap_bytes.specs.declared.part.Part.{Part};
ghost use Rattle.dap_bytes.specs.declared.part.Part.TheVariants.{Front, Lane};
ghost use Rattle.dap_bytes.specs.declared.span.Span.{Span};
ghost use Rattle.dap_messages.specs.declared.message.Message.{Message};
ghost use Rattle.dap_messages.specs.declared.report.Report.{Report};
ghost use Rattle.dap_tasks.specs.Task.{PlainTask};
ghost use Rattle.lane_records.specs.declared.batch.Answered.{Answered};
ghost use Rattle.lane_records.specs.declared.format.Format.{Format};
ghost use Rattle.lane_records.specs.declared.record.Record.{Record};
ghost use Rattle.lane_records.specs.declared.record.Record.TheVariants.{LeaderOpen, LeaderAnswer};
ghost use Rattle.legal_journals.specs.History.{Mem, opens};
ghost use Rattle.legal_journals.specs.Legal.{IsLegal};
ghost use Rattle.legal_journals.specs.Told.{AreTold, leader_told, helper_told, numbers_of};
ghost use Rattle.dap_agree.specs.Agree.{Fronts, LeaderAgrees, HelperAgrees, LanesFit, LanesAgree};
ghost use Rattle.dap_agree.specs.First.{IsFirstLacking, IsPart, disk_of};
ghost use Rattle.dap_agree.specs.Fronts.{Journals, AllLegal, AllAgree, FrontFits, HelperFrontFits, fronts_of, held, fresh, stored_with, whole};
ghost use Rattle.dap_agree.specs.Growth.{Grow, SameTasks, Later};
ghost use Rattle.dap_agree.specs.Lists.{Sub};
ghost use Rattle.dap_agree.specs.Outcomes.{AllTold, AreOutcomes, commits_of, AreCommits, AreNumbers, lane_numbers, AreAccepts, SameNumbers};
ghost use Rattle.dap_agree.specs.Plain.{StandsFor, TellsOf, batch_of, plain_state};
ghost use Rattle.dap_agree.specs.Shown.{AnswerShown, Shown};
ghost use Rattle.dap_agree.specs.Static.{LanesKeep};
ghost use Rattle.dap_agree.specs.Whole.{IsHonestSum, IsWholeSum};

/// A law: legal journals that agree show their collections. No report is finished twice, no bucket lies in two batches
/// that were asked for, and each Answer has as many reports as it counts, at least the minimum, the same at both nodes,
/// with shares that add to the sum of their contents. The measurement functions keep their laws.
pub fn agreeing_journals_show_their_collections()
    ensures { (f : Kind → Functions) (js : Journals) → ((k : Kind) → IsKind k → FunctionLaws (f k)) →
        AllLegal js → AllAgree f js → Shown f js }
{}

/// A law: in legal lists a leader's Close that counts what stands before it counts the whole lane, and the other way
/// round.
pub fn closes_count_whole_lanes()
    ensures { (f : Kind → Functions) (fr : Fronts) (lane : ℕ) (l h : List Record) → IsLegal Leader (Lane lane) l →
        (LanesFit f fr l h ↔ LanesAgree f fr l h) }
{}

/// A law: two lanes of a link that keep what is their own agree. The records at the opening had their counterparts, each
/// record that was added rests on a message that the other lane sent, what was sent is justified by the sender's
/// records, and Accepts and Closes have their counterparts.
pub fn lanes_that_keep_their_own_agree()
    ensures { (f : Kind → Functions) (fr : Fronts) (lane : ℕ) (format : Format) (lanes own : ℕ)
        (la lo ha ho : List Record) (requests replies : List Message) →
        LanesKeep f fr lane format lanes own la lo ha ho requests replies →
        LanesFit f fr (la ++ LeaderOpen format lanes own ∷ lo) (ha ++ ho) }
{}

/// A law: in legal lanes that agree the outcomes go by the verdicts, at the leader and, where each accepted report of the
/// task has its Finish, at the helper; and so do the numbers of a bucket whose accepted reports have theirs, which are
/// the same at both.
pub fn lanes_that_agree_tell_the_verdicts()
    ensures outcomes { (f : Kind → Functions) (fr : Fronts) (lane : ℕ) (l h : List Record) (t : PlainTask) →
        IsLegal Leader (Lane lane) l → IsLegal Helper (Lane lane) h → LanesAgree f fr l h →
        fr.task t.name ≡ Some t → AreOutcomes f t l }
    ensures commits { (f : Kind → Functions) (fr : Fronts) (lane : ℕ) (l h : List Record) (t : PlainTask) →
        IsLegal Leader (Lane lane) l → IsLegal Helper (Lane lane) h → LanesAgree f fr l h →
        fr.task t.name ≡ Some t → AllTold t.name l → AreCommits f t l (commits_of t.name h) }
    ensures numbers { (f : Kind → Functions) (fr : Fronts) (lane : ℕ) (l h : List Record) (t : PlainTask) (s : ℕ)
        (accepted : List Report) → FunctionLaws (f t.kind) →
        IsLegal Leader (Lane lane) l → IsLegal Helper (Lane lane) h → LanesAgree f fr l h →
        fr.task t.name ≡ Some t → AreTold t.precision t.name s l → AreAccepts l accepted →
        AreNumbers f t s accepted (lane_numbers f t s l h) }
    ensures same { (f : Kind → Functions) (fr : Fronts) (lane : ℕ) (l h : List Record) (t : PlainTask) (n : List ℕ)
        (s : ℕ) → IsLegal Leader (Lane lane) l → IsLegal Helper (Lane lane) h → LanesAgree f fr l h →
        fr.task n ≡ Some t → AreTold t.precision n s l →
        SameNumbers (numbers_of (f t.kind).space (leader_told t.precision n s l))
        (numbers_of (f t.kind).space (helper_told t.precision n s h)) }
{}

/// A law: counterparts stay where the other journals grow: those of a pair of lanes, and those of the fronts' records.
/// Fronts hold no less where the leader's grew to a legal one and the helper's last Tasks of what it stored stay.
pub fn counterparts_stay_where_journals_grow()
    ensures leader { (f : Kind → Functions) (fr later : Fronts) (l ls h hs k : List Record) →
        Grow fr later → Sub l ls → Sub h hs → LeaderAgrees f fr l h k → LeaderAgrees f later ls hs k }
    ensures helper { (f : Kind → Functions) (fr later : Fronts) (l ls k : List Record) →
        Grow fr later → Sub l ls → opens l ≤ opens ls → HelperAgrees f fr l k → HelperAgrees f later ls k }
    ensures fronts { (front fronts helper helpers : List Record) → IsLegal Leader Front fronts → Sub front fronts →
        SameTasks front helper helpers → Grow (fronts_of front helper) (fronts_of fronts helpers) }
    ensures front_records { (f : Kind → Functions) (js later : Journals) (x : Record) → Later js later →
        Mem x js.front → FrontFits f js x → FrontFits f later x }
    ensures helper_records { (f : Kind → Functions) (js later : Journals) (x : Record) → Later js later →
        HelperFrontFits f js x → HelperFrontFits f later x }
{}

/// A law: journals have one first record without its counterpart, or none where they agree.
pub fn one_record_is_the_first_without_its_counterpart()
    ensures { (f : Kind → Functions) (js : Journals) (here there : Option (ℕ × ℕ)) →
        IsFirstLacking f js here → IsFirstLacking f js there → here ≡ there }
{}

/// A law: the disks of all parts are counted from 0: those of the leader before those of the helper, of a node that of
/// its front first, and those of its lanes in their order.
pub fn disks_are_in_the_order_of_their_parts()
    ensures leader_first { (lanes : ℕ) (part other : Part) → IsPart lanes part →
        disk_of lanes Leader part < disk_of lanes Helper other }
    ensures front_first { (lanes lane : ℕ) (node : Node) →
        disk_of lanes node Front < disk_of lanes node (Lane lane) }
    ensures lanes_ascend { (lanes lane later : ℕ) (node : Node) → lane < later →
        disk_of lanes node (Lane lane) < disk_of lanes node (Lane later) }
    ensures within { (lanes : ℕ) (node : Node) (part : Part) → IsPart lanes part →
        disk_of lanes node part < 2 * lanes + 2 }
{}

/// A law: a task that both fronts store, each with its own node's keys, is whole again.
pub fn a_task_of_both_fronts_is_whole()
    ensures { (t : PlainTask) (format other : Format) →
        whole (stored_with format t.leader t) (stored_with other t.helper t) ≡ t }
{}

/// A law: fresh journals are legal and agree.
pub fn fresh_journals_agree()
    ensures legal { (lanes : ℕ) → AllLegal (fresh lanes) }
    ensures agree { (f : Kind → Functions) (lanes : ℕ) → AllAgree f (fresh lanes) }
{}

/// A law: both shares of an Answer are out shares of its task.
pub fn answers_hold_out_shares()
    ensures { (f : Kind → Functions) (js : Journals) (n : List ℕ) (span : Span) (a : Answered) → AllAgree f js →
        Mem (LeaderAnswer n span a) js.front →
        (t : PlainTask) × ((held js).task n ≡ Some t) × IsOut (f t.kind).space a.leader × IsOut (f t.kind).space a.helper }
{}

/// A law: in legal journals that agree each Answer shows its reports, and where each of them is the honest fair report of a
/// measurement its shares add to the sum of the measurements' vectors, which is that in whole numbers where it is below the
/// modulus at each place.
pub fn honest_collections_are_whole_sums()
    ensures { (f : Kind → Functions) (js : Journals) → ((k : Kind) → IsKind k → FunctionLaws (f k)) →
        AllLegal js → AllAgree f js → (n : List ℕ) (span : Span) (a : Answered) → Mem (LeaderAnswer n span a) js.front →
        (t : PlainTask) × ((held js).task n ≡ Some t)
        × ((rs : List Report) × AnswerShown f t js (record { name = n; span = span }) a rs
        × IsHonestSum f t a rs × IsWholeSum f t a rs) }
{}

/// A law: legal journals stand for a plain state: the whole tasks that are stored, the reports of all Accepts, each once,
/// and the batches of all Asks. Where they agree, each Answer tells of its batch's reports in that state, as the plain
/// state's own lines do: how many have a content, how many have none, and the sum of the contents.
pub fn answers_tell_of_the_plain_state()
    ensures state { (js : Journals) → AllLegal js → StandsFor js (plain_state js) }
    ensures answers { (f : Kind → Functions) (js : Journals) → ((k : Kind) → IsKind k → FunctionLaws (f k)) →
        AllLegal js → AllAgree f js → (n : List ℕ) (span : Span) (a : Answered) → Mem (LeaderAnswer n span a) js.front →
        (t : PlainTask) × ((held js).task n ≡ Some t) × TellsOf f t a (batch_of t span (plain_state js).accepted) }
{}
