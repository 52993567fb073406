//! What is read as a file of tasks is one, and what is one is read.

ghost use Rattle.std.specs.Prelude.{◌≡◌, ◌≢◌, ◌↔◌, ◌⊎◌, ◌+◌, ◌<◌, ◌≤◌, List, ℕ, Bool, true, false, Option, Some, None, Ok, Err};
ghost use Rattle.dap_tasks.specs.File.{Refusal, tasks_of};
ghost use Rattle.dap_tasks.specs.TaskFile.{IsTaskFile, RefusesFile, RefusesTask};
ghost use Rattle.dap_tasks.specs.Task.{PlainTask};
ghost use Rattle.dap_tasks.specs.Judged.{is_early, is_expired, judged};

use crate::cause::{Cause, Judged, MOST_AHEAD};

/// A law: bytes are read as tasks exactly where they are at most `LONGEST_TASK_FILE` bytes of TOML with the one key `task`
/// and an array of tables, of which each has the keys of its task with values in their ranges, and no others, and no two
/// tasks have the same name.
pub fn task_files_are_read()
    ensures { (bytes : List ℕ) (tasks : List PlainTask) → (tasks_of bytes ≡ Ok tasks) ↔ IsTaskFile bytes tasks }
{}

/// A law: bytes are refused as task 0, field `file`, exactly where no tables are those of the bytes, and as a task of a
/// number from 1 exactly where this table is the first that is no task behind those before it.
pub fn refusals_name_the_first_task()
    ensures { (bytes : List ℕ) (refusal : Refusal) → (tasks_of bytes ≡ Err refusal)
        ↔ (RefusesFile bytes refusal ⊎ RefusesTask bytes refusal) }
{}

/// A law: of all that may be said of a report that is offered the first counts: a report that was accepted with these
/// bytes is accepted again; then one that is more than `MOST_AHEAD` above the moment is early; then one of a task whose
/// expiry is not above the moment is expired; then one whose identifier another report has conflicts; then one whose
/// bucket lies in a collected batch is collected; and every other is added. A task without an expiry never expires, and
/// nothing is early or expired before the first moment.
pub fn the_first_cause_counts()
    ensures again { (moment expires : Option ℕ) (collected : Bool) (bytes : List ℕ) (time : ℕ)
        → judged (Some bytes) moment expires collected bytes time ≡ Judged.Again }
    ensures early { (known : Option (List ℕ)) (moment time : ℕ) (expires : Option ℕ) (collected : Bool) (bytes : List ℕ)
        → known ≢ Some bytes → moment + MOST_AHEAD < time
        → judged known (Some moment) expires collected bytes time ≡ Judged.Barred Cause.Early }
    ensures expired { (known : Option (List ℕ)) (moment expiry time : ℕ) (collected : Bool) (bytes : List ℕ)
        → known ≢ Some bytes → is_early (Some moment) time ≡ false → expiry ≤ moment
        → judged known (Some moment) (Some expiry) collected bytes time ≡ Judged.Barred Cause.Expired }
    ensures conflict { (accepted bytes : List ℕ) (moment expires : Option ℕ) (collected : Bool) (time : ℕ)
        → accepted ≢ bytes → is_early moment time ≡ false → is_expired moment expires ≡ false
        → judged (Some accepted) moment expires collected bytes time ≡ Judged.Barred Cause.Conflict }
    ensures collected { (moment expires : Option ℕ) (bytes : List ℕ) (time : ℕ)
        → is_early moment time ≡ false → is_expired moment expires ≡ false
        → judged None moment expires true bytes time ≡ Judged.Barred Cause.Collected }
    ensures added { (moment expires : Option ℕ) (bytes : List ℕ) (time : ℕ)
        → is_early moment time ≡ false → is_expired moment expires ≡ false
        → judged None moment expires false bytes time ≡ Judged.Added }
    ensures not_early { (moment time : ℕ) → time ≤ moment + MOST_AHEAD → is_early (Some moment) time ≡ false }
    ensures not_expired { (moment expiry : ℕ) → moment < expiry → is_expired (Some moment) (Some expiry) ≡ false }
    ensures no_moment { (expires : Option ℕ) (time : ℕ)
        → (is_early None time ≡ false) × (is_expired None expires ≡ false) }
    ensures no_expiry { (moment : Option ℕ) → is_expired moment None ≡ false }
{}
