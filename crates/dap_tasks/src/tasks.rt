//! The known tasks.

ghost use Rattle.std.specs.Prelude.{◌≡◌, [], ◌∷◌, ◌++◌, List, ℕ, Some, IfSome, OnOk, IfErr, false};
ghost use Rattle.std.specs.List.{find, list_any};
ghost use Rattle.std.specs.Option.{option_map};
ghost use Rattle.dap_tasks.specs.Task.{IsTask, PlainTask, has_name};

use crate::task::Task;
use dap_bytes::Name;
use std::alloc::Global;
use std::marker::Model;
use vdaf_api::Vdaf;

/// A task and the measurement function of its kind.
#[derive(Drop)]
struct Known<V: Vdaf> {
    task: Task,
    vdaf: V,
    ghost of_kind: { V.functions vdaf ≡ V.of_kind task.kind },
}

/// The known tasks, each with the measurement function of its kind. No two have the same name. A contract sees them as
/// the list of the tasks, in the order in which they were added.
#[derive(Drop)]
pub struct Tasks<V: Vdaf> {
    known: Vec<Known<V>>,
}

impl<V: Vdaf> Model for Tasks<V> {
    ghost use Rattle.std.specs.Prelude.{List, map};
    ghost use Rattle.dap_tasks.specs.Task.{PlainTask};
    ghost use Rattle.dap_tasks.specs.Tasks.{AreDistinct, AreTasks};

    ghost Value = { List PlainTask };

    ghost view = { λ t. map (λ k. k.task) t.known.items };

    ghost invariant = { λ t. AreDistinct (map (λ k. k.task) t.known.items) × AreTasks (map (λ k. k.task) t.known.items) };
}

impl<V: Vdaf> Tasks<V> {
    /// No tasks. It takes no memory.
    pub fn new(alloc: Global) -> Tasks<V>
        ensures { result ≡ [] }
    {
        Tasks {
            known: Vec::new(alloc),
        }
    }

    /// Adds a task, with the measurement function of its kind, behind the others. Where there is no memory for them, the
    /// task comes back and the tasks are as before.
    pub fn push(&mut self, alloc: Global, task: Task) -> Result<(), Task>
        requires { list_any (has_name task.name) self.old ≡ false }
        ensures added { OnOk result (self.new ≡ self.old ++ task ∷ []) }
        ensures refused { IfErr result (λ back. (back ≡ task) × (self.new ≡ self.old)) }
    {
        let Ok(vdaf) = V::of(alloc, &task.kind) else {
            return Err(task);
        };
        if self.known.try_reserve(1).is_err() {
            return Err(task);
        }
        self.known.push_reserved(Known { task, vdaf });
        Ok(())
    }

    /// The task of this name with its measurement function; none exactly where no task has the name. It takes no memory.
    pub fn find(&self, name: &Name) -> Option<(&Task, &V)>
        ensures task { option_map (λ known. known.0.now) result ≡ find (has_name name.now) self.now }
        ensures ranges { IfSome result (λ known. IsTask known.0.now) }
        ensures of_kind { IfSome result (λ known. V.functions known.1.now ≡ V.of_kind known.0.now.kind) }
    {
        for known in &self.known {
            if known.task.name == *name {
                return Some((&known.task, &known.vdaf));
            }
        }
        None
    }

    /// A law: every task that is found by a name is within its ranges.
    pub fn tasks_keep_their_ranges(&self)
        ensures { (name : List ℕ) (task : PlainTask) → find (has_name name) self.now ≡ Some task → IsTask task }
    {
        let _count = self.known.len();
    }
}
