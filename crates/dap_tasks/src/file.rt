//! Reading a task file.

ghost use Rattle.std.specs.Prelude.{◌≡◌, ◌≤◌, [], length, All, Err, IfOk};
ghost use Rattle.std.specs.Option.{option_map};
ghost use Rattle.toml.specs.View.{items_view, table_view};
ghost use Rattle.dap_tasks.specs.File.{document_of, tables_in, tables_under_task, tasks_after, tasks_of};
ghost use Rattle.dap_tasks.specs.Reads.{Fails, Reads, tables_seen, tables_told};
ghost use Rattle.dap_tasks.specs.Task.{IsTask};
ghost use Rattle.dap_tasks.specs.Tasks.{AreDistinct};

use crate::fault::TasksFault;
use crate::fields::array_at;
use crate::table::{TableFault, task};
use crate::task::Task;
use dap_bytes::{LONGEST_TASK_FILE, Text};
use std::alloc::{AllocError, Global};
use toml::{Table, Value};

/// The table that the bytes are, if they are TOML.
fn document(alloc: Global, bytes: &[u8]) -> Result<Option<Table>, AllocError>
    ensures { IfOk result (λ document. option_map table_view document ≡ document_of bytes.now) }
{
    if bytes.len() > LONGEST_TASK_FILE {
        return Ok(None);
    }
    match toml::table_from_slice(alloc, bytes) {
        Ok(document) => Ok(Some(document)),
        Err(error) if error.is_memory() => Err(AllocError),
        Err(_) => Ok(None),
    }
}

/// The tables of an array that has nothing else.
fn tables(alloc: Global, values: &[Value]) -> Result<Option<Vec<&Table>>, AllocError>
    ensures { IfOk result (λ tables. tables_told tables ≡ tables_in (items_view values.now)) }
{
    let mut tables = Vec::new(alloc);
    for value in values {
        match value.as_table() {
            Some(table) => tables.push(table)?,
            None => return Ok(None),
        }
    }
    Ok(Some(tables))
}

/// The tables of a document that has the key `task` alone, with an array of tables.
fn tables_under_task(alloc: Global, document: &Table) -> Result<Option<Vec<&Table>>, AllocError>
    ensures { IfOk result (λ tables. tables_told tables ≡ tables_under_task (table_view document.now)) }
{
    if document.len() != 1 {
        return Ok(None);
    }
    match array_at(document, "task") {
        Some(values) => tables(alloc, values),
        None => Ok(None),
    }
}

/// A refusal of a task's field.
fn refused(alloc: Global, task: u32, field: &str) -> TasksFault
    ensures { Fails result (Err (record { task = task; field = field.now })) }
{
    match String::from_str(alloc, field) {
        Ok(field) => TasksFault::Refused {
            task,
            field: Text::new(field),
        },
        Err(_) => TasksFault::NoMemory,
    }
}

/// The tasks that tables are.
fn tasks(alloc: Global, tables: &[&Table]) -> Result<Vec<Task>, TasksFault>
    requires { length tables.now ≤ LONGEST_TASK_FILE }
    ensures tasks { Reads result (tasks_after [] (tables_seen tables.now)) }
    ensures distinct { IfOk result (λ tasks. AreDistinct tasks.items) }
    ensures ranges { IfOk result (λ tasks. All IsTask tasks.items) }
    ensures count { IfOk result (λ tasks. length tasks.items ≤ length tables.now) }
{
    let mut tasks = Vec::new(alloc);
    for table in tables {
        match task(alloc, &tasks, table) {
            Ok(task) => tasks.push(task)?,
            Err(TableFault::Refused(key)) => {
                return Err(refused(alloc, tasks.len() as u32 + 1, key));
            }
            Err(TableFault::NoMemory) => return Err(TasksFault::NoMemory),
        }
    }
    Ok(tasks)
}

/// The tasks of a task file, in the file's order.
///
/// Refused comes exactly where the bytes are no list of tasks: it names the first task that is refused and its first
/// field in the order of the checks, or task 0 and the field `file` where the bytes are more than `LONGEST_TASK_FILE`,
/// or no TOML with an array of tables `task` and no other key.
pub fn read_tasks(alloc: Global, bytes: &[u8]) -> Result<Vec<Task>, TasksFault>
    ensures tasks { Reads result (tasks_of bytes.now) }
    ensures distinct { IfOk result (λ tasks. AreDistinct tasks.items) }
    ensures ranges { IfOk result (λ tasks. All IsTask tasks.items) }
    ensures count { IfOk result (λ tasks. length tasks.items ≤ length bytes.now) }
{
    let Some(document) = document(alloc, bytes)? else {
        return Err(refused(alloc, 0, "file"));
    };
    match tables_under_task(alloc, &document)? {
        Some(tables) => tasks(alloc, &tables),
        None => Err(refused(alloc, 0, "file")),
    }
}
