//! The tables of a task file.

ghost use Rattle.std.specs.Prelude.{◌≡◌, codes, false, IfOk};
ghost use Rattle.dap_bytes.specs.declared.limits.TheConstants.{LATEST_TIME};
ghost use Rattle.std.specs.List.{list_any};
ghost use Rattle.std.specs.Option.{option_map};
ghost use Rattle.toml.specs.View.{table_view};
ghost use Rattle.vdaf_api.specs.TaskNumbers.{IsExpiry};
ghost use Rattle.vdaf_api.specs.Kind.{IsKind};
ghost use Rattle.dap_tasks.specs.Fields.{is_other, first_other, number_of, optional_field};
ghost use Rattle.dap_tasks.specs.File.{kind_of, kind_named, task_of, vector_of};
ghost use Rattle.dap_tasks.specs.Reads.{Takes};
ghost use Rattle.dap_tasks.specs.Task.{IsTask, has_name};

use crate::fields::{
    bits_at, histogram_at, keys_at, new_name_at, number, number_at, octets_at, value_at, word_at,
};
use crate::task::Task;
use dap_bytes::{GREATEST_MINIMUM, GREATEST_PRECISION, LATEST_TIME};
use std::alloc::{AllocError, Global};
use toml::Table;
use vdaf_api::{Kind, MOST_NUMBERS};

/// Why a table is no task.
#[derive(Clone, Copy, Debug, PartialEq, Eq)]
pub enum TableFault<'a> {
    /// The first key that is refused.
    Refused(&'a str),
    /// There was no memory to read it.
    NoMemory,
}

impl<'a> From<AllocError> for TableFault<'a> {
    ghost use Rattle.dap_tasks.specs.declared.table.TableFault.TheVariants.{NoMemory};

    ghost from_gives = { λ _ e. e ≡ NoMemory };

    fn from(_: AllocError) -> Self {
        TableFault::NoMemory
    }
}

/// A vector with the sizes that the table has for it.
fn vector<'a>(table: &'a Table) -> Result<Kind, TableFault<'a>>
    ensures kind { Takes result (vector_of (table_view table.now)) }
    ensures ranges { IfOk result IsKind }
{
    let len = number_at(table, "len", u32::from(MOST_NUMBERS)).ok_or(TableFault::Refused("len"))?;
    let len = len as u16;
    let bits = bits_at(table, "bits", len).ok_or(TableFault::Refused("bits"))?;
    Ok(Kind::Vector { len, bits })
}

/// The kind that a word names, with what the table has for it.
fn kind_named<'a>(alloc: Global, word: &str, table: &'a Table) -> Result<Kind, TableFault<'a>>
    ensures kind { Takes result (kind_named word.now (table_view table.now)) }
    ensures ranges { IfOk result IsKind }
{
    match word {
        "count" => Ok(Kind::Count),
        "sum" => {
            let bits = number_at(table, "bits", 64).ok_or(TableFault::Refused("bits"))?;
            Ok(Kind::Sum { bits: bits as u8 })
        }
        "histogram" => histogram_at(alloc, table, "bounds")?.ok_or(TableFault::Refused("bounds")),
        "vector" => vector(table),
        _ => Err(TableFault::Refused("kind")),
    }
}

/// The kind of a task.
fn kind<'a>(alloc: Global, table: &'a Table) -> Result<Kind, TableFault<'a>>
    ensures kind { Takes result (kind_of (table_view table.now)) }
    ensures ranges { IfOk result IsKind }
{
    let word = word_at(table, "kind").ok_or(TableFault::Refused("kind"))?;
    kind_named(alloc, word, table)
}

/// Whether a key is none of a task of the kind.
fn is_other(kind: &Kind, key: &str) -> bool
    ensures { result ≡ is_other kind.now key.now }
{
    match key {
        "name" | "kind" | "min" | "precision" | "expires" | "verify" | "leader" | "helper" => false,
        "bits" => !matches!(kind, Kind::Sum { .. } | Kind::Vector { .. }),
        "bounds" => !matches!(kind, Kind::Histogram { .. }),
        "len" => !matches!(kind, Kind::Vector { .. }),
        _ => true,
    }
}

/// The first key, in the order of their bytes, that is none of a task of the kind.
fn other_key<'a>(kind: &Kind, table: &'a Table) -> Option<&'a str>
    ensures { option_map (λ key. key.now) result ≡ first_other kind.now (table_view table.now) }
{
    for key in table.keys() {
        if is_other(kind, key.as_str()) {
            return Some(key.as_str());
        }
    }
    None
}

/// When a task expires, if its table says so.
fn expiry<'a>(table: &'a Table) -> Result<Option<u64>, TableFault<'a>>
    ensures expiry { Takes result (optional_field (codes "expires") (number_of 0 LATEST_TIME) (table_view table.now)) }
    ensures range { IfOk result IsExpiry }
{
    match value_at(table, "expires") {
        None => Ok(None),
        Some(value) => {
            let t = number(value, 0, LATEST_TIME).ok_or(TableFault::Refused("expires"))?;
            Ok(Some(t))
        }
    }
}

/// The task that a table is, behind those before it.
pub fn task<'a>(alloc: Global, before: &[Task], table: &'a Table) -> Result<Task, TableFault<'a>>
    ensures task { Takes result (task_of before.now (table_view table.now)) }
    ensures ranges { IfOk result IsTask }
    ensures new { IfOk result (λ task. list_any (has_name task.name) before.now ≡ false) }
{
    let name = new_name_at(before, table, "name").ok_or(TableFault::Refused("name"))?;
    let kind = kind(alloc, table)?;
    let min = number_at(table, "min", GREATEST_MINIMUM).ok_or(TableFault::Refused("min"))?;
    let precision = number_at(table, "precision", GREATEST_PRECISION).ok_or(TableFault::Refused(
        "precision",
    ))?;
    let expires = expiry(table)?;
    let verify = octets_at(table, "verify").ok_or(TableFault::Refused("verify"))?;
    let leader = keys_at(table, "leader").ok_or(TableFault::Refused("leader"))?;
    let helper = keys_at(table, "helper").ok_or(TableFault::Refused("helper"))?;
    if let Some(key) = other_key(&kind, table) {
        return Err(TableFault::Refused(key));
    }
    Ok(Task {
        name,
        kind,
        min,
        precision,
        expires,
        verify,
        leader,
        helper,
    })
}
