//! The values that a task's keys have in a task file.

ghost use Rattle.std.specs.Prelude.{◌≡◌, ◌≤◌, ◌*◌, IfOk, IfSome};
ghost use Rattle.std.specs.List.{list_any};
ghost use Rattle.std.specs.Option.{option_map, option_and_then};
ghost use Rattle.toml.specs.Data.{as_str, as_array};
ghost use Rattle.toml.specs.View.{view, items_view};
ghost use Rattle.dap_tasks.specs.Fields.{number_of, numbers_of, ascending, bits_of, bounds_of, octets_of, keys_of, new_name_of};
ghost use Rattle.dap_tasks.specs.Reads.{value_of};
ghost use Rattle.dap_tasks.specs.Task.{has_name};
ghost use Rattle.vdaf_api.specs.Kind.{IsKind};
ghost use Rattle.vdaf_api.specs.declared.kind.Kind.TheVariants as PlainKind;
ghost use Rattle.vdaf_api.specs.declared.kind.TheConstants.{MOST_INPUT, MOST_NUMBER_BITS};

use crate::task::Task;
use dap_bytes::Name;
use hex::FromHex;
use std::alloc::{AllocError, Global};
use toml::{Table, Value};
use vdaf_api::{Bounds, Kind, MOST_INPUT, MOST_NUMBER_BITS, SealKeys};

/// The greatest whole number that a file can write.
const MAX_BOUND: u64 = 9_223_372_036_854_775_807;

/// The value of a key.
pub fn value_at<'a>(table: &'a Table, key: &str) -> Option<&'a Value>
    ensures { option_map (λ value. view value.now) result ≡ value_of key.now table.now }
{
    table.get(key)
}

/// A whole number from the least to the greatest.
pub fn number(value: &Value, least: u64, greatest: u64) -> Option<u64>
    ensures number { result ≡ number_of least greatest (view value.now) }
    ensures within { IfSome result (λ number. (least ≤ number) × (number ≤ greatest)) }
{
    let number = value.as_integer()?;
    if number < 0 {
        return None;
    }
    let number = number as u64;
    (least <= number && number <= greatest).then_some(number)
}

/// A whole number from 1 to the greatest, at a key.
pub fn number_at(table: &Table, key: &str, greatest: u32) -> Option<u32>
    ensures number { result ≡ option_and_then (number_of 1 greatest) (value_of key.now table.now) }
    ensures within { IfSome result (λ number. (1 ≤ number) × (number ≤ greatest)) }
{
    let number = number(value_at(table, key)?, 1, u64::from(greatest))?;
    Some(number as u32)
}

/// A string at a key.
pub fn word_at<'a>(table: &'a Table, key: &str) -> Option<&'a str>
    ensures { option_map (λ word. word.now) result ≡ option_and_then as_str (value_of key.now table.now) }
{
    value_at(table, key)?.as_str()
}

/// An array at a key.
pub fn array_at<'a>(table: &'a Table, key: &str) -> Option<&'a [Value]>
    ensures { option_map (λ values. items_view values.now) result ≡ option_and_then as_array
        (value_of key.now table.now) }
{
    let values = value_at(table, key)?.as_array()?;
    Some(values.as_slice())
}

/// Whole numbers, of which none is negative.
fn numbers(alloc: Global, values: &[Value]) -> Result<Option<Vec<u64>>, AllocError>
    ensures { IfOk result (λ numbers. option_map (λ v. v.items) numbers ≡ numbers_of (items_view values.now)) }
{
    let mut numbers = Vec::new(alloc);
    for value in values {
        match number(value, 0, MAX_BOUND) {
            Some(number) => numbers.push(number)?,
            None => return Ok(None),
        }
    }
    Ok(Some(numbers))
}

/// The bounds, if they are those of a histogram.
fn ascending(bounds: Bounds) -> Option<Kind>
    ensures kind { result ≡ option_map PlainKind.Histogram (ascending bounds) }
    ensures ranges { IfSome result IsKind }
{
    let kind = Kind::Histogram { bounds };
    if kind.is_valid() { Some(kind) } else { None }
}

/// A histogram with the bounds at a key: 1 to 1,023 numbers, strictly ascending.
pub fn histogram_at(alloc: Global, table: &Table, key: &str) -> Result<Option<Kind>, AllocError>
    ensures kind { IfOk result
        (λ kind. kind ≡ option_map PlainKind.Histogram (option_and_then bounds_of (value_of key.now table.now))) }
    ensures ranges { IfOk result (λ kind. IfSome kind IsKind) }
{
    let Some(values) = array_at(table, key) else {
        return Ok(None);
    };
    match numbers(alloc, values)? {
        None => Ok(None),
        Some(bounds) => Ok(ascending(Bounds::new(bounds))),
    }
}

/// How many bits each of so many numbers of a vector has, at a key: 1 to `MOST_NUMBER_BITS`, and all together no more
/// than `MOST_INPUT`.
pub fn bits_at(table: &Table, key: &str, len: u16) -> Option<u8>
    ensures bits { result ≡ option_and_then (bits_of len) (value_of key.now table.now) }
    ensures within { IfSome result (λ bits. (1 ≤ bits) × (bits ≤ MOST_NUMBER_BITS) × (len * bits ≤ MOST_INPUT)) }
{
    let bits = number(value_at(table, key)?, 1, u64::from(MOST_NUMBER_BITS))?;
    if u64::from(len) * bits > u64::from(MOST_INPUT) {
        return None;
    }
    Some(bits as u8)
}

/// Hex digits of either case at a key, as many as N bytes have.
pub fn octets_at<const N: usize>(table: &Table, key: &str) -> Option<[u8; N]>
    ensures { result ≡ option_and_then (octets_of N) (value_of key.now table.now) }
{
    <[u8; N] as FromHex>::from_hex(word_at(table, key)?).ok()
}

/// The keys of a seal at a key: 64 hex digits, first those of the cipher's key.
pub fn keys_at(table: &Table, key: &str) -> Option<SealKeys>
    ensures { result ≡ option_and_then keys_of (value_of key.now table.now) }
{
    let octets: [u8; 32] = octets_at(table, key)?;
    let mut keys = SealKeys {
        enc: [0; 16],
        mac: [0; 16],
    };
    keys.enc.copy_from_slice(&octets[..16]);
    keys.mac.copy_from_slice(&octets[16..]);
    Some(keys)
}

/// Whether a task has the name.
fn is_taken(before: &[Task], name: &Name) -> bool
    ensures { result ≡ list_any (has_name name.now) before.now }
{
    before.iter().any(|task| task.name == *name)
}

/// A name at a key that none of the tasks has.
pub fn new_name_at(before: &[Task], table: &Table, key: &str) -> Option<Name>
    ensures { result ≡ option_and_then (new_name_of before.now) (value_of key.now table.now) }
{
    let name = Name::new(word_at(table, key)?.as_bytes())?;
    if is_taken(before, &name) {
        return None;
    }
    Some(name)
}
