//! Lists of numbers, with commas between.

ghost use Rattle.std.specs.Prelude.{◌≡◌, IfOk};
ghost use Rattle.std.specs.List.{slice_split};
ghost use Rattle.std.specs.Option.{option_map};
ghost use Rattle.dap_script.specs.Fields.{list_of, measurement_of, numbers_of};
ghost use Rattle.dap_script.specs.Words.{texts, is_comma};

use crate::fields::number;
use std::alloc::{AllocError, Global};
use vdaf_api::{MOST_NUMBERS, Measurement};

/// The parts between the commas of a text.
fn split_at_commas(alloc: Global, text: &str) -> Result<Vec<&str>, AllocError>
    ensures { IfOk result (λ parts. texts parts.items ≡ slice_split is_comma text.now) }
{
    text.split(',').collect(alloc)
}

/// The numbers that the words write, where each is one.
fn numbers(alloc: Global, words: &[&str]) -> Result<Option<Vec<u64>>, AllocError>
    ensures { IfOk result (λ numbers. option_map (λ v. v.items) numbers ≡ numbers_of (texts words.now)) }
{
    let mut numbers = Vec::new(alloc);
    for word in words {
        match number(word) {
            Some(number) => numbers.push(number)?,
            None => return Ok(None),
        }
    }
    Ok(Some(numbers))
}

/// The numbers that a word writes, where each part of it is one.
pub fn list(alloc: Global, text: &str) -> Result<Option<Vec<u64>>, AllocError>
    ensures { IfOk result (λ numbers. option_map (λ v. v.items) numbers ≡ list_of text.now) }
{
    numbers(alloc, &split_at_commas(alloc, text)?)
}

/// The measurement that a word writes: 1 to [`MOST_NUMBERS`] numbers.
pub fn measurement(alloc: Global, text: &str) -> Result<Option<Measurement>, AllocError>
    ensures { IfOk result (λ numbers. numbers ≡ measurement_of text.now) }
{
    match list(alloc, text)? {
        None => Ok(None),
        Some(numbers) => {
            if numbers.len() > usize::from(MOST_NUMBERS) {
                return Ok(None);
            }
            Ok(Some(Measurement::new(numbers)))
        }
    }
}
