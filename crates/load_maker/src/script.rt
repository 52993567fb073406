//! The text of a load.

ghost use Rattle.std.specs.Prelude.{◌≡◌, IfOk, string_bytes};
ghost use Rattle.hex.specs.Hex.{encode_lower};
ghost use Rattle.dap_script.specs.Spelling.{ended};
ghost use Rattle.load_maker.specs.Load.{identifier_of, load_text, measurement, seed_of, value_of};

use std::alloc::{AllocError, Global};

/// How many measurements a load has at most.
pub const MOST_MEASUREMENTS: u32 = 50_000;

/// The times repeat after so many measurements, which are two batches.
const TIMES: u32 = 7_200;

/// The identifier of the measurement of this number.
fn identifier(number: u32) -> [u8; 16]
    ensures { result ≡ identifier_of number }
{
    let [first, second, third, fourth] = number.to_be_bytes();
    [
        fourth, 0, 0, 0, 0, 0, 0, 0, 0, 0, 0, 0, first, second, third, fourth,
    ]
}

/// The number that it measures.
fn value(number: u32, seed: u64) -> u128
    ensures { result ≡ value_of seed number }
{
    (u128::from(number) * u128::from(number) + u128::from(seed)) % 65_536
}

/// What its client draws from.
fn seed_text(alloc: Global, number: u32, seed: u64) -> Result<String, AllocError>
    ensures { IfOk result (λ text. string_bytes text ≡ encode_lower (seed_of seed number)) }
{
    let mut text = hex::encode(alloc, seed.to_be_bytes())?;
    let rest = hex::encode(alloc, u64::from(number).to_be_bytes())?;
    text.push_str(rest.as_str())?;
    Ok(text)
}

/// The line of the measurement of this number, with its end.
fn measurement_line(alloc: Global, number: u32, seed: u64) -> Result<String, AllocError>
    ensures { IfOk result (λ line. string_bytes line ≡ ended (measurement seed number)) }
{
    let id = hex::encode(alloc, identifier(number))?;
    let time = number % TIMES;
    let value = value(number, seed);
    let drawn = seed_text(alloc, number, seed)?;
    format!(in alloc; "measure load {id} {time} {value} {drawn}\n")
}

/// The script of a load of `reports` measurements of a sum task, which differ with the seed, and of the collections of
/// its two batches: a line for each.
pub fn load_script(alloc: Global, reports: u32, seed: u64) -> Result<Vec<u8>, AllocError>
    ensures { IfOk result (λ text. text.items ≡ load_text reports seed) }
{
    let mut text = Vec::from_slice(alloc, b"task load sum 16 1 3600\n")?;
    for number in 0..reports {
        let line = measurement_line(alloc, number, seed)?;
        text.extend_from_slice(line.as_str().as_bytes())?;
    }
    text.extend_from_slice(b"collect load 0\ncollect load 3600\n")?;
    Ok(text)
}
