//! The records of whole journals.

ghost use Rattle.std.specs.Prelude.{◌≡◌, IsTrue, IfOk, List};
ghost use Rattle.lane_records.specs.declared.journal.RecordsFault.TheVariants as faults;
ghost use Rattle.lane_records.specs.declared.record.Record.{Record};
ghost use Rattle.lane_records.specs.Records.{record_};
ghost use Rattle.lane_records.specs.Journal.{bytes_of, are_allowed, spell_all, ReadsAll, ReadsEntry, AreOnly};

use crate::reading::read_record;
use crate::record::Record;
use dap_messages::ReadFault;
use std::alloc::{AllocFailed, Global};
use thiserror::Error;

/// Why byte strings were not read as records.
#[derive(Clone, Copy, Debug, PartialEq, Eq, Error)]
pub enum RecordsFault {
    /// One of them is no record: the place of the first such one, from 0, and the place of the first fault in it.
    #[error("record {entry} is not of the form at byte {at}")]
    Form { entry: u64, at: usize },
    /// There was no memory for the records.
    #[error("no memory")]
    NoMemory,
}

impl<T: Drop> From<AllocFailed<T>> for RecordsFault {
    ghost from_gives = { λ _ e. e ≡ faults.NoMemory };

    fn from(_e: AllocFailed<T>) -> RecordsFault {
        RecordsFault::NoMemory
    }
}

/// The records that the byte strings of a journal spell, in their order: `Form` exactly where one of them spells none.
pub fn read_records(alloc: Global, texts: &[Vec<u8>]) -> Result<Vec<Record>, RecordsFault>
    // What is read is spelled so.
    ensures read_as_spelled { IfOk result
        (λ xs. IsTrue (are_allowed xs.items) × (bytes_of texts.now ≡ spell_all xs.items)) }
    // What is spelled so is read, unless memory runs out.
    ensures every_spelling_is_read { (xs : List Record) → IsTrue (are_allowed xs)
        → bytes_of texts.now ≡ spell_all xs → AreOnly xs result }
    // Which byte string, and which place in it, is the first fault.
    ensures first_fault { ReadsAll (bytes_of texts.now) result }
{
    read_each(alloc, texts)
}

fn read_each(alloc: Global, texts: &[Vec<u8>]) -> Result<Vec<Record>, RecordsFault>
    ensures read_as_spelled { IfOk result
        (λ xs. IsTrue (are_allowed xs.items) × (bytes_of texts.now ≡ spell_all xs.items)) }
    ensures first_fault { ReadsAll (bytes_of texts.now) result }
{
    let mut records = Vec::new(alloc);
    for text in texts {
        let record = read_entry(alloc, records.len() as u64, text)?;
        records.push(record)?;
    }
    Ok(records)
}

/// The record at a place of a journal.
fn read_entry(alloc: Global, entry: u64, text: &[u8]) -> Result<Record, RecordsFault>
    ensures read_as_spelled { IfOk result (λ x. IsTrue (record_.allowed x) × (text.now ≡ record_.spell x)) }
    ensures first_fault { ReadsEntry entry text.now result }
{
    match read_record(alloc, text) {
        Ok(record) => Ok(record),
        Err(ReadFault::Form { at }) => Err(RecordsFault::Form { entry, at }),
        Err(ReadFault::NoMemory) => Err(RecordsFault::NoMemory),
    }
}
