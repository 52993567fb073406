use super::legal;
use dap_bytes::{Node, Part};
use made::{Made, record};
use std::alloc::Global;
use std::test::Fail;

mod disks;
mod drawn;
mod fronts;
mod helper_lane;
mod index;
mod leader_lane;
mod made;
mod plain;

/// A job of the lane 1 among 2, of which the identifiers of odd bytes are: its lane, incarnation and counter.
const JOB: (u8, u64, u64) = (1, 1, 0);

const NEXT: (u8, u64, u64) = (1, 1, 1);

/// A journal, and the place of the first record that may not follow those before it.
type Case = (&'static [Made], Option<u64>);

/// What is answered for a journal.
fn first_refused(
    alloc: Global,
    node: Node,
    part: Part,
    journal: &[Made],
) -> Result<Option<u64>, Fail> {
    let mut records = Vec::new(alloc);
    for made in journal {
        records.push(record(alloc, *made)?)?;
    }
    Ok(legal(alloc, part, node, &records)?)
}

/// The first case in which something else is answered than what is wanted.
fn first_wrong(
    alloc: Global,
    node: Node,
    part: Part,
    cases: &[Case],
) -> Result<Option<usize>, Fail> {
    for (index, (journal, want)) in cases.iter().enumerate() {
        if first_refused(alloc, node, part, journal)? != *want {
            return Ok(Some(index));
        }
    }
    Ok(None)
}
