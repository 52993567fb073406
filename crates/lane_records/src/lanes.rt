//! The records of lanes behind their first bytes: the readers, and what appends them with it.

ghost use Rattle.std.specs.Prelude.{◌≡◌, ◌++◌, ◌∷◌, IsTrue, OnOk};
ghost use Rattle.dap_messages.specs.Spelled.{Gives};
ghost use Rattle.lane_records.specs.Records.{lane_open, continue_fields, start_fields, outcomes, close_fields, leader_open, accept, continue_, finish, leader_close, helper_open, start, commit, helper_close};

use crate::closed::Closed;
use crate::format::Format;
use crate::outcome::Outcome;
use crate::record::Record;
use dap_bytes::{Cursor, LATEST_TIME, Name, put_u8, put_u64};
use dap_messages::{
    Half, Items, JobNo, ReadFault, Report, Spelled, Step, put_name, read_name, read_u8, read_u64,
};
use std::alloc::{AllocError, Global};

/// The fields of a lane's Open.
fn read_lanes(alloc: Global, cursor: &mut Cursor<'_>) -> Result<(Format, (u8, u8)), ReadFault>
    ensures { Gives lane_open cursor.old result cursor.new }
{
    let format = Format::read(alloc, cursor)?;
    let lanes = read_u8(cursor, 0, u8::MAX)?;
    let lane = read_u8(cursor, 0, u8::MAX)?;
    Ok((format, (lanes, lane)))
}

/// A leader lane's Open.
pub(crate) fn read_leader_open(alloc: Global, cursor: &mut Cursor<'_>) -> Result<Record, ReadFault>
    ensures { Gives leader_open cursor.old result cursor.new }
{
    let (format, (lanes, lane)) = read_lanes(alloc, cursor)?;
    Ok(Record::LeaderOpen(format, lanes, lane))
}

/// A helper lane's Open.
pub(crate) fn read_helper_open(alloc: Global, cursor: &mut Cursor<'_>) -> Result<Record, ReadFault>
    ensures { Gives helper_open cursor.old result cursor.new }
{
    let (format, (lanes, lane)) = read_lanes(alloc, cursor)?;
    Ok(Record::HelperOpen(format, lanes, lane))
}

/// An Accept.
pub(crate) fn read_accept(alloc: Global, cursor: &mut Cursor<'_>) -> Result<Record, ReadFault>
    ensures { Gives accept cursor.old result cursor.new }
{
    let report = Report::read(alloc, cursor)?;
    Ok(Record::Accept(report))
}

/// A Continue.
pub(crate) fn read_continue(alloc: Global, cursor: &mut Cursor<'_>) -> Result<Record, ReadFault>
    ensures { Gives continue_ cursor.old result cursor.new }
{
    let name = read_name(cursor)?;
    read_u8(cursor, 3, 3)?;
    let job = JobNo::read(alloc, cursor)?;
    let steps = Items::read(alloc, cursor)?;
    Ok(Record::Continue(name, job, steps))
}

/// A Finish.
pub(crate) fn read_finish(alloc: Global, cursor: &mut Cursor<'_>) -> Result<Record, ReadFault>
    ensures { Gives finish cursor.old result cursor.new }
{
    let job = JobNo::read(alloc, cursor)?;
    let outs = Items::read(alloc, cursor)?;
    Ok(Record::Finish(job, outs))
}

/// A leader lane's Close.
pub(crate) fn read_leader_close(alloc: Global, cursor: &mut Cursor<'_>) -> Result<Record, ReadFault>
    ensures { Gives leader_close cursor.old result cursor.new }
{
    let name = read_name(cursor)?;
    let start = read_u64(cursor, 0, LATEST_TIME)?;
    let closed = Closed::read(alloc, cursor)?;
    Ok(Record::LeaderClose(name, start, closed))
}

/// A Start.
pub(crate) fn read_start(alloc: Global, cursor: &mut Cursor<'_>) -> Result<Record, ReadFault>
    ensures { Gives start cursor.old result cursor.new }
{
    read_u8(cursor, 1, 1)?;
    let job = JobNo::read(alloc, cursor)?;
    let name = read_name(cursor)?;
    let halves = Items::read(alloc, cursor)?;
    Ok(Record::Start(job, name, halves))
}

/// A Commit.
pub(crate) fn read_commit(alloc: Global, cursor: &mut Cursor<'_>) -> Result<Record, ReadFault>
    ensures { Gives commit cursor.old result cursor.new }
{
    let job = JobNo::read(alloc, cursor)?;
    let outs = Items::read(alloc, cursor)?;
    Ok(Record::Commit(job, outs))
}

/// A helper lane's Close.
pub(crate) fn read_helper_close(alloc: Global, cursor: &mut Cursor<'_>) -> Result<Record, ReadFault>
    ensures { Gives helper_close cursor.old result cursor.new }
{
    let name = read_name(cursor)?;
    let start = read_u64(cursor, 0, LATEST_TIME)?;
    let closed = Closed::read(alloc, cursor)?;
    Ok(Record::HelperClose(name, start, closed))
}

/// Appends a lane's Open with its first byte.
pub(crate) fn put_lane_open(
    out: &mut Vec<u8>,
    first: u8,
    format: Format,
    lanes: u8,
    lane: u8,
) -> Result<(), AllocError>
    ensures { OnOk result (out.new.items ≡ out.old.items ++ first ∷ lane_open.spell (format, (lanes, lane))) }
{
    put_u8(out, first)?;
    put_u8(out, format.byte())?;
    put_u8(out, lanes)?;
    put_u8(out, lane)
}

/// Appends a Continue with its first byte.
pub(crate) fn put_continue(
    out: &mut Vec<u8>,
    name: &Name,
    job: &JobNo,
    steps: &Items<Step>,
) -> Result<(), AllocError>
    requires { IsTrue (continue_fields.allowed (name.now, (job.now, steps.now))) }
    ensures { OnOk result
        (out.new.items ≡ out.old.items ++ 3 ∷ continue_fields.spell (name.now, (job.now, steps.now))) }
{
    put_u8(out, 0x03)?;
    put_name(out, name)?;
    put_u8(out, 3)?;
    job.put(out)?;
    steps.put(out)
}

/// Appends a Start with its first byte.
pub(crate) fn put_start(
    out: &mut Vec<u8>,
    job: &JobNo,
    name: &Name,
    halves: &Items<Half>,
) -> Result<(), AllocError>
    requires { IsTrue (start_fields.allowed (job.now, (name.now, halves.now))) }
    ensures { OnOk result (out.new.items ≡ out.old.items ++ 18 ∷ start_fields.spell (job.now, (name.now, halves.now))) }
{
    put_u8(out, 0x12)?;
    put_u8(out, 1)?;
    job.put(out)?;
    put_name(out, name)?;
    halves.put(out)
}

/// Appends a Finish or a Commit with its first byte.
pub(crate) fn put_outcomes(
    out: &mut Vec<u8>,
    first: u8,
    job: &JobNo,
    outs: &Items<Outcome>,
) -> Result<(), AllocError>
    requires { IsTrue (outcomes.allowed (job.now, outs.now)) }
    ensures { OnOk result (out.new.items ≡ out.old.items ++ first ∷ outcomes.spell (job.now, outs.now)) }
{
    put_u8(out, first)?;
    job.put(out)?;
    outs.put(out)
}

/// Appends a lane's Close with its first byte.
pub(crate) fn put_close(
    out: &mut Vec<u8>,
    first: u8,
    name: &Name,
    start: u64,
    closed: &Closed,
) -> Result<(), AllocError>
    requires { IsTrue (close_fields.allowed (name.now, (start, closed.now))) }
    ensures { OnOk result
        (out.new.items ≡ out.old.items ++ first ∷ close_fields.spell (name.now, (start, closed.now))) }
{
    put_u8(out, first)?;
    put_name(out, name)?;
    put_u64(out, start)?;
    closed.put(out)
}
