//! The records of fronts behind their first bytes: the readers, and what appends them with it.

ghost use Rattle.std.specs.Prelude.{◌≡◌, ◌++◌, ◌∷◌, IsTrue, OnOk};
ghost use Rattle.dap_messages.specs.Spelled.{Gives};
ghost use Rattle.dap_messages.specs.Shares.{extent_of};
ghost use Rattle.lane_records.specs.Formats.{by_format};
ghost use Rattle.lane_records.specs.Stored.{stored};
ghost use Rattle.lane_records.specs.Batch.{answered as answers};
ghost use Rattle.lane_records.specs.Records.{front_open, ask_fields, answer_fields, by_extent, leader_front_open, leader_task, ask, leader_answer, helper_front_open, helper_task, helper_answer};

use crate::batch::Answered;
use crate::format::Format;
use crate::record::Record;
use crate::stored::StoredTask;
use dap_bytes::{Cursor, Name, Span, put_u8};
use dap_messages::{
    Extent, ReadFault, ShareReq, ShareResp, Spelled, put_name, put_span, read_name, read_span,
    read_u8,
};
use std::alloc::{AllocError, Global};

/// The fields of a front's Open.
fn read_front(alloc: Global, cursor: &mut Cursor<'_>) -> Result<(Format, u8), ReadFault>
    ensures { Gives front_open cursor.old result cursor.new }
{
    let format = Format::read(alloc, cursor)?;
    let lanes = read_u8(cursor, 0, u8::MAX)?;
    Ok((format, lanes))
}

/// A leader front's Open.
pub(crate) fn read_leader_front_open(
    alloc: Global,
    cursor: &mut Cursor<'_>,
) -> Result<Record, ReadFault>
    ensures { Gives leader_front_open cursor.old result cursor.new }
{
    let (format, lanes) = read_front(alloc, cursor)?;
    Ok(Record::LeaderFrontOpen(format, lanes))
}

/// A helper front's Open.
pub(crate) fn read_helper_front_open(
    alloc: Global,
    cursor: &mut Cursor<'_>,
) -> Result<Record, ReadFault>
    ensures { Gives helper_front_open cursor.old result cursor.new }
{
    let (format, lanes) = read_front(alloc, cursor)?;
    Ok(Record::HelperFrontOpen(format, lanes))
}

/// A Task with the leader's keys, in a format.
pub(crate) fn read_leader_task(
    alloc: Global,
    cursor: &mut Cursor<'_>,
    format: Format,
) -> Result<Record, ReadFault>
    ensures { Gives (leader_task format) cursor.old result cursor.new }
{
    let task = StoredTask::read(alloc, cursor, format)?;
    Ok(Record::LeaderTask(task))
}

/// A Task with the helper's keys, in a format.
pub(crate) fn read_helper_task(
    alloc: Global,
    cursor: &mut Cursor<'_>,
    format: Format,
) -> Result<Record, ReadFault>
    ensures { Gives (helper_task format) cursor.old result cursor.new }
{
    let task = StoredTask::read(alloc, cursor, format)?;
    Ok(Record::HelperTask(task))
}

/// An Ask for a batch of the extent.
pub(crate) fn read_ask(cursor: &mut Cursor<'_>, extent: Extent) -> Result<Record, ReadFault>
    ensures { Gives (ask extent) cursor.old result cursor.new }
{
    let name = read_name(cursor)?;
    let span = read_span(cursor, extent)?;
    Ok(Record::Ask(name, span))
}

/// A leader's Answer for a batch of the extent.
pub(crate) fn read_leader_answer(
    alloc: Global,
    cursor: &mut Cursor<'_>,
    extent: Extent,
) -> Result<Record, ReadFault>
    ensures { Gives (leader_answer extent) cursor.old result cursor.new }
{
    let name = read_name(cursor)?;
    let span = read_span(cursor, extent)?;
    let answered = Answered::read(alloc, cursor)?;
    Ok(Record::LeaderAnswer(name, span, answered))
}

/// A helper's Answer.
pub(crate) fn read_helper_answer(
    alloc: Global,
    cursor: &mut Cursor<'_>,
) -> Result<Record, ReadFault>
    ensures { Gives helper_answer cursor.old result cursor.new }
{
    let request = ShareReq::read(alloc, cursor)?;
    let response = ShareResp::read(alloc, cursor)?;
    Ok(Record::HelperAnswer(request, response))
}

/// Appends a front's Open with its first byte.
pub(crate) fn put_front_open(
    out: &mut Vec<u8>,
    first: u8,
    format: Format,
    lanes: u8,
) -> Result<(), AllocError>
    ensures { OnOk result (out.new.items ≡ out.old.items ++ first ∷ front_open.spell (format, lanes)) }
{
    put_u8(out, first)?;
    put_u8(out, format.byte())?;
    put_u8(out, lanes)
}

/// Appends a Task with the first byte of its format.
pub(crate) fn put_task(
    out: &mut Vec<u8>,
    task: &StoredTask,
    one: u8,
    two: u8,
) -> Result<(), AllocError>
    requires { IsTrue ((stored task.now.format).allowed task.now) }
    ensures { OnOk result (out.new.items
        ≡ out.old.items ++ by_format one two task.now.format ∷ (stored task.now.format).spell task.now) }
{
    put_u8(out, task.format.choose(one, two))?;
    task.put(out)
}

/// Appends an Ask with its first byte.
pub(crate) fn put_ask(out: &mut Vec<u8>, name: &Name, span: &Span) -> Result<(), AllocError>
    ensures { OnOk result (out.new.items
        ≡ out.old.items ++ by_extent 35 37 (extent_of span.now) ∷ (ask_fields (extent_of span.now)).spell (name.now, span.now)) }
{
    put_u8(out, code_of(span, 0x23, 0x25))?;
    put_name(out, name)?;
    put_span(out, span)
}

/// Appends a leader's Answer with its first byte.
pub(crate) fn put_answer(
    out: &mut Vec<u8>,
    name: &Name,
    span: &Span,
    answered: &Answered,
) -> Result<(), AllocError>
    requires { IsTrue (answers.allowed answered.now) }
    ensures { OnOk result (out.new.items ≡ out.old.items
        ++ by_extent 36 38 (extent_of span.now) ∷ (answer_fields (extent_of span.now)).spell (name.now, (span.now, answered.now))) }
{
    put_u8(out, code_of(span, 0x24, 0x26))?;
    put_name(out, name)?;
    put_span(out, span)?;
    answered.put(out)
}

/// The first byte of a record for a batch of one bucket, or for any other.
fn code_of(span: &Span, single: u8, several: u8) -> u8
    ensures { result ≡ by_extent single several (extent_of span.now) }
{
    match Extent::of(span) {
        Extent::Single => single,
        Extent::Several => several,
    }
}
