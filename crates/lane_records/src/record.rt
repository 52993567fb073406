//! The records of journals.

ghost use Rattle.std.specs.Prelude.{◌≡◌};
ghost use Rattle.lane_records.specs.Records.{bucket};

use crate::batch::Answered;
use crate::closed::Closed;
use crate::format::Format;
use crate::fronts::{
    put_answer, put_ask, put_front_open, put_task, read_ask, read_helper_answer,
    read_helper_front_open, read_helper_task, read_leader_answer, read_leader_front_open,
    read_leader_task,
};
use crate::lanes::{
    put_close, put_continue, put_lane_open, put_outcomes, put_start, read_accept, read_commit,
    read_continue, read_finish, read_helper_close, read_helper_open, read_leader_close,
    read_leader_open, read_start,
};
use crate::outcome::Outcome;
use crate::stored::StoredTask;
use dap_bytes::{Cursor, LATEST_TIME, Name, Span, put_u8};
use dap_messages::{
    Extent, Half, Items, JobNo, ReadFault, Report, ShareReq, ShareResp, Spelled, Step, cut_off,
    is_name, is_span, is_u8, is_u64,
};
use std::alloc::{AllocError, Global};

/// A record of a journal.
#[derive(Debug, Drop)]
pub enum Record {
    /// A leader lane begins an incarnation: the format, the number of lanes, and its own.
    LeaderOpen(Format, u8, u8),
    /// A leader lane accepted this report.
    Accept(Report),
    /// A leader lane's part of a job, which it sends in a ContReq: the task's name, the job, and each report's step.
    Continue(Name, JobNo, Items<Step>),
    /// A leader lane's outcomes of a job.
    Finish(JobNo, Items<Outcome>),
    /// A leader lane closed the bucket of this name and start.
    LeaderClose(Name, u64, Closed),
    /// A helper lane begins an incarnation: the format, the number of lanes, and its own.
    HelperOpen(Format, u8, u8),
    /// A helper lane took an InitReq: the job, the task's name, and what it got of each report.
    Start(JobNo, Name, Items<Half>),
    /// A helper lane's outcomes of a job, which it sends in a ContResp.
    Commit(JobNo, Items<Outcome>),
    /// A helper lane closed the bucket of this name and start.
    HelperClose(Name, u64, Closed),
    /// The leader's front begins an incarnation: the format and the number of lanes.
    LeaderFrontOpen(Format, u8),
    /// The leader's front stores a task, with the leader's keys.
    LeaderTask(StoredTask),
    /// The leader's front collects this batch of the name.
    Ask(Name, Span),
    /// The leader's front answered for this batch of the name.
    LeaderAnswer(Name, Span, Answered),
    /// The helper's front begins an incarnation: the format and the number of lanes.
    HelperFrontOpen(Format, u8),
    /// The helper's front stores a task, with the helper's keys.
    HelperTask(StoredTask),
    /// The helper's front answered a request for its share.
    HelperAnswer(ShareReq, ShareResp),
}

/// A name and the start of a bucket.
fn is_bucket(name: &Name, start: u64) -> bool
    ensures { result ≡ bucket.allowed (name.now, start) }
{
    is_name(name) && is_u64(start, 0, LATEST_TIME)
}

impl Spelled for Record {
    ghost use Rattle.lane_records.specs.Records.{record_};
    ghost use Rattle.lane_records.specs.RecordLaws.{record_lawful};

    ghost grammar = { record_ };

    ghost laws = { record_lawful };

    fn read(alloc: Global, cursor: &mut Cursor<'_>) -> Result<Self, ReadFault> {
        let at = cursor.place();
        match cursor.u8() {
            None => Err(cut_off(cursor).into()),
            Some(0x01) => read_leader_open(alloc, cursor),
            Some(0x02) => read_accept(alloc, cursor),
            Some(0x03) => read_continue(alloc, cursor),
            Some(0x04) => read_finish(alloc, cursor),
            Some(0x05) => read_leader_close(alloc, cursor),
            Some(0x11) => read_helper_open(alloc, cursor),
            Some(0x12) => read_start(alloc, cursor),
            Some(0x13) => read_commit(alloc, cursor),
            Some(0x14) => read_helper_close(alloc, cursor),
            Some(0x21) => read_leader_front_open(alloc, cursor),
            Some(0x22) => read_leader_task(alloc, cursor, Format::One),
            Some(0x27) => read_leader_task(alloc, cursor, Format::Two),
            Some(0x23) => read_ask(cursor, Extent::Single),
            Some(0x24) => read_leader_answer(alloc, cursor, Extent::Single),
            Some(0x25) => read_ask(cursor, Extent::Several),
            Some(0x26) => read_leader_answer(alloc, cursor, Extent::Several),
            Some(0x31) => read_helper_front_open(alloc, cursor),
            Some(0x32) => read_helper_task(alloc, cursor, Format::One),
            Some(0x37) => read_helper_task(alloc, cursor, Format::Two),
            Some(0x34) => read_helper_answer(alloc, cursor),
            Some(_) => Err(ReadFault::Form { at }),
        }
    }

    fn put(&self, out: &mut Vec<u8>) -> Result<(), AllocError> {
        match self {
            Record::LeaderOpen(format, lanes, lane) => {
                put_lane_open(out, 0x01, *format, *lanes, *lane)
            }
            Record::Accept(report) => {
                put_u8(out, 0x02)?;
                report.put(out)
            }
            Record::Continue(name, job, steps) => put_continue(out, name, job, steps),
            Record::Finish(job, outs) => put_outcomes(out, 0x04, job, outs),
            Record::LeaderClose(name, start, closed) => put_close(out, 0x05, name, *start, closed),
            Record::HelperOpen(format, lanes, lane) => {
                put_lane_open(out, 0x11, *format, *lanes, *lane)
            }
            Record::Start(job, name, halves) => put_start(out, job, name, halves),
            Record::Commit(job, outs) => put_outcomes(out, 0x13, job, outs),
            Record::HelperClose(name, start, closed) => put_close(out, 0x14, name, *start, closed),
            Record::LeaderFrontOpen(format, lanes) => put_front_open(out, 0x21, *format, *lanes),
            Record::LeaderTask(task) => put_task(out, task, 0x22, 0x27),
            Record::Ask(name, span) => put_ask(out, name, span),
            Record::LeaderAnswer(name, span, answered) => put_answer(out, name, span, answered),
            Record::HelperFrontOpen(format, lanes) => put_front_open(out, 0x31, *format, *lanes),
            Record::HelperTask(task) => put_task(out, task, 0x32, 0x37),
            Record::HelperAnswer(request, response) => {
                put_u8(out, 0x34)?;
                request.put(out)?;
                response.put(out)
            }
        }
    }

    fn is_allowed(&self) -> bool {
        match self {
            Record::LeaderOpen(_, lanes, lane) | Record::HelperOpen(_, lanes, lane) => {
                is_u8(*lanes, 0, u8::MAX) && is_u8(*lane, 0, u8::MAX)
            }
            Record::Accept(report) => report.is_allowed(),
            Record::Continue(name, job, steps) => {
                is_name(name) && job.is_allowed() && steps.is_allowed()
            }
            Record::Finish(job, outs) | Record::Commit(job, outs) => {
                job.is_allowed() && outs.is_allowed()
            }
            Record::LeaderClose(name, start, closed) | Record::HelperClose(name, start, closed) => {
                is_bucket(name, *start) && closed.is_allowed()
            }
            Record::Start(job, name, halves) => {
                job.is_allowed() && is_name(name) && halves.is_allowed()
            }
            Record::LeaderFrontOpen(_, lanes) | Record::HelperFrontOpen(_, lanes) => {
                is_u8(*lanes, 0, u8::MAX)
            }
            Record::LeaderTask(task) | Record::HelperTask(task) => task.is_allowed(),
            Record::Ask(name, span) => is_name(name) && is_span(span),
            Record::LeaderAnswer(name, span, answered) => {
                is_name(name) && is_span(span) && answered.is_allowed()
            }
            Record::HelperAnswer(request, response) => {
                request.is_allowed() && response.is_allowed()
            }
        }
    }
}
