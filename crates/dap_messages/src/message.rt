//! Messages between the two aggregators.

ghost use Rattle.dap_messages.specs.Spelled.{Gives};
ghost use Rattle.dap_messages.specs.Messages.{init_req, init_resp, cont_req, cont_resp, request, response};

use crate::body::{Half, Status, Step};
use crate::extent::Extent;
use crate::fault::ReadFault;
use crate::fields::{cut_off, is_name, put_name, read_name};
use crate::item::Items;
use crate::job::JobNo;
use crate::share::{ShareReq, ShareResp};
use crate::spelled::Spelled;
use dap_bytes::{Cursor, Name, put_u8};
use std::alloc::{AllocError, Global};

/// The most bytes of a message.
pub const MOST_MESSAGE: usize = 4_194_304;

/// A message between the two aggregators (draft-ietf-ppm-dap-02, sections 4.4 and 4.5, in this project's own bytes).
#[derive(Debug, Drop)]
pub enum Message {
    /// The leader begins a job: its number, the task's name, and what the helper gets of each report.
    InitReq(JobNo, Name, Items<Half>),
    /// The helper's first steps for a job.
    InitResp(JobNo, Items<Step>),
    /// The leader's part of a job: each report's prep message, or why there is none.
    ContReq(JobNo, Items<Step>),
    /// The outcome of each report of a job.
    ContResp(JobNo, Items<Status>),
    /// The leader asks for the helper's share of a batch.
    ShareReq(ShareReq),
    /// The helper's answer for a batch.
    ShareResp(ShareResp),
}

impl Spelled for Message {
    ghost use Rattle.dap_messages.specs.Messages.{message};
    ghost use Rattle.dap_messages.specs.MessageLaws.{message_lawful};

    ghost grammar = { message };

    ghost laws = { message_lawful };

    fn read(alloc: Global, cursor: &mut Cursor<'_>) -> Result<Self, ReadFault> {
        let at = cursor.place();
        match cursor.u8() {
            None => Err(cut_off(cursor).into()),
            Some(1) => read_init_req(alloc, cursor),
            Some(2) => read_init_resp(alloc, cursor),
            Some(3) => read_cont_req(alloc, cursor),
            Some(4) => read_cont_resp(alloc, cursor),
            Some(5) => read_share_req(cursor, Extent::Single),
            Some(6) => read_share_resp(alloc, cursor, Extent::Single),
            Some(7) => read_share_req(cursor, Extent::Several),
            Some(8) => read_share_resp(alloc, cursor, Extent::Several),
            Some(_) => Err(ReadFault::Form { at }),
        }
    }

    #[tactic(auto, using(crate::specs::ShareLaws::message_spells_request, crate::specs::ShareLaws::message_spells_response, crate::specs::ShareLaws::message_allows_request, crate::specs::ShareLaws::message_allows_response,))]
    fn put(&self, out: &mut Vec<u8>) -> Result<(), AllocError> {
        match self {
            Message::InitReq(job, name, halves) => {
                put_u8(out, 1)?;
                job.put(out)?;
                put_name(out, name)?;
                halves.put(out)
            }
            Message::InitResp(job, steps) => {
                put_u8(out, 2)?;
                job.put(out)?;
                steps.put(out)
            }
            Message::ContReq(job, steps) => {
                put_u8(out, 3)?;
                job.put(out)?;
                steps.put(out)
            }
            Message::ContResp(job, statuses) => {
                put_u8(out, 4)?;
                job.put(out)?;
                statuses.put(out)
            }
            Message::ShareReq(request) => request.put(out),
            Message::ShareResp(response) => response.put(out),
        }
    }

    #[tactic(auto, using(crate::specs::ShareLaws::message_allows_request, crate::specs::ShareLaws::message_allows_response,))]
    fn is_allowed(&self) -> bool {
        match self {
            Message::InitReq(job, name, halves) => {
                job.is_allowed() && is_name(name) && halves.is_allowed()
            }
            Message::InitResp(job, steps) | Message::ContReq(job, steps) => {
                job.is_allowed() && steps.is_allowed()
            }
            Message::ContResp(job, statuses) => job.is_allowed() && statuses.is_allowed(),
            Message::ShareReq(request) => request.is_allowed(),
            Message::ShareResp(response) => response.is_allowed(),
        }
    }
}

/// An InitReq behind its first byte: `Form` exactly where there is none.
pub fn read_init_req(alloc: Global, cursor: &mut Cursor<'_>) -> Result<Message, ReadFault>
    ensures { Gives init_req cursor.old result cursor.new }
{
    let job = JobNo::read(alloc, cursor)?;
    let name = read_name(cursor)?;
    let halves = Items::read(alloc, cursor)?;
    Ok(Message::InitReq(job, name, halves))
}

fn read_init_resp(alloc: Global, cursor: &mut Cursor<'_>) -> Result<Message, ReadFault>
    ensures { Gives init_resp cursor.old result cursor.new }
{
    let job = JobNo::read(alloc, cursor)?;
    let steps = Items::read(alloc, cursor)?;
    Ok(Message::InitResp(job, steps))
}

fn read_cont_req(alloc: Global, cursor: &mut Cursor<'_>) -> Result<Message, ReadFault>
    ensures { Gives cont_req cursor.old result cursor.new }
{
    let job = JobNo::read(alloc, cursor)?;
    let steps = Items::read(alloc, cursor)?;
    Ok(Message::ContReq(job, steps))
}

fn read_cont_resp(alloc: Global, cursor: &mut Cursor<'_>) -> Result<Message, ReadFault>
    ensures { Gives cont_resp cursor.old result cursor.new }
{
    let job = JobNo::read(alloc, cursor)?;
    let statuses = Items::read(alloc, cursor)?;
    Ok(Message::ContResp(job, statuses))
}

fn read_share_req(cursor: &mut Cursor<'_>, extent: Extent) -> Result<Message, ReadFault>
    ensures { Gives (request extent) cursor.old result cursor.new }
{
    let request = ShareReq::read_as(cursor, extent)?;
    Ok(Message::ShareReq(request))
}

fn read_share_resp(
    alloc: Global,
    cursor: &mut Cursor<'_>,
    extent: Extent,
) -> Result<Message, ReadFault>
    ensures { Gives (response extent) cursor.old result cursor.new }
{
    let response = ShareResp::read_as(alloc, cursor, extent)?;
    Ok(Message::ShareResp(response))
}
