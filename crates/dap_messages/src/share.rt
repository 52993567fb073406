//! Requests and answers for a batch.

ghost use Rattle.std.specs.Prelude.{◌≡◌, ◌++◌, IsTrue, OnOk};
ghost use Rattle.dap_messages.specs.Shares.{extent_of, request_as, request_code, response_as, response_code};
ghost use Rattle.dap_messages.specs.Spelled.{Finds, Gives};

use crate::extent::{Extent, is_span, put_span, read_span};
use crate::fault::{Form, ReadFault};
use crate::fields::{
    cut_off, is_array, is_name, is_u32, put_name, put_slice, read_array, read_name, read_u32,
};
use crate::reply::Reply;
use crate::spelled::Spelled;
use dap_bytes::{Cursor, Name, Span, put_u8, put_u32};
use std::alloc::{AllocError, Global};

/// The leader asks for the helper's share of a batch.
#[derive(Clone, Copy, Debug)]
pub struct ShareReq {
    /// The task's name.
    pub name: Name,
    /// The batch, of 1 to `MOST_BUCKETS` buckets, whose start is a time.
    pub span: Span,
    /// How many of its reports the leader finished.
    pub count: u32,
    /// The checksum of their identifiers.
    pub checksum: [u8; 32],
}

/// The helper's answer for a batch.
#[derive(Debug, Drop)]
pub struct ShareResp {
    /// The task's name.
    pub name: Name,
    /// The batch, by the same rule.
    pub span: Span,
    /// The helper's share, or why there is none.
    pub reply: Reply,
}

impl ShareReq {
    /// A request behind the first byte of its form.
    pub fn read_as(cursor: &mut Cursor<'_>, extent: Extent) -> Result<ShareReq, Form>
        ensures { Finds (request_as extent) cursor.old result cursor.new }
    {
        let name = read_name(cursor)?;
        let span = read_span(cursor, extent)?;
        let count = read_u32(cursor, 0, u32::MAX)?;
        let checksum = read_array(cursor)?;
        Ok(ShareReq {
            name,
            span,
            count,
            checksum,
        })
    }

    fn put_fields(&self, out: &mut Vec<u8>) -> Result<(), AllocError>
        ensures { OnOk result (out.new.items ≡ out.old.items ++ (request_as (extent_of self.now.span)).spell self.now) }
    {
        put_name(out, &self.name)?;
        put_span(out, &self.span)?;
        put_u32(out, self.count)?;
        put_slice(out, &self.checksum)
    }

    fn are_fields_allowed(&self) -> bool
        ensures { result ≡ (request_as (extent_of self.now.span)).allowed self.now }
    {
        is_name(&self.name)
            && is_span(&self.span)
            && is_u32(self.count, 0, u32::MAX)
            && is_array(&self.checksum)
    }
}

impl Spelled for ShareReq {
    ghost use Rattle.dap_messages.specs.Shares.{share_req};
    ghost use Rattle.dap_messages.specs.ShareLaws.{share_req_lawful};

    ghost grammar = { share_req };

    ghost laws = { share_req_lawful };

    fn read(_alloc: Global, cursor: &mut Cursor<'_>) -> Result<Self, ReadFault> {
        let at = cursor.place();
        match cursor.u8() {
            None => Err(cut_off(cursor).into()),
            Some(5) => Ok(ShareReq::read_as(cursor, Extent::Single)?),
            Some(7) => Ok(ShareReq::read_as(cursor, Extent::Several)?),
            Some(_) => Err(ReadFault::Form { at }),
        }
    }

    fn put(&self, out: &mut Vec<u8>) -> Result<(), AllocError> {
        put_u8(out, request_code(Extent::of(&self.span)))?;
        self.put_fields(out)
    }

    #[tactic(auto, using(crate::specs::ShareLaws::request_allowed))]
    fn is_allowed(&self) -> bool {
        self.are_fields_allowed()
    }
}

impl Clone for ShareResp {
    ghost use Rattle.std.specs.Prelude.{◌≡◌};

    ghost is_clone = { λ value copy. copy ≡ value };

    fn clone(&self) -> Result<ShareResp, AllocError> {
        let reply = self.reply.clone()?;
        Ok(ShareResp {
            name: self.name,
            span: self.span,
            reply,
        })
    }
}

impl ShareResp {
    /// An answer behind the first byte of its form.
    pub fn read_as(
        alloc: Global,
        cursor: &mut Cursor<'_>,
        extent: Extent,
    ) -> Result<ShareResp, ReadFault>
        ensures { Gives (response_as extent) cursor.old result cursor.new }
    {
        let name = read_name(cursor)?;
        let span = read_span(cursor, extent)?;
        let reply = Reply::read(alloc, cursor)?;
        Ok(ShareResp { name, span, reply })
    }

    fn put_fields(&self, out: &mut Vec<u8>) -> Result<(), AllocError>
        requires { IsTrue ((response_as (extent_of self.now.span)).allowed self.now) }
        ensures { OnOk result (out.new.items
            ≡ out.old.items ++ (response_as (extent_of self.now.span)).spell self.now) }
    {
        put_name(out, &self.name)?;
        put_span(out, &self.span)?;
        self.reply.put(out)
    }

    fn are_fields_allowed(&self) -> bool
        ensures { result ≡ (response_as (extent_of self.now.span)).allowed self.now }
    {
        is_name(&self.name) && is_span(&self.span) && self.reply.is_allowed()
    }
}

impl Spelled for ShareResp {
    ghost use Rattle.dap_messages.specs.Shares.{share_resp};
    ghost use Rattle.dap_messages.specs.ShareLaws.{share_resp_lawful};

    ghost grammar = { share_resp };

    ghost laws = { share_resp_lawful };

    fn read(alloc: Global, cursor: &mut Cursor<'_>) -> Result<Self, ReadFault> {
        let at = cursor.place();
        match cursor.u8() {
            None => Err(cut_off(cursor).into()),
            Some(6) => ShareResp::read_as(alloc, cursor, Extent::Single),
            Some(8) => ShareResp::read_as(alloc, cursor, Extent::Several),
            Some(_) => Err(ReadFault::Form { at }),
        }
    }

    #[tactic(auto, using(crate::specs::ShareLaws::response_allowed))]
    fn put(&self, out: &mut Vec<u8>) -> Result<(), AllocError> {
        put_u8(out, response_code(Extent::of(&self.span)))?;
        self.put_fields(out)
    }

    #[tactic(auto, using(crate::specs::ShareLaws::response_allowed))]
    fn is_allowed(&self) -> bool {
        self.are_fields_allowed()
    }
}

/// The first byte of a request.
fn request_code(extent: Extent) -> u8
    ensures { result ≡ request_code extent }
{
    match extent {
        Extent::Single => 5,
        Extent::Several => 7,
    }
}

/// The first byte of an answer.
fn response_code(extent: Extent) -> u8
    ensures { result ≡ response_code extent }
{
    match extent {
        Extent::Single => 6,
        Extent::Several => 8,
    }
}
