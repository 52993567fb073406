//! Which record may follow which in the journal of a front.

ghost use Rattle.std.specs.Prelude.{◌≡◌, [], ℕ, List, IsTrue, reverse};
ghost use Rattle.std.specs.List.{list_any, list_all};
ghost use Rattle.dap_bytes.specs.declared.node.Node.TheVariants.{Leader, Helper};
ghost use Rattle.dap_bytes.specs.declared.part.Part.TheVariants.{Front};
ghost use Rattle.dap_bytes.specs.declared.span.Span.{Span};
ghost use Rattle.dap_messages.specs.declared.share.ShareReq.{ShareReq};
ghost use Rattle.dap_messages.specs.declared.share.ShareResp.{ShareResp};
ghost use Rattle.lane_records.specs.Records.{record_};
ghost use Rattle.lane_records.specs.declared.record.Record.TheVariants.{Ask, HelperAnswer};
ghost use Rattle.legal_journals.specs.History.{first, format_in};
ghost use Rattle.legal_journals.specs.Legal.{IsLegalJournal};
ghost use Rattle.legal_journals.specs.Places.{AreOpens, HaveOneNumber};
ghost use Rattle.legal_journals.specs.Ranges.{IsBatch, AreAsksBatches, AreAnswersBatches};
ghost use Rattle.legal_journals.specs.FrontTests.{same_span, limits_of, last_limits, may_be, is_last_format, stores, asks, leader_answers, is_clear_ask, may_ask, leader_front_may, is_share, is_clear_answer, may_share, may_answer, helper_front_may};

use crate::opens::{Opens, format_in};
use crate::walk::PartIndex;
use dap_bytes::{Name, Span};
use dap_messages::{Reply, ShareReq, ShareResp};
use lane_records::{Format, Record};
use std::alloc::AllocError;

/// The index of the journal of the leader's front: what its Opens say.
#[derive(Drop)]
pub(crate) struct LeaderFrontIndex {
    opens: Opens,
}

impl LeaderFrontIndex {
    /// The index of no record.
    pub(crate) fn new() -> Self
        ensures { AreOpens result.opens [] }
    {
        LeaderFrontIndex {
            opens: Opens::new(),
        }
    }
}

impl PartIndex for LeaderFrontIndex {
    ghost use Rattle.dap_bytes.specs.declared.node.Node.TheVariants.{Leader};
    ghost use Rattle.dap_bytes.specs.declared.part.Part.TheVariants.{Front};
    ghost use Rattle.legal_journals.specs.Places.{AreOpens};

    ghost node = { Leader };

    ghost part = { λ lane. Front };

    ghost indexes = { λ index records. AreOpens index.opens records };

    fn opens(&self) -> Opens {
        self.opens
    }

    fn part_may(&self, _lane: u8, x: &Record, earlier: &[Record]) -> bool {
        leader_front_may(self, x, earlier)
    }

    fn add(&mut self, x: &Record) -> Result<(), AllocError> {
        self.opens.add(x)
    }
}

/// Whether the record may follow those before it, which are legal and which the index is of.
fn leader_front_may(index: &LeaderFrontIndex, x: &Record, earlier: &[Record]) -> bool
    requires indexed { AreOpens index.now.opens earlier.now }
    requires numbered { HaveOneNumber earlier.now }
    requires allowed { IsTrue (record_.allowed x.now) }
    requires legal { IsLegalJournal Leader Front earlier.now }
    ensures { result ≡ leader_front_may x.now earlier.now }
{
    match x {
        Record::LeaderFrontOpen(format, lanes) => { index.opens.may_open(*format, *lanes, earlier) }
        Record::LeaderTask(task) => {
            is_last_format(task.format, earlier) && !is_stored(&task.name, earlier)
        }
        Record::Ask(name, span) => may_ask(name, span, earlier, last_limits(name, earlier)),
        Record::LeaderAnswer(name, span, _) => {
            was_asked(name, span, earlier) && !has_leader_answered(name, span, earlier)
        }
        _ => false,
    }
}

/// Whether it is the format of the last Open.
fn is_last_format(format: Format, earlier: &[Record]) -> bool
    ensures { result ≡ is_last_format format earlier.now }
{
    match last_format(earlier) {
        Some(last) => last.byte() == format.byte(),
        None => false,
    }
}

/// The format of the last Open.
fn last_format(earlier: &[Record]) -> Option<Format>
    ensures { result ≡ first format_in (reverse earlier.now) }
{
    let mut last = None;
    for x in earlier {
        last = format_in(x).or(last);
    }
    last
}

fn stores(name: &Name, x: &Record) -> bool
    ensures { result ≡ stores name.now x.now }
{
    match x {
        Record::LeaderTask(task) => task.name == *name,
        _ => false,
    }
}

fn is_stored(name: &Name, earlier: &[Record]) -> bool
    ensures { result ≡ list_any (stores name.now) earlier.now }
{
    earlier.iter().any(|x| stores(name, x))
}

fn same_span(a: &Span, b: &Span) -> bool
    ensures { result ≡ same_span a.now b.now }
{
    a.start == b.start && a.buckets == b.buckets
}

fn asks(name: &Name, span: &Span, x: &Record) -> bool
    ensures { result ≡ asks name.now span.now x.now }
{
    match x {
        Record::Ask(other, batch) => *other == *name && same_span(batch, span),
        _ => false,
    }
}

fn was_asked(name: &Name, span: &Span, earlier: &[Record]) -> bool
    ensures { result ≡ list_any (asks name.now span.now) earlier.now }
{
    earlier.iter().any(|x| asks(name, span, x))
}

fn leader_answers(name: &Name, span: &Span, x: &Record) -> bool
    ensures { result ≡ leader_answers name.now span.now x.now }
{
    match x {
        Record::LeaderAnswer(other, batch, _) => *other == *name && same_span(batch, span),
        _ => false,
    }
}

fn has_leader_answered(name: &Name, span: &Span, earlier: &[Record]) -> bool
    ensures { result ≡ list_any (leader_answers name.now span.now) earlier.now }
{
    earlier.iter().any(|x| leader_answers(name, span, x))
}

/// The minimum and the precision of the Task of the name.
fn limits_of(name: &Name, x: &Record) -> Option<(u32, u32)>
    ensures { result ≡ limits_of name.now x.now }
{
    match x {
        Record::LeaderTask(task) if task.name == *name => Some((task.min, task.precision)),
        Record::HelperTask(task) if task.name == *name => Some((task.min, task.precision)),
        _ => None,
    }
}

/// Those of the last Task of the name.
fn last_limits(name: &Name, earlier: &[Record]) -> Option<(u32, u32)>
    ensures { result ≡ last_limits name.now earlier.now }
{
    let mut last = None;
    for x in earlier {
        last = limits_of(name, x).or(last);
    }
    last
}

/// Whether the batch may be one of a task of this precision.
fn may_be(precision: u32, span: &Span) -> bool
    ensures { result ≡ may_be precision span.now }
{
    0 < precision && span.passes_start(precision)
}

/// Whether an Ask may follow by the limits of its task: for a batch that may be the task's, which shares no bucket with
/// one that was asked for.
fn may_ask(name: &Name, span: &Span, earlier: &[Record], limits: Option<(u32, u32)>) -> bool
    requires span { IsBatch span.now }
    requires asked { AreAsksBatches earlier.now }
    ensures { result ≡ may_ask name.now span.now earlier.now limits }
{
    match limits {
        Some((_, precision)) => {
            may_be(precision, span) && are_clear_asks(name, span, precision, earlier)
        }
        None => false,
    }
}

fn are_clear_asks(name: &Name, span: &Span, precision: u32, earlier: &[Record]) -> bool
    requires span { IsBatch span.now }
    requires asked { AreAsksBatches earlier.now }
    ensures { result ≡ list_all (is_clear_ask name.now span.now precision) earlier.now }
{
    for x in earlier {
        if !is_clear_ask(name, span, precision, x) {
            return false;
        }
    }
    true
}

/// Whether the record is no Ask of the name that shares a bucket with the batch.
fn is_clear_ask(name: &Name, span: &Span, precision: u32, x: &Record) -> bool
    requires span { IsBatch span.now }
    requires asked { (n : List ℕ) (s : Span) → x.now ≡ Ask n s → IsBatch s }
    ensures { result ≡ is_clear_ask name.now span.now precision x.now }
{
    match x {
        Record::Ask(other, batch) => !(*other == *name && span.shares(batch, precision)),
        _ => true,
    }
}

/// The index of the journal of the helper's front: what its Opens say.
#[derive(Drop)]
pub(crate) struct HelperFrontIndex {
    opens: Opens,
}

impl HelperFrontIndex {
    /// The index of no record.
    pub(crate) fn new() -> Self
        ensures { AreOpens result.opens [] }
    {
        HelperFrontIndex {
            opens: Opens::new(),
        }
    }
}

impl PartIndex for HelperFrontIndex {
    ghost use Rattle.dap_bytes.specs.declared.node.Node.TheVariants.{Helper};
    ghost use Rattle.dap_bytes.specs.declared.part.Part.TheVariants.{Front};
    ghost use Rattle.legal_journals.specs.Places.{AreOpens};

    ghost node = { Helper };

    ghost part = { λ lane. Front };

    ghost indexes = { λ index records. AreOpens index.opens records };

    fn opens(&self) -> Opens {
        self.opens
    }

    fn part_may(&self, _lane: u8, x: &Record, earlier: &[Record]) -> bool {
        helper_front_may(self, x, earlier)
    }

    fn add(&mut self, x: &Record) -> Result<(), AllocError> {
        self.opens.add(x)
    }
}

/// Whether the record may follow those before it, which are legal and which the index is of.
fn helper_front_may(index: &HelperFrontIndex, x: &Record, earlier: &[Record]) -> bool
    requires indexed { AreOpens index.now.opens earlier.now }
    requires numbered { HaveOneNumber earlier.now }
    requires allowed { IsTrue (record_.allowed x.now) }
    requires legal { IsLegalJournal Helper Front earlier.now }
    ensures { result ≡ helper_front_may x.now earlier.now }
{
    match x {
        Record::HelperFrontOpen(format, lanes) => { index.opens.may_open(*format, *lanes, earlier) }
        Record::HelperTask(task) => is_last_format(task.format, earlier),
        Record::HelperAnswer(request, response) => may_answer(request, response, earlier),
        _ => false,
    }
}

/// Whether an Answer may follow: a share of the batch that was asked for, which may be answered.
fn may_answer(request: &ShareReq, response: &ShareResp, earlier: &[Record]) -> bool
    requires span { IsBatch request.now.span }
    requires answered { AreAnswersBatches earlier.now }
    ensures { result ≡ may_answer request.now response.now earlier.now }
{
    may_share(request, earlier, last_limits(&request.name, earlier))
        && response.name == request.name
        && same_span(&response.span, &request.span)
        && is_share(&response.reply)
}

/// Whether a request may be answered by the limits of its task: its count reaches the minimum, and it is for a batch that
/// may be the task's, which shares no bucket with one that was answered.
fn may_share(request: &ShareReq, earlier: &[Record], limits: Option<(u32, u32)>) -> bool
    requires span { IsBatch request.now.span }
    requires answered { AreAnswersBatches earlier.now }
    ensures { result ≡ may_share request.now earlier.now limits }
{
    match limits {
        Some((minimum, precision)) => {
            minimum <= request.count
                && (may_be(precision, &request.span)
                    && are_clear_answers(&request.name, &request.span, precision, earlier))
        }
        None => false,
    }
}

fn are_clear_answers(name: &Name, span: &Span, precision: u32, earlier: &[Record]) -> bool
    requires span { IsBatch span.now }
    requires answered { AreAnswersBatches earlier.now }
    ensures { result ≡ list_all (is_clear_answer name.now span.now precision) earlier.now }
{
    for x in earlier {
        if !is_clear_answer(name, span, precision, x) {
            return false;
        }
    }
    true
}

/// Whether the record is no Answer of the name that shares a bucket with the batch.
fn is_clear_answer(name: &Name, span: &Span, precision: u32, x: &Record) -> bool
    requires span { IsBatch span.now }
    requires answered { (q : ShareReq) (a : ShareResp) → x.now ≡ HelperAnswer q a → IsBatch q.span }
    ensures { result ≡ is_clear_answer name.now span.now precision x.now }
{
    match x {
        Record::HelperAnswer(request, _) => {
            !(request.name == *name && span.shares(&request.span, precision))
        }
        _ => true,
    }
}

fn is_share(reply: &Reply) -> bool
    ensures { result ≡ is_share reply.now }
{
    matches!(reply, Reply::Share(_))
}
