//! How many records a journal has, and what its Opens say.

ghost use Rattle.std.specs.Prelude.{◌≡◌, ◌++◌, ◌∷◌, [], List, IfSome, OnOk, cond};
ghost use Rattle.std.specs.List.{list_any};
ghost use Rattle.dap_messages.specs.declared.report.Report.{Report};
ghost use Rattle.lane_records.specs.declared.record.Record.{Record};
ghost use Rattle.lane_records.specs.declared.record.Record.TheVariants.{Accept};
ghost use Rattle.legal_journals.specs.History.{lanes_in, format_in};
ghost use Rattle.legal_journals.specs.HistoryTests.{is_open, is_none_but, has_lanes, has_format, may_open, puts_into, is_of_lane};
ghost use Rattle.legal_journals.specs.Places.{opens_two, AreOpens, HaveOneNumber};

use dap_batch::lane_of;
use dap_bytes::Id;
use lane_records::{Format, MOST_LANES, Record};
use std::alloc::AllocError;

/// How many records a journal has, how many of them are Opens and how many Opens of format 2, and how many lanes the
/// first Open names.
#[derive(Clone, Copy, Debug)]
pub(crate) struct Opens {
    pub(crate) count: usize,
    pub(crate) opens: usize,
    pub(crate) twos: usize,
    pub(crate) lanes: Option<u8>,
}

/// The number of lanes that an Open names. None for other records.
pub(crate) fn lanes_in(x: &Record) -> Option<u8>
    ensures { result ≡ lanes_in x.now }
{
    match x {
        Record::LeaderOpen(_, lanes, _)
        | Record::HelperOpen(_, lanes, _)
        | Record::LeaderFrontOpen(_, lanes)
        | Record::HelperFrontOpen(_, lanes) => Some(*lanes),
        _ => None,
    }
}

/// The format that an Open begins. None for other records.
pub(crate) fn format_in(x: &Record) -> Option<Format>
    ensures { result ≡ format_in x.now }
{
    match x {
        Record::LeaderOpen(format, _, _)
        | Record::HelperOpen(format, _, _)
        | Record::LeaderFrontOpen(format, _)
        | Record::HelperFrontOpen(format, _) => Some(*format),
        _ => None,
    }
}

/// 1 where the record is an Open, else 0.
fn one_open(x: &Record) -> usize
    ensures { result ≡ cond (is_open x.now) 1 0 }
{
    match lanes_in(x) {
        Some(_) => 1,
        None => 0,
    }
}

/// 1 where the record is an Open of format 2, else 0.
fn one_two(x: &Record) -> usize
    ensures { result ≡ cond (opens_two x.now) 1 0 }
{
    match format_in(x) {
        Some(Format::Two) => 1,
        Some(Format::One) | None => 0,
    }
}

impl Opens {
    /// Those of a journal with no record.
    pub(crate) fn new() -> Self
        ensures { AreOpens result [] }
    {
        Opens {
            count: 0,
            opens: 0,
            twos: 0,
            lanes: None,
        }
    }

    /// Those with one record more. None at the end of the numbers.
    pub(crate) fn with(self, x: &Record) -> Option<Opens>
        ensures { IfSome result (λ more. (records : List Record) → AreOpens self records →
            AreOpens more (records ++ x.now ∷ [])) }
    {
        let count = self.count.checked_add(1)?;
        let opens = self.opens.checked_add(one_open(x))?;
        let twos = self.twos.checked_add(one_two(x))?;
        let lanes = self.lanes.or(lanes_in(x));
        Some(Opens {
            count,
            opens,
            twos,
            lanes,
        })
    }

    /// One record more: refused at the end of the numbers, as by want of memory.
    pub(crate) fn add(&mut self, x: &Record) -> Result<(), AllocError>
        ensures { OnOk result ((records : List Record) → AreOpens self.old records →
            AreOpens self.new (records ++ x.now ∷ [])) }
    {
        let Some(opens) = self.with(x) else {
            return Err(AllocError {});
        };
        *self = opens;
        Ok(())
    }

    /// Those without the last record.
    pub(crate) fn without(self, x: &Record) -> Opens
        ensures { (records : List Record) → AreOpens self (records ++ x.now ∷ []) → AreOpens result records }
    {
        let count = self.count.saturating_sub(1);
        let opens = self.opens.saturating_sub(one_open(x));
        let twos = self.twos.saturating_sub(one_two(x));
        let lanes = if opens == 0 { None } else { self.lanes };
        Opens {
            count,
            opens,
            twos,
            lanes,
        }
    }

    /// Those without the last record, which is an Accept.
    pub(crate) fn without_accept(self) -> Opens
        ensures { (records : List Record) (r : Report) → AreOpens self (records ++ Accept r ∷ []) → AreOpens result records }
    {
        Opens {
            count: self.count.saturating_sub(1),
            ..self
        }
    }

    /// Whether there is an Open.
    pub(crate) fn has_open(self) -> bool
        ensures { (records : List Record) → AreOpens self records → result ≡ list_any is_open records }
    {
        0 < self.opens
    }

    /// Whether an Open of this format and number of lanes may follow: the format not below that of an Open before, and 1
    /// to `MOST_LANES` lanes, as in each Open before.
    pub(crate) fn may_open(self, format: Format, lanes: u8, earlier: &[Record]) -> bool
        requires opened { AreOpens self earlier.now }
        requires numbered { HaveOneNumber earlier.now }
        ensures { result ≡ may_open format lanes earlier.now }
    {
        self.has_lanes(lanes, earlier) && self.has_format(format, earlier)
    }

    fn has_lanes(self, lanes: u8, earlier: &[Record]) -> bool
        requires opened { AreOpens self earlier.now }
        requires numbered { HaveOneNumber earlier.now }
        ensures { result ≡ has_lanes lanes earlier.now }
    {
        1 <= lanes && lanes <= MOST_LANES && is_none_but(lanes, self.lanes)
    }

    fn has_format(self, format: Format, earlier: &[Record]) -> bool
        requires { AreOpens self earlier.now }
        ensures { result ≡ has_format format earlier.now }
    {
        match format {
            Format::Two => true,
            Format::One => self.twos == 0,
        }
    }

    /// Whether the identifier is of this lane, by an Open before.
    pub(crate) fn is_of_lane(self, lane: u8, id: &Id, earlier: &[Record]) -> bool
        requires opened { AreOpens self earlier.now }
        requires numbered { HaveOneNumber earlier.now }
        ensures { result ≡ is_of_lane lane id.now earlier.now }
    {
        puts_into(lane, id, self.lanes)
    }
}

/// Whether it is no number of lanes but this one.
fn is_none_but(lanes: u8, known: Option<u8>) -> bool
    ensures { result ≡ is_none_but lanes known }
{
    match known {
        Some(other) => other == lanes,
        None => true,
    }
}

/// Whether it is a number of lanes among which the identifier's is this one.
fn puts_into(lane: u8, id: &Id, known: Option<u8>) -> bool
    ensures { result ≡ puts_into lane id.now known }
{
    match known {
        Some(lanes) => 0 < lanes && lane_of(id, lanes) == lane,
        None => false,
    }
}
