//! A request as a view.

ghost use Rattle.std.specs.Prelude.{◌≡◌, ◌≤◌, length, true};
ghost use Rattle.dap_views.specs.Parts.{are_parts, place_in};
ghost use Rattle.dap_views.specs.Whole.{spells_request};

use crate::part::PartView;
use crate::read::read_part_at;
use dap_messages::JobNo;

/// A request of the leader whose bytes were checked, and how far it was walked. It may be copied, to walk it again.
/// None of its calls takes memory.
#[derive(Clone, Copy, Debug)]
pub struct RequestView<'a> {
    bytes: &'a [u8],
    job: JobNo,
    name: &'a [u8],
    place: usize,
    left: u16,
    ghost within: { place ≤ length bytes.now },
    ghost parts: { are_parts left (place_in bytes.now place) ≡ true },
    ghost request: { spells_request bytes.now job name.now ≡ true },
}

impl<'a> RequestView<'a> {
    ghost use Rattle.dap_views.specs.Parts.{parts_at};
    ghost use Rattle.dap_views.specs.Request.{request_of};

    /// A view of a request whose job and name are known, which stands at a place where so many parts begin.
    pub(crate) fn at(
        bytes: &'a [u8],
        job: JobNo,
        name: &'a [u8],
        place: usize,
        left: u16,
    ) -> RequestView<'a>
        requires within { place ≤ length bytes.now }
        requires parts { are_parts left (place_in bytes.now place) ≡ true }
        requires request { spells_request bytes.now job name.now ≡ true }
        ensures { request_of result ≡ record {
          message = bytes.now;
          job = job;
          name = name.now;
          parts = parts_at left (place_in bytes.now place);
        } }
    {
        RequestView {
            bytes,
            job,
            name,
            place,
            left,
        }
    }

    /// The number of the job.
    pub fn job(&self) -> JobNo
        ensures { result ≡ (request_of self.now).job }
    {
        self.job
    }

    /// The task's name, as a slice of the message.
    pub fn name(&self) -> &'a [u8]
        ensures { result.now ≡ (request_of self.now).name }
    {
        self.name
    }

    /// The whole message, however far it was walked.
    pub fn bytes(&self) -> &'a [u8]
        ensures bytes { result.now ≡ (request_of self.now).message }
        ensures request { spells_request result.now (request_of self.now).job (request_of self.now).name ≡ true }
    {
        self.bytes
    }
}

impl<'a> Iterator for RequestView<'a> {
    ghost use Rattle.std.specs.Iterator.{item_count};
    ghost use Rattle.dap_views.specs.Request.{HandsOut, parts_left};

    type Item = PartView<'a>;

    ghost next_gives = { HandsOut };

    ghost remaining = { item_count parts_left };

    /// The parts of the next report; none exactly after the last.
    fn next(&mut self) -> Option<PartView<'a>> {
        if self.left == 0 {
            return None;
        }
        match read_part_at(self.bytes, self.place) {
            Err(_) => None,
            Ok((part, place)) => {
                self.place = place;
                self.left -= 1;
                Some(part)
            }
        }
    }
}
