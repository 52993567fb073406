//! Reports.

use crate::body::{Half, MOST_HELPER, MOST_PUBLIC};
use crate::fault::ReadFault;
use crate::fields::{
    are_bytes, is_array, is_name, is_u64, put_bytes, put_name, read_array, read_bytes, read_name,
    read_u16, read_u64,
};
use crate::spelled::Spelled;
use dap_bytes::{Bytes, Cursor, Id, LATEST_TIME, Name, put_u16, put_u64};
use std::alloc::{AllocError, Global};

/// The most bytes of the leader's sealed input share.
pub const MOST_LEADER: u32 = 131_072;

/// The most bytes of a report.
pub const MOST_REPORT: usize = 195_143;

/// A client's report of one measurement: the task's name, the report's identifier and time, the public share, and the
/// two sealed input shares.
#[derive(Debug, Drop)]
pub struct Report {
    /// The task.
    pub name: Name,
    /// What tells it from the task's other reports.
    pub id: Id,
    /// In units of time, at most `LATEST_TIME`.
    pub time: u64,
    /// At most `MOST_PUBLIC` bytes.
    pub public: Bytes,
    /// The leader's sealed input share, at most `MOST_LEADER` bytes.
    pub leader: Bytes,
    /// The helper's sealed input share, at most `MOST_HELPER` bytes.
    pub helper: Bytes,
}

impl Clone for Report {
    ghost use Rattle.std.specs.Prelude.{◌≡◌};

    ghost is_clone = { λ value copy. copy ≡ value };

    fn clone(&self) -> Result<Report, AllocError> {
        let public = self.public.clone()?;
        let leader = self.leader.clone()?;
        let helper = self.helper.clone()?;
        Ok(Report {
            name: self.name,
            id: self.id,
            time: self.time,
            public,
            leader,
            helper,
        })
    }
}

impl Report {
    ghost use Rattle.std.specs.Prelude.{◌≡◌, ◌↔◌, IsTrue, IfOk};
    ghost use Rattle.dap_messages.specs.Messages.{report};
    ghost use Rattle.dap_messages.specs.Reports.{half_of, has_fields_of, has_key, is_same_report};

    /// Whether it is of this task and has this identifier. It takes no memory.
    pub fn has_key(&self, name: &Name, id: &Id) -> bool
        ensures { result ≡ has_key name.now id.now self.now }
    {
        self.name == *name && self.id == *id
    }

    /// Whether two reports have the same bytes, which is whether they are the same. It takes no memory.
    pub fn is_same(&self, other: &Report) -> bool
        requires here { IsTrue (report.allowed self.now) }
        requires there { IsTrue (report.allowed other.now) }
        ensures bytes { result ≡ is_same_report self.now other.now }
        ensures equal { IsTrue result ↔ (self.now ≡ other.now) }
    {
        self.has_fields_of(other)
    }

    fn has_fields_of(&self, other: &Report) -> bool
        ensures { result ≡ has_fields_of self.now other.now }
    {
        self.name == other.name
            && self.id == other.id
            && self.time == other.time
            && self.public == other.public
            && self.leader == other.leader
            && self.helper == other.helper
    }

    /// What the helper gets of it.
    pub fn half(&self) -> Result<Half, AllocError>
        ensures { IfOk result (λ half. half ≡ half_of self.now) }
    {
        let public = self.public.clone()?;
        let helper = self.helper.clone()?;
        Ok(Half {
            time: self.time,
            public,
            helper,
        })
    }
}

impl Spelled for Report {
    ghost use Rattle.dap_messages.specs.Messages.{report};
    ghost use Rattle.dap_messages.specs.MessageLaws.{report_lawful};

    ghost grammar = { report };

    ghost laws = { report_lawful };

    fn read(alloc: Global, cursor: &mut Cursor<'_>) -> Result<Self, ReadFault> {
        let name = read_name(cursor)?;
        let id = read_array(cursor)?;
        let time = read_u64(cursor, 0, LATEST_TIME)?;
        // No extension is known.
        read_u16(cursor, 0, 0)?;
        let public = read_bytes(alloc, cursor, MOST_PUBLIC)?;
        let leader = read_bytes(alloc, cursor, MOST_LEADER)?;
        let helper = read_bytes(alloc, cursor, MOST_HELPER)?;
        Ok(Report {
            name,
            id,
            time,
            public,
            leader,
            helper,
        })
    }

    fn put(&self, out: &mut Vec<u8>) -> Result<(), AllocError> {
        put_name(out, &self.name)?;
        out.extend_from_slice(&self.id)?;
        put_u64(out, self.time)?;
        put_u16(out, 0)?;
        put_bytes(out, &self.public)?;
        put_bytes(out, &self.leader)?;
        put_bytes(out, &self.helper)
    }

    fn is_allowed(&self) -> bool {
        is_name(&self.name)
            && is_array(&self.id)
            && is_u64(self.time, 0, LATEST_TIME)
            && are_bytes(&self.public, MOST_PUBLIC)
            && are_bytes(&self.leader, MOST_LEADER)
            && are_bytes(&self.helper, MOST_HELPER)
    }
}
