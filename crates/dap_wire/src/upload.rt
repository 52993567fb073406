//! A ring of uploads, from a front to a lane.

ghost use Rattle.std.specs.Prelude.{◌≡◌, ◌<◌, ◌≤◌, ◌+◌, ◌⊎◌, [], ◌∷◌, ◌++◌, IfOk, IfErr, IfSome, IfNone, IsOk, OnOk};
ghost use mathlib.Core.List.{IsPrefix};

use crate::places::UPLOAD_PLACES;
use dap_bytes::Bytes;
use rtrb::{Consumer, Producer, PushError, RingBuffer};
use std::alloc::{AllocError, Global};
use std::marker::Model;

/// A report as a client uploaded it.
#[derive(Debug, Drop)]
pub struct Upload {
    /// The line of the script that has it.
    pub line: u32,
    /// The moment when it came, in units of time, where one was known.
    pub moment: Option<u64>,
    /// The bytes of the report, which the front has read.
    pub report: Bytes,
}

/// The ring was full, and the upload comes back.
#[derive(Debug, Drop)]
pub struct FullUpload(pub Upload);

/// A front's end of a ring of uploads, which puts.
#[derive(Drop)]
pub struct FrontEnd {
    out: Producer<Upload>,
}

impl Model for FrontEnd {
    ghost use Rattle.std.specs.Prelude.{◌≡◌};
    ghost use Rattle.rtrb.specs.Ring.{sent, known_free, producer_capacity};
    ghost use Rattle.dap_wire.specs.Ring.{out_ring};
    ghost use Rattle.dap_wire.specs.Uploads.{Putting};
    ghost use Rattle.dap_wire.specs.declared.places.TheConstants.{UPLOAD_PLACES};

    ghost Value = { Putting };

    ghost view = { λ a. record {
      out = out_ring a.out;
      sent = sent a.out;
      room = known_free a.out;
    } };

    ghost invariant = { λ a. producer_capacity a.out ≡ UPLOAD_PLACES };
}

/// A lane's end of a ring of uploads, which takes.
#[derive(Drop)]
pub struct LaneEnd {
    ring: Consumer<Upload>,
}

impl Model for LaneEnd {
    ghost use Rattle.rtrb.specs.Ring.{received, known_items};
    ghost use Rattle.dap_wire.specs.Ring.{in_ring};
    ghost use Rattle.dap_wire.specs.Uploads.{Taking};

    ghost Value = { Taking };

    ghost view = { λ a. record {
      into = in_ring a.ring;
      received = received a.ring;
      waiting = known_items a.ring;
    } };
}

/// A new ring of uploads, with `UPLOAD_PLACES` places and without fates.
pub fn plain(alloc: Global) -> Result<(FrontEnd, LaneEnd), AllocError>
    ensures ring { IfOk result (λ ends. ends.1.into ≡ ends.0.out) }
    ensures front { IfOk result (λ ends. (ends.0.sent ≡ []) × (ends.0.room ≡ UPLOAD_PLACES)) }
    ensures lane { IfOk result (λ ends. (ends.1.received ≡ []) × (ends.1.waiting ≡ [])) }
{
    let (out, ring) = RingBuffer::new(alloc, UPLOAD_PLACES)?;
    Ok((FrontEnd { out }, LaneEnd { ring }))
}

impl FrontEnd {
    /// Puts an upload, or hands it back where the ring as read in this call is full. It takes no memory.
    pub fn put(&mut self, upload: Upload) -> Result<(), FullUpload>
        ensures ring { self.new.out ≡ self.old.out }
        ensures ok { OnOk result (self.new.sent ≡ self.old.sent ++ upload ∷ []) }
        ensures room { OnOk result (self.old.room ≤ self.new.room + 1) }
        ensures full { IfErr result (λ e. (e.0 ≡ upload) × (self.new.sent ≡ self.old.sent) × (self.new.room ≡ 0)) }
        ensures succeeds { 0 < self.old.room → IsOk result }
        ensures sent { (self.new.sent ≡ self.old.sent ++ upload ∷ []) ⊎ (self.new.sent ≡ self.old.sent) }
    {
        match self.out.push(upload) {
            Ok(()) => Ok(()),
            Err(PushError::Full(upload)) => Err(FullUpload(upload)),
        }
    }
}

impl LaneEnd {
    ghost use Rattle.dap_wire.specs.Uploads.{LooksOut, LooksIn, UploadsMet};

    /// Takes the oldest upload. None where the ring as read in this call is empty. It takes no memory.
    pub fn next(&mut self) -> Option<Upload>
        ensures ring { self.new.into ≡ self.old.into }
        ensures some { IfSome result (λ upload. (self.new.received ≡ self.old.received ++ upload ∷ [])
            × IsPrefix self.old.waiting (upload ∷ self.new.waiting)) }
        ensures none { IfNone result
            ((self.new.received ≡ self.old.received) × (self.old.waiting ≡ []) × (self.new.waiting ≡ [])) }
    {
        self.ring.pop().ok()
    }

    /// Tells each of the two ends of one ring how far the other is. It takes no memory.
    pub fn meet(&mut self, front: &mut FrontEnd)
        requires { self.old.into ≡ front.old.out }
        ensures front { LooksOut front.old front.new }
        ensures lane { LooksIn self.old self.new }
        ensures met { UploadsMet front.new self.new }
    {
        front.out.slots_beside(&mut self.ring);
        self.ring.slots_beside(&mut front.out);
    }
}
