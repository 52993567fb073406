//! Changes of one batch.

ghost use Rattle.std.specs.Prelude.{◌≡◌, ◌≢◌, ◌^◌, ◌<◌, IfOk, None, OnErr, OnOk};
ghost use Rattle.vdaf_api.specs.Vectors.{IsOut, plus, SpaceLaws};
ghost use Rattle.batch_shards.specs.Bucket.{closed_for_good, count_of, nothing, sum_or_zero, with_rejected, with_report, with_room, HasSum, IsSum, Opens};

use crate::bucket::{Bucket, BucketFault};
use crate::count::Count;
use dap_batch::Checksum;
use dap_bytes::{Bytes, Id};
use std::alloc::{AllocError, Global};
use vdaf_api::Space;

impl Bucket {
    /// What is kept of a batch to which nothing was added.
    pub fn new() -> Self
        ensures { result ≡ nothing }
    {
        Bucket {
            reports: 0,
            rejected: 0,
            checksum: Checksum::new(),
            sum: None,
            closed: false,
        }
    }

    /// Makes room for a sum: noughts where there is none. A refusal changes nothing. It takes memory where there is no
    /// sum, and nowhere else.
    pub fn make_room(&mut self, alloc: Global, space: &Space) -> Result<(), AllocError>
        requires { SpaceLaws space.now }
        ensures ok { OnOk result (self.new ≡ with_room space.now self.old) }
        ensures memory { OnErr result (self.old.sum ≡ None) }
        ensures err { OnErr result (self.new ≡ self.old) }
    {
        if self.sum.is_none() {
            self.sum = Some(Bytes::new(space.zero(alloc)?));
        }
        Ok(())
    }

    /// Counts a report and adds its out share to the sum. `Closed` exactly where the batch is closed. A refusal changes
    /// nothing.
    pub fn add(
        &mut self,
        alloc: Global,
        space: &Space,
        id: &Id,
        out: &[u8],
    ) -> Result<(), BucketFault>
        requires space { SpaceLaws space.now }
        requires out { IsOut space.now out.now }
        requires held { IsSum space.now self.old.sum }
        ensures closed { Opens result self.old.closed }
        ensures ok { OnOk result (self.new ≡ with_report space.now id.now out.now self.old) }
        ensures held_again { IsSum space.now self.new.sum }
        ensures memory { result ≡ Err BucketFault.NoMemory → self.old.sum ≡ None }
        ensures err { OnErr result (self.new ≡ self.old) }
    {
        if self.closed {
            return Err(BucketFault::Closed);
        }
        self.make_room(alloc, space)?;
        self.add_in_place(space, id, out);
        Ok(())
    }

    /// Counts a report and adds its out share to the sum that is there. It takes no memory.
    pub fn add_in_place(&mut self, space: &Space, id: &Id, out: &[u8])
        requires space { SpaceLaws space.now }
        requires out { IsOut space.now out.now }
        requires ready { HasSum space.now self.old.sum }
        ensures { self.new ≡ with_report space.now id.now out.now self.old }
    {
        if let Some(sum) = self.sum.take() {
            self.sum = Some(added(space, sum, out));
        }
        self.reports = self.reports.saturating_add(1);
        self.checksum.add(id);
    }

    /// Counts a rejected report. `Closed` exactly where the batch is closed, and then nothing changes. It takes no
    /// memory.
    pub fn reject(&mut self) -> Result<(), BucketFault>
        ensures closed { Opens result self.old.closed }
        ensures ok { OnOk result (self.new ≡ with_rejected self.old) }
        ensures memory { result ≢ Err BucketFault.NoMemory }
        ensures err { OnErr result (self.new ≡ self.old) }
    {
        if !self.closed {
            self.reject_in_place();
            return Ok(());
        }
        Err(BucketFault::Closed)
    }

    /// Counts a rejected report, whether the batch is closed or not. It takes no memory.
    pub fn reject_in_place(&mut self)
        ensures { self.new ≡ with_rejected self.old }
    {
        self.rejected = self.rejected.saturating_add(1);
    }

    /// The numbers, where they are below 2^32.
    pub fn count(&self) -> Count
        requires reports { self.now.reports < 2 ^ 32 }
        requires rejected { self.now.rejected < 2 ^ 32 }
        ensures { result ≡ count_of self.now }
    {
        Count {
            reports: self.reports as u32,
            rejected: self.rejected as u32,
            checksum: self.checksum.bytes(),
            closed: self.closed,
        }
    }

    /// The sum of the out shares: noughts where there are none.
    pub fn total(&self, alloc: Global, space: &Space) -> Result<Vec<u8>, AllocError>
        requires { SpaceLaws space.now }
        ensures { IfOk result (λ v. v.items ≡ sum_or_zero space.now self.now.sum) }
    {
        match &self.sum {
            Some(sum) => sum.as_slice().to_vec(alloc),
            None => space.zero(alloc),
        }
    }

    /// Closes the batch for good.
    pub fn close(&mut self)
        ensures { self.new ≡ closed_for_good self.old }
    {
        self.closed = true;
    }
}

/// The sum of an out share and another.
fn added(space: &Space, total: Bytes, out: &[u8]) -> Bytes
    requires space { SpaceLaws space.now }
    requires total { IsOut space.now total }
    requires out { IsOut space.now out.now }
    ensures { result ≡ plus space.now total out.now }
{
    let mut sum = total.into_vec();
    space.add(&mut sum, out);
    Bytes::new(sum)
}
