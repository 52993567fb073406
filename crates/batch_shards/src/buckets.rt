//! The table of batches.

ghost use Rattle.std.specs.Prelude.{◌≡◌, ◌≢◌, ◌^◌, ◌<◌, ◌++◌, ◌∷◌, [], IfOk, List, None, OnErr, OnOk, ℕ, true, false};
ghost use Rattle.std.specs.FinMap as map;
ghost use Rattle.vdaf_api.specs.Vectors.{IsOut};
ghost use Rattle.batch_shards.specs.Bucket.{closed_for_good, count_of, nothing, sum_or_zero, told_of, with_rejected, with_report, with_room, HasSum, IsSum, Opens};
ghost use Rattle.batch_shards.specs.Batches.{bucket_of, changed, IsHeld};

use crate::bucket::{Bucket, BucketFault};
use crate::count::Count;
use dap_bytes::{Id, Name};
use std::alloc::{AllocError, Global};
use std::collections::BTreeMap;
use std::marker::Model;
use vdaf_api::Vdaf;

/// What a lane holds of each batch. Contracts see it as the finite map from a task's name and a batch's start to what is
/// kept of the batch.
#[derive(Drop)]
pub struct Buckets {
    alloc: Global,
    buckets: BTreeMap<(Name, u64), Bucket>,
}

impl Model for Buckets {
    ghost use Rattle.std.specs.FinMap as map;
    ghost use Rattle.batch_shards.specs.Batches.{Kept, kept_code};

    ghost Value = { Kept };

    ghost coded = { kept_code };

    ghost view = { λ a. map.from_entries a.buckets.entries };
}

impl Buckets {
    /// Buckets that hold nothing. It takes no memory.
    pub fn new(alloc: Global) -> Self
        ensures empty { result ≡ map.empty }
        ensures holds_nothing { (name : List ℕ) (start : ℕ) → bucket_of result name start ≡ nothing }
    {
        Buckets {
            alloc,
            buckets: BTreeMap::new(alloc),
        }
    }

    /// Makes the entry of a batch, with room for its sum, so that its reports can be counted and added in place. What is
    /// told of each batch stays as it is. A refusal changes nothing. It takes memory for a batch that has no sum, and for
    /// no other.
    pub fn ready<V: Vdaf>(&mut self, vdaf: &V, name: &Name, start: u64) -> Result<(), AllocError>
        ensures ok { OnOk result (self.new ≡ changed self.old name.now start
            (with_room (V.functions vdaf.now).space (bucket_of self.old name.now start))) }
        ensures told { (other : List ℕ) (later : ℕ)
            → told_of (V.functions vdaf.now).space (bucket_of self.new other later)
            ≡ told_of (V.functions vdaf.now).space (bucket_of self.old other later) }
        ensures room { OnOk result (IsSum (V.functions vdaf.now).space (bucket_of self.old name.now start).sum
            → HasSum (V.functions vdaf.now).space (bucket_of self.new name.now start).sum) }
        ensures memory { OnErr result ((bucket_of self.old name.now start).sum ≡ None) }
        ensures err { OnErr result (self.new ≡ self.old) }
    {
        let space = vdaf.space();
        if let Some(bucket) = self.buckets.get_mut(&(*name, start)) {
            return bucket.make_room(self.alloc, &space);
        }
        let mut bucket = Bucket::new();
        bucket.make_room(self.alloc, &space)?;
        match self.keep(name, start, bucket) {
            Ok(()) => Ok(()),
            Err(_) => Err(AllocError {}),
        }
    }

    /// Counts a report of a batch, and adds its out share to the batch's sum. `Closed` exactly where the batch is
    /// closed. A refusal changes nothing. It takes memory for a batch's first report alone.
    pub fn add<V: Vdaf>(
        &mut self,
        vdaf: &V,
        name: &Name,
        start: u64,
        id: &Id,
        out: &[u8],
    ) -> Result<(), BucketFault>
        requires out { IsOut (V.functions vdaf.now).space out.now }
        requires held { IsSum (V.functions vdaf.now).space (bucket_of self.old name.now start).sum }
        ensures closed { Opens result (bucket_of self.old name.now start).closed }
        ensures ok { OnOk result (self.new ≡ changed self.old name.now start
            (with_report (V.functions vdaf.now).space id.now out.now (bucket_of self.old name.now start))) }
        ensures held_again { IsSum (V.functions vdaf.now).space (bucket_of self.new name.now start).sum }
        ensures memory { result ≡ Err BucketFault.NoMemory → (bucket_of self.old name.now start).sum ≡ None }
        ensures err { OnErr result (self.new ≡ self.old) }
    {
        let space = vdaf.space();
        if let Some(bucket) = self.buckets.get_mut(&(*name, start)) {
            return bucket.add(self.alloc, &space, id, out);
        }
        let mut bucket = Bucket::new();
        bucket.add(self.alloc, &space, id, out)?;
        self.keep(name, start, bucket)
    }

    /// Counts a rejected report of a batch. `Closed` exactly where the batch is closed. A refusal changes nothing. It
    /// takes memory for a batch of which nothing is held, and for no other.
    pub fn reject(&mut self, name: &Name, start: u64) -> Result<(), BucketFault>
        ensures closed { Opens result (bucket_of self.old name.now start).closed }
        ensures ok { OnOk result (self.new ≡ changed self.old name.now start
            (with_rejected (bucket_of self.old name.now start))) }
        ensures memory { result ≡ Err BucketFault.NoMemory → map.get self.old (name.now, start) ≡ None }
        ensures err { OnErr result (self.new ≡ self.old) }
        ensures sum_stays { (bucket_of self.new name.now start).sum ≡ (bucket_of self.old name.now start).sum }
    {
        if let Some(bucket) = self.buckets.get_mut(&(*name, start)) {
            return bucket.reject();
        }
        let mut bucket = Bucket::new();
        bucket.reject()?;
        self.keep(name, start, bucket)
    }

    /// Counts a report of an open batch that has room for its sum, and adds its out share there. It takes no memory.
    pub fn add_in_place<V: Vdaf>(&mut self, vdaf: &V, name: &Name, start: u64, id: &Id, out: &[u8])
        requires out { IsOut (V.functions vdaf.now).space out.now }
        requires ready { HasSum (V.functions vdaf.now).space (bucket_of self.old name.now start).sum }
        requires open { (bucket_of self.old name.now start).closed ≡ false }
        ensures counted { self.new ≡ changed self.old name.now start
            (with_report (V.functions vdaf.now).space id.now out.now (bucket_of self.old name.now start)) }
        ensures room { HasSum (V.functions vdaf.now).space (bucket_of self.new name.now start).sum }
    {
        let space = vdaf.space();
        let Some(bucket) = self.buckets.get_mut(&(*name, start)) else {
            return;
        };
        bucket.add_in_place(&space, id, out);
    }

    /// Counts a rejected report of an open batch that has an entry. It takes no memory.
    pub fn reject_in_place(&mut self, name: &Name, start: u64)
        requires held { IsHeld self.old name.now start }
        requires open { (bucket_of self.old name.now start).closed ≡ false }
        ensures { self.new ≡ changed self.old name.now start (with_rejected (bucket_of self.old name.now start)) }
    {
        let Some(bucket) = self.buckets.get_mut(&(*name, start)) else {
            return;
        };
        bucket.reject_in_place();
    }

    /// The numbers of a batch, zeros where nothing is held. They are below 2^32. It takes no memory.
    pub fn count(&self, name: &Name, start: u64) -> Count
        requires reports { (bucket_of self.now name.now start).reports < 2 ^ 32 }
        requires rejected { (bucket_of self.now name.now start).rejected < 2 ^ 32 }
        ensures { result ≡ count_of (bucket_of self.now name.now start) }
    {
        match self.buckets.get(&(*name, start)) {
            Some(bucket) => bucket.count(),
            None => Bucket::new().count(),
        }
    }

    /// Closes a batch for good. A batch that is closed stays as it is. It takes memory for a batch of which nothing is
    /// held, and for no other.
    pub fn close(&mut self, name: &Name, start: u64) -> Result<(), AllocError>
        ensures ok { OnOk result (self.new ≡ changed self.old name.now start
            (closed_for_good (bucket_of self.old name.now start))) }
        ensures stays_closed { (bucket_of self.old name.now start).closed ≡ true → self.new ≡ self.old }
        ensures memory { OnErr result (map.get self.old (name.now, start) ≡ None) }
        ensures err { OnErr result (self.new ≡ self.old) }
        ensures sum_stays { (bucket_of self.new name.now start).sum ≡ (bucket_of self.old name.now start).sum }
    {
        if let Some(bucket) = self.buckets.get_mut(&(*name, start)) {
            bucket.close();
            return Ok(());
        }
        let mut bucket = Bucket::new();
        bucket.close();
        match self.keep(name, start, bucket) {
            Ok(()) => Ok(()),
            Err(_) => Err(AllocError {}),
        }
    }

    /// Closes a batch that has an entry for good. A batch that is closed stays as it is. It takes no memory.
    pub fn close_in_place(&mut self, name: &Name, start: u64)
        requires { IsHeld self.old name.now start }
        ensures { self.new ≡ changed self.old name.now start (closed_for_good (bucket_of self.old name.now start)) }
    {
        let Some(bucket) = self.buckets.get_mut(&(*name, start)) else {
            return;
        };
        bucket.close();
    }

    /// The sum of a batch's out shares: noughts where it has none.
    pub fn total<V: Vdaf>(&self, vdaf: &V, name: &Name, start: u64) -> Result<Vec<u8>, AllocError>
        ensures { IfOk result (λ v. v.items
            ≡ sum_or_zero (V.functions vdaf.now).space (bucket_of self.now name.now start).sum) }
    {
        match self.buckets.get(&(*name, start)) {
            Some(bucket) => bucket.total(self.alloc, &vdaf.space()),
            None => vdaf.zero(self.alloc),
        }
    }

    /// Keeps what is held of a batch of which nothing was held.
    fn keep(&mut self, name: &Name, start: u64, bucket: Bucket) -> Result<(), BucketFault>
        ensures ok { OnOk result (self.new ≡ changed self.old name.now start bucket) }
        ensures err { OnErr result (self.new ≡ self.old) }
        ensures memory { result ≢ Err BucketFault.Closed }
    {
        match self.buckets.insert((*name, start), bucket) {
            Ok(_) => Ok(()),
            Err(_) => Err(BucketFault::NoMemory),
        }
    }
}
