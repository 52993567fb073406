//! Two disks as one.
ghost use Rattle.std.specs.Prelude.{◌≡◌, ◌+◌, ◌<◌, ◌^◌, take, drop, List, ℕ, IsTrue};
ghost use Rattle.dap_disk.specs.Disk.{of_told, Tells, Only};
ghost use Rattle.journal_checkpoint.specs.Heads.{generation_of, start_of, front_of, IsOlder};
ghost use Rattle.journal_checkpoint.specs.MemberLaws.{reads_of, held_stays, part_fits};
ghost use Rattle.journal_checkpoint.specs.Pair.{Reads, MovesLive};

use dap_disk::{Dead, Disk, Down, StoreFault};

/// Two disks, of which the live one is read and written behind its head. What a stop may leave of it is what an
/// opening reads of any two images, once it has a head.
#[derive(Drop)]
pub struct PairDisk<D: Disk> {
    pub(crate) live: D,
    pub(crate) other: D,
    // Whether the live disk is the second of the two.
    pub(crate) second: bool,
    // That of the live disk, 0 where no disk has a head.
    pub(crate) generation: u64,
    // Where the journal begins on the live disk.
    pub(crate) start: u64,
    ghost fits: { generation < 2 ^ 64 },
    ghost starts: { start ≡ start_of generation },
    ghost held: { IsTrue (D.up live) → Tells (D.holds live) (λ c. take start c ≡ front_of generation) },
    ghost images: { (c : List ℕ) → D.may_leave live c → take start c ≡ front_of generation },
    ghost other_up: { IsTrue (D.up other) },
    ghost other_synced: { Only (D.holds other) (D.may_leave other) },
    ghost older: { (c : List ℕ) → D.may_leave other c → IsOlder second (generation_of c) generation },
    ghost later: { IsOlder second 0 generation },
}

/// The live disk behind its head. A restart is one of this disk, and the counts are the sums of both disks' counts.
impl<D: Disk> Disk for PairDisk<D> {
    ghost holds = { λ p. of_told (drop p.start) (D.holds p.live) };

    ghost up = { λ p. D.up p.live };

    ghost may_leave = { λ p. Reads p.second p.start (D.may_leave p.live) (D.may_leave p.other) };

    ghost moment = { λ p. D.moment p.live };

    ghost left_since = { λ p t. Reads p.second p.start (D.left_since p.live t) (D.may_leave p.other) };

    ghost downs = { λ p. D.downs p.live + D.downs p.other };

    ghost deads = { λ p. D.deads p.live + D.deads p.other };

    ghost moves = { λ move p q. MovesLive D.moves p.start move p.live q.live
        × (q.other ≡ p.other) × (q.second ≡ p.second) × (q.generation ≡ p.generation) };

    ghost counts_now = { λ p t c le now. reads_of p.second p.start
        (D.may_leave p.live) (D.left_since p.live t) (D.may_leave p.other) c (λ x is. D.counts_now p.live t x le is) now };

    ghost only_now = { λ p c left. reads_of p.second p.start
        (D.left_since p.live (D.moment p.live)) (D.may_leave p.live) (D.may_leave p.other) c (λ x was. D.only_now p.live x was) left };

    ghost fits = { λ p c is. part_fits p.start (D.holds p.live) c (λ d h. D.fits p.live d h) is };

    ghost held_may_stay = { λ p c up is. held_stays p.second p.start
        (D.holds p.live) (D.may_leave p.live) (D.may_leave p.other) c (λ d h. D.held_may_stay p.live d up h) is };

    fn len(&mut self) -> Result<u64, Down> {
        match self.live.len() {
            Ok(n) => Ok(n.saturating_sub(self.start)),
            Err(down) => Err(down),
        }
    }

    fn read(&mut self, at: u64, buf: &mut [u8]) -> Result<usize, Down> {
        // A place without a number is past every end, as the greatest is.
        self.live.read(at.saturating_add(self.start), buf)
    }

    fn write_at(&mut self, at: u64, bytes: &[u8]) -> Result<(), StoreFault> {
        if at > u64::MAX - self.start {
            return Err(StoreFault::NoMemory);
        }
        self.live.write_at(at + self.start, bytes)
    }

    fn cut(&mut self, len: u64) -> Result<(), StoreFault> {
        if len > u64::MAX - self.start {
            return Err(StoreFault::NoMemory);
        }
        self.live.cut(len + self.start)
    }

    fn sync(&mut self) -> Result<(), Down> {
        self.live.sync()
    }

    fn restart(&mut self) -> Result<(), Dead> {
        self.live.restart()
    }
}
