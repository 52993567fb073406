//! A disk, as a trait with a written meaning.
ghost use Rattle.std.specs.Prelude.{◌≡◌, ◌≤◌, ◌<◌, ◌-◌, ◌+◌, ◌^◌, List, ℕ, Bool, ◌⊎◌, Option, Some, length, take, drop, IfOk, OnOk, OnErr, IsErr, IsErrOf, IsTrue, false};
ghost use Rattle.dap_disk.specs.declared.disk.StoreFault.TheVariants.{Down as StoreDown};
ghost use Rattle.dap_disk.specs.Disk.{Tells, of_told, written, Torn, Shortened, Follows, NoMore, Only, AddsMoment, IsUntouched, ReadsFrom, CountsStop, CountsDeath, Move, Looked, Changed, Synced, Refused, Restarted};
ghost use Rattle.dap_disk.specs.Images.{Written, CutTo};

/// The disk has stopped. Only a restart is allowed.
#[derive(Clone, Copy, Debug, PartialEq, Eq)]
pub struct Down;

/// The disk doesn't come back.
#[derive(Clone, Copy, Debug, PartialEq, Eq)]
pub struct Dead;

/// Why a change was refused.
#[derive(Clone, Copy, Debug, PartialEq, Eq)]
pub enum StoreFault {
    /// The disk has stopped. Its images may have the change whole, in part or not at all.
    Down,
    /// There was no memory, and nothing has changed.
    NoMemory,
}

impl From<Down> for StoreFault {
    ghost from_gives = { λ _ e. e ≡ StoreDown };

    fn from(_: Down) -> Self {
        StoreFault::Down
    }
}

/// A file on a disk that may stop at any moment. What a stop may leave are its images.
///
/// A disk has a clock: each call makes at most one new moment, and its clause `time` speaks of the images at the
/// moments since its own start, during the call or after it. A disk that doesn't tell its bytes, as a real file,
/// meets the clauses on contents with any bytes. After `Down` only `restart` is allowed. `Down` and `Dead` come only
/// where their counts rose, by one in a call, and a call that succeeds leaves these.
pub trait Disk: Drop {
    /// The bytes as they read, where the disk tells them.
    ghost holds: { Self → Option (List ℕ) };

    /// Whether it takes calls.
    ghost up: { Self → Bool };

    /// What a stop at this moment may leave.
    ghost may_leave: { Self → List ℕ → Type 0 };

    /// The moment, a number that doesn't fall.
    ghost moment: { Self → ℕ };

    /// What a stop at some moment from that one on might have left, during a call or between two.
    ghost left_since: { Self → ℕ → List ℕ → Type 0 };

    /// How often it has stopped.
    ghost downs: { Self → ℕ };

    /// How often it hasn't come back.
    ghost deads: { Self → ℕ };

    /// What a call may make of what decides where the disk stops. It holds of all where the disk doesn't tell that.
    ghost moves: { Move → Self → Self → Type 0 };

    /// The length of the file as it reads.
    fn len(&mut self) -> Result<u64, Down>
        requires { IsTrue (up self.old) }
        ensures told { IfOk result (λ n. Tells (holds self.old) (λ c. n ≡ length c)) }
        ensures same { holds self.new ≡ holds self.old }
        ensures images { NoMore (may_leave self.old) (may_leave self.new) }
        ensures time { AddsMoment moment left_since may_leave self.old self.new }
        ensures up { OnOk result (IsTrue (up self.new)) }
        ensures down { OnErr result (up self.new ≡ false) }
        ensures counts { CountsStop downs deads (IsErr result) self.old self.new }
        ensures moves { moves Looked self.old self.new };

    /// Reads the first bytes from a place on and says how many: none only past the end, or into an empty buffer.
    fn read(&mut self, at: u64, buf: &mut [u8]) -> Result<usize, Down>
        requires { IsTrue (up self.old) }
        ensures within { IfOk result (λ n. n ≤ length buf.old) }
        ensures told { IfOk result (λ n. Tells (holds self.old) (ReadsFrom at buf.old buf.new n)) }
        ensures same { holds self.new ≡ holds self.old }
        ensures images { NoMore (may_leave self.old) (may_leave self.new) }
        ensures time { AddsMoment moment left_since may_leave self.old self.new }
        ensures up { OnOk result (IsTrue (up self.new)) }
        ensures down { OnErr result (up self.new ≡ false) }
        ensures counts { CountsStop downs deads (IsErr result) self.old self.new }
        ensures moves { moves Looked self.old self.new };

    /// Writes over what is there, and past the end. Until a sync a stop may leave any of the lengths between, and any
    /// bytes in the range.
    fn write_at(&mut self, at: u64, bytes: &[u8]) -> Result<(), StoreFault>
        requires up { IsTrue (up self.old) }
        requires within { Tells (holds self.old) (λ c. at ≤ length c) }
        ensures done { OnOk result (holds self.new ≡ of_told (written at bytes.now) (holds self.old)) }
        ensures images { Follows (Torn at (length bytes.now)) (may_leave self.old) (may_leave self.new) }
        ensures memory { IsErrOf result StoreFault.NoMemory → IsUntouched holds up may_leave self.old self.new }
        ensures time { AddsMoment moment left_since may_leave self.old self.new }
        ensures up { OnOk result (IsTrue (up self.new)) }
        ensures down { IsErrOf result StoreFault.Down → up self.new ≡ false }
        ensures counts { CountsStop downs deads (IsErrOf result StoreFault.Down) self.old self.new }
        ensures moves { IsErrOf result StoreFault.NoMemory ⊎ moves (Changed (Written at bytes.now)) self.old self.new }
        ensures refused { IsErrOf result StoreFault.NoMemory → moves Refused self.old self.new };

    /// Cuts the file to a length. Until a sync a stop may leave any of the lengths between, and any bytes past the new
    /// end.
    fn cut(&mut self, len: u64) -> Result<(), StoreFault>
        requires up { IsTrue (up self.old) }
        requires within { Tells (holds self.old) (λ c. len ≤ length c) }
        ensures done { OnOk result (holds self.new ≡ of_told (take len) (holds self.old)) }
        ensures images { Follows (Shortened len) (may_leave self.old) (may_leave self.new) }
        ensures memory { IsErrOf result StoreFault.NoMemory → IsUntouched holds up may_leave self.old self.new }
        ensures time { AddsMoment moment left_since may_leave self.old self.new }
        ensures up { OnOk result (IsTrue (up self.new)) }
        ensures down { IsErrOf result StoreFault.Down → up self.new ≡ false }
        ensures counts { CountsStop downs deads (IsErrOf result StoreFault.Down) self.old self.new }
        ensures moves { IsErrOf result StoreFault.NoMemory ⊎ moves (Changed (CutTo len)) self.old self.new }
        ensures refused { IsErrOf result StoreFault.NoMemory → moves Refused self.old self.new };

    /// After `Ok` a stop leaves what a read gives.
    fn sync(&mut self) -> Result<(), Down>
        requires { IsTrue (up self.old) }
        ensures durable { OnOk result (Only (holds self.old) (may_leave self.new)) }
        ensures same { holds self.new ≡ holds self.old }
        ensures images { NoMore (may_leave self.old) (may_leave self.new) }
        ensures time { AddsMoment moment left_since may_leave self.old self.new }
        ensures up { OnOk result (IsTrue (up self.new)) }
        ensures down { OnErr result (up self.new ≡ false) }
        ensures counts { CountsStop downs deads (IsErr result) self.old self.new }
        ensures moves { moves Synced self.old self.new };

    /// Brings the disk back. It then reads as one of its images, and nothing waits for a sync.
    fn restart(&mut self) -> Result<(), Dead>
        ensures image { OnOk result (Tells (holds self.new) (may_leave self.old)) }
        ensures settled { OnOk result (Only (holds self.new) (may_leave self.new)) }
        ensures images { NoMore (may_leave self.old) (may_leave self.new) }
        ensures time { AddsMoment moment left_since may_leave self.old self.new }
        ensures up { OnOk result (IsTrue (up self.new)) }
        ensures down { OnErr result (up self.new ≡ false) }
        ensures counts { CountsDeath downs deads (IsErr result) self.old self.new }
        ensures moves { moves Restarted self.old self.new };

    /// This moment is one of those since an earlier one.
    ghost counts_now: { (disk : Self) (t : ℕ) (c : List ℕ) → t ≤ moment disk → may_leave disk c → left_since disk t c };

    /// Since this moment there is no other.
    ghost only_now: { (disk : Self) (c : List ℕ) → left_since disk (moment disk) c → may_leave disk c };

    /// A length fits its type.
    ghost fits: { (disk : Self) (c : List ℕ) → holds disk ≡ Some c → length c < 2 ^ 64 };

    /// What a disk that is up holds may be left.
    ghost held_may_stay: { (disk : Self) (c : List ℕ) → IsTrue (up disk) → holds disk ≡ Some c → may_leave disk c };
}
