//! Laws of sharing.
ghost use Rattle.std.specs.Prelude.{◌≡◌, ℕ, List, Some, length};
ghost use Rattle.vdaf_api.specs.Functions.{Parts};
ghost use Rattle.prio3_share.specs.Sharing.{shard, sharing};
ghost use Rattle.prio3_share.specs.Added.{AddTo, HaveLengths};

use crate::based::Based;
use flp_circuits::Circuit;

/// A law: the halves that the two input shares hold add to the input, which for a measurement is its encoding, and to a
/// proof of it; and the public share has the parts of both halves.
pub fn halves_add_to_the_whole<C: Circuit>(c: &C, kind: u8)
    ensures input { (id seed : List ℕ) (x : List C.F) (parts : Parts) → length x ≡ (C.shape c.now).input_len
        → sharing ⟦<C::F as Based>⟧.base (C.shape c.now) kind id x seed ≡ Some parts
        → AddTo ⟦<C::F as Based>⟧.base (C.shape c.now) kind id seed x parts }
    ensures measurement { (id seed ms : List ℕ) (parts : Parts)
        → shard ⟦<C::F as Based>⟧.base (C.shape c.now) kind id ms seed ≡ Some parts
        → (x : List C.F) × ((C.shape c.now).encode ms ≡ Some x)
        × AddTo ⟦<C::F as Based>⟧.base (C.shape c.now) kind id seed x parts }
{}

/// A law: the lengths of a report's shares depend on the circuit alone.
pub fn shares_have_their_lengths<C: Circuit>(c: &C, kind: u8)
    ensures { (id seed : List ℕ) (x : List C.F) (parts : Parts) → length x ≡ (C.shape c.now).input_len
        → sharing ⟦<C::F as Based>⟧.base (C.shape c.now) kind id x seed ≡ Some parts
        → HaveLengths ⟦<C::F as Based>⟧.base (C.shape c.now) kind parts }
{}
