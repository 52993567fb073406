//! The calls of a measurement function.
ghost use Rattle.std.specs.Prelude.{◌≡◌, ◌↔◌, ℕ, List, [], ◌∷◌, Option, IfOk, IsTrue};
ghost use Rattle.vdaf_api.specs.Kind.{IsKind};
ghost use Rattle.vdaf_api.specs.Vectors.{IsOut, plus, zero_share};
ghost use Rattle.vdaf_api.specs.Functions.{Functions};
ghost use Rattle.vdaf_api.specs.Verdict.{answer_of_shares};
ghost use Rattle.vdaf_api.specs.Promises.{FunctionLaws};
ghost use Rattle.vdaf_api.specs.Answered.{Combines, Finishes, Shards, StartsHalf};
ghost use Rattle.vdaf_api.specs.declared.kind.Kind.{Kind};

use crate::answer::Answer;
use crate::fault::{PrepFault, ShardFault};
use crate::kind::Kind;
use crate::role::Role;
use crate::shares::Shares;
use crate::space::Space;
use dap_bytes::Id;
use std::alloc::{AllocError, Global};

/// A measurement function with two shares, after the verifiable distributed aggregation functions of
/// draft-irtf-cfrg-vdaf-03. What a value computes is `functions`, which are functions on lists of bytes; of them the
/// laws hold that the layers above reason by: an honest report is prepared and its two out shares add to the
/// measurement's vector, out shares are numbers below a modulus, and shares and messages are short.
pub trait Vdaf: Drop {
    /// What a half keeps between its prep share and its out share.
    type Prep: Drop;

    /// What this value computes.
    ghost functions: { Self → Functions };

    /// What the function of a kind computes.
    ghost of_kind: { Kind → Functions };

    /// The out share that a state gives with a prep message.
    ghost finish_of: { Self.Prep → List ℕ → Option (List ℕ) };

    /// The function of a kind.
    fn of(alloc: Global, kind: &Kind) -> Result<Self, AllocError>
        requires { IsKind kind.now }
        ensures { IfOk result (λ v. functions v ≡ of_kind kind.now) };

    /// The shares of a measurement of one number. It is `BadValue` exactly where the number isn't one of the kind, and
    /// `Spent` only where it is and a drawing from the seed is spent. `BadValue` is told however little memory there is.
    fn shard(&self, alloc: Global, id: &Id, m: u64, seed: &[u8; 16]) -> Result<Shares, ShardFault>
        ensures { Shards result ((functions self.now).encoding (m ∷ []))
            ((functions self.now).shard id.now (m ∷ []) seed.now) };

    /// Begins to prepare a half under a verify key: its state and its prep share. It is `Invalid` only where there is
    /// none, and then no message gives the half an out share. What hasn't the form of a half is `Invalid` however little
    /// memory there is.
    fn init(
        &self,
        alloc: Global,
        role: Role,
        key: &[u8; 16],
        id: &Id,
        public: &[u8],
        input: &[u8],
    ) -> Result<(Self::Prep, Vec<u8>), PrepFault>
        ensures { StartsHalf (functions self.now) finish_of role key.now id.now public.now input.now result };

    /// The prep message of both prep shares. It is `Invalid` only where there is none, and always where one of them
    /// hasn't the form of a prep share.
    fn combine(&self, alloc: Global, leader: &[u8], helper: &[u8]) -> Result<Vec<u8>, PrepFault>
        ensures { Combines (functions self.now) leader.now helper.now result };

    /// The out share of a half. `Invalid` exactly where there is none with this message.
    fn finish(&self, alloc: Global, prep: &Self::Prep, message: &[u8]) -> Result<Vec<u8>, PrepFault>
        ensures { Finishes result (finish_of prep.now message.now) };

    /// How out shares are spelled. It takes no memory.
    fn space(&self) -> Space
        ensures { result ≡ (functions self.now).space };

    /// The out share of noughts.
    fn zero(&self, alloc: Global) -> Result<Vec<u8>, AllocError>
        ensures { IfOk result (λ v. v.items ≡ zero_share (functions self.now).space) }
    {
        self.space().zero(alloc)
    }

    /// Whether the bytes are an out share. It takes no memory.
    fn is_out(&self, bytes: &[u8]) -> bool
        ensures { IsTrue result ↔ IsOut (functions self.now).space bytes.now }
    {
        self.space().is_out(bytes)
    }

    /// Adds an out share to another in place. It takes no memory.
    fn add(&self, total: &mut [u8], out: &[u8])
        requires total { IsOut (functions self.now).space total.old }
        requires out { IsOut (functions self.now).space out.now }
        ensures { total.new ≡ plus (functions self.now).space total.old out.now }
    {
        self.space().add(total, out)
    }

    /// The answer of two out shares, or of two sums of them.
    fn answer(&self, alloc: Global, leader: &[u8], helper: &[u8]) -> Result<Answer, AllocError>
        requires leader { IsOut (functions self.now).space leader.now }
        requires helper { IsOut (functions self.now).space helper.now }
        ensures { IfOk result (λ a. a ≡ answer_of_shares (functions self.now) leader.now helper.now) };

    /// It keeps the laws of measurement functions.
    ghost laws: { (v : Self) → FunctionLaws (functions v) };

    /// So does the function of each kind within its ranges.
    ghost kind_laws: { (k : Kind) → IsKind k → FunctionLaws (of_kind k) };
}
