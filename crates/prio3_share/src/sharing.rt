//! Sharing: a client's side of a report.
ghost use Rattle.std.specs.Prelude.{◌≡◌, [], ◌∷◌, ◌++◌, length, IfOk};
ghost use Rattle.vdaf_api.specs.Answered.{Shards, parts_of};
ghost use Rattle.prio3_share.specs.Texts.{bytes_of};
ghost use Rattle.prio3_share.specs.Sharing.{encoding, if_joint, shard, sharing};
ghost use Rattle.prio3_share.specs.Splits.{Splits};
ghost use Rattle.prio3_share.specs.Steps.{proof_halved, sharing_with};
ghost use Rattle.prio3_share.specs.Seen.{seen};

use crate::based::Based;
use crate::faults::of_encode;
use crate::halves::Halves;
use crate::joint::joint_of;
use crate::keys::SeedKeys;
use crate::report::{helper_share, leader_share};
use crate::splitting::{drawn, halves_of};
use crate::spreading::keys_of;
use crate::usage::Usage;
use dap_bytes::{Bytes, Id};
use flp_circuits::Circuit;
use flp_proof::prove;
use std::alloc::{AllocError, Global};
use vdaf_api::{ShardFault, Shares};

/// The proof of an input in two halves: `Spent` exactly where the drawing of the wire seeds or of the helper's half is.
#[tactic(auto, unfolding(crate::specs::Steps::proof_halved))]
fn proof_halves<C: Circuit>(
    alloc: Global,
    c: &C,
    kind: u8,
    keys: &SeedKeys,
    x: &[C::F],
    joint: &[C::F],
) -> Result<Halves<C::F>, ShardFault>
    requires input { length x.now ≡ (C.shape c.now).input_len }
    requires joint { length joint.now ≡ (C.shape c.now).joint_len }
    ensures { Splits seen result (proof_halved ⟦<C::F as Based>⟧.base (C.shape c.now) kind keys.now x.now) }
{
    let seeds = drawn(alloc, kind, &keys.wires, Usage::WireSeeds, c.arity())?;
    let proof = prove(alloc, c, x, &seeds, joint)?;
    halves_of(alloc, kind, &keys.proof, Usage::HelperProof, &proof)
}

/// The shares of a report whose input and proof are in halves.
fn shares_of<C: Circuit>(
    alloc: Global,
    c: &C,
    keys: &SeedKeys,
    input: &Halves<C::F>,
    proof: &Halves<C::F>,
    public: Vec<u8>,
) -> Result<Shares, AllocError>
    ensures public { IfOk result (λ s. s.public ≡ public.items) }
    ensures leader { IfOk result (λ s. s.leader ≡ bytes_of ⟦<C::F as Based>⟧.base input.now.leader.items
        ++ (bytes_of ⟦<C::F as Based>⟧.base proof.now.leader.items ++ if_joint (C.shape c.now) keys.now.leader_blind)) }
    ensures helper { IfOk result (λ s. s.helper ≡ keys.now.input
        ++ (keys.now.proof ++ if_joint (C.shape c.now) keys.now.helper_blind)) }
{
    let leader = leader_share(alloc, c, &input.leader, &proof.leader, &keys.leader_blind)?;
    let helper = helper_share(alloc, c, keys)?;
    Ok(Shares {
        public: Bytes::new(public),
        leader: Bytes::new(leader),
        helper: Bytes::new(helper),
    })
}

/// The shares of an input under the keys of a seed.
#[tactic(auto, unfolding(crate::specs::Steps::sharing_with))]
fn share_with<C: Circuit>(
    alloc: Global,
    c: &C,
    kind: u8,
    id: &Id,
    x: &[C::F],
    keys: &SeedKeys,
) -> Result<Shares, ShardFault>
    requires { length x.now ≡ (C.shape c.now).input_len }
    ensures { Splits parts_of result (sharing_with ⟦<C::F as Based>⟧.base (C.shape c.now) kind id.now x.now keys.now) }
{
    let input = halves_of(alloc, kind, &keys.input, Usage::HelperInput, x)?;
    let joint = joint_of(alloc, c, kind, id, keys, &input)?;
    let proof = proof_halves(alloc, c, kind, keys, x, &joint.randomness)?;
    Ok(shares_of(alloc, c, keys, &input, &proof, joint.public)?)
}

/// The shares of an input of the circuit, whether or not it keeps the circuit's rules: an aggregator refuses those that
/// don't. `kind` is the byte that names the kind of measurement, and the seed is the client's own secret. `Spent`
/// exactly where a drawing is; `BadValue` never.
pub fn shard_input<C: Circuit>(
    alloc: Global,
    c: &C,
    kind: u8,
    id: &Id,
    x: &[C::F],
    seed: &[u8; 16],
) -> Result<Shares, ShardFault>
    requires { length x.now ≡ (C.shape c.now).input_len }
    ensures { Splits parts_of result (sharing ⟦<C::F as Based>⟧.base (C.shape c.now) kind id.now x.now seed.now) }
{
    let keys = keys_of(alloc, kind, seed)?;
    share_with(alloc, c, kind, id, x, &keys)
}

/// The shares of a measurement of one number: those of its encoding. `BadValue` exactly where it isn't one of the kind,
/// and `Spent` exactly where it is and a drawing is spent.
pub fn shard<C: Circuit>(
    alloc: Global,
    c: &C,
    kind: u8,
    id: &Id,
    m: u64,
    seed: &[u8; 16],
) -> Result<Shares, ShardFault>
    ensures { Shards result (encoding ⟦<C::F as Based>⟧.base (C.shape c.now) kind (m ∷ []))
        (shard ⟦<C::F as Based>⟧.base (C.shape c.now) kind id.now (m ∷ []) seed.now) }
{
    shard_list(alloc, c, kind, id, &[m], seed)
}

/// The shares of a measurement that is a list of numbers, likewise.
#[tactic(auto, unfolding(crate::specs::Sharing::shard))]
pub fn shard_list<C: Circuit>(
    alloc: Global,
    c: &C,
    kind: u8,
    id: &Id,
    m: &[u64],
    seed: &[u8; 16],
) -> Result<Shares, ShardFault>
    ensures { Shards result (encoding ⟦<C::F as Based>⟧.base (C.shape c.now) kind m.now)
        (shard ⟦<C::F as Based>⟧.base (C.shape c.now) kind id.now m.now seed.now) }
{
    match c.encode_list(alloc, m) {
        Ok(x) => shard_input(alloc, c, kind, id, &x, seed),
        Err(fault) => Err(of_encode(fault)),
    }
}
