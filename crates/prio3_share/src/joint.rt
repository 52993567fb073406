//! The joint randomness of a report, on its client's side.
ghost use Rattle.std.specs.Prelude.{◌≡◌, ◌++◌, length, IfOk};
ghost use Rattle.prio3_share.specs.Texts.{part};
ghost use Rattle.prio3_share.specs.Sharing.{if_joint, joint_randomness};
ghost use Rattle.prio3_share.specs.Splits.{Splits};
ghost use Rattle.prio3_share.specs.Steps.{left, right};
ghost use Rattle.prio3_share.specs.Seen.{seen};
ghost use Rattle.vdaf_api.specs.declared.role.Role.TheVariants.{Leader, Helper};

use crate::based::Based;
use crate::halves::Halves;
use crate::keys::SeedKeys;
use crate::splitting::drawn;
use crate::streams::{joint_seed_of, part_of};
use crate::usage::Usage;
use dap_bytes::Id;
use field_laws::Field;
use flp_circuits::Circuit;
use std::alloc::{AllocError, Global};
use vdaf_api::{Role, ShardFault};

/// The public share, and the joint randomness that it leads to.
#[derive(Drop)]
pub(crate) struct Joint<F> {
    pub(crate) public: Vec<u8>,
    pub(crate) randomness: Vec<F>,
}

/// Both halves' parts.
#[derive(Clone, Copy)]
struct Parts {
    leader: [u8; 16],
    helper: [u8; 16],
}

/// Bytes behind others.
fn joined(alloc: Global, front: &[u8], back: &[u8]) -> Result<Vec<u8>, AllocError>
    ensures { IfOk result (λ v. v.items ≡ front.now ++ back.now) }
{
    let mut bytes = Vec::new(alloc);
    bytes.extend_from_slice(front)?;
    bytes.extend_from_slice(back)?;
    Ok(bytes)
}

/// The parts of both halves of an input.
fn both_parts<F: Field>(
    alloc: Global,
    kind: u8,
    id: &Id,
    keys: &SeedKeys,
    input: &Halves<F>,
) -> Result<Parts, AllocError>
    ensures leader { IfOk result (λ p. p.leader ≡ part ⟦<F as Based>⟧.base kind Leader id.now
        keys.now.leader_blind input.now.leader.items) }
    ensures helper { IfOk result (λ p. p.helper ≡ part ⟦<F as Based>⟧.base kind Helper id.now
        keys.now.helper_blind input.now.helper.items) }
{
    let leader = part_of(
        alloc,
        kind,
        Role::Leader,
        id,
        &keys.leader_blind,
        &input.leader,
    )?;
    let helper = part_of(
        alloc,
        kind,
        Role::Helper,
        id,
        &keys.helper_blind,
        &input.helper,
    )?;
    Ok(Parts { leader, helper })
}

/// The public share of both parts and their joint randomness; no bytes and no elements where the circuit takes none.
/// `Spent` exactly where the drawing is.
pub(crate) fn joint_of<C: Circuit>(
    alloc: Global,
    c: &C,
    kind: u8,
    id: &Id,
    keys: &SeedKeys,
    input: &Halves<C::F>,
) -> Result<Joint<C::F>, ShardFault>
    ensures randomness { Splits (λ joint. joint.randomness.items) result
        (joint_randomness ⟦<C::F as Based>⟧.base (C.shape c.now) kind
        (left ⟦<C::F as Based>⟧.base (C.shape c.now) kind id.now keys.now (seen input.now))
        (right ⟦<C::F as Based>⟧.base (C.shape c.now) kind id.now keys.now (seen input.now))) }
    ensures public { IfOk result (λ joint. joint.public.items ≡ if_joint (C.shape c.now)
        (left ⟦<C::F as Based>⟧.base (C.shape c.now) kind id.now keys.now (seen input.now)
        ++ right ⟦<C::F as Based>⟧.base (C.shape c.now) kind id.now keys.now (seen input.now))) }
    ensures size { IfOk result (λ joint. length joint.randomness.items ≡ (C.shape c.now).joint_len) }
{
    if c.joint_len() == 0 {
        return Ok(Joint {
            public: Vec::new(alloc),
            randomness: Vec::new(alloc),
        });
    }
    let parts = both_parts(alloc, kind, id, keys, input)?;
    let seed = joint_seed_of(alloc, kind, &parts.leader, &parts.helper)?;
    let public = joined(alloc, &parts.leader, &parts.helper)?;
    let randomness = drawn(alloc, kind, &seed, Usage::JointRandomness, c.joint_len())?;
    Ok(Joint { public, randomness })
}
