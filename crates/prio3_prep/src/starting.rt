//! The first step of preparing a half.
ghost use Rattle.std.specs.Prelude.{◌≡◌, ◌≤◌, ◌++◌, IfOk, length};
ghost use Rattle.flp_proof.specs.Proof.{proof_len};
ghost use Rattle.vdaf_api.specs.Answered.{Starts};
ghost use Rattle.prio3_share.specs.Texts.{bytes_of, joint_seed};
ghost use Rattle.prio3_share.specs.Preparing.{helper_part_for, is_half, leader_part_for, out_of, share_of, start};
ghost use Rattle.prio3_prep.specs.States.{Begins, bytes_in, half_in, start_in, state_finish};
ghost use Rattle.prio3_prep.specs.Parts.{start_of_half, start_at_drawn};

use crate::asked::Asked;
use crate::faults::of_query;
use crate::forms::is_half;
use crate::half::InputHalf;
use crate::reading::{draw, half_for, joint_bytes};
use crate::state::State;
use dap_bytes::Id;
use field_laws::Field;
use flp_circuits::Circuit;
use flp_proof::query;
use prio3_share::{Based, Usage, joint_seed_of, part_of, push_elements};
use std::alloc::{AllocError, Global};
use vdaf_api::{PrepFault, Role};

/// The prep share of a verifier share and the half's own part, and the state.
fn with_verifier<C: Circuit>(
    alloc: Global,
    c: &C,
    x: &[C::F],
    verifier: &[C::F],
    own: &[u8],
    joint_seed: Option<[u8; 16]>,
) -> Result<(State, Vec<u8>), AllocError>
    requires input { length x.now ≡ (C.shape c.now).input_len }
    ensures share { IfOk result (λ p. p.1.items ≡ bytes_of ⟦<C::F as Based>⟧.base verifier.now ++ own.now) }
    ensures out { IfOk result (λ p. p.0.out.items ≡ bytes_of ⟦<C::F as Based>⟧.base ((C.shape c.now).truncate x.now)) }
    ensures seed { IfOk result (λ p. p.0.joint_seed ≡ joint_seed) }
{
    let mut share = Vec::new(alloc);
    push_elements(&mut share, verifier)?;
    share.extend_from_slice(own)?;
    let truncated = c.truncate(alloc, x)?;
    let mut out = Vec::new(alloc);
    push_elements(&mut out, &truncated)?;
    Ok((State { out, joint_seed }, share))
}

/// State and prep share, with the query at the point that is drawn for the report.
fn at_point<C: Circuit>(
    alloc: Global,
    c: &C,
    asked: Asked,
    half: &InputHalf<C::F>,
    randomness: &[C::F],
    own: &[u8],
    joint_seed: Option<[u8; 16]>,
) -> Result<(State, Vec<u8>), PrepFault>
    requires input { length half.now.x.items ≡ (C.shape c.now).input_len }
    requires proof { length half.now.proof.items ≡ proof_len (C.shape c.now) }
    requires joint { length randomness.now ≡ (C.shape c.now).joint_len }
    ensures { Begins start_in result (start_at_drawn ⟦<C::F as Based>⟧.base (C.shape c.now) asked.kind
        asked.key asked.id half.now.x.items half.now.proof.items randomness.now own.now (bytes_in joint_seed)) }
{
    let point = draw(
        alloc,
        asked.kind,
        &asked.key,
        Usage::QueryPoint,
        &asked.id,
        1,
    )?;
    match query(
        alloc,
        c,
        C::F::half(),
        &half.x,
        &half.proof,
        randomness,
        point[0],
    ) {
        Ok(verifier) => Ok(with_verifier(alloc, c, &half.x, &verifier, own, joint_seed)?),
        Err(fault) => Err(of_query(fault)),
    }
}

/// The joint seed of the half's own part and of the other one, which stands in the public share.
fn seed_for(
    alloc: Global,
    kind: u8,
    role: Role,
    own: &[u8; 16],
    public: &[u8],
) -> Result<[u8; 16], AllocError>
    requires { length public.now ≡ 32 }
    ensures { IfOk result (λ seed. seed ≡ joint_seed kind
        (leader_part_for role own.now public.now) (helper_part_for role own.now public.now)) }
{
    let (leader, helper) = public.split_at(16);
    match role {
        Role::Leader => joint_seed_of(alloc, kind, own, helper),
        Role::Helper => joint_seed_of(alloc, kind, leader, own),
    }
}

/// The rest of a start where there is joint randomness.
fn with_joint<C: Circuit>(
    alloc: Global,
    c: &C,
    asked: Asked,
    public: &[u8],
    half: &InputHalf<C::F>,
    blind: &[u8; 16],
) -> Result<(State, Vec<u8>), PrepFault>
    requires public { length public.now ≡ 32 }
    requires input { length half.now.x.items ≡ (C.shape c.now).input_len }
    requires proof { length half.now.proof.items ≡ proof_len (C.shape c.now) }
    requires blind { bytes_in half.now.blind ≡ blind.now }
    requires joint { 1 ≤ (C.shape c.now).joint_len }
    ensures { Begins start_in result (start_of_half ⟦<C::F as Based>⟧.base (C.shape c.now) asked.kind
        asked.role asked.key asked.id public.now (half_in half.now)) }
{
    let own = part_of(alloc, asked.kind, asked.role, &asked.id, blind, &half.x)?;
    let seed = seed_for(alloc, asked.kind, asked.role, &own, public)?;
    let randomness = draw(
        alloc,
        asked.kind,
        &seed,
        Usage::JointRandomness,
        &[],
        c.joint_len(),
    )?;
    at_point(alloc, c, asked, half, &randomness, &own, Some(seed))
}

/// The state and the prep share of a half.
fn begin<C: Circuit>(
    alloc: Global,
    c: &C,
    asked: Asked,
    public: &[u8],
    input: &[u8],
) -> Result<(State, Vec<u8>), PrepFault>
    ensures { Begins start_in result (start ⟦<C::F as Based>⟧.base (C.shape c.now) asked.kind
        asked.role asked.key asked.id public.now input.now) }
{
    if public.len() != joint_bytes(c, 32) {
        return Err(PrepFault::Invalid);
    }
    let half = half_for(alloc, c, asked.kind, asked.role, input)?;
    match &half.blind {
        Some(blind) => with_joint(alloc, c, asked, public, &half, blind),
        None => at_point(alloc, c, asked, &half, &[], &[], None),
    }
}

/// Prepares a half of a report (draft-irtf-cfrg-vdaf-03): the state that `finish` goes on with, and the prep share for
/// the other aggregator. `key` is the task's verify key, and `kind` the byte that names the kind of measurement.
///
/// `Invalid` exactly where the public share or the input share has another length or an element isn't below the
/// modulus, and, once there is memory, where a drawing is spent or the query point is a P-th root of one.
pub fn init<C: Circuit>(
    alloc: Global,
    c: &C,
    kind: u8,
    role: Role,
    key: &[u8; 16],
    id: &Id,
    public: &[u8],
    input: &[u8],
) -> Result<(State, Vec<u8>), PrepFault>
    ensures { Starts state_finish result
        (is_half ⟦<C::F as Based>⟧.base (C.shape c.now) kind role public.now input.now)
        (share_of ⟦<C::F as Based>⟧.base (C.shape c.now) kind role key.now id.now public.now input.now)
        (out_of ⟦<C::F as Based>⟧.base (C.shape c.now) kind role key.now id.now public.now input.now) }
{
    if !is_half(c, role, public, input) {
        return Err(PrepFault::Invalid);
    }
    let asked = Asked {
        kind,
        role,
        key: *key,
        id: *id,
    };
    begin(alloc, c, asked, public, input)
}
