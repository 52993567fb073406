//! The prep message of both prep shares, and the out share.
ghost use Rattle.std.specs.Prelude.{◌≡◌, ◌≤◌, ◌+◌, ℕ, IfOk, length};
ghost use Rattle.std.specs.Str.{bytes_eq};
ghost use Rattle.field_laws.specs.Polynomial.{add_polynomials};
ghost use Rattle.vdaf_api.specs.Answered.{Finishes, Prepares};
ghost use Rattle.prio3_share.specs.Preparing.{accepts, are_shares, combine, message_of, verifier_bytes};
ghost use Rattle.prio3_prep.specs.States.{Begins, bytes_in, state_finish};

use crate::forms::are_shares;
use crate::reading::{read_verifier, verifier_bytes};
use crate::state::State;
use field_laws::add_all;
use flp_circuits::Circuit;
use flp_proof::decide;
use prio3_share::{Based, joint_seed_of};
use std::alloc::{AllocError, Global};
use vdaf_api::PrepFault;

/// Whether two verifier shares add to a verifier that is accepted.
fn is_accepted<C: Circuit>(c: &C, mut leader: Vec<C::F>, helper: &[C::F]) -> bool
    requires leader { length leader.items ≡ (C.shape c.now).arity + 2 }
    requires helper { length helper.now ≡ (C.shape c.now).arity + 2 }
    ensures { (kind : ℕ) → result ≡ accepts ⟦<C::F as Based>⟧.base (C.shape c.now) kind
        (add_polynomials C.F.ring leader.items helper.now) }
{
    add_all(&mut leader, helper);
    decide(c, &leader)
}

/// The joint seed of the parts behind the verifier shares, where there is joint randomness, else no bytes.
fn message_of<C: Circuit>(
    alloc: Global,
    c: &C,
    kind: u8,
    leader: &[u8],
    helper: &[u8],
) -> Result<Vec<u8>, AllocError>
    requires leader { verifier_bytes ⟦<C::F as Based>⟧.base (C.shape c.now) kind ≤ length leader.now }
    requires helper { verifier_bytes ⟦<C::F as Based>⟧.base (C.shape c.now) kind ≤ length helper.now }
    ensures { IfOk result
        (λ v. v.items ≡ message_of ⟦<C::F as Based>⟧.base (C.shape c.now) kind leader.now helper.now) }
{
    if c.joint_len() == 0 {
        return Ok(Vec::new(alloc));
    }
    let size = verifier_bytes(c);
    let (_, leader_part) = leader.split_at(size);
    let (_, helper_part) = helper.split_at(size);
    let seed = joint_seed_of(alloc, kind, leader_part, helper_part)?;
    seed.to_vec(alloc)
}

/// The prep message of two prep shares, and `Invalid` exactly where there is none.
fn join<C: Circuit>(
    alloc: Global,
    c: &C,
    kind: u8,
    leader: &[u8],
    helper: &[u8],
) -> Result<Vec<u8>, PrepFault>
    ensures { Begins (λ v. v.items) result (combine ⟦<C::F as Based>⟧.base (C.shape c.now) kind leader.now helper.now) }
{
    let leader_verifier = read_verifier(alloc, c, leader)?;
    let helper_verifier = read_verifier(alloc, c, helper)?;
    if !is_accepted(c, leader_verifier, &helper_verifier) {
        return Err(PrepFault::Invalid);
    }
    Ok(message_of(alloc, c, kind, leader, helper)?)
}

/// The prep message of the leader's and the helper's prep share: the joint seed of their parts, or no bytes where there
/// is no joint randomness.
///
/// `Invalid` exactly where a prep share has another length or an element isn't below the modulus, and, once there is
/// memory, where the sum of the verifier shares isn't accepted.
pub fn combine<C: Circuit>(
    alloc: Global,
    c: &C,
    kind: u8,
    leader: &[u8],
    helper: &[u8],
) -> Result<Vec<u8>, PrepFault>
    ensures { Prepares result
        (are_shares ⟦<C::F as Based>⟧.base (C.shape c.now) kind leader.now helper.now)
        (combine ⟦<C::F as Based>⟧.base (C.shape c.now) kind leader.now helper.now) }
{
    if !are_shares(c, leader, helper) {
        return Err(PrepFault::Invalid);
    }
    join(alloc, c, kind, leader, helper)
}

impl State {
    /// Whether the prep message is the one that the state waits for.
    fn awaits(&self, message: &[u8]) -> bool
        ensures { result ≡ bytes_eq message.now (bytes_in self.now.joint_seed) }
    {
        match self.joint_seed {
            Some(seed) => message == seed.as_slice(),
            None => message.is_empty(),
        }
    }
}

/// The out share of a half, once the prep message has come.
///
/// `Invalid` exactly where the message isn't the state's joint seed, or isn't empty where there is no joint randomness;
/// memory is asked for behind that.
pub fn finish(alloc: Global, state: &State, message: &[u8]) -> Result<Vec<u8>, PrepFault>
    ensures { Finishes result (state_finish state.now message.now) }
{
    if !state.awaits(message) {
        return Err(PrepFault::Invalid);
    }
    Ok(state.out.as_slice().to_vec(alloc)?)
}
