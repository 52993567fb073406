//! The bytes of a report's input shares.
ghost use Rattle.std.specs.Prelude.{◌≡◌, ◌++◌, IfOk, OnOk};
ghost use Rattle.prio3_share.specs.Texts.{bytes_of};
ghost use Rattle.prio3_share.specs.Sharing.{if_joint};

use crate::based::Based;
use crate::keys::SeedKeys;
use crate::texts::push_elements;
use flp_circuits::Circuit;
use std::alloc::{AllocError, Global};

/// Appends a blind where the circuit takes joint randomness.
fn push_blind<C: Circuit>(out: &mut Vec<u8>, c: &C, blind: &[u8; 16]) -> Result<(), AllocError>
    ensures { OnOk result (out.new.items ≡ out.old.items ++ if_joint (C.shape c.now) blind.now) }
{
    if c.joint_len() == 0 {
        return Ok(());
    }
    out.extend_from_slice(blind)
}

/// The leader's input share: its half of the input and of the proof, and its blind.
pub(crate) fn leader_share<C: Circuit>(
    alloc: Global,
    c: &C,
    input: &[C::F],
    proof: &[C::F],
    blind: &[u8; 16],
) -> Result<Vec<u8>, AllocError>
    ensures { IfOk result (λ v. v.items ≡ bytes_of ⟦<C::F as Based>⟧.base input.now
        ++ (bytes_of ⟦<C::F as Based>⟧.base proof.now ++ if_joint (C.shape c.now) blind.now)) }
{
    let mut share = Vec::new(alloc);
    push_elements(&mut share, input)?;
    push_elements(&mut share, proof)?;
    push_blind(&mut share, c, blind)?;
    Ok(share)
}

/// The helper's input share: the keys that its halves are drawn from, and its blind.
pub(crate) fn helper_share<C: Circuit>(
    alloc: Global,
    c: &C,
    keys: &SeedKeys,
) -> Result<Vec<u8>, AllocError>
    ensures { IfOk result (λ v. v.items ≡ keys.now.input
        ++ (keys.now.proof ++ if_joint (C.shape c.now) keys.now.helper_blind)) }
{
    let mut share = Vec::new(alloc);
    share.extend_from_slice(&keys.input)?;
    share.extend_from_slice(&keys.proof)?;
    push_blind(&mut share, c, &keys.helper_blind)?;
    Ok(share)
}
