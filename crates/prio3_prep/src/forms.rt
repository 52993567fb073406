//! The forms of halves and of prep shares, tested before memory is asked for.
ghost use Rattle.std.specs.Prelude.{◌≡◌, ℕ};
ghost use Rattle.prio3_share.specs.Preparing.{are_shares, is_half, is_input, is_share};
ghost use Rattle.vdaf_api.specs.declared.role.Role.TheVariants.{Helper, Leader};

use crate::reading::{input_bytes, joint_bytes, proof_bytes, verifier_bytes};
use field_laws::Field;
use flp_circuits::Circuit;
use flp_proof::proof_len;
use prio3_share::Based;
use vdaf_api::{Role, is_vector};

/// Whether an input share of the leader spells a half.
fn is_leader_input<C: Circuit>(c: &C, input: &[u8]) -> bool
    ensures { (kind : ℕ) → result ≡ is_input ⟦<C::F as Based>⟧.base (C.shape c.now) kind Leader input.now }
{
    let x_bytes = input_bytes(c);
    let proof_bytes = proof_bytes(c);
    if input.len() != x_bytes + (proof_bytes + joint_bytes(c, 16)) {
        return false;
    }
    let (first, rest) = input.split_at(x_bytes);
    let (second, _blind) = rest.split_at(proof_bytes);
    is_vector(C::F::MODULUS, C::F::WIDTH, c.input_len(), first)
        && is_vector(C::F::MODULUS, C::F::WIDTH, proof_len(c), second)
}

/// Whether a half has the form of one: its lengths, and the leader's elements. It takes no memory.
pub(crate) fn is_half<C: Circuit>(c: &C, role: Role, public: &[u8], input: &[u8]) -> bool
    ensures { (kind : ℕ) → result ≡ is_half ⟦<C::F as Based>⟧.base (C.shape c.now) kind role public.now input.now }
{
    if public.len() != joint_bytes(c, 32) {
        return false;
    }
    match role {
        Role::Leader => is_leader_input(c, input),
        Role::Helper => input.len() == 32 + joint_bytes(c, 16),
    }
}

/// Whether bytes have the form of a prep share: the length, and elements below the modulus. It takes no memory.
fn is_share<C: Circuit>(c: &C, share: &[u8]) -> bool
    ensures { (kind : ℕ) → result ≡ is_share ⟦<C::F as Based>⟧.base (C.shape c.now) kind share.now }
{
    let size = verifier_bytes(c);
    if share.len() != size + joint_bytes(c, 16) {
        return false;
    }
    let (verifier, _part) = share.split_at(size);
    is_vector(C::F::MODULUS, C::F::WIDTH, c.arity() + 2, verifier)
}

/// Whether both have the form of a prep share.
pub(crate) fn are_shares<C: Circuit>(c: &C, leader: &[u8], helper: &[u8]) -> bool
    ensures { (kind : ℕ) → result ≡ are_shares ⟦<C::F as Based>⟧.base (C.shape c.now) kind leader.now helper.now }
{
    is_share(c, leader) && is_share(c, helper)
}
