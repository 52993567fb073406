//! Input shares and prep shares, read.
ghost use Rattle.std.specs.Prelude.{◌≡◌, ◌≤◌, ◌+◌, ◌*◌, ◌⊎◌, ℕ, IfOk, IfSome, OnOk, length};
ghost use Rattle.flp_proof.specs.Proof.{proof_len};
ghost use Rattle.vdaf_api.specs.declared.role.Role.TheVariants.{Helper, Leader};
ghost use Rattle.prio3_share.specs.Texts.{drawn_for};
ghost use Rattle.prio3_share.specs.Sharing.{joint_bytes};
ghost use Rattle.prio3_share.specs.Preparing.{elements_of, half_of, verifier_bytes, verifier_of};
ghost use Rattle.prio3_prep.specs.States.{Begins, Sizes, bytes_in, half_in};

use crate::faults::of_draw;
use crate::half::InputHalf;
use field_laws::Field;
use flp_circuits::Circuit;
use flp_proof::proof_len;
use prio3_share::{Based, Usage, draw_for};
use std::alloc::Global;
use vdaf_api::{PrepFault, Role};

/// Elements drawn for a use; a spent drawing is an invalid share.
pub(crate) fn draw<F: Field>(
    alloc: Global,
    kind: u8,
    seed: &[u8; 16],
    usage: Usage,
    rest: &[u8],
    n: usize,
) -> Result<Vec<F>, PrepFault>
    requires few { n ≤ 8192 }
    ensures drawn { Begins (λ v. v.items) result (drawn_for ⟦<F as Based>⟧.base kind seed.now usage rest.now n) }
    ensures size { IfOk result (λ v. length v.items ≡ n) }
{
    draw_for(alloc, kind, seed, usage, rest, n).map_err(of_draw)
}

/// The `n` elements that these bytes spell.
pub(crate) fn read_elements<F: Field>(
    alloc: Global,
    n: usize,
    bytes: &[u8],
) -> Result<Vec<F>, PrepFault>
    requires { length bytes.now ≡ n * F.WIDTH }
    ensures elements { Begins (λ v. v.items) result (elements_of ⟦<F as Based>⟧.base n bytes.now) }
    ensures size { IfOk result (λ v. length v.items ≡ n) }
{
    let mut elements = Vec::new(alloc);
    let mut rest = bytes;
    for i in 0..n {
        let (first, more) = rest.split_at(F::WIDTH);
        let Some(element) = F::decode(first) else {
            return Err(PrepFault::Invalid);
        };
        match elements.push(element) {
            Ok(()) => rest = more,
            Err(_) => return Err(PrepFault::NoMemory),
        }
    }
    Ok(elements)
}

/// This number of bytes where there is joint randomness, else none.
pub(crate) fn joint_bytes<C: Circuit>(c: &C, n: usize) -> usize
    ensures { result ≡ joint_bytes (C.shape c.now) n }
{
    if c.joint_len() > 0 { n } else { 0 }
}

/// How many bytes spell an input.
pub(crate) fn input_bytes<C: Circuit>(c: &C) -> usize
    ensures bytes { result ≡ (C.shape c.now).input_len * C.F.WIDTH }
    ensures few { result ≤ 131072 }
{
    c.input_len() * C::F::WIDTH
}

/// How many bytes spell a proof.
pub(crate) fn proof_bytes<C: Circuit>(c: &C) -> usize
    ensures bytes { result ≡ proof_len (C.shape c.now) * C.F.WIDTH }
    ensures few { result ≤ 131072 }
{
    proof_len(c) * C::F::WIDTH
}

/// How many bytes spell a verifier share.
pub(crate) fn verifier_bytes<C: Circuit>(c: &C) -> usize
    ensures bytes { result ≡ ((C.shape c.now).arity + 2) * C.F.WIDTH }
    ensures few { result ≤ 64 }
{
    (c.arity() + 2) * C::F::WIDTH
}

/// A key as an array.
pub(crate) fn key_from(bytes: &[u8]) -> [u8; 16]
    requires { length bytes.now ≡ 16 }
    ensures { result ≡ bytes.now }
{
    let mut key = [0; 16];
    key.copy_from_slice(bytes);
    key
}

/// The blind behind the halves of an input share.
fn blind_from(bytes: &[u8]) -> Option<[u8; 16]>
    requires { length bytes.now ≡ 16 ⊎ length bytes.now ≡ 0 }
    ensures bytes { bytes_in result ≡ bytes.now }
    ensures size { IfSome result (λ b. length b ≡ 16) }
{
    if bytes.is_empty() {
        None
    } else {
        Some(key_from(bytes))
    }
}

/// The leader's half: its input share spells it.
#[tactic(auto, unfolding(prio3_share::specs::Preparing::half_of))]
fn leader_half<C: Circuit>(alloc: Global, c: &C, input: &[u8]) -> Result<InputHalf<C::F>, PrepFault>
    ensures { (kind : ℕ) → Begins half_in result
        (half_of ⟦<C::F as Based>⟧.base (C.shape c.now) kind Leader input.now) }
{
    let x_bytes = input_bytes(c);
    let proof_bytes = proof_bytes(c);
    if input.len() != x_bytes + (proof_bytes + joint_bytes(c, 16)) {
        return Err(PrepFault::Invalid);
    }
    let (first, rest) = input.split_at(x_bytes);
    let (second, blind) = rest.split_at(proof_bytes);
    Ok(InputHalf {
        x: read_elements(alloc, c.input_len(), first)?,
        proof: read_elements(alloc, proof_len(c), second)?,
        blind: blind_from(blind),
    })
}

/// The helper's half: it is drawn from the keys in its input share.
#[tactic(auto, unfolding(prio3_share::specs::Preparing::half_of))]
fn helper_half<C: Circuit>(
    alloc: Global,
    c: &C,
    kind: u8,
    input: &[u8],
) -> Result<InputHalf<C::F>, PrepFault>
    ensures { Begins half_in result (half_of ⟦<C::F as Based>⟧.base (C.shape c.now) kind Helper input.now) }
{
    if input.len() != 32 + joint_bytes(c, 16) {
        return Err(PrepFault::Invalid);
    }
    let (first, rest) = input.split_at(16);
    let (second, blind) = rest.split_at(16);
    let x_key = key_from(first);
    let x = draw(alloc, kind, &x_key, Usage::HelperInput, &[], c.input_len())?;
    let proof_key = key_from(second);
    let proof = draw(
        alloc,
        kind,
        &proof_key,
        Usage::HelperProof,
        &[],
        proof_len(c),
    )?;
    Ok(InputHalf {
        x,
        proof,
        blind: blind_from(blind),
    })
}

/// What an input share holds.
pub(crate) fn half_for<C: Circuit>(
    alloc: Global,
    c: &C,
    kind: u8,
    role: Role,
    input: &[u8],
) -> Result<InputHalf<C::F>, PrepFault>
    ensures half { Begins half_in result (half_of ⟦<C::F as Based>⟧.base (C.shape c.now) kind role input.now) }
    ensures sizes { IfOk result (λ half. Sizes (C.shape c.now) (half_in half)) }
{
    match role {
        Role::Leader => leader_half(alloc, c, input),
        Role::Helper => helper_half(alloc, c, kind, input),
    }
}

/// The verifier share in a prep share.
pub(crate) fn read_verifier<C: Circuit>(
    alloc: Global,
    c: &C,
    share: &[u8],
) -> Result<Vec<C::F>, PrepFault>
    ensures verifier { (kind : ℕ) → Begins (λ v. v.items) result
        (verifier_of ⟦<C::F as Based>⟧.base (C.shape c.now) kind share.now) }
    ensures size { IfOk result (λ v. length v.items ≡ (C.shape c.now).arity + 2) }
    ensures room { (kind : ℕ) → OnOk result
        (verifier_bytes ⟦<C::F as Based>⟧.base (C.shape c.now) kind ≤ length share.now) }
{
    let size = verifier_bytes(c);
    if share.len() != size + joint_bytes(c, 16) {
        return Err(PrepFault::Invalid);
    }
    let (verifier, _part) = share.split_at(size);
    read_elements(alloc, c.arity() + 2, verifier)
}
