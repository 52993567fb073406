//! What is taken from the stream of a seed for a use.
ghost use Rattle.std.specs.Prelude.{◌≡◌, ◌≤◌, ◌++◌, ◌∷◌, length, IfOk};
ghost use Rattle.aes_cmac_prg.specs.Cmac.{cmac};
ghost use Rattle.aes_cmac_prg.specs.Fault.{Draws};
ghost use Rattle.prio3_share.specs.Texts.{bytes_for, drawn_for, info, joint_seed, part};

use crate::based::Based;
use crate::texts::{info_text, push_elements};
use crate::usage::Usage;
use aes_cmac_prg::{DrawFault, Prg};
use dap_bytes::Id;
use field_laws::Field;
use std::alloc::{AllocError, Global};
use vdaf_api::Role;

/// The stream of a seed for a use, at its beginning.
pub(crate) fn stream_for(
    alloc: Global,
    kind: u8,
    seed: &[u8; 16],
    usage: Usage,
    rest: &[u8],
) -> Result<Prg, AllocError>
    ensures { IfOk result (λ prg. prg ≡ record { key = cmac seed.now (info kind usage rest.now); place = 0 }) }
{
    let text = info_text(alloc, kind, usage, rest)?;
    Ok(Prg::new(seed, &text))
}

/// The first 16 bytes of the stream of a seed for a use.
fn block_for(
    alloc: Global,
    kind: u8,
    seed: &[u8; 16],
    usage: Usage,
    rest: &[u8],
) -> Result<[u8; 16], AllocError>
    ensures { IfOk result (λ block. block ≡ bytes_for kind seed.now usage rest.now 16) }
{
    let mut prg = stream_for(alloc, kind, seed, usage, rest)?;
    let mut block = [0; 16];
    prg.next_bytes(&mut block);
    Ok(block)
}

/// Elements drawn from the stream of a seed for a use, at most 8,192 of them: `Spent` exactly where the drawing is.
pub fn draw_for<F: Field>(
    alloc: Global,
    kind: u8,
    seed: &[u8; 16],
    usage: Usage,
    rest: &[u8],
    n: usize,
) -> Result<Vec<F>, DrawFault>
    requires few { n ≤ 8192 }
    ensures drawn { Draws result (drawn_for ⟦<F as Based>⟧.base kind seed.now usage rest.now n) }
    ensures size { IfOk result (λ v. length v.items ≡ n) }
{
    let mut prg = stream_for(alloc, kind, seed, usage, rest).map_err(|_| DrawFault::NoMemory)?;
    prg.draw(alloc, n)
}

/// The part of the joint randomness that a half `x` of an input gives, under the half's blind.
pub fn part_of<F: Field>(
    alloc: Global,
    kind: u8,
    role: Role,
    id: &Id,
    blind: &[u8; 16],
    x: &[F],
) -> Result<[u8; 16], AllocError>
    ensures { IfOk result (λ own. own ≡ part ⟦<F as Based>⟧.base kind role id.now blind.now x.now) }
{
    let mut rest = Vec::new(alloc);
    rest.push(role.byte())?;
    rest.extend_from_slice(id)?;
    push_elements(&mut rest, x)?;
    block_for(alloc, kind, blind, Usage::Part, &rest)
}

/// The joint seed of the leader's and the helper's part.
pub fn joint_seed_of(
    alloc: Global,
    kind: u8,
    leader: &[u8],
    helper: &[u8],
) -> Result<[u8; 16], AllocError>
    ensures { IfOk result (λ seed. seed ≡ joint_seed kind leader.now helper.now) }
{
    let mut parts = Vec::new(alloc);
    parts.extend_from_slice(leader)?;
    parts.extend_from_slice(helper)?;
    block_for(alloc, kind, &[0; 16], Usage::JointSeed, &parts)
}
