//! The tag of a seal.

ghost use Rattle.std.specs.Prelude.{◌≡◌, IfOk};
ghost use Rattle.dap_seal.specs.Sealed.{tag_by, tag_text};

use crate::head::Head;
use aes_block::Key;
use aes_cmac_prg::cmac;
use dap_bytes::{put_u8, put_u32, put_u64};
use dap_messages::put_name;
use std::alloc::{AllocError, Global};
use vdaf_api::{Role, SealKeys};

/// How many bytes a tag has.
pub const TAG_LEN: usize = 16;

/// The tag of a head and a ciphertext under an aggregator's keys.
pub fn tag_of(
    alloc: Global,
    keys: &SealKeys,
    role: Role,
    head: &Head,
    ciphertext: &[u8],
) -> Result<[u8; TAG_LEN], AllocError>
    ensures { IfOk result (λ tag. tag ≡ tag_by keys.now role head.now ciphertext.now) }
{
    let text = text_of(alloc, role, head, ciphertext)?;
    Ok(cmac(&Key::new(keys.mac), &text))
}

/// What a tag is made of.
fn text_of(alloc: Global, role: Role, head: &Head, ciphertext: &[u8]) -> Result<Vec<u8>, AllocError>
    ensures { IfOk result (λ v. v.items ≡ tag_text role head.now ciphertext.now) }
{
    let mut text = Vec::new(alloc);
    put_u8(&mut text, role.byte())?;
    put_name(&mut text, &head.name)?;
    text.extend_from_slice(&head.id)?;
    put_u64(&mut text, head.time)?;
    put_u32(&mut text, (head.public.len() % (1 << 32)) as u32)?;
    text.extend_from_slice(head.public.as_slice())?;
    text.extend_from_slice(ciphertext)?;
    Ok(text)
}
