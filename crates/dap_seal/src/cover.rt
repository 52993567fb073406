//! The cipher of a seal.

ghost use Rattle.std.specs.Prelude.{◌≡◌, IfOk, ◌+◌, ◌<◌, length};
ghost use Rattle.aes_cmac_prg.specs.Stream.{stream};
ghost use Rattle.dap_batch.specs.Checksum.{xor_bytes};
ghost use Rattle.dap_seal.specs.Sealed.{cipher_info, covered_by};

use aes_cmac_prg::Prg;
use dap_bytes::{Id, put_u8};
use std::alloc::{AllocError, Global};
use vdaf_api::{Role, SealKeys};

/// Bytes covered by the stream of a key, an aggregator and an identifier, or uncovered again.
pub fn covered(
    alloc: Global,
    keys: &SealKeys,
    role: Role,
    id: &Id,
    bytes: &[u8],
) -> Result<Vec<u8>, AllocError>
    ensures { IfOk result (λ v. v.items ≡ covered_by keys.now role id.now bytes.now) }
{
    let info = info_text(alloc, role, id)?;
    let stream = stream_of(alloc, &keys.enc, &info, bytes.len())?;
    differences(alloc, bytes, &stream)
}

/// What tells a stream from the others of its key.
fn info_text(alloc: Global, role: Role, id: &Id) -> Result<Vec<u8>, AllocError>
    ensures { IfOk result (λ v. v.items ≡ cipher_info role id.now) }
{
    let mut info = Vec::new(alloc);
    info.extend_from_slice(b"dap seal")?;
    put_u8(&mut info, role.byte())?;
    info.extend_from_slice(id)?;
    Ok(info)
}

/// The first bytes of a stream.
fn stream_of(alloc: Global, key: &[u8; 16], info: &[u8], len: usize) -> Result<Vec<u8>, AllocError>
    ensures { IfOk result (λ v. v.items ≡ stream key.now info.now len) }
{
    let mut bytes = vec![in alloc; 0; len]?;
    Prg::new(key, info).next_bytes(&mut bytes);
    Ok(bytes)
}

/// The bits in which bytes differ from others of their number.
fn differences(alloc: Global, bytes: &[u8], others: &[u8]) -> Result<Vec<u8>, AllocError>
    requires { length bytes.now ≡ length others.now }
    ensures { IfOk result (λ v. v.items ≡ xor_bytes bytes.now others.now) }
{
    let mut bits = Vec::with_capacity(alloc, bytes.len())?;
    for i in 0..bytes.len() {
        bits.push(bytes[i] ^ others[i])?;
    }
    Ok(bits)
}
