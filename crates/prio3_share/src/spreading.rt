//! How a client's seed is spread into its keys.
ghost use Rattle.std.specs.Prelude.{◌≡◌, ◌*◌, ◌<◌, IfOk, drop, length, take};
ghost use Rattle.prio3_share.specs.Texts.{bytes_for};
ghost use Rattle.prio3_share.specs.Steps.{keys_of};

use crate::keys::SeedKeys;
use crate::streams::stream_for;
use crate::usage::Usage;
use std::alloc::{AllocError, Global};

const KEY_LEN: usize = 16;

const KEYS_LEN: usize = 80;

/// The i-th 16 of 80 bytes.
fn key_at(bytes: &[u8; KEYS_LEN], i: usize) -> [u8; 16]
    requires { i < 5 }
    ensures { result ≡ take 16 (drop (16 * i) bytes.now) }
{
    let mut key = [0; KEY_LEN];
    key.copy_from_slice(&bytes[KEY_LEN * i..KEY_LEN * i + KEY_LEN]);
    key
}

/// The keys of a seed: the first 80 bytes of its stream, 16 for each.
pub(crate) fn keys_of(alloc: Global, kind: u8, seed: &[u8; 16]) -> Result<SeedKeys, AllocError>
    ensures { IfOk result (λ keys. keys ≡ keys_of kind seed.now) }
{
    let mut stream = stream_for(alloc, kind, seed, Usage::Keys, &[])?;
    let mut bytes = [0; KEYS_LEN];
    stream.next_bytes(&mut bytes);
    Ok(SeedKeys {
        input: key_at(&bytes, 0),
        proof: key_at(&bytes, 1),
        wires: key_at(&bytes, 2),
        leader_blind: key_at(&bytes, 3),
        helper_blind: key_at(&bytes, 4),
    })
}
