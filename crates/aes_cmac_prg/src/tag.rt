//! Tags of texts.

ghost use Rattle.std.specs.Prelude.{◌≡◌, ◌<◌, ◌≤◌, length, replicate};
ghost use Rattle.aes_block.specs.Cipher.{encrypt};
ghost use Rattle.aes_block.specs.Schedule.{add_bytes};
ghost use Rattle.aes_cmac_prg.specs.Cmac.{cmac, doubled, last_block, padded};

use aes_block::Key;

const BLOCK_LEN: usize = 16;

// Joins a block with another by exclusive or.
#[inline(always)]
fn add_to(sum: &mut [u8; 16], block: &[u8])
    requires { length block.now ≡ 16 }
    ensures { sum.new ≡ add_bytes sum.old block.now }
{
    for i in 0..BLOCK_LEN {
        sum[i] ^= block[i];
    }
}

/// The subkey after this one, and the first after the encryption of the zero block.
#[tactic(auto, unfolding(crate::specs::Cmac::doubled))]
pub(crate) fn doubled(block: [u8; 16]) -> [u8; 16]
    ensures { result ≡ doubled block }
{
    let number = u128::from_be_bytes(block);
    let shifted = number << 1;
    if number >> 127 == 1 {
        (shifted ^ 0x87).to_be_bytes()
    } else {
        shifted.to_be_bytes()
    }
}

// A part shorter than a block, followed by a bit 1 and zeros.
fn padded(part: &[u8]) -> [u8; 16]
    requires { length part.now < 16 }
    ensures { result ≡ padded part.now }
{
    let mut block = [0; 16];
    block[..part.len()].copy_from_slice(part);
    block[part.len()] = 0x80;
    block
}

// The last block: a whole one joined with the first subkey, a shorter one padded and joined with
// the second.
#[tactic(auto, unfolding(crate::specs::Cmac::last_block, crate::specs::Cmac::first_subkey, crate::specs::Cmac::second_subkey))]
fn last_block(key: &Key, part: &[u8]) -> [u8; 16]
    requires { length part.now ≤ 16 }
    ensures { result ≡ last_block key.now part.now }
{
    let first = doubled(key.encrypt([0; 16]));
    if part.len() == BLOCK_LEN {
        let mut block = [0; 16];
        block.copy_from_slice(part);
        add_to(&mut block, &first);
        block
    } else {
        let mut block = padded(part);
        add_to(&mut block, &doubled(first));
        block
    }
}

// Joins a block with the encryption so far, and encrypts the sum.
#[inline(always)]
fn chain_on(key: &Key, chain: &mut [u8; 16], block: &[u8])
    requires { length block.now ≡ 16 }
    ensures { chain.new ≡ encrypt key.now (add_bytes chain.old block.now) }
{
    add_to(chain, block);
    let next = key.encrypt(*chain);
    *chain = next;
}

/// The tag of a text under a key, CMAC with AES-128 (NIST SP 800-38B, RFC 4493). It takes no memory.
pub fn cmac(key: &Key, text: &[u8]) -> [u8; 16]
    ensures { result ≡ cmac key.now text.now }
{
    let before_last = text.len().saturating_sub(1) / BLOCK_LEN;
    let mut chain = [0; 16];
    for i in 0..before_last {
        let start = BLOCK_LEN * i;
        chain_on(key, &mut chain, &text[start..start + BLOCK_LEN]);
    }
    let last = last_block(key, &text[BLOCK_LEN * before_last..]);
    chain_on(key, &mut chain, &last);
    chain
}
