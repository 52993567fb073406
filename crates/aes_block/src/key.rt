//! Keys and the encryption of a block.

use crate::columns::{self, Columns};
use crate::schedule::next_round_key;
use std::marker::Model;

const ROUNDS: usize = 10;

/// An AES-128 key, expanded to the keys of its eleven additions (FIPS 197, section 5.2).
#[derive(Drop)]
pub struct Key {
    round_keys: [Columns; 11],
}

impl Model for Key {
    ghost use Rattle.std.specs.Prelude.{List, ℕ};
    ghost use Rattle.aes_block.specs.Columns.{AreRoundKeys, key_of};

    // The key's 16 bytes.
    ghost Value = { List ℕ };

    ghost view = { λ k. key_of k.round_keys };

    ghost invariant = { λ k. AreRoundKeys (key_of k.round_keys) 11 k.round_keys };
}

impl Key {
    ghost use Rattle.std.specs.Prelude.{◌≡◌};
    ghost use Rattle.aes_block.specs.Cipher.{encrypt};

    /// Expands the key of these 16 bytes. It takes no memory.
    pub fn new(key: [u8; 16]) -> Key
        ensures { result ≡ key }
    {
        let mut round_keys = [[0; 4]; 11];
        round_keys[0] = columns::columns_of(&key);
        for round in 1..11 {
            round_keys[round] = next_round_key(round_keys[round - 1], round);
        }
        Key { round_keys }
    }

    /// The encryption of a block of 16 bytes (FIPS 197, section 5.1). It takes no memory.
    pub fn encrypt(&self, block: [u8; 16]) -> [u8; 16]
        ensures { result ≡ encrypt self.now block }
    {
        let mut state = columns::columns_of(&block);
        columns::add_round_key(&mut state, &self.round_keys[0]);
        for done in 0..9 {
            columns::round(&mut state, &self.round_keys[done + 1]);
        }
        columns::last_round(&mut state, &self.round_keys[10]);
        columns::block_of(state)
    }
}
