//! The key of a round from the one before it.

ghost use Rattle.std.specs.Prelude.{◌≡◌, ◌≤◌};
ghost use Rattle.std.specs.Int.{w32, to_be_bytes};
ghost use Rattle.aes_block.specs.Columns.{next_words, words_of};
ghost use Rattle.aes_block.specs.Schedule.{turned};

use crate::columns::{Columns, substituted};

// The constants of rounds 1 to 10: the powers of x, from 1 on.
const ROUND_CONSTANTS: [u8; 10] = [0x01, 0x02, 0x04, 0x08, 0x10, 0x20, 0x40, 0x80, 0x1b, 0x36];

// A word turned left by one byte, substituted and joined with the round's constant.
fn turned(word: u32, round: usize) -> u32
    requires first { 1 ≤ round }
    requires last { round ≤ 10 }
    ensures { to_be_bytes w32 result ≡ turned (to_be_bytes w32 word) round }
{
    let [b0, b1, b2, b3] = word.to_be_bytes();
    u32::from_be_bytes([
        substituted(b1) ^ ROUND_CONSTANTS[round - 1],
        substituted(b2),
        substituted(b3),
        substituted(b0),
    ])
}

/// The key of round `round`, from the key of the round before.
pub(crate) fn next_round_key(previous: Columns, round: usize) -> Columns
    requires first { 1 ≤ round }
    requires last { round ≤ 10 }
    ensures { words_of result ≡ next_words (words_of previous) round }
{
    let [a, b, c, d] = previous;
    let first = a ^ turned(d, round);
    let second = b ^ first;
    let third = c ^ second;
    [first, second, third, d ^ third]
}
