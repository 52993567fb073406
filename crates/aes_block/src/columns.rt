//! The state and the round keys as four words, and the rounds on them.

ghost use Rattle.std.specs.Prelude.{◌≡◌, ◌+◌, ◌≤◌, drop, take};
ghost use Rattle.std.specs.Int.{w32, to_be_bytes};
ghost use Rattle.aes_block.specs.Byte.{sub_byte};
ghost use Rattle.aes_block.specs.Cipher.{last_round, round};
ghost use Rattle.aes_block.specs.Columns.{bytes_of, column_times, last_column, mixed_column};
ghost use Rattle.aes_block.specs.State.{add_round_key};

use crate::tables::{MIXED_0, MIXED_1, MIXED_2, MIXED_3, SUBSTITUTED};

/// Four columns, each with its first row in the high byte.
pub(crate) type Columns = [u32; 4];

/// SubBytes at one byte.
#[inline(always)]
pub(crate) fn substituted(byte: u8) -> u8
    ensures { result ≡ sub_byte byte }
{
    SUBSTITUTED[byte as usize]
}

#[inline(always)]
fn mixed_0(byte: u8) -> u32
    ensures { to_be_bytes w32 result ≡ column_times 0 (sub_byte byte) }
{
    MIXED_0[byte as usize]
}

#[inline(always)]
fn mixed_1(byte: u8) -> u32
    ensures { to_be_bytes w32 result ≡ column_times 1 (sub_byte byte) }
{
    MIXED_1[byte as usize]
}

#[inline(always)]
fn mixed_2(byte: u8) -> u32
    ensures { to_be_bytes w32 result ≡ column_times 2 (sub_byte byte) }
{
    MIXED_2[byte as usize]
}

#[inline(always)]
fn mixed_3(byte: u8) -> u32
    ensures { to_be_bytes w32 result ≡ column_times 3 (sub_byte byte) }
{
    MIXED_3[byte as usize]
}

// A column after ShiftRows has its four rows from four columns.
#[inline(always)]
fn mixed_column(a: u32, b: u32, c: u32, d: u32, key: u32) -> u32
    ensures { to_be_bytes w32 result ≡ mixed_column a b c d key }
{
    mixed_0(a.to_be_bytes()[0])
        ^ mixed_1(b.to_be_bytes()[1])
        ^ mixed_2(c.to_be_bytes()[2])
        ^ mixed_3(d.to_be_bytes()[3])
        ^ key
}

#[inline(always)]
fn last_column(a: u32, b: u32, c: u32, d: u32, key: u32) -> u32
    ensures { to_be_bytes w32 result ≡ last_column a b c d key }
{
    u32::from_be_bytes([
        substituted(a.to_be_bytes()[0]),
        substituted(b.to_be_bytes()[1]),
        substituted(c.to_be_bytes()[2]),
        substituted(d.to_be_bytes()[3]),
    ]) ^ key
}

/// A round but the last.
#[inline(always)]
pub(crate) fn round(state: &mut Columns, key: &Columns)
    ensures { bytes_of state.new ≡ round (bytes_of state.old) (bytes_of key.now) }
{
    let [a, b, c, d] = *state;
    *state = [
        mixed_column(a, b, c, d, key[0]),
        mixed_column(b, c, d, a, key[1]),
        mixed_column(c, d, a, b, key[2]),
        mixed_column(d, a, b, c, key[3]),
    ];
}

/// The last round, which has no MixColumns.
#[inline(always)]
pub(crate) fn last_round(state: &mut Columns, key: &Columns)
    ensures { bytes_of state.new ≡ last_round (bytes_of state.old) (bytes_of key.now) }
{
    let [a, b, c, d] = *state;
    *state = [
        last_column(a, b, c, d, key[0]),
        last_column(b, c, d, a, key[1]),
        last_column(c, d, a, b, key[2]),
        last_column(d, a, b, c, key[3]),
    ];
}

/// AddRoundKey.
#[inline(always)]
pub(crate) fn add_round_key(state: &mut Columns, key: &Columns)
    ensures { bytes_of state.new ≡ add_round_key (bytes_of state.old) (bytes_of key.now) }
{
    let [a, b, c, d] = *state;
    *state = [a ^ key[0], b ^ key[1], c ^ key[2], d ^ key[3]];
}

// The column whose first row is byte number `start` of the block.
#[inline(always)]
fn column_at(block: &[u8; 16], start: usize) -> u32
    requires { start + 4 ≤ 16 }
    ensures { to_be_bytes w32 result ≡ take 4 (drop start block.now) }
{
    u32::from_be_bytes([
        block[start],
        block[start + 1],
        block[start + 2],
        block[start + 3],
    ])
}

/// The columns of a block, whose byte number r + 4c stands in row r, column c.
#[inline(always)]
pub(crate) fn columns_of(block: &[u8; 16]) -> Columns
    ensures { bytes_of result ≡ block.now }
{
    [
        column_at(block, 0),
        column_at(block, 4),
        column_at(block, 8),
        column_at(block, 12),
    ]
}

/// The block of these columns.
#[inline(always)]
pub(crate) fn block_of(columns: Columns) -> [u8; 16]
    ensures { result ≡ bytes_of columns }
{
    let [b0, b1, b2, b3] = columns[0].to_be_bytes();
    let [b4, b5, b6, b7] = columns[1].to_be_bytes();
    let [b8, b9, b10, b11] = columns[2].to_be_bytes();
    let [b12, b13, b14, b15] = columns[3].to_be_bytes();
    [
        b0, b1, b2, b3, b4, b5, b6, b7, b8, b9, b10, b11, b12, b13, b14, b15,
    ]
}
