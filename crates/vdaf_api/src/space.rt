//! How out shares are spelled.

/// The most bytes of an out share.
pub const MOST_OUT: usize = 16_384;

/// How the out shares of a measurement function are spelled: `size` numbers below `modulus`, each in `width` bytes, the
/// lowest byte first.
#[derive(Clone, Copy, Debug, PartialEq, Eq)]
pub struct Space {
    /// What the numbers are below, at most 256^width.
    pub modulus: u128,
    /// How many bytes spell a number, 1 to 16.
    pub width: usize,
    /// How many numbers an out share has, in at most [`MOST_OUT`] bytes together.
    pub size: usize,
}
