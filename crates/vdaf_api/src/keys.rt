//! The keys of a seal.

/// The keys with which a half of a report is sealed for one of the two aggregators.
#[derive(Clone, Copy, Debug, PartialEq, Eq)]
pub struct SealKeys {
    /// The key of the cipher.
    pub enc: [u8; 16],
    /// The key of the tag.
    pub mac: [u8; 16],
}
