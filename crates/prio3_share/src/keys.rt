//! The keys of a client's seed.

/// What a client's seed is spread into: the keys that the helper's halves and the wire seeds are drawn from, and the
/// blinds of both halves' parts.
#[derive(Clone, Copy)]
pub(crate) struct SeedKeys {
    pub(crate) input: [u8; 16],
    pub(crate) proof: [u8; 16],
    pub(crate) wires: [u8; 16],
    pub(crate) leader_blind: [u8; 16],
    pub(crate) helper_blind: [u8; 16],
}
