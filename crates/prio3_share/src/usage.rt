//! What seeds are used for.

/// What the stream of a seed is used for. The info text of a stream names its use, so that no two uses share a stream.
#[derive(Clone, Copy, Debug, PartialEq, Eq)]
pub enum Usage {
    /// The keys and blinds of a client's seed.
    Keys,
    /// The helper's half of the input.
    HelperInput,
    /// A half's part of the joint randomness.
    Part,
    /// The joint seed of both parts.
    JointSeed,
    /// The joint randomness.
    JointRandomness,
    /// The wire seeds of the proof.
    WireSeeds,
    /// The helper's half of the proof.
    HelperProof,
    /// The point at which both halves are queried.
    QueryPoint,
}
