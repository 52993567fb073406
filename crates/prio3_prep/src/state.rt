//! What an aggregator keeps of a report between its prep share and its out share.

/// The half's out share, and the joint seed that the prep message has to be, where there is joint randomness.
#[derive(Debug, Drop)]
pub struct State {
    pub(crate) out: Vec<u8>,
    pub(crate) joint_seed: Option<[u8; 16]>,
}
