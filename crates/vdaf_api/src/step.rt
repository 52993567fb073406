//! What an aggregator says of a report while it is prepared.

use dap_bytes::Bytes;

/// A step of a report's preparation: it goes on with these bytes, or it failed with a code of draft-ietf-ppm-dap-02,
/// 4 where a ciphertext doesn't open (`hpke_decrypt_error`) and 5 where a step has no value (`vdaf_prep_error`).
#[derive(Clone, Debug, PartialEq, Eq, Drop)]
pub enum Step {
    /// It goes on: a prep share or a prep message.
    Continued(Bytes),
    /// It failed with this code.
    Failed(u8),
}
