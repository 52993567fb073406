//! What the calls of a link's end answer.

use dap_bytes::Bytes;

/// What a receive gives.
#[derive(Debug, PartialEq, Eq, Drop)]
pub enum Recv {
    /// A message that is handed on.
    Message(Bytes),
    /// A message came, and is held back.
    Held,
    /// A message came, and was lost.
    Dropped,
    /// No message is there.
    Empty,
}

/// The ring was full, and the message comes back.
#[derive(Debug, Drop)]
pub struct Full(pub Bytes);
