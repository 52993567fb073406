//! Which half of which report is prepared.

use dap_bytes::Id;
use vdaf_api::Role;

/// Which half of which report is prepared, and under which keys.
#[derive(Clone, Copy)]
pub(crate) struct Asked {
    /// The byte that names the kind of measurement.
    pub(crate) kind: u8,
    /// Whose half it is.
    pub(crate) role: Role,
    /// The task's verify key.
    pub(crate) key: [u8; 16],
    /// The report's identifier.
    pub(crate) id: Id,
}
