//! How many messages a ring has room for.

/// The places of each of the two rings of a link.
pub const LINK_PLACES: usize = 64;

/// The places of a ring of uploads.
pub const UPLOAD_PLACES: usize = 1024;
