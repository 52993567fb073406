//! What a request says of one report.

use dap_bytes::Id;

/// What a request says of one report. The shares are slices of the message.
#[derive(Clone, Copy, Debug)]
pub struct PartView<'a> {
    /// The report's identifier.
    pub id: Id,
    /// In units of time, at most `LATEST_TIME`.
    pub time: u64,
    /// The public share, at most `MOST_PUBLIC` bytes.
    pub public: &'a [u8],
    /// The helper's sealed input share, at most `MOST_HELPER` bytes.
    pub helper: &'a [u8],
}
