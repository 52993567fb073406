//! Vectors in two halves.

/// A vector in two halves, which add to it.
#[derive(Drop)]
pub(crate) struct Halves<F> {
    pub(crate) leader: Vec<F>,
    pub(crate) helper: Vec<F>,
}
