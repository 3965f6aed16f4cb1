//! A spot on a shelf.

/// A shelf, and a place on it, both from 0.
#[derive(Clone, Copy, Debug)]
pub(crate) struct Spot {
    pub(crate) shelf: usize,
    pub(crate) place: usize,
}
