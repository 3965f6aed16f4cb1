//! The disk of a run that keeps nothing.

/// No disk: nothing is kept on it, and it never fails.
#[derive(Debug, Drop)]
pub struct NoDisk;
