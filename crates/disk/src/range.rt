//! A range of bytes.

/// A range of bytes: its first place, from 0, and the place behind its last one.
#[derive(Clone, Copy, Debug, PartialEq, Eq)]
pub struct Range {
    pub from: u64,
    pub to: u64,
}
