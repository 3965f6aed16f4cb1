//! The most of each thing that a catalogue may have.

pub const MOST_DATABASES: usize = 200;

/// Of one database.
pub const MOST_RELATIONS: usize = 4_000;

/// Of one relation.
pub const MOST_ATTRIBUTES: usize = 4_000;

/// Of all relations together.
pub const MOST_ROWS: usize = 1_000_000;
