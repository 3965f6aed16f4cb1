//! What facts have beside their keys.
ghost use Rattle.std.specs.Prelude.{Option, ℕ, None, Some};

/// Whether the facts of a table have a variable column.
pub trait FactForm {
    ghost SPOT: { Option ℕ };

    /// The place of the variable column, where there is one.
    const SPOT: Option<usize>;
}

/// A key alone.
pub struct KeyAlone;

/// A key, a column and a value.
pub struct KeyAndCell;

impl FactForm for KeyAlone {
    ghost SPOT = { None };

    const SPOT: Option<usize> = None;
}

impl FactForm for KeyAndCell {
    ghost SPOT = { Some 0 };

    const SPOT: Option<usize> = Some(0);
}
