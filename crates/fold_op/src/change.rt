//! Changes of a sheet.
use flow_law::Moves;
use operator_law::Rows;
use ss_text::{Row, Text};

/// A change of a sheet.
#[derive(Debug, Drop)]
pub enum SheetChange {
    /// The row comes, behind all others.
    Up { row: Row },
    /// The first row that equals this one goes.
    Down { row: Row },
    /// The attribute comes behind all others, with this text in every row.
    Add { name: Text, fill: Text },
    /// The attribute at this place goes, with its texts.
    Drop { place: usize },
    /// The attribute at this place gets another name.
    Rename { place: usize, to: Text },
    /// The sheet that was absent is there, without rows.
    Born { attributes: Row },
    /// The sheet is absent from now on.
    Gone,
}

impl Moves for SheetChange {
    ghost use Rattle.std.specs.Prelude.{◌≡◌};
    ghost use Rattle.fold_op.specs.Sheets.{sheet_after};

    type Thing = (Row, Rows);

    ghost moves = { λ x g y. y ≡ sheet_after g x };
}
