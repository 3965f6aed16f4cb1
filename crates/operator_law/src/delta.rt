//! Rows that come and go.
ghost use Rattle.std.specs.Prelude.{◌≡◌, ◌++◌, [], IfOk};
ghost use Rattle.operator_law.specs.Bags.{all_signed};

use ss_text::{NoMemory, Row};
use std::alloc::Global;
use std::marker::Model;

/// A row that comes, or one that goes.
#[derive(Debug, Drop)]
pub struct Signed {
    pub row: Row,
    /// Whether it comes.
    pub up: bool,
}

impl Signed {
    /// An equal one.
    pub fn copy(&self) -> Result<Signed, NoMemory>
        ensures { IfOk result (λ m. m ≡ self.now) }
    {
        let row = self.row.copy()?;
        Ok(Signed { row, up: self.up })
    }
}

/// A change of a bag of rows, which contracts see as the list of its moves: each row that comes is there once
/// more, and each that goes once less, all in net.
#[derive(Debug, Drop)]
pub struct Delta {
    pub moves: Vec<Signed>,
}

impl Model for Delta {
    ghost use Rattle.std.specs.Prelude.{List};
    ghost use Rattle.operator_law.specs.declared.delta.Signed.{Signed};

    ghost Value = { List Signed };

    ghost view = { λ d. d.moves.items };
}

impl Delta {
    /// No moves.
    pub fn none(alloc: Global) -> Delta
        ensures { result ≡ [] }
    {
        Delta {
            moves: Vec::new(alloc),
        }
    }

    /// Rows that all come, or that all go.
    pub fn of(alloc: Global, rows: Vec<Row>, up: bool) -> Result<Delta, NoMemory>
        ensures { IfOk result (λ d. d ≡ all_signed up rows.items) }
    {
        let mut moves = Vec::with_capacity(alloc, rows.len())?;
        for row in rows {
            moves.push(Signed { row, up })?;
        }
        Ok(Delta { moves })
    }

    /// These moves, and then those of the other.
    pub fn followed_by(self, other: Delta) -> Result<Delta, NoMemory>
        ensures { IfOk result (λ d. d ≡ self ++ other) }
    {
        let mut moves = self.moves;
        for m in other.moves {
            moves.push(m)?;
        }
        Ok(Delta { moves })
    }
}
