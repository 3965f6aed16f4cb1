//! Rows behind names.
ghost use Rattle.std.specs.Prelude.{◌≡◌, ◌++◌, IfOk};
ghost use Rattle.unite_op.specs.NamedThings.{moves_behind, rows_behind};

use operator_law::{Delta, Signed};
use ss_text::{NoMemory, Row};
use std::alloc::Global;

/// The moves, each row behind these names.
pub fn moves_behind(alloc: Global, names: &Row, delta: &Delta) -> Result<Delta, NoMemory>
    ensures { IfOk result (λ d. d ≡ moves_behind names.now delta.now) }
{
    let mut moves = Vec::with_capacity(alloc, delta.moves.len())?;
    for m in &delta.moves {
        let row = behind(alloc, names, &m.row)?;
        moves.push(Signed { row, up: m.up })?;
    }
    Ok(Delta { moves })
}

/// The rows, each behind these names.
pub fn rows_behind(alloc: Global, names: &Row, rows: &[Row]) -> Result<Vec<Row>, NoMemory>
    ensures { IfOk result (λ made. made.items ≡ rows_behind names.now rows.now) }
{
    let mut made = Vec::with_capacity(alloc, rows.len())?;
    for row in rows {
        made.push(behind(alloc, names, row)?)?;
    }
    Ok(made)
}

fn behind(alloc: Global, names: &Row, row: &Row) -> Result<Row, NoMemory>
    ensures { IfOk result (λ r. r ≡ names.now ++ row.now) }
{
    let mut cells = Vec::new(alloc);
    for name in names.cells() {
        cells.push(name.copy()?)?;
    }
    for cell in row.cells() {
        cells.push(cell.copy()?)?;
    }
    Ok(Row::of(cells))
}
