//! The key of a fact in its row.
ghost use Rattle.std.specs.Prelude.{◌≡◌, length, IfOk};
ghost use Rattle.flow_law.specs.FactRows.{fact_width, fact_in};

use flow_law::Shape;
use ss_text::{NoMemory, Row};
use std::alloc::Global;

/// The key of the fact in a row.
pub(crate) fn key_in(alloc: Global, shape: &Shape, row: &Row) -> Result<Row, NoMemory>
    requires { length row.now ≡ fact_width shape.now }
    ensures { IfOk result (λ key. key ≡ (fact_in shape.now row.now).key) }
{
    let cells = row.cells();
    let key = Row::of_copies(alloc, &cells[1..shape.constants.cells().len() + 1])?;
    Ok(key)
}
