//! Filling a chain of joins by rows that are all given at once.
ghost use Rattle.std.specs.Prelude.{◌≡◌, map, length, IfOk};
ghost use Rattle.plan_translate.specs.ChainStages.{joint_in};
ghost use Rattle.plan_translate.specs.ChainFills.{Fills, rows_in};

use join_delta::Join;
use ss_text::{NoMemory, Row};
use std::alloc::Global;

/// Joins by the same keys as these, filled by the rows of the first one's left side and those of each one's right side.
/// The rows are moved into them, and no step is counted. What the last join gives is not made.
pub fn filled(
    alloc: Global,
    joins: &[Join],
    first: Vec<Row>,
    further: Vec<Vec<Row>>,
) -> Result<Vec<Join>, NoMemory>
    requires { length further.items ≡ length joins.now }
    ensures { IfOk result (λ filled. Fills (map joint_in joins.now) first.items (rows_in further.items) filled.items) }
{
    let mut filled = Vec::with_capacity(alloc, joins.len())?;
    let mut further = further;
    let Some(last_right) = further.pop() else {
        return Ok(filled);
    };
    let mut rows = first;
    for right in further {
        let join = &joins[filled.len()];
        let (next, out) = join.filled_and_joined(alloc, rows, right)?;
        filled.push(next)?;
        rows = out;
    }
    let last = joins[filled.len()].filled(alloc, rows, last_right)?;
    filled.push(last)?;
    Ok(filled)
}
