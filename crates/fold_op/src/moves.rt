//! Rows in place of others.
ghost use Rattle.std.specs.Prelude.{◌≡◌, IfOk};
ghost use Rattle.fold_op.specs.Flat.{replaced};

use operator_law::Delta;
use ss_text::{NoMemory, Row};
use std::alloc::Global;

/// The first rows go, and then the second ones come.
pub fn replaced(alloc: Global, gone: Vec<Row>, come: Vec<Row>) -> Result<Delta, NoMemory>
    ensures { IfOk result (λ d. d ≡ replaced gone.items come.items) }
{
    let down = Delta::of(alloc, gone, false)?;
    let up = Delta::of(alloc, come, true)?;
    let both = down.followed_by(up)?;
    Ok(both)
}
