//! The lines of a table that comes, and of one that goes.
ghost use Rattle.std.specs.Prelude.{◌≡◌, ◌+◌, ◌<◌, ◌≤◌, ◌^◌, ◌++◌, ℕ, cond, IfOk};
ghost use Rattle.unfold_op.specs.OneTables.{framed};
ghost use Rattle.unfold_op.specs.TableFields.{ups, downs};

use flow_law::TableLine;
use operator_law::Signed;
use ss_text::{NoMemory, Text};

/// Puts the line of a table that comes before the others, or that of one that goes behind them.
pub(crate) fn framed(
    label: &Text,
    before: bool,
    after: bool,
    lines: Vec<TableLine>,
) -> Result<Vec<TableLine>, NoMemory>
    ensures { IfOk result (λ all. all.items ≡ framed label.now before after lines.items) }
{
    let mut all = lines;
    match (before, after) {
        (false, true) => {
            let label = label.copy()?;
            all.insert(0, TableLine::TablePlus { label })?;
            Ok(all)
        }
        (true, false) => {
            let label = label.copy()?;
            all.push(TableLine::TableMinus { label })?;
            Ok(all)
        }
        _ => Ok(all),
    }
}

// How many rows come.
fn ups(moves: &[Signed]) -> u128
    ensures { result ≡ ups moves.now }
{
    let mut count = 0;
    for m in moves {
        if m.up {
            count += 1;
        }
    }
    count
}

// How many rows go.
fn downs(moves: &[Signed]) -> u128
    ensures { result ≡ downs moves.now }
{
    let mut count = 0;
    for m in moves {
        if !m.up {
            count += 1;
        }
    }
    count
}

/// How many rows there are after the moves, of so many before.
pub fn total_after(total: u128, moves: &[Signed]) -> u128
    requires enough { downs moves.now ≤ total + ups moves.now }
    requires small { total + ups moves.now < 2 ^ 128 + downs moves.now }
    ensures { total + ups moves.now ≡ result + downs moves.now }
{
    let came = ups(moves);
    let went = downs(moves);
    if came >= went {
        total + (came - went)
    } else {
        total - (went - came)
    }
}
