//! How many rows there are.
ghost use Rattle.std.specs.Prelude.{◌≡◌, ◌<◌, ◌^◌, List, length};
ghost use Rattle.ss_text.specs.Texts.{Row as RowValue};
ghost use Rattle.operator_law.specs.Bags.{MovesBag};

use operator_law::Delta;
use unfold_op::total_after;

/// How many rows there are after the moves, of so many before.
pub(crate) fn count_moved(before: u128, change: &Delta) -> u128
    requires { (old : List RowValue) × (new : List RowValue) × (before ≡ length old) × MovesBag old change.now new × (length new < 2 ^ 128) }
    ensures { (old new : List RowValue) → before ≡ length old → MovesBag old change.now new → result ≡ length new }
{
    total_after(before, &change.moves)
}
