//! What a change of the facts of one table comes to.
ghost use Rattle.std.specs.Prelude.{◌≡◌, List, None, IfOk, IfErr};
ghost use Rattle.counts.specs.declared.moves.Move.{Move};
ghost use Rattle.flow_law.specs.Facts.{Fact, illegal_column, conflict};
ghost use Rattle.flow_law.specs.FactTables.{fact_table};
ghost use Rattle.flow_law.specs.Script.{lines_between};
ghost use Rattle.unfold_op.specs.Moves.{IsChange};
ghost use Rattle.unfold_op.specs.Stopped.{StopsFor};

use crate::facts::{FactCounts, Nets};
use crate::lines::net_lines;
use flow_law::{EvalFault, TableLine};
use ss_text::{Row, Text};
use std::alloc::Global;

/// The lines by which the table of the facts changes, or the label or the clash for which the new facts are refused.
pub fn prepare(
    alloc: Global,
    label: &Text,
    constants: &Row,
    counts: &FactCounts,
    nets: &Nets,
) -> Result<Vec<TableLine>, EvalFault>
    requires { (ms : List (Move Fact)) × (old : List Fact) × (new : List Fact) × IsChange counts.now nets.now label.now constants.now ms old new }
    ensures legal { IfOk result (λ lines. (ms : List (Move Fact)) (old new : List Fact) → IsChange counts.now nets.now label.now constants.now ms old new → illegal_column constants.now new ≡ None) }
    ensures clean { IfOk result (λ lines. (ms : List (Move Fact)) (old new : List Fact) → IsChange counts.now nets.now label.now constants.now ms old new → conflict new ≡ None) }
    ensures lines { IfOk result (λ lines. (ms : List (Move Fact)) (old new : List Fact) → IsChange counts.now nets.now label.now constants.now ms old new
        → lines.items ≡ lines_between label.now (fact_table old) (fact_table new)) }
    ensures stops { IfErr result (λ s. (ms : List (Move Fact)) (old new : List Fact) → IsChange counts.now nets.now label.now constants.now ms old new
        → StopsFor (illegal_column constants.now new) (conflict new) s) }
{
    match net_lines(alloc, label, constants, counts, nets) {
        Ok(lines) => Ok(lines),
        Err(stop) => Err(stop),
    }
}
