//! What a change of facts does to what is kept for all labels.
ghost use Rattle.std.specs.Prelude.{◌≡◌, ◌+◌, ◌≤◌, ℕ, List, length, IfOk, IfErr};
ghost use Rattle.ss_text.specs.Texts.{Text as TextValue, Row as RowValue, text_eq};
ghost use Rattle.indexmap.specs.IndexMap.{get, spare};
ghost use Rattle.flow_law.specs.declared.shape.Shape.{Shape};
ghost use Rattle.flow_law.specs.Faults.{IsFaultOf};
ghost use Rattle.unfold_op.specs.FactMoves.{facts_in};
ghost use Rattle.split_op.specs.Tables.{ScriptLines};
ghost use Rattle.split_op.specs.Groups.{grouped};
ghost use Rattle.split_op.specs.Labels.{labels_moved};
ghost use Rattle.split_op.specs.Parts.{KeepsPart};
ghost use Rattle.split_op.specs.Stages.{AreReady};
ghost use Rattle.split_op.specs.Splits.{MovesAll, CanKeepSplit, IsSplitBound};

use crate::groups::groups_of;
use crate::lines::{first_illegal_table, lines_of};
use crate::stages::{Stage, reserve_stages};
use flow_law::{EvalFault, TableLine};
use indexmap::IndexMap;
use operator_law::{Delta, Kept, Operator};
use ss_text::{NoMemory, Seed, Steps, Text};
use std::alloc::Global;
use std::sync::ledger::Ledger;
use unfold_op::TableOperator;

/// The lines by which all tables change, or why the facts after the change are refused: an illegal table before an illegal
/// column, and either before a conflict.
pub(crate) fn moved_lines<I: TableOperator, L: Ledger>(
    alloc: Global,
    pattern: &I,
    parts: &IndexMap<Text, I, Seed>,
    change: &Delta,
    steps: &mut Steps<L>,
) -> Result<Vec<TableLine>, EvalFault>
    requires { (shape : Shape) × (old : List RowValue) × (new : List RowValue) × MovesAll I.table shape pattern.now (get text_eq parts.now) change.now old new }
    ensures gives { IfOk result (λ lines. (shape : Shape) (old new : List RowValue) → MovesAll I.table shape pattern.now (get text_eq parts.now) change.now old new
        → ScriptLines shape lines.items (facts_in shape old) (facts_in shape new)) }
    ensures stops { IfErr result (λ s. (shape : Shape) (old new : List RowValue) → MovesAll I.table shape pattern.now (get text_eq parts.now) change.now old new
        → IsFaultOf shape (facts_in shape new) s) }
    ensures cost { (n : ℕ) → IsSplitBound (λ t. I.is_bound t tt) I.alike pattern.now (get text_eq parts.now) change.now n → steps.new ≤ steps.old + n }
    ensures rises { steps.old ≤ steps.new }
{
    let groups = groups_of(alloc, change)?;
    match first_illegal_table(parts, &groups)? {
        Some(label) => Err(EvalFault::Illegal(label)),
        None => match lines_of(alloc, pattern, parts, &groups, steps) {
            Ok(lines) => Ok(lines),
            Err(stop) => Err(stop),
        },
    }
}

/// Makes the operators of all labels that move ready. What they keep stays.
pub(crate) fn moved_stages<I: TableOperator>(
    alloc: Global,
    pattern: &I,
    parts: &mut IndexMap<Text, I, Seed>,
    change: &Delta,
) -> Result<Vec<Stage<I>>, NoMemory>
    requires { (shape : Shape) × (old : List RowValue) × (new : List RowValue) × MovesAll I.table shape pattern.now (get text_eq parts.old) change.now old new × CanKeepSplit shape new }
    ensures same { (shape : Shape) (q : TextValue) (rows : List RowValue) → KeepsPart I.table shape (get text_eq parts.old q) rows → KeepsPart I.table shape (get text_eq parts.new q) rows }
    ensures ready { IfOk result (λ stages. AreReady I.table I.waiting I.made_for (I.table pattern.now).shape (get text_eq parts.new) (grouped change.now (labels_moved change.now)) stages.items) }
    ensures room { IfOk result (λ stages. length stages.items ≤ spare parts.new) }
{
    let groups = groups_of(alloc, change)?;
    let stages = reserve_stages(alloc, pattern, parts, &groups)?;
    Ok(stages)
}
