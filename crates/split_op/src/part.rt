//! The lines of the table of one label.
ghost use Rattle.std.specs.Prelude.{◌≡◌, ◌+◌, ◌≤◌, ℕ, [], ◌∷◌, List, Some, ◌⊎◌, nat_lt, IfOk, IfErr, if◌then◌else◌};
ghost use Rattle.std.specs.Option.{option_copied};
ghost use Rattle.ss_text.specs.Texts.{Row as RowValue};
ghost use Rattle.flow_law.specs.declared.shape.Shape.{Shape};
ghost use Rattle.flow_law.specs.declared.line.TableLine.TheVariants as line;
ghost use Rattle.flow_law.specs.Facts.{illegal_column, conflict};
ghost use Rattle.unfold_op.specs.Stopped.{StopsFor};
ghost use Rattle.unfold_op.specs.FactMoves.{facts_in};
ghost use Rattle.split_op.specs.Tables.{Fits};
ghost use Rattle.split_op.specs.Parts.{SameColumns, KeepsRows, FitsPart};
ghost use Rattle.split_op.specs.PartLines.{GivesPart};

use crate::count::count_moved;
use crate::groups::Group;
use flow_law::{EvalFault, TableLine};
use operator_law::Operator;
use ss_text::{NoMemory, Steps, Text};
use std::alloc::Global;
use std::sync::ledger::Ledger;
use unfold_op::TableOperator;

// The lines of a table that is left without facts: it goes, if it was there.
fn lines_gone(alloc: Global, label: &Text, before: u128) -> Result<Vec<TableLine>, NoMemory>
    ensures { IfOk result (λ lines. lines.items ≡ (if nat_lt 0 before then line.TableMinus label.now ∷ [] else [])) }
{
    let mut lines = Vec::new(alloc);
    if before > 0 {
        lines.push(TableLine::TableMinus {
            label: label.copy()?,
        })?;
    }
    Ok(lines)
}

// What the operator of a label answers.
fn inner_lines<I: TableOperator, L: Ledger>(
    alloc: Global,
    inner: &I,
    group: &Group,
    steps: &mut Steps<L>,
) -> Result<Vec<TableLine>, EvalFault>
    requires { (shape : Shape) × (old : List RowValue) × (new : List RowValue) × KeepsRows I.table shape inner.now old × Fits shape group.now.label old group.now.moves new }
    ensures gives { IfOk result (λ lines. (shape : Shape) (old new : List RowValue) → KeepsRows I.table shape inner.now old → Fits shape group.now.label old group.now.moves new
        → GivesPart shape group.now.label old new lines.items) }
    ensures stops { IfErr result (λ s. (shape : Shape) (old new : List RowValue) → KeepsRows I.table shape inner.now old → Fits shape group.now.label old group.now.moves new
        → StopsFor (illegal_column shape.constants (facts_in shape new)) (conflict (facts_in shape new)) s) }
    ensures cost { (n : ℕ) → I.is_bound inner.now tt group.now.moves n → steps.new ≤ steps.old + n }
    ensures rises { steps.old ≤ steps.new }
{
    let before = inner.count();
    if count_moved(before, &group.moves) == 0 {
        let lines = lines_gone(alloc, &group.label, before)?;
        return Ok(lines);
    }
    match inner.prepare(alloc, &(), &group.moves, steps) {
        Ok(lines) => Ok(lines),
        Err(stop) => Err(stop),
    }
}

// What an operator that is made for a label without facts answers.
fn fresh_lines<I: TableOperator, L: Ledger>(
    alloc: Global,
    pattern: &I,
    group: &Group,
    steps: &mut Steps<L>,
) -> Result<Vec<TableLine>, EvalFault>
    requires { (shape : Shape) × (new : List RowValue) × SameColumns shape (I.table pattern.now).shape × Fits shape group.now.label [] group.now.moves new }
    ensures gives { IfOk result (λ lines. (shape : Shape) (new : List RowValue) → SameColumns shape (I.table pattern.now).shape → Fits shape group.now.label [] group.now.moves new
        → GivesPart shape group.now.label [] new lines.items) }
    ensures stops { IfErr result (λ s. (shape : Shape) (new : List RowValue) → SameColumns shape (I.table pattern.now).shape → Fits shape group.now.label [] group.now.moves new
        → StopsFor (illegal_column shape.constants (facts_in shape new)) (conflict (facts_in shape new)) s) }
    ensures cost { (n : ℕ) → ((t : I) → I.alike pattern.now t → I.is_bound t tt group.now.moves n) → steps.new ≤ steps.old + n }
    ensures rises { steps.old ≤ steps.new }
{
    let inner = pattern.fresh(alloc)?;
    match inner_lines(alloc, &inner, group, steps) {
        Ok(lines) => Ok(lines),
        Err(stop) => Err(stop),
    }
}

/// The lines by which the table of a label changes, or why its facts after the change are refused. A label without facts has
/// no operator, and one is made for it.
pub(crate) fn part_lines<I: TableOperator, L: Ledger>(
    alloc: Global,
    pattern: &I,
    part: Option<&I>,
    group: &Group,
    steps: &mut Steps<L>,
) -> Result<Vec<TableLine>, EvalFault>
    requires { (shape : Shape) × (old : List RowValue) × (new : List RowValue) × SameColumns shape (I.table pattern.now).shape × FitsPart I.table shape (option_copied part) group.now old new }
    ensures gives { IfOk result (λ lines. (shape : Shape) (old new : List RowValue) → SameColumns shape (I.table pattern.now).shape
        → FitsPart I.table shape (option_copied part.entry) group.now old new → GivesPart shape group.now.label old new lines.items) }
    ensures stops { IfErr result (λ s. (shape : Shape) (old new : List RowValue) → SameColumns shape (I.table pattern.now).shape → FitsPart I.table shape (option_copied part.entry) group.now old new
        → StopsFor (illegal_column shape.constants (facts_in shape new)) (conflict (facts_in shape new)) s) }
    ensures cost { (n : ℕ) → ((t : I) → (option_copied part.entry ≡ Some t) ⊎ I.alike pattern.now t → I.is_bound t tt group.now.moves n) → steps.new ≤ steps.old + n }
    ensures rises { steps.old ≤ steps.new }
{
    match part {
        Some(inner) => match inner_lines(alloc, inner, group, steps) {
            Ok(lines) => Ok(lines),
            Err(stop) => Err(stop),
        },
        None => match fresh_lines(alloc, pattern, group, steps) {
            Ok(lines) => Ok(lines),
            Err(stop) => Err(stop),
        },
    }
}
