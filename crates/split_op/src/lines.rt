//! The lines of all tables.
ghost use Rattle.std.specs.Prelude.{◌≡◌, ◌+◌, ◌≤◌, ◌++◌, ◌∷◌, ◌&&◌, [], ℕ, List, length, map, not, nat_lt, None, Some, ◌⊎◌, IfOk, IfErr, OnOk};
ghost use Rattle.std.specs.List.{AllByRecursion};
ghost use Rattle.std.specs.Option.{option_copied};
ghost use Rattle.ss_text.specs.Texts.{Text as TextValue, Row as RowValue, text_eq};
ghost use Rattle.ss_text.specs.Label.{is_table_label};
ghost use Rattle.indexmap.specs.IndexMap.{get};
ghost use Rattle.flow_law.specs.declared.shape.Shape.{Shape};
ghost use Rattle.unfold_op.specs.Stopped.{StopsFor};
ghost use Rattle.operator_law.specs.Bags.{weigh};
ghost use Rattle.unfold_op.specs.FactMoves.{facts_in};
ghost use Rattle.split_op.specs.LabelLines.{first_conflict, first_illegal_column, first_illegal_table};
ghost use Rattle.split_op.specs.Groups.{group_label};
ghost use Rattle.split_op.specs.Labels.{rows_of};
ghost use Rattle.split_op.specs.Parts.{SameColumns, KeepsPart, FitsPart, FitsParts};
ghost use Rattle.split_op.specs.PartLines.{StopsAtOnce};
ghost use Rattle.split_op.specs.Judged.{IsJudged, GivesParts};

use crate::count::count_moved;
use crate::groups::Group;
use crate::judged::Judged;
use crate::part::part_lines;
use flow_law::{EvalFault, IllegalLabel, TableLine};
use indexmap::IndexMap;
use operator_law::Operator;
use ss_text::{NoMemory, Seed, Steps, Text, table_label_legal};
use std::alloc::Global;
use std::sync::ledger::Ledger;
use unfold_op::TableOperator;

// How many facts of a label are kept.
fn count_of<I: TableOperator>(part: Option<&I>) -> u128
    ensures { (shape : Shape) (rows : List RowValue) → KeepsPart I.table shape (option_copied part.entry) rows → result ≡ length rows }
{
    match part {
        Some(inner) => inner.count(),
        None => 0,
    }
}

// How many facts of a label there are after its moves.
fn count_after<I: TableOperator>(part: Option<&I>, group: &Group) -> u128
    requires { (shape : Shape) × (old : List RowValue) × (new : List RowValue) × FitsPart I.table shape (option_copied part) group.now old new }
    ensures { (shape : Shape) (old new : List RowValue) → FitsPart I.table shape (option_copied part.entry) group.now old new → result ≡ length new }
{
    count_moved(count_of(part), &group.moves)
}

// Whether there are facts of a label after its moves though it is illegal.
fn is_illegal<I: TableOperator>(part: Option<&I>, group: &Group) -> bool
    requires { (shape : Shape) × (old : List RowValue) × (new : List RowValue) × FitsPart I.table shape (option_copied part) group.now old new }
    ensures { (shape : Shape) (old new : List RowValue) → FitsPart I.table shape (option_copied part.entry) group.now old new
        → result ≡ (nat_lt 0 (length new) && not (is_table_label group.now.label)) }
{
    !table_label_legal(&group.label) && count_after(part, group) > 0
}

/// The least label that is not legal and has facts after the change.
pub(crate) fn first_illegal_table<I: TableOperator>(
    parts: &IndexMap<Text, I, Seed>,
    groups: &[Group],
) -> Result<Option<IllegalLabel>, NoMemory>
    requires { (shape : Shape) × (pattern : I) × (old : List RowValue) × (new : List RowValue) × FitsParts I.table shape pattern (get text_eq parts.now) groups.now old new }
    ensures { IfOk result (λ found. (shape : Shape) (pattern : I) (old new : List RowValue) → FitsParts I.table shape pattern (get text_eq parts.now) groups.now old new
        → found ≡ first_illegal_table (facts_in shape new) (map group_label groups.now)) }
{
    for group in groups {
        if is_illegal(parts.get(&group.label), group) {
            return Ok(Some(IllegalLabel {
                table: group.label.copy()?,
                column: None,
            }));
        }
    }
    Ok(None)
}

// Judges one more label. An illegal column stops at once, a conflict does not, since a later label may have an illegal column.
fn judge_group<I: TableOperator, L: Ledger>(
    alloc: Global,
    pattern: &I,
    part: Option<&I>,
    group: &Group,
    judged: &mut Judged,
    steps: &mut Steps<L>,
) -> Result<(), EvalFault>
    requires { (shape : Shape) × (old : List RowValue) × (new : List RowValue) × SameColumns shape (I.table pattern.now).shape × FitsPart I.table shape (option_copied part) group.now old new }
    ensures judged { OnOk result ((shape : Shape) (labels : List TextValue) (old new : List RowValue) → shape.label ≡ None → SameColumns shape (I.table pattern.now).shape
        → FitsPart I.table shape (option_copied part.entry) group.now (rows_of group.now.label old) (rows_of group.now.label new)
        → IsJudged shape labels (facts_in shape old) (facts_in shape new) judged.old → IsJudged shape (labels ++ group.now.label ∷ []) (facts_in shape old) (facts_in shape new) judged.new) }
    ensures stops { IfErr result (λ s. (shape : Shape) (old new : List RowValue) → SameColumns shape (I.table pattern.now).shape → FitsPart I.table shape (option_copied part.entry) group.now old new
        → StopsAtOnce shape (facts_in shape new) s) }
    ensures cost { (n : ℕ) → ((t : I) → (option_copied part.entry ≡ Some t) ⊎ I.alike pattern.now t → I.is_bound t tt group.now.moves n) → steps.new ≤ steps.old + n }
    ensures rises { steps.old ≤ steps.new }
{
    match part_lines(alloc, pattern, part, group, steps) {
        Ok(lines) => {
            judged.add_lines(lines)?;
            Ok(())
        }
        Err(EvalFault::Conflict(clash)) => {
            judged.add_clash(clash);
            Ok(())
        }
        Err(EvalFault::Illegal(label)) => Err(EvalFault::Illegal(label)),
        Err(EvalFault::NoMemory) => Err(EvalFault::NoMemory),
    }
}

// Judges all labels, one after another.
fn judge_groups<I: TableOperator, L: Ledger>(
    alloc: Global,
    pattern: &I,
    parts: &IndexMap<Text, I, Seed>,
    groups: &[Group],
    judged: &mut Judged,
    steps: &mut Steps<L>,
) -> Result<(), EvalFault>
    requires { (shape : Shape) × (old : List RowValue) × (new : List RowValue) × FitsParts I.table shape pattern.now (get text_eq parts.now) groups.now old new }
    ensures judged { OnOk result ((shape : Shape) (old new : List RowValue) → FitsParts I.table shape pattern.now (get text_eq parts.now) groups.now old new
        → IsJudged shape [] (facts_in shape old) (facts_in shape new) judged.old → IsJudged shape (map group_label groups.now) (facts_in shape old) (facts_in shape new) judged.new) }
    ensures stops { IfErr result (λ s. (shape : Shape) (old new : List RowValue) → FitsParts I.table shape pattern.now (get text_eq parts.now) groups.now old new
        → IsJudged shape [] (facts_in shape old) (facts_in shape new) judged.old
        → StopsFor (first_illegal_column shape.constants (facts_in shape new) (map group_label groups.now)) (first_conflict (facts_in shape new) (map group_label groups.now)) s) }
    ensures cost { (b : TextValue → ℕ) → AllByRecursion (λ g. (t : I) → (get text_eq parts.now g.label ≡ Some t) ⊎ I.alike pattern.now t → I.is_bound t tt g.moves (b g.label)) groups.now
        → steps.new ≤ steps.old + weigh (λ g. b g.label) groups.now }
    ensures rises { steps.old ≤ steps.new }
{
    for group in groups {
        match judge_group(
            alloc,
            pattern,
            parts.get(&group.label),
            group,
            judged,
            steps,
        ) {
            Ok(()) => {}
            Err(stop) => return Err(stop),
        }
    }
    Ok(())
}

/// The lines of the tables of all labels that move, or why their facts after the change are refused: an illegal column of any
/// table before any conflict.
pub(crate) fn lines_of<I: TableOperator, L: Ledger>(
    alloc: Global,
    pattern: &I,
    parts: &IndexMap<Text, I, Seed>,
    groups: &[Group],
    steps: &mut Steps<L>,
) -> Result<Vec<TableLine>, EvalFault>
    requires { (shape : Shape) × (old : List RowValue) × (new : List RowValue) × FitsParts I.table shape pattern.now (get text_eq parts.now) groups.now old new }
    ensures gives { IfOk result (λ lines. (shape : Shape) (old new : List RowValue) → FitsParts I.table shape pattern.now (get text_eq parts.now) groups.now old new
        → GivesParts shape (map group_label groups.now) (facts_in shape old) (facts_in shape new) lines.items) }
    ensures stops { IfErr result (λ s. (shape : Shape) (old new : List RowValue) → FitsParts I.table shape pattern.now (get text_eq parts.now) groups.now old new
        → StopsFor (first_illegal_column shape.constants (facts_in shape new) (map group_label groups.now)) (first_conflict (facts_in shape new) (map group_label groups.now)) s) }
    ensures cost { (b : TextValue → ℕ) → AllByRecursion (λ g. (t : I) → (get text_eq parts.now g.label ≡ Some t) ⊎ I.alike pattern.now t → I.is_bound t tt g.moves (b g.label)) groups.now
        → steps.new ≤ steps.old + weigh (λ g. b g.label) groups.now }
    ensures rises { steps.old ≤ steps.new }
{
    let mut judged = Judged::new(alloc);
    let outcome = judge_groups(alloc, pattern, parts, groups, &mut judged, steps);
    match judged.finish(outcome) {
        Ok(lines) => Ok(lines),
        Err(stop) => Err(stop),
    }
}
