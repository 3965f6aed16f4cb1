//! The operators of labels, made ready and moved.
ghost use Rattle.std.specs.Prelude.{◌≡◌, ◌+◌, ◌≤◌, ◌<◌, [], List, false, None, Some, IsSome, IfSome, IfNone, length, map, IfOk};
ghost use Rattle.std.specs.List.{AllByRecursion, list_any};
ghost use Rattle.std.specs.List.Sorted.{IsStrictlySortedBy};
ghost use Rattle.std.specs.Option.{option_or};
ghost use Rattle.ss_text.specs.Texts.{Text as TextValue, Row as RowValue, text_eq, text_cmp};
ghost use Rattle.indexmap.specs.IndexMap.{get, spare};
ghost use Rattle.flow_law.specs.declared.shape.Shape.{Shape};
ghost use Rattle.operator_law.specs.Bags.{MovesBag};
ghost use Rattle.unfold_op.specs.OneTables.{KeepsFacts, CanKeep};
ghost use Rattle.split_op.specs.Groups.{group_label};
ghost use Rattle.split_op.specs.Labels.{rows_of};
ghost use Rattle.split_op.specs.Tables.{Fits};
ghost use Rattle.split_op.specs.Parts.{SameColumns, KeepsRows, KeepsPart, FitsPart};
ghost use Rattle.split_op.specs.Stages.{IsFresh, IsStage, MovesPart, AreReady, CanReserve};

use crate::groups::Group;
use counts::{make_room, store};
use indexmap::IndexMap;
use operator_law::{Delta, Fresh, Kept, Operator};
use ss_text::{NoMemory, Seed, Text};
use std::alloc::Global;
use unfold_op::TableOperator;

/// The operator of a label that had none, or none where the label has one, and what was made ready for the label's moves.
#[derive(Drop)]
pub(crate) struct Stage<I: TableOperator> {
    pub label: Text,
    pub fresh: Option<I>,
    pub ready: I::Ready,
}

// Moves an operator, and drops it where it is left without facts.
fn moved<I: TableOperator>(inner: I, ready: I::Ready) -> Option<I>
    requires { I.waiting inner ≡ Some (I.made_for ready) }
    ensures { (shape : Shape) (x y : List RowValue) → KeepsRows I.table shape inner x → MovesBag x (I.made_for ready) y → CanKeep shape y → KeepsPart I.table shape result y }
{
    let mut inner = inner;
    inner.commit(ready);
    if inner.count() > 0 { Some(inner) } else { None }
}

// Takes out the operator of a label.
fn take_out<I: TableOperator>(parts: &mut IndexMap<Text, I, Seed>, label: &Text) -> Option<I>
    ensures value { result ≡ get text_eq parts.old label.now }
    ensures others { (q : TextValue) → text_eq label.now q ≡ false → get text_eq parts.new q ≡ get text_eq parts.old q }
    ensures room { spare parts.old ≤ spare parts.new }
{
    parts.swap_remove(label)
}

// The operator that was made for a label, or else the one that is kept, which is taken out.
fn inner_of<I: TableOperator>(
    parts: &mut IndexMap<Text, I, Seed>,
    label: &Text,
    fresh: Option<I>,
) -> I
    requires { IsSome (option_or fresh (get text_eq parts.old label.now)) }
    ensures value { option_or fresh (get text_eq parts.old label.now) ≡ Some result }
    ensures others { (q : TextValue) → text_eq label.now q ≡ false → get text_eq parts.new q ≡ get text_eq parts.old q }
    ensures room { spare parts.old ≤ spare parts.new }
{
    match fresh {
        Some(inner) => inner,
        None => {
            let Some(inner) = take_out(parts, label) else {
                unreachable!()
            };
            inner
        }
    }
}

// Moves the facts of one label. There is room for one operator more.
fn commit_stage<I: TableOperator>(parts: &mut IndexMap<Text, I, Seed>, stage: Stage<I>)
    requires ready { (form : Shape) × IsStage I.table I.waiting I.made_for form (get text_eq parts.old) stage }
    requires room { 0 < spare parts.old }
    ensures moved { (form : Shape) → IsStage I.table I.waiting I.made_for form (get text_eq parts.old) stage → MovesPart I.table I.made_for form (get text_eq parts.old) (get text_eq parts.new) stage }
    ensures others { (q : TextValue) → text_eq stage.label q ≡ false → get text_eq parts.new q ≡ get text_eq parts.old q }
    ensures room { spare parts.old ≤ spare parts.new + 1 }
{
    let Stage {
        label,
        fresh,
        ready,
    } = stage;
    let inner = inner_of(parts, &label, fresh);
    let kept = moved(inner, ready);
    store(parts, label, kept);
}

/// Moves the facts of each label, for which there is room. This takes no memory and cannot fail.
pub(crate) fn commit_stages<I: TableOperator>(
    parts: &mut IndexMap<Text, I, Seed>,
    stages: Vec<Stage<I>>,
)
    requires ready { (form : Shape) × AllByRecursion (IsStage I.table I.waiting I.made_for form (get text_eq parts.old)) stages.items }
    requires ascend { IsStrictlySortedBy text_cmp (map (λ s. s.label) stages.items) }
    requires room { length stages.items ≤ spare parts.old }
    ensures moved { (form : Shape) → AllByRecursion (IsStage I.table I.waiting I.made_for form (get text_eq parts.old)) stages.items
        → AllByRecursion (MovesPart I.table I.made_for form (get text_eq parts.old) (get text_eq parts.new)) stages.items }
    ensures others { (q : TextValue) → list_any (λ s. text_eq q s.label) stages.items ≡ false → get text_eq parts.new q ≡ get text_eq parts.old q }
{
    let mut left = stages;
    while let Some(stage) = left.pop() {
        commit_stage(parts, stage);
    }
}

// Makes the operator of a label ready, where it has one. What it keeps stays.
fn reserve_kept<I: TableOperator>(
    alloc: Global,
    parts: &mut IndexMap<Text, I, Seed>,
    group: &Group,
) -> Result<Option<I::Ready>, NoMemory>
    requires { (shape : Shape) × (x : List RowValue) × (y : List RowValue) × FitsPart I.table shape (get text_eq parts.old group.now.label) group.now x y × CanKeep shape y }
    ensures same { (shape : Shape) (q : TextValue) (rows : List RowValue) → KeepsPart I.table shape (get text_eq parts.old q) rows → KeepsPart I.table shape (get text_eq parts.new q) rows }
    ensures others { (q : TextValue) → text_eq group.now.label q ≡ false → get text_eq parts.new q ≡ get text_eq parts.old q }
    ensures room { spare parts.old ≤ spare parts.new }
    ensures none { IfOk result (λ found. IfNone found ((get text_eq parts.old group.now.label ≡ None) × (get text_eq parts.new group.now.label ≡ None))) }
    ensures some { IfOk result (λ found. IfSome found (λ ready. (t : I) × (get text_eq parts.new group.now.label ≡ Some t) × (I.waiting t ≡ Some (I.made_for ready))
        × (I.made_for ready ≡ group.now.moves))) }
{
    match parts.get_mut(&group.label) {
        Some(inner) => {
            let ready = inner.reserve(alloc, &group.moves)?;
            Ok(Some(ready))
        }
        None => Ok(None),
    }
}

// Makes an operator for a label without facts, and makes it ready.
fn reserve_fresh<I: TableOperator>(
    alloc: Global,
    pattern: &I,
    group: &Group,
) -> Result<(I, I::Ready), NoMemory>
    requires { (shape : Shape) × (y : List RowValue) × SameColumns shape (I.table pattern.now).shape × Fits shape group.now.label [] group.now.moves y × CanKeep shape y }
    ensures fresh { IfOk result (λ made. IsFresh I.table (I.table pattern.now).shape made.0) }
    ensures waits { IfOk result (λ made. I.waiting made.0 ≡ Some (I.made_for made.1)) }
    ensures made { IfOk result (λ made. I.made_for made.1 ≡ group.now.moves) }
{
    let mut inner = pattern.fresh(alloc)?;
    let ready = inner.reserve(alloc, &group.moves)?;
    Ok((inner, ready))
}

// Makes the operator of a label ready.
fn reserve_stage<I: TableOperator>(
    alloc: Global,
    pattern: &I,
    parts: &mut IndexMap<Text, I, Seed>,
    group: &Group,
) -> Result<Stage<I>, NoMemory>
    requires { (shape : Shape) × (x : List RowValue) × (y : List RowValue) × SameColumns shape (I.table pattern.now).shape
        × FitsPart I.table shape (get text_eq parts.old group.now.label) group.now x y × CanKeep shape y }
    ensures same { (shape : Shape) (q : TextValue) (rows : List RowValue) → KeepsPart I.table shape (get text_eq parts.old q) rows → KeepsPart I.table shape (get text_eq parts.new q) rows }
    ensures others { (q : TextValue) → text_eq group.now.label q ≡ false → get text_eq parts.new q ≡ get text_eq parts.old q }
    ensures room { spare parts.old ≤ spare parts.new }
    ensures stage { IfOk result (λ stage. IsStage I.table I.waiting I.made_for (I.table pattern.now).shape (get text_eq parts.new) stage) }
    ensures label { IfOk result (λ stage. stage.label ≡ group.now.label) }
    ensures made { IfOk result (λ stage. I.made_for stage.ready ≡ group.now.moves) }
{
    let label = group.label.copy()?;
    match reserve_kept(alloc, parts, group)? {
        Some(ready) => Ok(Stage {
            label,
            fresh: None,
            ready,
        }),
        None => {
            let (inner, ready) = reserve_fresh(alloc, pattern, group)?;
            Ok(Stage {
                label,
                fresh: Some(inner),
                ready,
            })
        }
    }
}

/// Makes the operators of the labels of all groups ready. What they keep stays.
pub(crate) fn reserve_stages<I: TableOperator>(
    alloc: Global,
    pattern: &I,
    parts: &mut IndexMap<Text, I, Seed>,
    groups: &[Group],
) -> Result<Vec<Stage<I>>, NoMemory>
    requires ascend { IsStrictlySortedBy text_cmp (map group_label groups.now) }
    requires fits { (shape : Shape) × (x : List RowValue) × (y : List RowValue) × CanReserve I.table shape pattern.now (get text_eq parts.old) groups.now x y }
    ensures same { (shape : Shape) (q : TextValue) (rows : List RowValue) → KeepsPart I.table shape (get text_eq parts.old q) rows → KeepsPart I.table shape (get text_eq parts.new q) rows }
    ensures ready { IfOk result (λ stages. AreReady I.table I.waiting I.made_for (I.table pattern.now).shape (get text_eq parts.new) groups.now stages.items) }
    ensures room { IfOk result (λ stages. length stages.items ≤ spare parts.new) }
{
    make_room(parts, groups.len())?;
    let mut stages = Vec::new(alloc);
    for group in groups {
        let stage = reserve_stage(alloc, pattern, parts, group)?;
        stages.push(stage)?;
    }
    Ok(stages)
}
