//! A fact that comes to the operator of its label.
ghost use Rattle.std.specs.Prelude.{◌≡◌, [], ◌∷◌, List, false, None, Some, IfOk, OnOk, if◌then◌else◌};
ghost use Rattle.ss_text.specs.Texts.{Text as TextValue, Row as RowValue, text_eq};
ghost use Rattle.indexmap.specs.IndexMap.{get};
ghost use Rattle.flow_law.specs.declared.shape.Shape.{Shape};
ghost use Rattle.flow_law.specs.Facts.{Fact};
ghost use Rattle.flow_law.specs.FactRows.{fact_row};
ghost use Rattle.split_op.specs.Parts.{SameColumns, KeepsPart};
ghost use Rattle.split_op.specs.Added.{CanAddPart};

use indexmap::IndexMap;
use operator_law::Fresh;
use ss_text::{NoMemory, Row, Seed, Text};
use std::alloc::Global;
use unfold_op::TableOperator;

// An operator for a label without facts, which keeps this one.
fn fresh_with<I: TableOperator>(
    alloc: Global,
    pattern: &I,
    label: &Text,
    key: Row,
    cell: Option<(Text, Text)>,
) -> Result<I, NoMemory>
    requires { let fact : Fact = record { label = label.now; key = key; cell = cell } in (shape : Shape) × SameColumns shape (I.table pattern.now).shape × CanAddPart I.table shape None fact [] }
    ensures { let fact : Fact = record { label = label.now; key = key; cell = cell } in IfOk result (λ t. (shape : Shape) → SameColumns shape (I.table pattern.now).shape
        → CanAddPart I.table shape None fact [] → KeepsPart I.table shape (Some t) (fact_row fact ∷ [])) }
{
    let mut inner = pattern.fresh(alloc)?;
    inner.add(label, key, cell)?;
    Ok(inner)
}

// Gives a label an operator.
fn put<I: TableOperator>(
    parts: &mut IndexMap<Text, I, Seed>,
    label: Text,
    inner: I,
) -> Result<(), NoMemory>
    ensures { OnOk result ((q : TextValue) → get text_eq parts.new q ≡ (if text_eq label q then Some inner else get text_eq parts.old q)) }
{
    parts.insert(label, inner)?;
    Ok(())
}

/// Adds a fact to the operator of its label, which is made where the label has none.
pub(crate) fn add_fact<I: TableOperator>(
    alloc: Global,
    pattern: &I,
    parts: &mut IndexMap<Text, I, Seed>,
    label: &Text,
    key: Row,
    cell: Option<(Text, Text)>,
) -> Result<(), NoMemory>
    requires { let fact : Fact = record { label = label.now; key = key; cell = cell } in (shape : Shape) × (rows : List RowValue) × SameColumns shape (I.table pattern.now).shape
        × CanAddPart I.table shape (get text_eq parts.old label.now) fact rows }
    ensures added { let fact : Fact = record { label = label.now; key = key; cell = cell } in OnOk result ((shape : Shape) (rows : List RowValue) → SameColumns shape (I.table pattern.now).shape
        → CanAddPart I.table shape (get text_eq parts.old label.now) fact rows → KeepsPart I.table shape (get text_eq parts.new label.now) (fact_row fact ∷ rows)) }
    ensures others { OnOk result ((q : TextValue) → text_eq label.now q ≡ false → get text_eq parts.new q ≡ get text_eq parts.old q) }
{
    match parts.get_mut(label) {
        Some(inner) => inner.add(label, key, cell)?,
        None => {
            let inner = fresh_with(alloc, pattern, label, key, cell)?;
            put(parts, label.copy()?, inner)?;
        }
    }
    Ok(())
}
