//! The labels and the conflict for which a view is refused.
ghost use Rattle.std.specs.Prelude.{◌≡◌, not, map, filter, option_and_then, IfOk, if◌then◌else◌};
ghost use Rattle.std.specs.List.Sorted.{IsStrictlySortedBy};
ghost use Rattle.ss_text.specs.Texts.{text_cmp};
ghost use Rattle.ss_text.specs.Ascending.{least};
ghost use Rattle.ss_text.specs.Label.{is_table_label, is_column_label};
ghost use Rattle.flow_law.specs.Facts.{column_of, pair_cmp, pairs_of, illegal, conflict};
ghost use Rattle.flow_law.specs.FactOrder.{fact_cmp};
ghost use Rattle.flow_law.specs.Labelled.{BearLabel};
ghost use Rattle.flow_law.specs.Neighbours.{clash_between};

use crate::fact::{Fact, facts_from};
use crate::fact_cell::FactCell;
use crate::label::Label;
use flow_law::{Clash, IllegalLabel, Shape};
use ss_text::{NoMemory, Row, column_label_legal, table_label_legal};
use std::alloc::Global;

/// The table label of a fact, where it is not legal.
fn illegal_table<'a, C: FactCell>(fact: &Fact<'a, C>) -> Option<Label<'a>>
    ensures { result ≡ (if is_table_label fact.now.label then None else Some fact.now.label) }
{
    let label = fact.label().text();
    if table_label_legal(label) {
        None
    } else {
        Some(Label::of(label))
    }
}

/// The table and the column label of a fact, where the column's is not legal beside these constant columns.
fn illegal_column<'f, C: FactCell>(
    fact: &'f Fact<'_, C>,
    constants: &Row,
) -> Option<(Label<'f>, Label<'f>)>
    ensures { result ≡ option_and_then (λ column. if is_column_label column constants.now then None else Some (fact.now.label, column)) (column_of fact.now) }
{
    let column = fact.column()?.text();
    if column_label_legal(column, constants) {
        None
    } else {
        Some((Label::of(fact.label().text()), Label::of(column)))
    }
}

/// The least table label that is not legal.
fn least_table<'a, C: FactCell>(facts: &[Fact<'a, C>]) -> Option<Label<'a>>
    ensures { result ≡ least text_cmp (filter (λ t. not (is_table_label t)) (map (λ f. f.label) facts.now)) }
{
    facts.iter().filter_map(illegal_table).min()
}

/// The same of facts of a view of this form. Where all bear one label, the first of them tells.
fn least_table_of<'a, C: FactCell>(shape: &Shape, facts: &[Fact<'a, C>]) -> Option<Label<'a>>
    requires { BearLabel shape.now.label facts.now }
    ensures { result ≡ least text_cmp (filter (λ t. not (is_table_label t)) (map (λ f. f.label) facts.now)) }
{
    match &shape.label {
        Some(_) => illegal_table(facts.first()?),
        None => least_table(facts),
    }
}

/// The least table and column whose column label is not legal beside these constant columns.
fn least_column<'f, C: FactCell>(
    facts: &'f [Fact<'_, C>],
    constants: &Row,
) -> Option<(Label<'f>, Label<'f>)>
    ensures { result ≡ least pair_cmp (filter (λ p. not (is_column_label p.1 constants.now)) (pairs_of facts.now)) }
{
    facts
        .iter()
        .filter_map(|fact| illegal_column(fact, constants))
        .min()
}

/// The label for which a view of this form is refused with these facts, if there is one.
#[tactic(auto, unfolding(flow_law::specs::Facts::illegal))]
pub(crate) fn illegal<'a, C: FactCell>(
    shape: &Shape,
    facts: &[Fact<'a, C>],
) -> Result<Option<IllegalLabel>, NoMemory>
    requires { BearLabel shape.now.label facts.now }
    ensures { IfOk result (λ label. label ≡ illegal shape.now facts.now) }
{
    if let Some(table) = least_table_of(shape, facts) {
        return Ok(Some(IllegalLabel {
            table: table.text().copy()?,
            column: None,
        }));
    }
    let Some((table, column)) = least_column(facts, &shape.constants) else {
        return Ok(None);
    };
    Ok(Some(IllegalLabel {
        table: table.text().copy()?,
        column: Some(column.text().copy()?),
    }))
}

/// The clash of a fact and the next one, where they give one cell two values.
fn clash_between<'a, C: FactCell>(
    alloc: Global,
    fact: &Fact<'a, C>,
    next: &Fact<'a, C>,
) -> Result<Option<Clash>, NoMemory>
    ensures { IfOk result (λ clash. clash ≡ clash_between fact.now next.now) }
{
    let (Some((column, first)), Some((named, second))) = (fact.cell(), next.cell()) else {
        return Ok(None);
    };
    let same = column == named && fact.label() == next.label() && fact.has_key_of(next);
    if !same || first.is_empty() {
        return Ok(None);
    }
    Ok(Some(Clash {
        table: fact.label().text().copy()?,
        column: column.text().copy()?,
        first: first.copy(alloc)?,
        second: second.copy(alloc)?,
        key: fact.copy_key(alloc)?,
    }))
}

/// The conflict of facts in order, if there is one: of neighbours, the first that clash.
pub(crate) fn conflict<'a, C: FactCell>(
    alloc: Global,
    facts: &[Fact<'a, C>],
) -> Result<Option<Clash>, NoMemory>
    requires { IsStrictlySortedBy fact_cmp facts.now }
    ensures { IfOk result (λ clash. clash ≡ conflict facts.now) }
{
    let mut place = 0;
    while let [fact, next, ..] = facts_from(facts, place) {
        if let Some(clash) = clash_between(alloc, fact, next)? {
            return Ok(Some(clash));
        }
        place += 1;
    }
    Ok(None)
}
