//! Facts in order, for which a view is not refused.
ghost use Rattle.std.specs.Prelude.{◌≡◌, None, IfOk, IfErr, OnOk};
ghost use Rattle.std.specs.List.Sorted.{IsPermutation, IsSorted};
ghost use Rattle.ss_text.specs.Ascending.{ascending};
ghost use Rattle.flow_law.specs.Facts.{refusal_by, illegal, conflict};
ghost use Rattle.flow_law.specs.FactOrder.{fact_cmp};
ghost use Rattle.flow_law.specs.FactTables.{tables};
ghost use Rattle.flow_law.specs.InOrder.{AreTables};
ghost use Rattle.flow_law.specs.Labelled.{BearLabel};
ghost use Rattle.flow_law.specs.Faults.{IsFaultOf};
ghost use Rattle.flow_law.specs.declared.refused.EvalFault.TheVariants as eval;
ghost use Rattle.fact_tables.specs.Conflicts.{IsConflict};

use crate::fact::Fact;
use crate::fact_cell::FactCell;
use crate::refused::{conflict, illegal};
use crate::table_facts::{TableFacts, table_facts};
use crate::tables::tables;
use flow_law::{EvalFault, Shape, Tables};
use ss_text::NoMemory;
use std::alloc::Global;
use std::marker::Model;

/// Facts in order, each once, which contracts see as the tables that they give. They are there to be read table by
/// table and row by row, where the tables themselves are not wanted.
#[derive(Drop)]
pub struct OrderedFacts<'a, C: FactCell> {
    shape: &'a Shape,
    facts: Vec<Fact<'a, C>>,
}

impl<'a, C: FactCell> Model for OrderedFacts<'a, C> {
    ghost use Rattle.std.specs.List.Sorted.{IsStrictlySortedBy};
    ghost use Rattle.flow_law.specs.FactOrder.{fact_cmp};
    ghost use Rattle.flow_law.specs.Labelled.{BearLabel};
    ghost use Rattle.flow_law.specs.Tables.{TablesValue};
    ghost use Rattle.flow_law.specs.FactTables.{tables};

    ghost Value = { TablesValue };

    ghost view = { λ o. tables o.shape.now o.facts.items };

    ghost invariant = { λ o. record { sorted : IsStrictlySortedBy fact_cmp o.facts.items; bear : BearLabel o.shape.now.label o.facts.items } };
}

impl<'a, C: FactCell> OrderedFacts<'a, C> {
    /// The tables.
    pub fn tables(&self, alloc: Global) -> Result<Tables, NoMemory>
        ensures { IfOk result (λ made. made ≡ self.now) }
    {
        tables(alloc, self.shape, &self.facts)
    }

    /// The facts of each table, in the order of the labels.
    pub fn by_table(&self, alloc: Global) -> Result<Vec<TableFacts<'_, 'a, C>>, NoMemory>
        ensures each { IfOk result (λ each. each.items ≡ self.now) }
        ensures in_order { AreTables self.now }
    {
        table_facts(alloc, self.shape, &self.facts)
    }
}

/// The facts of a view of this form, in any order, put in order; or why the view is refused for them: the least table
/// label that is not legal, or else the least column label, or else the least conflict.
pub fn order_facts<'a, C: FactCell>(
    alloc: Global,
    shape: &'a Shape,
    mut facts: Vec<Fact<'a, C>>,
) -> Result<OrderedFacts<'a, C>, EvalFault>
    requires { BearLabel shape.now.label facts.items }
    ensures tables { IfOk result (λ ordered. ordered ≡ tables shape.now facts.entry.items) }
    ensures allowed { OnOk result (refusal_by eval.Illegal eval.Conflict shape.now facts.entry.items ≡ None) }
    ensures refused { IfErr result (IsFaultOf shape.now facts.entry.items) }
{
    sort_legal(shape, &mut facts)?;
    leave_once(alloc, &mut facts)?;
    Ok(OrderedFacts { shape, facts })
}

/// Sorts facts, unless a label is not legal.
pub(crate) fn sort_legal<'a, C: FactCell>(
    shape: &Shape,
    facts: &mut Vec<Fact<'a, C>>,
) -> Result<(), EvalFault>
    requires { BearLabel shape.now.label facts.old.items }
    ensures same { OnOk result (IsPermutation facts.old.items facts.new.items) }
    ensures sorted { OnOk result (IsSorted fact_cmp facts.new.items) }
    ensures legal { OnOk result (illegal shape.now facts.old.items ≡ None) }
    ensures refused { IfErr result (IsFaultOf shape.now facts.old.items) }
{
    if let Some(label) = illegal(shape, facts)? {
        return Err(EvalFault::Illegal(label));
    }
    sort(shape, facts);
    Ok(())
}

// Sorts facts. Where all bear one label it is not read.
fn sort<'a, C: FactCell>(shape: &Shape, facts: &mut Vec<Fact<'a, C>>)
    requires { BearLabel shape.now.label facts.old.items }
    ensures same { IsPermutation facts.old.items facts.new.items }
    ensures sorted { IsSorted fact_cmp facts.new.items }
{
    match &shape.label {
        Some(_) => facts.sort_unstable_by(|fact, other| fact.order_in_table(other)),
        None => facts.sort_unstable(),
    }
}

/// Leaves each of sorted facts once, unless two of them conflict. It is done in place, since a copy of all facts would take
/// more memory than all else.
pub(crate) fn leave_once<'a, C: FactCell>(
    alloc: Global,
    facts: &mut Vec<Fact<'a, C>>,
) -> Result<(), EvalFault>
    requires { IsSorted fact_cmp facts.old.items }
    ensures order { OnOk result (facts.new.items ≡ ascending fact_cmp facts.old.items) }
    ensures clean { OnOk result (conflict facts.old.items ≡ None) }
    ensures refused { IfErr result (IsConflict facts.old.items) }
{
    facts.dedup();
    if let Some(clash) = conflict(alloc, facts)? {
        return Err(EvalFault::Conflict(clash));
    }
    Ok(())
}
