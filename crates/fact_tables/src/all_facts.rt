//! Facts in order, with those that come again.
ghost use Rattle.std.specs.Prelude.{◌≡◌, ◌++◌, ◌∷◌, [], None, length, IfOk, IfErr, IfSome, OnOk};
ghost use Rattle.flow_law.specs.Facts.{refusal_by};
ghost use Rattle.flow_law.specs.FactOrder.{fact_cmp};
ghost use Rattle.flow_law.specs.FactTables.{tables};
ghost use Rattle.flow_law.specs.InOrder.{AreTables};
ghost use Rattle.flow_law.specs.Labelled.{BearLabel};
ghost use Rattle.flow_law.specs.Faults.{IsFaultOf};
ghost use Rattle.flow_law.specs.declared.refused.EvalFault.TheVariants as eval;
ghost use Rattle.fact_tables.specs.Counted.{EachAsOften, each_fact, repeats_in};

use crate::fact::{Fact, facts_from};
use crate::fact_cell::FactCell;
use crate::ordered::{leave_once, sort_legal};
use crate::table_facts::{TableFacts, table_facts};
use flow_law::{EvalFault, Shape};
use ss_text::NoMemory;
use std::alloc::Global;
use std::marker::Model;

/// Facts in order, each once, and beside them those that come again, as where two rows give one fact. Contracts see both, and
/// the tables that they give.
#[derive(Drop)]
pub struct AllFacts<'a, C: FactCell> {
    shape: &'a Shape,
    once: Vec<Fact<'a, C>>,
    repeats: Vec<Fact<'a, C>>,
}

impl<'a, C: FactCell> Model for AllFacts<'a, C> {
    ghost use Rattle.std.specs.List.Sorted.{IsStrictlySortedBy};
    ghost use Rattle.flow_law.specs.FactOrder.{fact_cmp};
    ghost use Rattle.flow_law.specs.Labelled.{BearLabel};
    ghost use Rattle.flow_law.specs.FactTables.{tables};
    ghost use Rattle.fact_tables.specs.Counted.{AllFactsValue};

    ghost Value = { AllFactsValue };

    ghost view = { λ a. record { tables = tables a.shape.now a.once.items; once = a.once.items; repeats = a.repeats.items } };

    ghost invariant = { λ a. record { sorted : IsStrictlySortedBy fact_cmp a.once.items; bear : BearLabel a.shape.now.label a.once.items } };
}

impl<'a, C: FactCell> AllFacts<'a, C> {
    /// The facts of each table, in the order of the labels.
    pub fn by_table(&self, alloc: Global) -> Result<Vec<TableFacts<'_, 'a, C>>, NoMemory>
        ensures each { IfOk result (λ each. each.items ≡ self.now.tables) }
        ensures in_order { AreTables self.now.tables }
    {
        table_facts(alloc, self.shape, &self.once)
    }

    /// How many there are, each counted once.
    pub fn count_once(&self) -> usize
        ensures { result ≡ length self.now.once }
    {
        self.once.len()
    }

    /// Takes the last fact out, those that come again before the others. Once less than half of their memory is used, the rest
    /// is given back.
    pub fn take_last(&mut self) -> Option<Fact<'a, C>>
        ensures taken { IfSome result (λ fact. each_fact self.old ≡ each_fact self.new ++ fact ∷ []) }
        ensures none { result ≡ None → each_fact self.old ≡ [] }
    {
        if let Some(fact) = self.repeats.pop() {
            return Some(fact);
        }
        let fact = self.once.pop()?;
        if self.once.len() < self.once.capacity() / 2 {
            self.once.shrink_to_fit();
        }
        Some(fact)
    }
}

// The facts of a sorted list that equal the one before.
fn repeats_in<'a, C: FactCell>(
    alloc: Global,
    facts: &[Fact<'a, C>],
) -> Result<Vec<Fact<'a, C>>, NoMemory>
    ensures { IfOk result (λ repeats. repeats.items ≡ repeats_in facts.now) }
{
    let mut repeats = Vec::new(alloc);
    let mut place = 0;
    while let [fact, next, ..] = facts_from(facts, place) {
        if fact == next {
            repeats.push(next.again())?;
        }
        place += 1;
    }
    Ok(repeats)
}

/// The facts of a view of this form, in any order, put in order with those that come again beside them; or why the view is
/// refused for them, as by `order_facts`.
pub fn order_all_facts<'a, C: FactCell>(
    alloc: Global,
    shape: &'a Shape,
    mut facts: Vec<Fact<'a, C>>,
) -> Result<AllFacts<'a, C>, EvalFault>
    requires { BearLabel shape.now.label facts.items }
    ensures tables { IfOk result (λ all. all.tables ≡ tables shape.now facts.entry.items) }
    ensures facts { IfOk result (λ all. EachAsOften facts.entry.items (each_fact all)) }
    ensures allowed { OnOk result (refusal_by eval.Illegal eval.Conflict shape.now facts.entry.items ≡ None) }
    ensures refused { IfErr result (IsFaultOf shape.now facts.entry.items) }
{
    sort_legal(shape, &mut facts)?;
    let repeats = repeats_in(alloc, &facts)?;
    leave_once(alloc, &mut facts)?;
    Ok(AllFacts {
        shape,
        once: facts,
        repeats,
    })
}
