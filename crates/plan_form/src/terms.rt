//! The terms of a view, and the cells that its aliases name.
ghost use Rattle.std.specs.Prelude.{◌≡◌, ◌++◌, map, option_map, option_to_list, IfOk, OnOk};
ghost use Rattle.std.specs.List.{filter_map};
ghost use Rattle.view_def.specs.Conditions.{condition_of, conditions_of};
ghost use Rattle.view_def.specs.Query.{query_of};
ghost use Rattle.view_def.specs.Terms.{terms_of, terms_of_each, terms_of_filter, terms_of_view};
ghost use Rattle.plan_law.specs.Columns.{alias_cell, tested_terms};

use crate::copies::{copy_place, copy_term};
use ss_text::NoMemory;
use std::alloc::Global;
use view_def::{Cond, Range, Term, View};

// Adds the terms of a condition, in every branch.
#[cycle(terms)]
fn push_terms(condition: &Cond, terms: &mut Vec<Term>) -> Result<(), NoMemory>
    ensures { OnOk result (terms.new.items ≡ terms.old.items ++ terms_of (condition_of condition.now)) }
{
    match condition {
        Cond::Any(members) => push_terms_of_each(members, terms),
        Cond::All(members) => push_terms_of_each(members, terms),
        Cond::Not(negated) => push_terms(negated, terms),
        Cond::Compare(s, _, t) => {
            terms.push(copy_term(s)?)?;
            terms.push(copy_term(t)?)?;
            Ok(())
        }
    }
}

// And of conditions.
#[cycle(terms)]
fn push_terms_of_each(members: &[Cond], terms: &mut Vec<Term>) -> Result<(), NoMemory>
    ensures { OnOk result (terms.new.items ≡ terms.old.items ++ terms_of_each (conditions_of (map condition_of members.now))) }
{
    for member in members {
        push_terms(member, terms)?;
    }
    Ok(())
}

fn push_filter(filter: &Option<Cond>, terms: &mut Vec<Term>) -> Result<(), NoMemory>
    ensures { OnOk result (terms.new.items ≡ terms.old.items ++ terms_of_filter (option_map condition_of filter.now)) }
{
    match filter {
        None => Ok(()),
        Some(condition) => push_terms(condition, terms),
    }
}

fn push_all(more: &[Term], terms: &mut Vec<Term>) -> Result<(), NoMemory>
    ensures { OnOk result (terms.new.items ≡ terms.old.items ++ more.now) }
{
    for term in more {
        terms.push(copy_term(term)?)?;
    }
    Ok(())
}

fn push_option(term: &Option<Term>, terms: &mut Vec<Term>) -> Result<(), NoMemory>
    ensures { OnOk result (terms.new.items ≡ terms.old.items ++ option_to_list term.now) }
{
    match term {
        None => Ok(()),
        Some(term) => {
            terms.push(copy_term(term)?)?;
            Ok(())
        }
    }
}

fn push_terms_of_view(view: &View, terms: &mut Vec<Term>) -> Result<(), NoMemory>
    ensures { OnOk result (terms.new.items ≡ terms.old.items ++ terms_of_view (query_of view.now)) }
{
    push_all(&view.keys, terms)?;
    push_option(&view.value, terms)?;
    push_filter(&view.filter, terms)?;
    Ok(())
}

fn push_alias(range: &Range, terms: &mut Vec<Term>) -> Result<(), NoMemory>
    ensures { OnOk result (terms.new.items ≡ terms.old.items ++ option_to_list (alias_cell range.now)) }
{
    match range {
        Range::Alias(tuple, attribute) => {
            terms.push(Term::Cell(*tuple, copy_place(attribute)?))?;
            Ok(())
        }
        Range::Databases
        | Range::Relations(_)
        | Range::Attributes(..)
        | Range::Tuples(..)
        | Range::Values(..) => Ok(()),
    }
}

fn alias_cells(alloc: Global, decls: &[Range]) -> Result<Vec<Term>, NoMemory>
    ensures { IfOk result (λ ts. ts.items ≡ filter_map alias_cell decls.now) }
{
    let mut terms = Vec::new(alloc);
    for range in decls {
        push_alias(range, &mut terms)?;
    }
    Ok(terms)
}

/// The cells that the aliases of a view name, and its terms.
pub(crate) fn tested_terms(alloc: Global, view: &View) -> Result<Vec<Term>, NoMemory>
    ensures { IfOk result (λ ts. ts.items ≡ tested_terms (query_of view.now)) }
{
    let mut terms = alias_cells(alloc, &view.decls)?;
    push_terms_of_view(view, &mut terms)?;
    Ok(terms)
}
