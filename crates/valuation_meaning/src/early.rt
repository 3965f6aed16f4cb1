//! What ends a branch before all its declarations have an element.
ghost use Rattle.std.specs.Prelude.{◌≡◌, ◌++◌, true, map, option_map, option_to_list, IfOk, IfSome, IsTrue, OnOk};
ghost use Rattle.std.specs.List.{All};
ghost use Rattle.view_def.specs.Conditions.{condition_of, conditions_of};
ghost use Rattle.view_def.specs.Query.{Query, query_of};
ghost use Rattle.view_def.specs.Terms.{terms_of, terms_of_each, terms_of_view};
ghost use Rattle.view_def.specs.declared.typed.Term.TheVariants as term_is;
ghost use Rattle.view_meaning.specs.Early.{is_bound_place, is_bound, are_bound, members_of, members, Ends};
ghost use Rattle.valuation_meaning.specs.EarlyTests.{terms_now, IsEarlyMember, IsEarlyTerm};

use crate::element::Element;
use crate::truth::truth;
use crate::value::value_of;
use ss_text::NoMemory;
use std::alloc::Global;
use view_def::{Cond, Place, Range, Term, View};
use view_meaning::members;

/// A member of the outermost AND, and how many declarations bind its variables.
#[derive(Drop)]
pub(crate) struct EarlyMember<'a> {
    pub depth: usize,
    pub condition: &'a Cond,
}

/// A term of the view, and how many declarations bind its variables.
#[derive(Drop)]
pub(crate) struct EarlyTerm<'a> {
    pub depth: usize,
    pub term: &'a Term,
}

/// Whether the variable of a place, if it has one, is among those of so many declarations.
pub(crate) fn is_bound_place(depth: usize, place: &Place) -> bool
    ensures { result ≡ is_bound_place depth place.now }
{
    match place {
        Place::Fixed(_) => true,
        Place::Var(declaration) => (*declaration as usize) < depth,
    }
}

/// Whether the variables of a cell are among those of so many declarations.
pub(crate) fn is_bound_cell(depth: usize, tuple: u32, attribute: &Place) -> bool
    ensures { result ≡ is_bound depth (term_is.Cell tuple attribute.now) }
{
    (tuple as usize) < depth && is_bound_place(depth, attribute)
}

/// Whether the variables of a term are among those of so many declarations.
pub(crate) fn is_bound(depth: usize, term: &Term) -> bool
    ensures { result ≡ is_bound depth term.now }
{
    match term {
        Term::Literal(_) => true,
        Term::Var(declaration) => (*declaration as usize) < depth,
        Term::Cell(tuple, attribute) => is_bound_cell(depth, *tuple, attribute),
    }
}

/// Whether those of a condition are.
#[cycle(bound)]
fn is_bound_condition(depth: usize, condition: &Cond) -> bool
    ensures { result ≡ are_bound depth (terms_of (condition_of condition.now)) }
{
    match condition {
        Cond::Any(members) => are_bound_conditions(depth, members),
        Cond::All(members) => are_bound_conditions(depth, members),
        Cond::Not(negated) => is_bound_condition(depth, negated),
        Cond::Compare(s, _, t) => is_bound(depth, s) && is_bound(depth, t),
    }
}

#[cycle(bound)]
fn are_bound_conditions(depth: usize, members: &[Cond]) -> bool
    ensures { result ≡ are_bound depth (terms_of_each (conditions_of (map condition_of members.now))) }
{
    for member in members {
        if !is_bound_condition(depth, member) {
            return false;
        }
    }
    true
}

/// Whether a declaration is an alias.
pub(crate) fn is_alias(range: &Range) -> bool {
    match range {
        Range::Alias(_, _) => true,
        _ => false,
    }
}

// The last declaration that is no alias: behind it each has one element at most, and an early test saves nothing.
fn last_wide(decls: &[Range]) -> usize {
    let mut last = 0;
    for place in 0..decls.len() {
        if !is_alias(&decls[place]) {
            last = place;
        }
    }
    last
}

// The least number of declarations, up to the last that is no alias, that bind the variables of a condition.
fn depth_of_condition(condition: &Cond, declarations: usize, last: usize) -> Option<usize>
    ensures { IfSome result (λ depth. are_bound depth (terms_of (condition_of condition.now)) ≡ true) }
{
    for depth in 0..declarations {
        if depth <= last && is_bound_condition(depth, condition) {
            return Some(depth);
        }
    }
    None
}

// And those of a term.
fn depth_of_term(term: &Term, declarations: usize, last: usize) -> Option<usize>
    ensures { IfSome result (λ depth. is_bound depth term.now ≡ true) }
{
    for depth in 0..declarations {
        if depth <= last && is_bound(depth, term) {
            return Some(depth);
        }
    }
    None
}

/// The members that can be tested before the last declaration.
pub(crate) fn early_members<'a>(
    alloc: Global,
    view: &'a View,
) -> Result<Vec<EarlyMember<'a>>, NoMemory>
    ensures { IfOk result (λ tests. All (IsEarlyMember (query_of view.now)) tests.items) }
{
    let last = last_wide(&view.decls);
    let mut tests = Vec::new(alloc);
    for condition in members(&view.filter) {
        if let Some(depth) = depth_of_condition(condition, view.decls.len(), last) {
            tests.push(EarlyMember { depth, condition })?;
        }
    }
    Ok(tests)
}

// Adds the terms of a condition, in every branch.
#[cycle(terms)]
fn push_terms<'a>(condition: &'a Cond, terms: &mut Vec<&'a Term>) -> Result<(), NoMemory>
    ensures { OnOk result (terms_now terms.new.items ≡ terms_now terms.old.items ++ terms_of (condition_of condition.now)) }
{
    match condition {
        Cond::Any(members) => push_terms_of_each(members, terms),
        Cond::All(members) => push_terms_of_each(members, terms),
        Cond::Not(negated) => push_terms(negated, terms),
        Cond::Compare(s, _, t) => {
            terms.push(s)?;
            terms.push(t)?;
            Ok(())
        }
    }
}

// And of conditions.
#[cycle(terms)]
fn push_terms_of_each<'a>(members: &'a [Cond], terms: &mut Vec<&'a Term>) -> Result<(), NoMemory>
    ensures { OnOk result (terms_now terms.new.items ≡ terms_now terms.old.items ++ terms_of_each (conditions_of (map condition_of members.now))) }
{
    for member in members {
        push_terms(member, terms)?;
    }
    Ok(())
}

// The terms of SELECT.
fn selected<'a>(alloc: Global, view: &'a View) -> Result<Vec<&'a Term>, NoMemory>
    ensures { IfOk result (λ ts. terms_now ts.items ≡ view.now.keys.items ++ option_to_list view.now.value) }
{
    let mut terms = Vec::with_capacity(alloc, view.keys.len())?;
    for term in &view.keys {
        terms.push(term)?;
    }
    if let Some(value) = &view.value {
        terms.push(value)?;
    }
    Ok(terms)
}

// The terms of a view.
fn terms<'a>(alloc: Global, view: &'a View) -> Result<Vec<&'a Term>, NoMemory>
    ensures { IfOk result (λ ts. terms_now ts.items ≡ terms_of_view (query_of view.now)) }
{
    let mut terms = selected(alloc, view)?;
    if let Some(condition) = &view.filter {
        push_terms(condition, &mut terms)?;
    }
    Ok(terms)
}

/// The terms of a view that can be tested before the last declaration.
pub(crate) fn early_terms<'a>(alloc: Global, view: &'a View) -> Result<Vec<EarlyTerm<'a>>, NoMemory>
    ensures { IfOk result (λ tests. All (IsEarlyTerm (query_of view.now)) tests.items) }
{
    let last = last_wide(&view.decls);
    let mut tests = Vec::new(alloc);
    let terms = terms(alloc, view)?;
    for term in &terms {
        let term = *term;
        if let Some(depth) = depth_of_term(term, view.decls.len(), last) {
            tests.push(EarlyTerm { depth, term })?;
        }
    }
    Ok(tests)
}

/// Whether a member that these elements bind does not hold. Only those that the last element bound are tested.
pub(crate) fn fails_member(tests: &[EarlyMember<'_>], valuation: &[Element<'_>]) -> bool
    ensures { IsTrue result → (q : Query) → All (IsEarlyMember q) tests.now → Ends q valuation.now }
{
    for test in tests {
        if test.depth == valuation.len() && !truth(valuation, test.condition).unwrap_or(false) {
            return true;
        }
    }
    false
}

/// Whether a term that these elements bind is not defined.
pub(crate) fn lacks_term<'a>(tests: &[EarlyTerm<'a>], valuation: &[Element<'a>]) -> bool
    ensures { IsTrue result → (q : Query) → All (IsEarlyTerm q) tests.now → Ends q valuation.now }
{
    for test in tests {
        if test.depth == valuation.len() && value_of(valuation, test.term).is_none() {
            return true;
        }
    }
    false
}
