//! Conditions, with their terms typed from left to right.
ghost use Rattle.std.specs.Prelude.{◌≡◌, ◌++◌, flat_map, length, map, option_map, [], ◌∷◌, OnOk};
ghost use Rattle.view_def.specs.Conditions.{AnyOf, AllOf, Compares, condition_of, conditions_of};
ghost use Rattle.view_def.specs.RawConditions.{raw_of, raws};
ghost use Rattle.var_typing.specs.Folds.{SameOthers};
ghost use Rattle.var_typing.specs.Refusals.{Answers};
ghost use Rattle.var_typing.specs.Terms.{term_folds, terms_fault, typed_term, terms_in, terms_in_each, terms_in_filter, typed_condition, typed_conditions};

use crate::TypeFault;
use crate::folds::Fold;
use crate::scope::Scope;
use crate::terms::type_term;
use std::alloc::Global;
use view_def::{Cond, Op, RawCond, RawTerm};

/// The condition of a view, where it has one.
pub(crate) fn type_filter(
    alloc: Global,
    scope: &Scope<'_>,
    folds: &mut Vec<Fold>,
    filter: &Option<RawCond>,
) -> Result<Option<Cond>, TypeFault>
    requires { scope.now.visible ≡ length scope.now.decls.now }
    ensures { let ds = scope.now.decls.now in let c = option_map raw_of filter.now in
        Answers (option_map condition_of) (terms_fault ds folds.old.items (terms_in_filter c))
        (option_map (typed_condition ds) c) result }
{
    match filter {
        None => Ok(None),
        Some(condition) => Ok(Some(type_condition(alloc, scope, folds, condition)?)),
    }
}

#[cycle(condition)]
fn type_condition(
    alloc: Global,
    scope: &Scope<'_>,
    folds: &mut Vec<Fold>,
    condition: &RawCond,
) -> Result<Cond, TypeFault>
    requires { scope.now.visible ≡ length scope.now.decls.now }
    ensures answer { let ds = scope.now.decls.now in let c = raw_of condition.now in
        Answers condition_of (terms_fault ds folds.old.items (terms_in c)) (typed_condition ds c) result }
    ensures taken { let more = flat_map (term_folds scope.now.decls.now) (terms_in (raw_of condition.now)) in
        OnOk result (SameOthers (folds.old.items ++ more) folds.new.items) }
{
    match condition {
        RawCond::Any(members) => Ok(any_of(type_members(alloc, scope, folds, members)?)),
        RawCond::All(members) => Ok(all_of(type_members(alloc, scope, folds, members)?)),
        RawCond::Not(held) => {
            let held = type_condition(alloc, scope, folds, held)?;
            Ok(Cond::Not(Box::new(alloc, held)?))
        }
        RawCond::Compare(left, op, right) => type_comparison(scope, folds, left, *op, right),
    }
}

#[cycle(condition)]
fn type_members(
    alloc: Global,
    scope: &Scope<'_>,
    folds: &mut Vec<Fold>,
    members: &[RawCond],
) -> Result<Vec<Cond>, TypeFault>
    requires { scope.now.visible ≡ length scope.now.decls.now }
    ensures answer { let ds = scope.now.decls.now in let cs = raws (map raw_of members.now) in
        Answers (λ v. conditions_of (map condition_of v.items)) (terms_fault ds folds.old.items (terms_in_each cs))
        (typed_conditions ds cs) result }
    ensures taken { let terms = terms_in_each (raws (map raw_of members.now)) in
        OnOk result (SameOthers (folds.old.items ++ flat_map (term_folds scope.now.decls.now) terms) folds.new.items) }
{
    let mut typed = Vec::new(alloc);
    for member in members {
        let member = type_condition(alloc, scope, folds, member)?;
        typed.push(member)?;
    }
    Ok(typed)
}

fn any_of(members: Vec<Cond>) -> Cond
    ensures { condition_of result ≡ AnyOf (conditions_of (map condition_of members.items)) }
{
    Cond::Any(members)
}

fn all_of(members: Vec<Cond>) -> Cond
    ensures { condition_of result ≡ AllOf (conditions_of (map condition_of members.items)) }
{
    Cond::All(members)
}

fn type_comparison(
    scope: &Scope<'_>,
    folds: &mut Vec<Fold>,
    left: &RawTerm,
    op: Op,
    right: &RawTerm,
) -> Result<Cond, TypeFault>
    requires { scope.now.visible ≡ length scope.now.decls.now }
    ensures answer { let ds = scope.now.decls.now in
        Answers condition_of (terms_fault ds folds.old.items (left.now ∷ right.now ∷ []))
        (Compares (typed_term ds left.now) op (typed_term ds right.now)) result }
    ensures taken { let more = flat_map (term_folds scope.now.decls.now) (left.now ∷ right.now ∷ []) in
        OnOk result (SameOthers (folds.old.items ++ more) folds.new.items) }
{
    let left = type_term(scope, folds, left)?;
    let right = type_term(scope, folds, right)?;
    Ok(Cond::Compare(left, op, right))
}
