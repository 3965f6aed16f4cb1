//! Terms.
ghost use Rattle.std.specs.Prelude.{◌≡◌, ◌++◌, flat_map, length, map, OnOk};
ghost use Rattle.var_typing.specs.Folds.{SameOthers};
ghost use Rattle.var_typing.specs.Refusals.{Answers};
ghost use Rattle.var_typing.specs.Scope.{declared_at, variable_at};
ghost use Rattle.var_typing.specs.Terms.{lone_fault, term_fault, term_folds, terms_fault, typed_term};

use crate::TypeFault;
use crate::folds::Fold;
use crate::scope::{Scope, declared_at};
use ss_text::Text;
use std::alloc::Global;
use view_def::{RawTerm, Term};

// An identifier alone.
fn type_lone(scope: &Scope<'_>, identifier: &Text) -> Result<u32, TypeFault>
    requires { scope.now.visible ≡ length scope.now.decls.now }
    ensures { let ds = scope.now.decls.now in
        Answers (λ k. k) (lone_fault ds identifier.now (declared_at ds identifier.now)) (variable_at ds identifier.now) result }
{
    match declared_at(scope.decls, identifier) {
        None => Err(TypeFault::NotDeclared {
            name: identifier.copy()?,
        }),
        Some(place) => scope.text_variable(place, identifier),
    }
}

/// A term, where all declarations are in sight.
pub(crate) fn type_term(
    scope: &Scope<'_>,
    folds: &mut Vec<Fold>,
    term: &RawTerm,
) -> Result<Term, TypeFault>
    requires { scope.now.visible ≡ length scope.now.decls.now }
    ensures answer { let ds = scope.now.decls.now in
        Answers (λ t. t) (term_fault ds folds.old.items term.now) (typed_term ds term.now) result }
    ensures taken { OnOk result
        (SameOthers (folds.old.items ++ term_folds scope.now.decls.now term.now) folds.new.items) }
{
    match term {
        RawTerm::Lone(identifier) => Ok(Term::Var(type_lone(scope, identifier)?)),
        RawTerm::Dot(identifier, attribute) => {
            let (tuple, place) = scope.attribute(folds, identifier, attribute)?;
            Ok(Term::Cell(tuple, place))
        }
        RawTerm::Literal(text) => Ok(Term::Literal(text.copy()?)),
    }
}

/// Terms from the left, where all declarations are in sight.
pub(crate) fn type_terms(
    alloc: Global,
    scope: &Scope<'_>,
    folds: &mut Vec<Fold>,
    terms: &[RawTerm],
) -> Result<Vec<Term>, TypeFault>
    requires { scope.now.visible ≡ length scope.now.decls.now }
    ensures answer { let ds = scope.now.decls.now in
        Answers (λ v. v.items) (terms_fault ds folds.old.items terms.now) (map (typed_term ds) terms.now) result }
    ensures taken { let more = flat_map (term_folds scope.now.decls.now) terms.now in
        OnOk result (SameOthers (folds.old.items ++ more) folds.new.items) }
{
    let mut typed = Vec::new(alloc);
    for term in terms {
        let term = type_term(scope, folds, term)?;
        typed.push(term)?;
    }
    Ok(typed)
}
