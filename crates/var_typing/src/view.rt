//! A whole view.
ghost use Rattle.std.specs.Prelude.{◌≡◌, ◌≤◌, ◌≢◌, ◌++◌, ◌<◌, length, slice_get, option_and_then, vec_len, Ok, Err, IfOk, IfErr};
ghost use Rattle.std.specs.Option.{ForSome};
ghost use Rattle.view_def.specs.Profile.{IsViewOfProfile};
ghost use Rattle.view_def.specs.Query.{query_of};
ghost use Rattle.view_def.specs.Tree.{tree_of};
ghost use Rattle.view_def.specs.Written.{IsWritten};
ghost use Rattle.var_typing.specs.declared.fault.TypeFault.TheVariants as fault;
ghost use Rattle.var_typing.specs.Header.{header_parts};
ghost use Rattle.var_typing.specs.Refusals.{Answers};
ghost use Rattle.var_typing.specs.Terms.{terms_fault, terms_in_filter};
ghost use Rattle.var_typing.specs.Typed.{without, body_of, body_parts, query_with, typed};

use crate::TypeFault;
use crate::conditions::type_filter;
use crate::declarations::type_declarations;
use crate::folds::Fold;
use crate::header::{Header, type_header};
use crate::scope::Scope;
use crate::terms::type_terms;
use indexmap::IndexSet;
use ss_text::{NoMemory, Row, Text};
use std::alloc::Global;
use view_def::{Cond, Range, Term, View, ViewText};

// The terms of SELECT, and the condition.
#[derive(Drop)]
struct Body {
    terms: Vec<Term>,
    filter: Option<Cond>,
}

/// The typed view of a definition, or its first refusal: on the declarations from left to right, on the header, on the
/// numbers of columns and terms, and on the terms of SELECT and of the condition from left to right.
///
/// A name that is not quoted and that some declaration declares is that variable. A quoted name is always a constant.
/// A variable is named by the place of its declaration, from 0. What a parse gives is typed as a view of the profile.
pub fn type_view(alloc: Global, view: &ViewText) -> Result<View, TypeFault>
    ensures view { IfOk result (λ v. typed (tree_of view.now) ≡ Ok (query_of v)) }
    ensures profile { IfOk result (λ v. IsWritten (tree_of view.now) → IsViewOfProfile (query_of v)) }
    ensures constants { IfOk result (λ v. 1 ≤ length (query_of v).constants) }
    ensures keys { IfOk result (λ v. length (query_of v).keys ≡ length (query_of v).constants) }
    ensures refused { IfErr result (λ f. f ≢ fault.NoMemory → typed (tree_of view.now) ≡ Err f) }
{
    let decls = view.decls.as_slice();
    let mut folds = Vec::new(alloc);
    let ranges = type_declarations(alloc, decls, &mut folds)?;
    let scope = Scope {
        decls,
        visible: decls.len(),
    };
    let header = type_header(alloc, &scope, view)?;
    let body = type_body(alloc, &scope, &mut folds, view)?;
    Ok(view_of(alloc, header, ranges, body)?)
}

fn type_body(
    alloc: Global,
    scope: &Scope<'_>,
    folds: &mut Vec<Fold>,
    view: &ViewText,
) -> Result<Body, TypeFault>
    requires whole { scope.now.decls.now ≡ view.now.decls.items }
    requires all { scope.now.visible ≡ length scope.now.decls.now }
    ensures { let t = tree_of view.now in
        Answers body_parts (terms_fault t.decls folds.old.items (t.select ++ terms_in_filter t.condition)) (body_of t) result }
{
    let terms = type_terms(alloc, scope, folds, &view.select)?;
    let filter = type_filter(alloc, scope, folds, &view.filter)?;
    Ok(Body { terms, filter })
}

fn view_of(alloc: Global, header: Header, decls: Vec<Range>, body: Body) -> Result<View, NoMemory>
    requires { ForSome header.columns.spot (λ k. k < vec_len body.terms) }
    ensures { IfOk result
        (λ v. query_of v ≡ query_with (header_parts header) decls.items (body_parts body)) }
{
    let Header {
        view_db,
        label,
        columns,
    } = header;
    let constants = row_of(alloc, columns.constants)?;
    let (keys, value) = split_terms(body.terms, columns.spot);
    Ok(View {
        view_db,
        label,
        constants,
        keys,
        spot: columns.spot,
        column: columns.column,
        value,
        decls,
        filter: body.filter,
    })
}

fn row_of(alloc: Global, constants: IndexSet<Text>) -> Result<Row, NoMemory>
    ensures { IfOk result (λ row. row ≡ constants.keys) }
{
    let texts: Vec<Text> = constants.into_iter().collect(alloc)?;
    Ok(Row::of(texts))
}

// The keys, and the value of the variable column.
fn split_terms(mut terms: Vec<Term>, spot: Option<usize>) -> (Vec<Term>, Option<Term>)
    requires { ForSome spot (λ k. k < vec_len terms) }
    ensures keys { result.0.items ≡ without spot terms.items }
    ensures value { result.1 ≡ option_and_then (slice_get terms.items) spot }
{
    match spot {
        None => (terms, None),
        Some(k) => {
            let value = terms.remove(k);
            (terms, Some(value))
        }
    }
}
