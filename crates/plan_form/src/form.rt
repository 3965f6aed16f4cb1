//! What a plan of a view is made of.
ghost use Rattle.std.specs.Prelude.{◌≡◌, ◌++◌, [], map, IfOk, OnOk};
ghost use Rattle.view_def.specs.Query.{query_of};
ghost use Rattle.view_def.specs.Profile.{IsViewOfProfile};
ghost use Rattle.plan_law.specs.Columns.{tested_terms, header};
ghost use Rattle.plan_law.specs.PlanRows.{plan_header};
ghost use Rattle.plan_form.specs.Bases.{base_value, is_alias, base_here, bases_from};
ghost use Rattle.plan_form.specs.Forms.{IsFormOf};

use crate::base::{Base, base_of};
use crate::output::{Output, output_of};
use crate::terms::tested_terms;
use ss_text::NoMemory;
use std::alloc::Global;
use view_def::{Range, Term, View};

/// What a plan of a view is made of: the declarations that are no aliases, in order, and the fact of a full row, whose
/// cells are those of the flat rows of these declarations one behind the other.
#[derive(Debug, Drop)]
pub struct Form {
    pub bases: Vec<Base>,
    pub output: Output,
}

fn push_all(more: Vec<Term>, terms: &mut Vec<Term>) -> Result<(), NoMemory>
    ensures { OnOk result (terms.new.items ≡ terms.old.items ++ more.items) }
{
    for term in more {
        terms.push(term)?;
    }
    Ok(())
}

fn is_alias(range: &Range) -> bool
    ensures { result ≡ is_alias range.now }
{
    match range {
        Range::Alias(..) => true,
        Range::Databases
        | Range::Relations(_)
        | Range::Attributes(..)
        | Range::Tuples(..)
        | Range::Values(..) => false,
    }
}

// Adds what the plan keeps of a declaration, and the terms over its flat rows; nothing for an alias.
fn push_base(
    alloc: Global,
    view: &View,
    terms: &[Term],
    declaration: u32,
    range: &Range,
    above: &mut Vec<Term>,
    bases: &mut Vec<Base>,
) -> Result<(), NoMemory>
    requires { terms.now ≡ tested_terms (query_of view.now) }
    ensures bases { OnOk result (map base_value bases.new.items ≡ map base_value bases.old.items ++ base_here (query_of view.now) above.old.items declaration range.now) }
    ensures above { OnOk result (above.new.items ≡ above.old.items ++ header (query_of view.now) declaration range.now) }
{
    if is_alias(range) {
        return Ok(());
    }
    let (base, own) = base_of(alloc, view, terms, above, declaration, range)?;
    bases.push(base)?;
    push_all(own, above)
}

// What the plan keeps of all declarations, and the terms over full rows.
fn bases_of(alloc: Global, view: &View) -> Result<(Vec<Base>, Vec<Term>), NoMemory>
    requires { IsViewOfProfile (query_of view.now) }
    ensures bases { IfOk result (λ r. map base_value r.0.items ≡ bases_from (query_of view.now) [] 0 view.now.decls.items) }
    ensures header { IfOk result (λ r. r.1.items ≡ plan_header (query_of view.now)) }
{
    let terms = tested_terms(alloc, view)?;
    let mut header = Vec::new(alloc);
    let mut bases = Vec::new(alloc);
    for (declaration, range) in view.decls.iter().enumerate() {
        push_base(
            alloc,
            view,
            &terms,
            declaration as u32,
            range,
            &mut header,
            &mut bases,
        )?;
    }
    Ok((bases, header))
}

/// What a plan of this view is made of.
pub fn form_of(alloc: Global, view: &View) -> Result<Form, NoMemory>
    requires { IsViewOfProfile (query_of view.now) }
    ensures { IfOk result (IsFormOf (query_of view.now)) }
{
    let (bases, header) = bases_of(alloc, view)?;
    let output = output_of(alloc, view, &header)?;
    Ok(Form { bases, output })
}
