//! The terms over the flat rows of a declaration.
ghost use Rattle.std.specs.Prelude.{◌≡◌, ◌++◌, [], ◌∷◌, map, IfOk, OnOk};
ghost use Rattle.view_def.specs.declared.typed.Range.TheVariants as range_is;
ghost use Rattle.plan_law.specs.Columns.{fold_header};
ghost use Rattle.plan_form.specs.Headers.{header_over, cell_under};

use crate::copies::term_of;
use ss_text::{NoMemory, Row};
use std::alloc::Global;
use view_def::{Place, Range, Term};

fn push_cells(wanted: &Row, declaration: u32, terms: &mut Vec<Term>) -> Result<(), NoMemory>
    ensures { OnOk result (terms.new.items ≡ terms.old.items ++ map (cell_under declaration) wanted.now) }
{
    for name in wanted.cells() {
        terms.push(Term::Cell(declaration, Place::Fixed(name.copy()?)))?;
    }
    Ok(())
}

fn push_fold(fold: Option<u32>, declaration: u32, terms: &mut Vec<Term>) -> Result<(), NoMemory>
    ensures { OnOk result (terms.new.items ≡ terms.old.items ++ fold_header declaration fold) }
{
    match fold {
        None => Ok(()),
        Some(variable) => {
            terms.push(Term::Var(variable))?;
            terms.push(Term::Cell(declaration, Place::Var(variable)))?;
            Ok(())
        }
    }
}

fn tuple_header(
    alloc: Global,
    db: &Place,
    rel: &Place,
    wanted: &Row,
    fold: Option<u32>,
    declaration: u32,
) -> Result<Vec<Term>, NoMemory>
    ensures { IfOk result (λ h. h.items ≡ header_over wanted.now fold declaration (range_is.Tuples db.now rel.now)) }
{
    let mut terms = vec![in alloc; term_of(db)?, term_of(rel)?]?;
    push_cells(wanted, declaration, &mut terms)?;
    push_fold(fold, declaration, &mut terms)?;
    Ok(terms)
}

/// The terms over the flat rows of a declaration, of which these attributes are wanted, and this fold.
pub(crate) fn header(
    alloc: Global,
    wanted: &Row,
    fold: Option<u32>,
    declaration: u32,
    range: &Range,
) -> Result<Vec<Term>, NoMemory>
    ensures { IfOk result (λ h. h.items ≡ header_over wanted.now fold declaration range.now) }
{
    match range {
        Range::Databases => Ok(vec![in alloc; Term::Var(declaration)]?),
        Range::Relations(db) => Ok(vec![in alloc; term_of(db)?, Term::Var(declaration)]?),
        Range::Attributes(db, rel) => {
            Ok(vec![in alloc; term_of(db)?, term_of(rel)?, Term::Var(declaration)]?)
        }
        Range::Tuples(db, rel) => Ok(tuple_header(alloc, db, rel, wanted, fold, declaration)?),
        Range::Values(db, rel, attribute) => Ok(vec![in alloc;
            term_of(db)?,
            term_of(rel)?,
            term_of(attribute)?,
            Term::Var(declaration),
        ]?),
        Range::Alias(..) => Ok(Vec::new(alloc)),
    }
}
