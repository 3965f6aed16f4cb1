//! Where the text of a term is found in two rows.
ghost use Rattle.std.specs.Prelude.{◌≡◌, option_map, option_copied, position, IfOk};
ghost use Rattle.view_def.specs.declared.typed.Term.TheVariants as term_is;
ghost use Rattle.view_meaning.specs.Operands.{variable_of, resolved};
ghost use Rattle.plan_law.specs.Columns.{place_eq, term_eq};
ghost use Rattle.plan_law.specs.Links.{in_either, source_of};
ghost use Rattle.plan_form.specs.Sources.{seen};

use crate::copies::{copy_place, copy_term};
use ss_text::{NoMemory, Text};
use view_def::{Place, Range, Term};

/// Where a text is found: given, or at a place of the left row or of the right one.
#[derive(Drop)]
pub(crate) enum Source {
    Given(Text),
    Left(usize),
    Right(usize),
}

fn same_place(p: &Place, r: &Place) -> bool
    ensures { result ≡ place_eq p.now r.now }
{
    match p {
        Place::Fixed(s) => match r {
            Place::Fixed(t) => s == t,
            Place::Var(_) => false,
        },
        Place::Var(j) => match r {
            Place::Fixed(_) => false,
            Place::Var(k) => *j == *k,
        },
    }
}

fn same_cell(j: u32, p: &Place, t: &Term) -> bool
    ensures { result ≡ term_eq (term_is.Cell j p.now) t.now }
{
    match t {
        Term::Cell(k, r) => j == *k && same_place(p, r),
        Term::Literal(_) | Term::Var(_) => false,
    }
}

fn same_term(s: &Term, t: &Term) -> bool
    ensures { result ≡ term_eq s.now t.now }
{
    match s {
        Term::Literal(a) => match t {
            Term::Literal(b) => a == b,
            Term::Var(_) | Term::Cell(..) => false,
        },
        Term::Var(j) => match t {
            Term::Var(k) => *j == *k,
            Term::Literal(_) | Term::Cell(..) => false,
        },
        Term::Cell(j, p) => same_cell(*j, p, t),
    }
}

fn place_of(terms: &[Term], term: &Term) -> Option<usize>
    ensures { result ≡ position (term_eq term.now) terms.now }
{
    terms.iter().position(|t| same_term(term, t))
}

// The first place of a term, of the left row before the right one.
fn in_either(left: &[Term], right: &[Term], term: &Term) -> Option<Source>
    ensures { option_map seen result ≡ in_either (position (term_eq term.now) left.now) (position (term_eq term.now) right.now) }
{
    match place_of(left, term) {
        Some(place) => Some(Source::Left(place)),
        None => match place_of(right, term) {
            Some(place) => Some(Source::Right(place)),
            None => None,
        },
    }
}

/// Where the text of a term is found in two rows under these terms.
fn source_of(left: &[Term], right: &[Term], term: &Term) -> Result<Option<Source>, NoMemory>
    ensures { IfOk result (λ s. option_map seen s ≡ source_of left.now right.now term.now) }
{
    match term {
        Term::Literal(text) => Ok(Some(Source::Given(text.copy()?))),
        Term::Var(_) | Term::Cell(..) => Ok(in_either(left, right, term)),
    }
}

fn variable_of(declaration: u32, range: Option<&Range>) -> Result<Term, NoMemory>
    ensures { IfOk result (λ t. t ≡ variable_of declaration (option_copied range.entry)) }
{
    match range {
        Some(Range::Alias(tuple, attribute)) => Ok(Term::Cell(*tuple, copy_place(attribute)?)),
        None
        | Some(
            Range::Databases
            | Range::Relations(_)
            | Range::Attributes(..)
            | Range::Tuples(..)
            | Range::Values(..),
        ) => Ok(Term::Var(declaration)),
    }
}

/// The term that a term stands for: an alias is the cell that it names.
fn resolved(decls: &[Range], term: &Term) -> Result<Term, NoMemory>
    ensures { IfOk result (λ t. t ≡ resolved decls.now term.now) }
{
    match term {
        Term::Var(declaration) => {
            Ok(variable_of(*declaration, decls.get(*declaration as usize))?)
        }
        Term::Literal(_) | Term::Cell(..) => Ok(copy_term(term)?),
    }
}

/// Where the text of a term of the view is found in two rows under these terms.
pub(crate) fn find(
    decls: &[Range],
    left: &[Term],
    right: &[Term],
    term: &Term,
) -> Result<Option<Source>, NoMemory>
    ensures { IfOk result (λ s. option_map seen s ≡ source_of left.now right.now (resolved decls.now term.now)) }
{
    let term = resolved(decls, term)?;
    let source = source_of(left, right, &term)?;
    Ok(source)
}
