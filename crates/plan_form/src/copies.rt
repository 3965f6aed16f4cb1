//! Copies of what a view is made of.
ghost use Rattle.std.specs.Prelude.{◌≡◌, IfOk};
ghost use Rattle.view_meaning.specs.Meaning.{term_of};

use ss_text::NoMemory;
use view_def::{Place, Range, Term};

pub(crate) fn copy_place(place: &Place) -> Result<Place, NoMemory>
    ensures { IfOk result (λ p. p ≡ place.now) }
{
    match place {
        Place::Fixed(text) => Ok(Place::Fixed(text.copy()?)),
        Place::Var(declaration) => Ok(Place::Var(*declaration)),
    }
}

pub(crate) fn copy_term(term: &Term) -> Result<Term, NoMemory>
    ensures { IfOk result (λ t. t ≡ term.now) }
{
    match term {
        Term::Literal(text) => Ok(Term::Literal(text.copy()?)),
        Term::Var(declaration) => Ok(Term::Var(*declaration)),
        Term::Cell(tuple, attribute) => Ok(Term::Cell(*tuple, copy_place(attribute)?)),
    }
}

/// The term that a place is.
pub(crate) fn term_of(place: &Place) -> Result<Term, NoMemory>
    ensures { IfOk result (λ t. t ≡ term_of place.now) }
{
    match place {
        Place::Fixed(text) => Ok(Term::Literal(text.copy()?)),
        Place::Var(declaration) => Ok(Term::Var(*declaration)),
    }
}

pub(crate) fn copy_range(range: &Range) -> Result<Range, NoMemory>
    ensures { IfOk result (λ r. r ≡ range.now) }
{
    match range {
        Range::Databases => Ok(Range::Databases),
        Range::Relations(db) => Ok(Range::Relations(copy_place(db)?)),
        Range::Attributes(db, rel) => Ok(Range::Attributes(copy_place(db)?, copy_place(rel)?)),
        Range::Tuples(db, rel) => Ok(Range::Tuples(copy_place(db)?, copy_place(rel)?)),
        Range::Values(db, rel, attribute) => Ok(Range::Values(
            copy_place(db)?,
            copy_place(rel)?,
            copy_place(attribute)?,
        )),
        Range::Alias(tuple, attribute) => Ok(Range::Alias(*tuple, copy_place(attribute)?)),
    }
}
