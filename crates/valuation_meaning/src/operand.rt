//! Terms, where the variable of an alias is read as the cell that it names.
ghost use Rattle.std.specs.Prelude.{◌≡◌, ℕ, Some, slice_get, option_copied};
ghost use Rattle.view_def.specs.declared.typed.Term.TheVariants as term_is;
ghost use Rattle.view_meaning.specs.Terms.{value_of};
ghost use Rattle.view_meaning.specs.Early.{is_bound};
ghost use Rattle.view_meaning.specs.Operands.{variable_of, resolved};
ghost use Rattle.valuation_meaning.specs.Resolved.{operand_term};

use crate::early::{is_bound, is_bound_cell};
use crate::element::Element;
use crate::value::{cell_at, value_of};
use ss_text::Text;
use view_def::{Place, Range, Term};

/// A term, or the cell that an alias names.
#[derive(Drop)]
pub(crate) enum Operand<'a> {
    Term(&'a Term),
    Cell(u32, &'a Place),
}

// The cell that a declaration names, if it is an alias, and else this term.
fn named_cell<'a>(range: &'a Range, term: &'a Term) -> Operand<'a>
    ensures { (k : ℕ) → term.now ≡ term_is.Var k → operand_term result ≡ variable_of k (Some range.now) }
{
    match range {
        Range::Alias(tuple, attribute) => Operand::Cell(*tuple, attribute),
        _ => Operand::Term(term),
    }
}

// The variable of a declaration, where it is an alias as the cell that it names.
fn variable_of<'a>(decls: &'a [Range], declaration: u32, term: &'a Term) -> Operand<'a>
    requires { term.now ≡ term_is.Var declaration }
    ensures { operand_term result ≡ variable_of declaration (slice_get decls.now declaration) }
{
    match decls.get(declaration as usize) {
        Some(range) => named_cell(range, term),
        None => Operand::Term(term),
    }
}

/// A term, where it is the variable of an alias as the cell that this names.
pub(crate) fn resolved<'a>(decls: &'a [Range], term: &'a Term) -> Operand<'a>
    ensures { operand_term result ≡ resolved decls.now term.now }
{
    match term {
        Term::Var(declaration) => variable_of(decls, *declaration, term),
        _ => Operand::Term(term),
    }
}

/// Whether its variables are among those of so many declarations.
pub(crate) fn is_bound_operand(depth: usize, operand: &Operand<'_>) -> bool
    ensures { result ≡ is_bound depth (operand_term operand.now) }
{
    match operand {
        Operand::Term(term) => is_bound(depth, term),
        Operand::Cell(tuple, attribute) => is_bound_cell(depth, *tuple, attribute),
    }
}

/// The value of an operand.
pub(crate) fn operand_value<'a>(
    valuation: &[Element<'a>],
    operand: &Operand<'a>,
) -> Option<&'a Text>
    ensures { option_copied result ≡ value_of valuation.now (operand_term operand.now) }
{
    match operand {
        Operand::Term(term) => value_of(valuation, *term),
        Operand::Cell(tuple, attribute) => cell_at(valuation, *tuple, *attribute),
    }
}
