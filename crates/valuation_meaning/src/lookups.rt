//! Declarations whose elements are looked up.
ghost use Rattle.std.specs.Prelude.{◌≡◌, ◌<◌, length, IfOk, IfSome};
ghost use Rattle.std.specs.List.{All, IsAmong};
ghost use Rattle.view_def.specs.Query.{query_of};
ghost use Rattle.valuation_meaning.specs.Columns.{names_now, names_of};
ghost use Rattle.valuation_meaning.specs.Lookups.{looked_up, IsLookup};

use crate::early::is_alias;
use crate::element::Element;
use crate::equality::{Column, first_equality};
use crate::indexes::Indexes;
use crate::operand::{Operand, operand_value};
use crate::value::place_text;
use ss_text::{NoMemory, Text};
use std::alloc::Global;
use view_def::{Place, Range, View};

/// The elements of the declaration at a place, by what is to equal a term of earlier declarations.
#[derive(Drop)]
pub(crate) struct Lookup<'a> {
    pub place: usize,
    pub column: Column<'a>,
    pub sought: Operand<'a>,
}

// Whether a place is named by the variable of a declaration.
fn is_named_by(place: &Place, declaration: usize) -> bool {
    match place {
        Place::Fixed(_) => false,
        Place::Var(variable) => *variable as usize == declaration,
    }
}

// Whether a declaration names the column.
fn names(declaration: usize, column: &Column<'_>) -> bool {
    is_named_by(column.db, declaration)
        || is_named_by(column.rel, declaration)
        || is_named_by(column.attribute, declaration)
}

// Whether a column is met more than once: an element of an earlier declaration, which is no alias, does not name it.
fn is_met_again(decls: &[Range], place: usize, column: &Column<'_>) -> bool {
    for (declaration, range) in decls.iter().enumerate() {
        if declaration < place && !is_alias(range) && !names(declaration, column) {
            return true;
        }
    }
    false
}

// The look-up of a declaration, if there is one.
fn lookup_at(view: &View, place: usize) -> Option<Lookup<'_>>
    requires { place < length view.now.decls.items }
    ensures { IfSome result (IsLookup (query_of view.now)) }
{
    let (column, sought) = first_equality(view, place, &view.decls[place])?;
    if is_met_again(&view.decls, place, &column) {
        Some(Lookup {
            place,
            column,
            sought,
        })
    } else {
        None
    }
}

/// The look-ups of a view: none for a declaration whose elements are walked once.
pub(crate) fn lookups(alloc: Global, view: &View) -> Result<Vec<Lookup<'_>>, NoMemory>
    ensures { IfOk result (λ ls. All (IsLookup (query_of view.now)) ls.items) }
{
    let mut lookups = Vec::new(alloc);
    for place in 0..view.decls.len() {
        if let Some(lookup) = lookup_at(view, place) {
            lookups.push(lookup)?;
        }
    }
    Ok(lookups)
}

/// The look-up of the declaration at a place.
pub(crate) fn lookup_for<'l, 'a>(lookups: &'l [Lookup<'a>], place: usize) -> Option<&'l Lookup<'a>>
    ensures place { IfSome result (λ l. l.now.place ≡ place) }
    ensures among { IfSome result (λ l. IsAmong lookups.now l.now) }
{
    for lookup in lookups {
        if lookup.place == place {
            return Some(lookup);
        }
    }
    None
}

// The names of the database, the relation and the attribute of a column.
fn names_of<'a>(
    valuation: &[Element<'a>],
    column: &Column<'a>,
) -> Option<(&'a Text, &'a Text, &'a Text)>
    ensures { names_now result ≡ names_of valuation.now column.now }
{
    let db = place_text(valuation, column.db)?;
    let rel = place_text(valuation, column.rel)?;
    let attribute = place_text(valuation, column.attribute)?;
    Some((db, rel, attribute))
}

/// The elements of a declaration that its equality lets through.
pub(crate) fn looked_up<'a>(
    alloc: Global,
    indexes: &mut Indexes<'a>,
    valuation: &[Element<'a>],
    lookup: &Lookup<'a>,
) -> Result<Vec<Element<'a>>, NoMemory>
    ensures found { IfOk result (λ es. es.items ≡ looked_up indexes.old valuation.now lookup.now) }
    ensures same { indexes.new ≡ indexes.old }
{
    let Some(text) = operand_value(valuation, &lookup.sought) else {
        return Ok(Vec::new(alloc));
    };
    let Some(names) = names_of(valuation, &lookup.column) else {
        return Ok(Vec::new(alloc));
    };
    let found = indexes.found(alloc, lookup.column.lists, names, text)?;
    Ok(found)
}
