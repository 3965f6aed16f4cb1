//! Equalities of the filter that say of an element what a term of earlier declarations is.
ghost use Rattle.std.specs.Prelude.{◌≡◌, true, IfSome, IsTrue};
ghost use Rattle.view_def.specs.Conditions.{condition_of};
ghost use Rattle.view_def.specs.Query.{query_of};
ghost use Rattle.view_def.specs.declared.written.Op.TheVariants as op_is;
ghost use Rattle.view_def.specs.declared.typed.Range.TheVariants as range_is;
ghost use Rattle.view_def.specs.declared.typed.Term.TheVariants as term_is;
ghost use Rattle.view_meaning.specs.Early.{is_bound_place, is_bound, NeedsMember};
ghost use Rattle.valuation_meaning.specs.Resolved.{operand_term};
ghost use Rattle.valuation_meaning.specs.Columns.{range_of, compared_term, NeedsEqual};

use crate::early::is_bound_place;
use crate::index::Lists;
use crate::operand::{Operand, is_bound_operand, resolved};
use view_def::{Cond, Op, Place, Range, Term, View};
use view_meaning::members;

/// What a declaration lists of a relation, and the attribute by which its elements are found.
#[derive(Drop)]
pub(crate) struct Column<'a> {
    pub lists: Lists,
    pub db: &'a Place,
    pub rel: &'a Place,
    pub attribute: &'a Place,
}

// The attribute of a cell of the row at a place, named by the declarations before.
fn attribute_of<'a>(place: usize, tuple: u32, attribute: &'a Place) -> Option<&'a Place>
    ensures cell { IfSome result (λ a. term_is.Cell tuple attribute.now ≡ term_is.Cell place a.now) }
    ensures bound { IfSome result (λ a. is_bound_place place a.now ≡ true) }
{
    if tuple as usize == place && is_bound_place(place, attribute) {
        Some(attribute)
    } else {
        None
    }
}

// The attribute of a term that is such a cell.
fn attribute_in<'a>(place: usize, term: &'a Term) -> Option<&'a Place>
    ensures cell { IfSome result (λ a. term.now ≡ term_is.Cell place a.now) }
    ensures bound { IfSome result (λ a. is_bound_place place a.now ≡ true) }
{
    match term {
        Term::Cell(tuple, attribute) => attribute_of(place, *tuple, attribute),
        _ => None,
    }
}

// And of an operand.
fn attribute_at<'a>(place: usize, operand: &Operand<'a>) -> Option<&'a Place>
    ensures cell { IfSome result (λ a. operand_term operand.now ≡ term_is.Cell place a.now) }
    ensures bound { IfSome result (λ a. is_bound_place place a.now ≡ true) }
{
    match operand {
        Operand::Term(term) => attribute_in(place, *term),
        Operand::Cell(tuple, attribute) => attribute_of(place, *tuple, *attribute),
    }
}

// Whether a term is the variable of the declaration at a place.
fn is_variable(place: usize, term: &Term) -> bool
    ensures { IsTrue result → term.now ≡ term_is.Var place }
{
    match term {
        Term::Var(declaration) => *declaration as usize == place,
        _ => false,
    }
}

// And whether an operand is.
fn is_variable_operand(place: usize, operand: &Operand<'_>) -> bool
    ensures { IsTrue result → operand_term operand.now ≡ term_is.Var place }
{
    match operand {
        Operand::Term(term) => is_variable(place, *term),
        Operand::Cell(_, _) => false,
    }
}

// What an operand is of a declaration of tuples.
fn rows_at<'a>(
    place: usize,
    db: &'a Place,
    rel: &'a Place,
    operand: &Operand<'a>,
) -> Option<Column<'a>>
    ensures range { IfSome result (λ column. range_is.Tuples db.now rel.now ≡ range_of column) }
    ensures term { IfSome result (λ column. operand_term operand.now ≡ compared_term place column) }
    ensures bound { IfSome result (λ column. is_bound_place place column.attribute.now ≡ true) }
{
    let attribute = attribute_at(place, operand)?;
    Some(Column {
        lists: Lists::Rows,
        db,
        rel,
        attribute,
    })
}

// And of a declaration of values.
fn cells_at<'a>(
    place: usize,
    db: &'a Place,
    rel: &'a Place,
    attribute: &'a Place,
    operand: &Operand<'a>,
) -> Option<Column<'a>>
    ensures range { IfSome result (λ column. range_is.Values db.now rel.now attribute.now ≡ range_of column) }
    ensures term { IfSome result (λ column. operand_term operand.now ≡ compared_term place column) }
    ensures bound { IfSome result (λ column. is_bound_place place column.attribute.now ≡ true) }
{
    if is_variable_operand(place, operand) && is_bound_place(place, attribute) {
        Some(Column {
            lists: Lists::Cells,
            db,
            rel,
            attribute,
        })
    } else {
        None
    }
}

// The column that an operand is of the declaration at a place.
fn column_at<'a>(place: usize, range: &'a Range, operand: &Operand<'a>) -> Option<Column<'a>>
    ensures range { IfSome result (λ column. range.now ≡ range_of column) }
    ensures term { IfSome result (λ column. operand_term operand.now ≡ compared_term place column) }
    ensures bound { IfSome result (λ column. is_bound_place place column.attribute.now ≡ true) }
{
    match range {
        Range::Tuples(db, rel) => rows_at(place, db, rel, operand),
        Range::Values(db, rel, attribute) => cells_at(place, db, rel, attribute, operand),
        _ => None,
    }
}

// The column of an operand, where another operand is of the declarations before.
fn column_beside<'a>(
    place: usize,
    range: &'a Range,
    operand: &Operand<'a>,
    other: &Operand<'_>,
) -> Option<Column<'a>>
    ensures range { IfSome result (λ column. range.now ≡ range_of column) }
    ensures term { IfSome result (λ column. operand_term operand.now ≡ compared_term place column) }
    ensures bound { IfSome result (λ column. is_bound_place place column.attribute.now ≡ true) }
    ensures other { IfSome result (λ _. is_bound place (operand_term other.now) ≡ true) }
{
    if is_bound_operand(place, other) {
        column_at(place, range, operand)
    } else {
        None
    }
}

fn is_equality(op: Op) -> bool
    ensures { IsTrue result → op ≡ op_is.Eq }
{
    match op {
        Op::Eq => true,
        _ => false,
    }
}

// What a member that is an equality says of the element at a place: this column of it equals this operand.
fn equality<'a>(
    view: &'a View,
    place: usize,
    range: &'a Range,
    member: &'a Cond,
) -> Option<(Column<'a>, Operand<'a>)>
    ensures range { IfSome result (λ found. range.now ≡ range_of found.0) }
    ensures needs { let query = query_of view.now in
        IfSome result (λ found. NeedsMember query (condition_of member.now) → NeedsEqual query place (operand_term found.1) found.0) }
{
    let Cond::Compare(s, op, t) = member else {
        return None;
    };
    if !is_equality(*op) {
        return None;
    }
    let first = resolved(&view.decls, s);
    let second = resolved(&view.decls, t);
    if let Some(column) = column_beside(place, range, &first, &second) {
        return Some((column, second));
    }
    if let Some(column) = column_beside(place, range, &second, &first) {
        return Some((column, first));
    }
    None
}

/// The first such equality among the members.
pub(crate) fn first_equality<'a>(
    view: &'a View,
    place: usize,
    range: &'a Range,
) -> Option<(Column<'a>, Operand<'a>)>
    ensures range { IfSome result (λ found. range.now ≡ range_of found.0) }
    ensures needs { IfSome result (λ found. NeedsEqual (query_of view.now) place (operand_term found.1) found.0) }
{
    for member in members(&view.filter) {
        if let Some(found) = equality(view, place, range, member) {
            return Some(found);
        }
    }
    None
}
