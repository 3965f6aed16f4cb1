//! Which places of two rows have to have one text.
ghost use Rattle.std.specs.Prelude.{◌≡◌, ℕ, ◌++◌, [], ◌∷◌, Some, map, filter, option_map, option_to_list, IfOk, OnOk};
ghost use Rattle.std.specs.List.{filter_map, flat_map};
ghost use Rattle.view_def.specs.Conditions.{condition_of};
ghost use Rattle.view_def.specs.Query.{query_of};
ghost use Rattle.plan_law.specs.Links.{Left, Right, link, links, places_from, column_link, equality_link, key_between, key_of, is_left, is_own};
ghost use Rattle.plan_law.specs.Columns.{sides_of, equalities};
ghost use Rattle.plan_form.specs.Cells.{right_cell};
ghost use Rattle.plan_form.specs.Sources.{seen, seen_link};
ghost use Rattle.plan_form.specs.Bases.{own_cells};

use crate::Cell;
use crate::base::Equal;
use crate::source::{Source, find};
use ss_text::NoMemory;
use std::alloc::Global;
use view_def::{Cond, Op, Term, View};
use view_meaning::members;

// Adds a link between two texts, where both are found.
fn push_link(
    first: Option<Source>,
    second: Option<Source>,
    links: &mut Vec<(Source, Source)>,
) -> Result<(), NoMemory>
    ensures { OnOk result (map seen_link links.new.items ≡ map seen_link links.old.items ++ option_to_list (link (option_map seen first) (option_map seen second))) }
{
    match first {
        None => Ok(()),
        Some(first) => match second {
            None => Ok(()),
            Some(second) => {
                links.push((first, second))?;
                Ok(())
            }
        },
    }
}

// Links a column with the first one of its term.
fn push_column(
    view: &View,
    left: &[Term],
    right: &[Term],
    term: &Term,
    column: Source,
    links: &mut Vec<(Source, Source)>,
) -> Result<(), NoMemory>
    ensures { OnOk result (map seen_link links.new.items ≡ map seen_link links.old.items ++ option_to_list (column_link (query_of view.now) left.now right.now (seen column, term.now))) }
{
    let source = find(&view.decls, left, right, term)?;
    push_link(source, Some(column), links)
}

// Links each column of the left row with the first one of its term.
fn push_left(
    view: &View,
    left: &[Term],
    right: &[Term],
    links: &mut Vec<(Source, Source)>,
) -> Result<(), NoMemory>
    ensures { OnOk result (map seen_link links.new.items ≡ map seen_link links.old.items ++ filter_map (column_link (query_of view.now) left.now right.now) (places_from Left 0 left.now)) }
{
    for (place, term) in left.iter().enumerate() {
        push_column(view, left, right, term, Source::Left(place), links)?;
    }
    Ok(())
}

// And each of the right row.
fn push_right(
    view: &View,
    left: &[Term],
    right: &[Term],
    links: &mut Vec<(Source, Source)>,
) -> Result<(), NoMemory>
    ensures { OnOk result (map seen_link links.new.items ≡ map seen_link links.old.items ++ filter_map (column_link (query_of view.now) left.now right.now) (places_from Right 0 right.now)) }
{
    for (place, term) in right.iter().enumerate() {
        push_column(view, left, right, term, Source::Right(place), links)?;
    }
    Ok(())
}

// Links the two sides of an equality.
fn push_sides(
    view: &View,
    left: &[Term],
    right: &[Term],
    first: &Term,
    second: &Term,
    links: &mut Vec<(Source, Source)>,
) -> Result<(), NoMemory>
    ensures { OnOk result (map seen_link links.new.items ≡ map seen_link links.old.items ++ option_to_list (equality_link (query_of view.now) left.now right.now (first.now, second.now))) }
{
    let first = find(&view.decls, left, right, first)?;
    let second = find(&view.decls, left, right, second)?;
    push_link(first, second, links)
}

fn push_equality(
    view: &View,
    left: &[Term],
    right: &[Term],
    member: &Cond,
    links: &mut Vec<(Source, Source)>,
) -> Result<(), NoMemory>
    ensures { OnOk result (map seen_link links.new.items ≡ map seen_link links.old.items ++ filter_map (equality_link (query_of view.now) left.now right.now) (sides_of (condition_of member.now))) }
{
    match member {
        Cond::Any(_) | Cond::All(_) | Cond::Not(_) => Ok(()),
        Cond::Compare(first, op, second) => match op {
            Op::Eq => push_sides(view, left, right, first, second, links),
            Op::Ne | Op::Lt | Op::Le | Op::Gt | Op::Ge => Ok(()),
        },
    }
}

fn push_equalities(
    view: &View,
    left: &[Term],
    right: &[Term],
    links: &mut Vec<(Source, Source)>,
) -> Result<(), NoMemory>
    ensures { OnOk result (map seen_link links.new.items ≡ map seen_link links.old.items
        ++ filter_map (equality_link (query_of view.now) left.now right.now) (equalities (query_of view.now).condition)) }
{
    for member in members(&view.filter) {
        push_equality(view, left, right, member, links)?;
    }
    Ok(())
}

/// Which places of two rows under these terms have to have one text, in so far as both terms are found.
pub(crate) fn links(
    alloc: Global,
    view: &View,
    left: &[Term],
    right: &[Term],
) -> Result<Vec<(Source, Source)>, NoMemory>
    ensures { IfOk result (λ ls. map seen_link ls.items ≡ links (query_of view.now) left.now right.now) }
{
    let mut links = Vec::new(alloc);
    push_left(view, left, right, &mut links)?;
    push_right(view, left, right, &mut links)?;
    push_equalities(view, left, right, &mut links)?;
    Ok(links)
}

// A place on each side.
fn key_between(first: &Source, second: &Source) -> Option<(usize, usize)>
    ensures { result ≡ key_between (seen first.now) (seen second.now) }
{
    match first {
        Source::Given(_) => None,
        Source::Left(place) => match second {
            Source::Given(_) | Source::Left(_) => None,
            Source::Right(other) => Some((*place, *other)),
        },
        Source::Right(place) => match second {
            Source::Given(_) | Source::Right(_) => None,
            Source::Left(other) => Some((*other, *place)),
        },
    }
}

fn push_key(
    link: &(Source, Source),
    left: &mut Vec<usize>,
    right: &mut Vec<usize>,
) -> Result<(), NoMemory>
    ensures left { OnOk result (left.new.items ≡ left.old.items ++ map (λ (k : ℕ × ℕ). k.0) (option_to_list (key_of (seen_link link.now)))) }
    ensures right { OnOk result (right.new.items ≡ right.old.items ++ map (λ (k : ℕ × ℕ). k.1) (option_to_list (key_of (seen_link link.now)))) }
{
    match key_between(&link.0, &link.1) {
        None => Ok(()),
        Some((place, other)) => {
            left.push(place)?;
            right.push(other)?;
            Ok(())
        }
    }
}

/// The keys of a join: the places of the left row, and those of the right one.
pub(crate) fn keys(
    alloc: Global,
    links: &[(Source, Source)],
) -> Result<(Vec<usize>, Vec<usize>), NoMemory>
    ensures left { IfOk result (λ r. r.0.items ≡ map (λ (k : ℕ × ℕ). k.0) (filter_map key_of (map seen_link links.now))) }
    ensures right { IfOk result (λ r. r.1.items ≡ map (λ (k : ℕ × ℕ). k.1) (filter_map key_of (map seen_link links.now))) }
{
    let mut left = Vec::new(alloc);
    let mut right = Vec::new(alloc);
    for link in links {
        push_key(link, &mut left, &mut right)?;
    }
    Ok((left, right))
}

fn right_cell(source: &Source) -> Result<Cell, NoMemory>
    ensures { IfOk result (λ c. c ≡ right_cell (seen source.now)) }
{
    match source {
        Source::Given(text) => Ok(Cell::Given(text.copy()?)),
        Source::Left(_) => Ok(Cell::Nowhere),
        Source::Right(place) => Ok(Cell::At(*place)),
    }
}

fn is_left(source: &Source) -> bool
    ensures { result ≡ is_left (seen source.now) }
{
    match source {
        Source::Left(_) => true,
        Source::Given(_) | Source::Right(_) => false,
    }
}

fn push_own(link: &(Source, Source), tests: &mut Vec<Equal>) -> Result<(), NoMemory>
    ensures { OnOk result (tests.new.items ≡ tests.old.items ++ map own_cells (filter is_own (seen_link link.now ∷ []))) }
{
    if is_left(&link.0) {
        return Ok(());
    }
    if is_left(&link.1) {
        return Ok(());
    }
    let first = right_cell(&link.0)?;
    let second = right_cell(&link.1)?;
    tests.push(Equal { first, second })?;
    Ok(())
}

/// The tests of the right row alone.
pub(crate) fn own_tests(alloc: Global, links: &[(Source, Source)]) -> Result<Vec<Equal>, NoMemory>
    ensures { IfOk result (λ tests. tests.items ≡ map own_cells (filter is_own (map seen_link links.now))) }
{
    let mut tests = Vec::new(alloc);
    for link in links {
        push_own(link, &mut tests)?;
    }
    Ok(tests)
}
