//! The facts of a view, listed one for each valuation.
ghost use Rattle.std.specs.Prelude.{◌≡◌, ◌&&◌, [], ◌∷◌, ◌++◌, drop, map, option_copied, option_map, option_to_list, length, slice_get, vec_len, ◌<◌, IfOk, OnOk, OnSome, IfSome, IsTrue, Some, if◌then◌else◌};
ghost use Rattle.view_def.specs.Conditions.{condition_of};
ghost use Rattle.view_def.specs.Query.{query_of};
ghost use Rattle.view_def.specs.Terms.{terms_of_filter};
ghost use Rattle.schema_model.specs.States.{plain_relation};
ghost use Rattle.view_meaning.specs.Elements.{Element, all_rows};
ghost use Rattle.view_meaning.specs.Terms.{value_of, are_defined};
ghost use Rattle.view_meaning.specs.Valuations.{counts, meets};
ghost use Rattle.view_meaning.specs.Meaning.{given, term_of, values_of, cell_of_reading, constant_label, fact_of, facts};
ghost use Rattle.valuation_meaning.specs.Listed.{cell_value, has_cells};
ghost use Rattle.valuation_meaning.specs.Listing.{facts_after, AreEnough};
ghost use Rattle.view_meaning.specs.Early.{AliasesAgree, Ends};
ghost use Rattle.valuation_meaning.specs.Sources.{IsReady};
ghost use Rattle.std.specs.List.{All};
ghost use Rattle.view_def.specs.declared.typed.Range.TheVariants as range;

use crate::early::{EarlyMember, EarlyTerm, early_members, early_terms, fails_member, lacks_term};
use crate::element::Element;
use crate::indexes::Indexes;
use crate::listed::{FactParts, ListedFacts};
use crate::lookups::{Lookup, looked_up, lookup_for, lookups};
use crate::ranges::{elements, relation_at};
use crate::truth::truth;
use crate::value::{cell_at, place_text, value_of};
use bumpalo::Bump;
use bumpalo::collections::into_bump_slice;
use fact_tables::{Key, Label, Three, Values};
use schema_model::{Catalogue, Relation};
use ss_text::{NoMemory, Text};
use std::alloc::Global;
use view_def::{Cond, Place, Range, Term, View};

/// The text of a place that has one.
fn text_of<'a>(valuation: &[Element<'a>], place: &'a Place, empty: &'a Text) -> &'a Text
    requires { empty.now ≡ [] }
    ensures { result.now ≡ given (value_of valuation.now (term_of place.now)) }
{
    place_text(valuation, place).unwrap_or(empty)
}

/// The values of terms, where each of them is defined. One or two need no room in the arena, and three little.
fn values_of<'a>(
    arena: &'a Bump<Global>,
    valuation: &[Element<'a>],
    terms: &'a [Term],
) -> Result<Option<Values<'a>>, NoMemory>
    ensures { IfOk result (λ ts. ts
        ≡ (if are_defined (value_of valuation.now) terms.now then Some (values_of (value_of valuation.now) terms.now) else None)) }
{
    match terms {
        [term] => match value_of(valuation, term) {
            Some(value) => Ok(Some(Values::one(value))),
            None => Ok(None),
        },
        [first, second] => match (value_of(valuation, first), value_of(valuation, second)) {
            (Some(first), Some(second)) => Ok(Some(Values::two(first, second))),
            _ => Ok(None),
        },
        [first, second, third] => match (
            value_of(valuation, first),
            value_of(valuation, second),
            value_of(valuation, third),
        ) {
            (Some(first), Some(second), Some(third)) => {
                let three = arena.try_alloc(Three::of(first, second, third))?;
                Ok(Some(Values::three(three)))
            }
            _ => Ok(None),
        },
        terms => match labels_of(arena, valuation, terms)? {
            Some(labels) => Ok(Some(Values::many(labels))),
            None => Ok(None),
        },
    }
}

/// The values of terms as labels, where each of them is defined.
fn labels_of<'a>(
    arena: &'a Bump<Global>,
    valuation: &[Element<'a>],
    terms: &'a [Term],
) -> Result<Option<&'a [Label<'a>]>, NoMemory>
    ensures { IfOk result (λ ts. option_map (λ ts. ts.now) ts
        ≡ (if are_defined (value_of valuation.now) terms.now then Some (values_of (value_of valuation.now) terms.now) else None)) }
{
    let mut values = Vec::with_capacity(arena, terms.len())?;
    for term in terms {
        let Some(value) = value_of(valuation, term) else {
            return Ok(None);
        };
        values.push(Label::of(value))?;
    }
    Ok(Some(into_bump_slice(values)))
}

/// Whether a condition is true and every term in it defined. No condition is true.
fn holds(valuation: &[Element<'_>], filter: &Option<Cond>) -> bool
    ensures { let filter = option_map condition_of filter.now in
        result ≡ (are_defined (value_of valuation.now) (terms_of_filter filter) && meets (value_of valuation.now) filter) }
{
    match filter {
        None => true,
        Some(condition) => truth(valuation, condition).unwrap_or(false),
    }
}

/// The column label and the value, where the view has a variable column and its term is defined.
fn cell_of<'a>(
    valuation: &[Element<'a>],
    column: &'a Option<Place>,
    value: &'a Option<Term>,
    empty: &'a Text,
) -> Option<Option<(Label<'a>, &'a Text)>>
    requires { empty.now ≡ [] }
    ensures { option_map cell_value result
        ≡ (if are_defined (value_of valuation.now) (option_to_list value.now) then Some (cell_of_reading (value_of valuation.now) column.now value.now) else None) }
{
    let Some(value) = value else {
        return Some(None);
    };
    let value = value_of(valuation, value)?;
    let Some(column) = column else {
        return Some(None);
    };
    let column = text_of(valuation, column, empty);
    Some(Some((Label::of(column), value)))
}

// The label of all facts of a view, if it is constant. It is made once.
fn constant_label(view: &View) -> Option<Label<'_>>
    ensures { result ≡ constant_label view.now.label }
{
    match &view.label {
        Place::Fixed(text) => Some(Label::of(text)),
        Place::Var(_) => None,
    }
}

// The table label of a valuation.
fn label_of<'a>(
    valuation: &[Element<'a>],
    place: &'a Place,
    constant: &Option<Label<'a>>,
    empty: &'a Text,
) -> Label<'a>
    requires constant { constant.now ≡ constant_label place.now }
    requires empty { empty.now ≡ [] }
    ensures { result ≡ given (value_of valuation.now (term_of place.now)) }
{
    match constant {
        Some(label) => label.again(),
        None => Label::of(text_of(valuation, place, empty)),
    }
}

/// The fact of a valuation, where the valuation counts.
fn fact_of<'a>(
    arena: &'a Bump<Global>,
    view: &'a View,
    constant: &Option<Label<'a>>,
    empty: &'a Text,
    valuation: &[Element<'a>],
) -> Result<Option<FactParts<'a>>, NoMemory>
    requires constant { constant.now ≡ constant_label view.now.label }
    requires empty { empty.now ≡ [] }
    ensures { let query = query_of view.now in
        IfOk result (λ fact. fact ≡ (if counts query (value_of valuation.now) then Some (fact_of query (value_of valuation.now)) else None)) }
{
    if !holds(valuation, &view.filter) {
        return Ok(None);
    }
    let Some(cell) = cell_of(valuation, &view.column, &view.value, empty) else {
        return Ok(None);
    };
    let Some(key) = values_of(arena, valuation, &view.keys)? else {
        return Ok(None);
    };
    let label = label_of(valuation, &view.label, constant, empty);
    Ok(Some(FactParts {
        label,
        key: Key::of(key, empty),
        cell,
    }))
}

/// The declaration at a place.
fn declaration(view: &View, place: usize) -> Option<&Range>
    ensures declaration { option_copied result ≡ slice_get view.now.decls.items place }
    ensures there { OnSome result (place < vec_len view.now.decls) }
{
    view.decls.get(place)
}

/// Where the facts of a view are read from, an arena for their keys, their label if it is constant, an empty text, and what is tested and looked up
/// before a valuation is whole.
#[derive(Drop)]
struct Source<'a> {
    arena: &'a Bump<Global>,
    catalogue: &'a Catalogue,
    view: &'a View,
    label: Option<Label<'a>>,
    empty: &'a Text,
    members: Vec<EarlyMember<'a>>,
    terms: Vec<EarlyTerm<'a>>,
    lookups: Vec<Lookup<'a>>,
}

impl<'a> Source<'a> {
    /// Adds the fact of a valuation, where the valuation counts.
    fn add_fact(
        &self,
        valuation: &[Element<'a>],
        facts: &mut ListedFacts<'a>,
    ) -> Result<(), NoMemory>
        requires label { self.now.label ≡ constant_label self.now.view.now.label }
        requires empty { self.now.empty.now ≡ [] }
        requires cells { facts.old.have_cells ≡ has_cells (query_of self.now.view.now) }
        ensures same { facts.new.have_cells ≡ facts.old.have_cells }
        ensures facts { OnOk result (facts.new.items ≡ facts.old.items ++ facts_after self.now.catalogue.now.databases (query_of self.now.view.now) valuation.now []) }
    {
        if let Some(fact) = fact_of(self.arena, self.view, &self.label, self.empty, valuation)? {
            facts.push(fact)?;
        }
        Ok(())
    }

    /// Whether no valuation that begins with these elements counts, as far as the last of them tells.
    fn ends(&self, valuation: &[Element<'a>]) -> bool
        requires { IsReady self.now }
        ensures { IsTrue result → Ends (query_of self.now.view.now) valuation.now }
    {
        fails_member(&self.members, valuation) || lacks_term(&self.terms, valuation)
    }

    /// The elements of the next declaration, without some with which no valuation counts.
    fn candidates(
        &self,
        alloc: Global,
        indexes: &mut Indexes<'a>,
        valuation: &[Element<'a>],
        range: &'a Range,
    ) -> Result<Vec<Element<'a>>, NoMemory>
        requires ready { IsReady self.now }
        requires agree { AliasesAgree (query_of self.now.view.now) valuation.now }
        requires range { Some range.now ≡ slice_get self.now.view.now.decls.items (length valuation.now) }
        requires catalogue { indexes.old ≡ self.now.catalogue.now.databases }
        ensures facts { let query = query_of self.now.view.now in
            IfOk result (λ es. AreEnough self.now.catalogue.now.databases query valuation.now es.items) }
        ensures agree { IfOk result (λ es. All (λ e. AliasesAgree (query_of self.now.view.now) (valuation.now ++ e ∷ [])) es.items) }
        ensures same { indexes.new ≡ indexes.old }
    {
        let Some(lookup) = lookup_for(&self.lookups, valuation.len()) else {
            let all = elements(alloc, self.catalogue, valuation, range)?;
            return Ok(all);
        };
        let found = looked_up(alloc, indexes, valuation, lookup)?;
        Ok(found)
    }

    /// The relation whose rows are the elements of the next declaration, where this is of tuples that are not looked up.
    /// They need no list of elements.
    fn all_rows_of(&self, valuation: &[Element<'a>], range: &'a Range) -> Option<&'a Relation>
        requires agree { AliasesAgree (query_of self.now.view.now) valuation.now }
        requires range { Some range.now ≡ slice_get self.now.view.now.decls.items (length valuation.now) }
        ensures enough { IfSome result (λ r. AreEnough self.now.catalogue.now.databases (query_of self.now.view.now) valuation.now (all_rows (plain_relation r.now))) }
        ensures agree { IfSome result (λ _. (e : Element) → AliasesAgree (query_of self.now.view.now) (valuation.now ++ e ∷ [])) }
    {
        let Range::Tuples(db, rel) = range else {
            return None;
        };
        if lookup_for(&self.lookups, valuation.len()).is_some() {
            return None;
        }
        relation_at(self.catalogue, valuation, db, rel)
    }

    /// The element of the next declaration, an alias, if it has one. It needs no list of one element.
    fn aliased(
        &self,
        valuation: &[Element<'a>],
        declaration: u32,
        attribute: &'a Place,
    ) -> Option<Element<'a>>
        requires agree { AliasesAgree (query_of self.now.view.now) valuation.now }
        requires range { Some (range.Alias declaration attribute.now) ≡ slice_get self.now.view.now.decls.items (length valuation.now) }
        ensures enough { AreEnough self.now.catalogue.now.databases (query_of self.now.view.now) valuation.now (option_to_list result) }
        ensures agree { IfSome result (λ e. AliasesAgree (query_of self.now.view.now) (valuation.now ++ e ∷ [])) }
    {
        match cell_at(valuation, declaration, attribute) {
            Some(cell) => Some(Element::of_text(cell)),
            None => None,
        }
    }

    /// Adds the facts of the valuations that begin with these elements.
    fn add_facts(
        &self,
        alloc: Global,
        indexes: &mut Indexes<'a>,
        valuation: &mut Vec<Element<'a>>,
        facts: &mut ListedFacts<'a>,
    ) -> Result<(), NoMemory>
        requires ready { IsReady self.now }
        requires agree { AliasesAgree (query_of self.now.view.now) valuation.old.items }
        requires catalogue { indexes.old ≡ self.now.catalogue.now.databases }
        requires cells { facts.old.have_cells ≡ has_cells (query_of self.now.view.now) }
        ensures have_cells { facts.new.have_cells ≡ facts.old.have_cells }
        ensures facts { let query = query_of self.now.view.now in
            let begun = valuation.old.items in
            OnOk result (facts.new.items ≡ facts.old.items ++ facts_after self.now.catalogue.now.databases query begun (drop (length begun) query.decls)) }
        ensures same { OnOk result (valuation.new.items ≡ valuation.old.items) }
        ensures indexes { indexes.new ≡ indexes.old }
    {
        let Some(range) = declaration(self.view, valuation.len()) else {
            return self.add_fact(valuation, facts);
        };
        if self.ends(valuation) {
            return Ok(());
        }
        if let Range::Alias(declaration, attribute) = range {
            let Some(element) = self.aliased(valuation, *declaration, attribute) else {
                return Ok(());
            };
            valuation.push(element)?;
            self.add_facts(alloc, indexes, valuation, facts)?;
            valuation.pop();
            return Ok(());
        }
        if let Some(relation) = self.all_rows_of(valuation, range) {
            let rows = relation.rows(alloc)?;
            facts.reserve(rows.len())?;
            for (position, row) in rows.iter().enumerate() {
                valuation.push(Element::of_row(relation, position, row))?;
                self.add_facts(alloc, indexes, valuation, facts)?;
                valuation.pop();
            }
            return Ok(());
        }
        for element in self.candidates(alloc, indexes, valuation, range)? {
            valuation.push(element)?;
            self.add_facts(alloc, indexes, valuation, facts)?;
            valuation.pop();
        }
        Ok(())
    }
}

// Whether a view has a variable column.
fn has_cells(view: &View) -> bool
    ensures { result ≡ has_cells (query_of view.now) }
{
    view.column.is_some() && view.value.is_some()
}

/// The facts of a view, one for each valuation.
pub(crate) fn facts<'a>(
    alloc: Global,
    arena: &'a Bump<Global>,
    catalogue: &'a Catalogue,
    view: &'a View,
    empty: &'a Text,
) -> Result<ListedFacts<'a>, NoMemory>
    requires { empty.now ≡ [] }
    ensures { IfOk result (λ fs. fs.items ≡ facts catalogue.now.databases (query_of view.now)) }
{
    let source = Source {
        arena,
        catalogue,
        view,
        label: constant_label(view),
        empty,
        members: early_members(alloc, view)?,
        terms: early_terms(alloc, view)?,
        lookups: lookups(alloc, view)?,
    };
    let mut indexes = Indexes::new(alloc, catalogue);
    let mut valuation = Vec::with_capacity(alloc, view.decls.len())?;
    let mut facts = ListedFacts::new(alloc, has_cells(view));
    source.add_facts(alloc, &mut indexes, &mut valuation, &mut facts)?;
    Ok(facts)
}
