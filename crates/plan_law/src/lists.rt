//! What a plan lists.
ghost use Rattle.std.specs.Prelude.{ℕ, List, ◌≡◌};
ghost use Rattle.ss_text.specs.Texts.{Row};
ghost use Rattle.schema_model.specs.Catalogue.{CatalogueValue};
ghost use Rattle.schema_model.specs.Sound.{IsSound};
ghost use Rattle.view_def.specs.Query.{Query};
ghost use Rattle.view_def.specs.Profile.{IsViewOfProfile};
ghost use Rattle.plan_law.specs.Chain.{Joint, chain, untested, IsLate};
ghost use Rattle.plan_law.specs.Laws.{CombosList, PlanLists};
ghost use Rattle.operator_law.specs.Bags.{weigh};

/// The combinations of a view's flat rows that hold together give exactly its facts, one for each valuation.
pub fn combinations_list_facts()
    ensures lists { (c : CatalogueValue) (q : Query) → IsSound c → IsViewOfProfile q → CombosList c q }
{}

/// So do the rows that its plan makes by joins, whose keys and tests are places of the rows.
pub fn plan_lists_facts()
    ensures lists { (c : CatalogueValue) (q : Query) → IsSound c → IsViewOfProfile q → PlanLists c q }
{}

/// What is tested at the end may be tested on the way: nothing is lost but what weighs nothing.
pub fn tests_come_early()
    ensures same { (g : Row → ℕ) (js : List Joint) (yss : List (List Row)) (xs : List Row) → IsLate g js → weigh g (chain js xs yss) ≡ weigh g (chain (untested js) xs yss) }
{}
