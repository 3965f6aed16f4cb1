//! The form that the facts of a view have.
ghost use Rattle.std.specs.Prelude.{◌≡◌, true, map, length, Some};
ghost use Rattle.std.specs.List.{AllByRecursion};
ghost use Rattle.ss_text.specs.Label.{is_table_label};
ghost use Rattle.ss_text.specs.Texts.{Text, Row};
ghost use Rattle.schema_model.specs.Catalogue.{CatalogueValue};
ghost use Rattle.view_def.specs.Query.{Query};
ghost use Rattle.view_def.specs.Profile.{IsViewOfProfile};
ghost use Rattle.flow_law.specs.FactRows.{fact_row, fact_width, fact_in, IsFactOf};
ghost use Rattle.flow_law.specs.Labelled.{AllBear};
ghost use Rattle.view_meaning.specs.Meaning.{facts, shape_of, constant_label};

/// Each fact has a value for each constant column, and a cell just where the view has a variable column.
pub fn facts_have_form()
    ensures form { (c : CatalogueValue) (q : Query) → IsViewOfProfile q → AllByRecursion (IsFactOf (shape_of q)) (facts c q) }
{}

/// The facts are read back from their rows, in order, and each row has as many texts as the view's shape tells.
pub fn facts_are_in_rows()
    ensures back { (c : CatalogueValue) (q : Query) → IsViewOfProfile q → map (fact_in (shape_of q)) (map fact_row (facts c q)) ≡ facts c q }
    ensures wide { (c : CatalogueValue) (q : Query) → IsViewOfProfile q → AllByRecursion (λ (row : Row). length row ≡ fact_width (shape_of q)) (map fact_row (facts c q)) }
{}

/// Where the view's table label is a name, it is a legal one, and each fact bears it.
pub fn facts_bear_label()
    ensures legal { (q : Query) (label : Text) → IsViewOfProfile q → constant_label q.label ≡ Some label → is_table_label label ≡ true }
    ensures bear { (c : CatalogueValue) (q : Query) (label : Text) → constant_label q.label ≡ Some label → AllBear label (facts c q) }
{}
