//! What the order of rows and of attributes means for a view.
ghost use Rattle.std.specs.Prelude.{◌≡◌, Bool};
ghost use Rattle.std.specs.List.{list_any};
ghost use Rattle.schema_model.specs.Catalogue.{CatalogueValue};
ghost use Rattle.schema_model.specs.Sound.{IsSound};
ghost use Rattle.view_def.specs.Query.{Query};
ghost use Rattle.flow_law.specs.Facts.{Fact};
ghost use Rattle.view_meaning.specs.Meaning.{facts, meaning};
ghost use Rattle.view_meaning.specs.Orders.{DifferInOrder};
ghost use Rattle.view_meaning.specs.Refusal.{refusal};

/// Over sound catalogues that differ in the order of rows and of attributes alone a view has the same facts, which no
/// test tells apart; it is refused for the same fault, and has the same tables.
pub fn order_means_nothing()
    ensures facts { (c d : CatalogueValue) (q : Query) → IsSound c → IsSound d → DifferInOrder c d → (p : Fact → Bool) → list_any p (facts c q) ≡ list_any p (facts d q) }
    ensures refusal { (c d : CatalogueValue) (q : Query) → IsSound c → IsSound d → DifferInOrder c d → refusal c q ≡ refusal d q }
    ensures tables { (c d : CatalogueValue) (q : Query) → IsSound c → IsSound d → DifferInOrder c d → meaning c q ≡ meaning d q }
{}
