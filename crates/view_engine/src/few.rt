//! How many facts a view may have.
ghost use Rattle.std.specs.Prelude.{length, ◌<◌, ◌^◌};
ghost use Rattle.schema_model.specs.Catalogue.{CatalogueValue};
ghost use Rattle.schema_model.specs.Sound.{IsSound};
ghost use Rattle.view_def.specs.Query.{Query};
ghost use Rattle.view_def.specs.Profile.{IsViewOfProfile};
ghost use Rattle.view_meaning.specs.Meaning.{facts};

/// A view of the profile over a sound catalogue has fewer than 2^128 facts.
pub fn facts_are_few()
    ensures few { (c : CatalogueValue) (q : Query) → IsSound c → IsViewOfProfile q → length (facts c q) < 2 ^ 128 }
{}
