//! What a change does to a plan.
ghost use Rattle.std.specs.Prelude.{List, []};
ghost use Rattle.schema_model.specs.Catalogue.{CatalogueValue};
ghost use Rattle.schema_model.specs.Sound.{IsSound};
ghost use Rattle.view_def.specs.Query.{Query};
ghost use Rattle.view_def.specs.Profile.{IsViewOfProfile};
ghost use Rattle.plan_law.specs.Chain.{Sides, SideMoves};
ghost use Rattle.plan_law.specs.Laws.{IsWalk, FactsMove, SidesFollow, IsFilled};
ghost use Rattle.operator_law.specs.declared.delta.Signed.{Signed};

/// What comes out of the walk of a change takes the facts of a view to those after the change, whatever the change.
pub fn walk_moves_facts()
    ensures moves { (c c' : CatalogueValue) (q : Query) (ks : List Sides) (ps : List SideMoves) (out : List Signed) → IsSound c → IsSound c' → IsViewOfProfile q → IsWalk c c' q ks ps out
        → FactsMove c c' q out }
{}

/// Sides that are moved by the walk stand for the catalogue after the change.
pub fn moved_sides_stand()
    ensures stand { (c c' : CatalogueValue) (q : Query) (ks : List Sides) (ps : List SideMoves) (out : List Signed) → IsViewOfProfile q → IsWalk c c' q ks ps out → SidesFollow c' q ks ps }
{}

/// A plan that keeps nothing stands for the catalogue that has nothing, and all flat rows of another take it there.
pub fn fresh_plan_is_filled()
    ensures sound { IsSound [] }
    ensures filled { (c : CatalogueValue) (q : Query) → IsViewOfProfile q → IsFilled c q }
{}
