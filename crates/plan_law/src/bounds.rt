//! What the walk of an insert or a delete counts.
ghost use Rattle.std.specs.Prelude.{ℕ, List, Bool, ◌≡◌};
ghost use Rattle.ss_text.specs.Texts.{Text, Row};
ghost use Rattle.schema_model.specs.Catalogue.{CatalogueValue};
ghost use Rattle.schema_model.specs.Changes.{after};
ghost use Rattle.schema_model.specs.declared.change.Change.{Change};
ghost use Rattle.schema_model.specs.declared.change.Change.TheVariants.{Insert, Delete};
ghost use Rattle.view_def.specs.Query.{Query};
ghost use Rattle.view_def.specs.Profile.{IsViewOfProfile};
ghost use Rattle.schema_delta.specs.Net.{IsNet};
ghost use Rattle.schema_delta.specs.declared.spec.FlatSpec.{FlatSpec};
ghost use Rattle.schema_delta.specs.Flat.{flat};
ghost use Rattle.plan_law.specs.Columns.{combos};
ghost use Rattle.plan_law.specs.Chain.{Sides, SideMoves, AreNet};
ghost use Rattle.plan_law.specs.Touched.{all_cells, plain_cells, marked_combos, marked_bases};
ghost use Rattle.plan_law.specs.Marks.{OfRow, marked_flat};
ghost use Rattle.plan_law.specs.Laws.{IsWalk, IsBounded};
ghost use Rattle.operator_law.specs.declared.delta.Signed.{Signed};
ghost use Rattle.operator_law.specs.Bags.{SameBag};

/// Marked flat rows are flat rows, and those without a mark are the ones that there are without the changed row: before
/// an insert, and after a delete.
pub fn marks_are_of_the_row()
    ensures all { (g : Change) (c : CatalogueValue) (s : FlatSpec) → all_cells (marked_flat g c s) ≡ flat c s }
    ensures insert { (c : CatalogueValue) (db rel : Text) (row : Row) (s : FlatSpec) → SameBag (plain_cells (marked_flat (Insert db rel row) (after c (Insert db rel row)) s)) (flat c s) }
    ensures delete { (c : CatalogueValue) (db rel : Text) (row : Row) (s : FlatSpec) → SameBag (plain_cells (marked_flat (Delete db rel row) c s)) (flat (after c (Delete db rel row)) s) }
{}

/// The combinations among which the touched ones are counted are those of the view.
pub fn touched_are_combinations()
    ensures all { (g : Change) (c : CatalogueValue) (q : Query) (k : ℕ) → all_cells (marked_combos q (marked_bases (marked_flat g c) q 0 q.decls) k) ≡ combos c q k }
{}

/// Where no row moves both ways, the joins of an insert's or a delete's walk count at most two pairs for each touched
/// combination, and no more moves come out than there are touched combinations.
pub fn walk_is_bounded()
    ensures bounded { (c : CatalogueValue) (q : Query) (g : Change) (up : Bool) (ks : List Sides) (ps : List SideMoves) (out : List Signed) → IsViewOfProfile q → OfRow g up
        → IsWalk c (after c g) q ks ps out → AreNet ps → IsNet out → IsBounded c q g ks ps out }
{}
