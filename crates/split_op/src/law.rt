//! What a change of facts does to all tables.
ghost use Rattle.std.specs.Prelude.{◌≡◌, List, None, flat_map, IsTrue};
ghost use Rattle.ss_text.specs.Texts.{Row};
ghost use Rattle.flow_law.specs.declared.shape.Shape.{Shape};
ghost use Rattle.flow_law.specs.Facts.{Fact, conflict, illegal_table, illegal_column};
ghost use Rattle.flow_law.specs.FactTables.{tables};
ghost use Rattle.flow_law.specs.Script.{script};
ghost use Rattle.flow_law.specs.Lines.{after_lines, fit_lines};
ghost use Rattle.unfold_op.specs.Touched.{SameBeyond};
ghost use Rattle.split_op.specs.LabelLines.{label_lines, labels_named, first_conflict, first_illegal_table, first_illegal_column};

/// The script of the tables of facts comes of the named labels alone.
#[tactic(auto, using(crate::proofs::LabelScript::script_touched))]
pub fn script_is_of_named_labels()
    ensures { (shape : Shape) (named old new : List Fact) → SameBeyond named old new → script (tables shape old) (tables shape new) ≡ flat_map (label_lines shape old new) (labels_named named) }
{}

/// Where facts had no clash, their conflict after a change is the first of a named label.
#[tactic(auto, using(crate::proofs::LabelConflict::conflict_of_named))]
pub fn conflict_is_of_named_labels()
    ensures { (named old new : List Fact) → SameBeyond named old new → conflict old ≡ None → conflict new ≡ first_conflict new (labels_named named) }
{}

/// The lines of the named labels take the old tables to the new ones, and each fits the tables that those before it leave.
pub fn named_labels_move_tables()
    ensures makes { (shape : Shape) (named old new : List Fact) → SameBeyond named old new
        → after_lines (tables shape old) (flat_map (label_lines shape old new) (labels_named named)) ≡ tables shape new }
    ensures fits { (shape : Shape) (named old new : List Fact) → SameBeyond named old new → IsTrue (fit_lines (tables shape old) (flat_map (label_lines shape old new) (labels_named named))) }
{}

/// Where facts had legal labels alone, their least illegal label after a change is that of a named label.
pub fn illegal_is_of_named_labels()
    ensures tables { (named old new : List Fact) → SameBeyond named old new → illegal_table old ≡ None → illegal_table new ≡ first_illegal_table new (labels_named named) }
    ensures columns { (constants : Row) (named old new : List Fact) → SameBeyond named old new → illegal_column constants old ≡ None
        → illegal_column constants new ≡ first_illegal_column constants new (labels_named named) }
{}
