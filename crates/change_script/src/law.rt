//! What a script of old and new tables does.
ghost use Rattle.std.specs.Prelude.{◌≡◌, ◌↔◌, ◌∷◌, false, map, Ok, IsTrue};
ghost use Rattle.ss_text.specs.Texts.{Text, Row, is_in};
ghost use Rattle.flow_law.specs.declared.line.TableLine.{TableLine};
ghost use Rattle.flow_law.specs.Tables.{TablesValue, table_of};
ghost use Rattle.flow_law.specs.InOrder.{AreTables};
ghost use Rattle.flow_law.specs.Lines.{label_of, after_lines, fit_lines};
ghost use Rattle.flow_law.specs.Script.{script};
ghost use Rattle.change_script.specs.Printed.{printed};
ghost use Rattle.change_script.specs.declared.reading.ScriptLine.{ScriptLine};
ghost use Rattle.change_script.specs.Reading.{HasKeyText, script_line_of, passed_names};

/// The script of old and new tables, both in order, takes the old ones to the new ones, and each of its lines
/// fits the tables that those before it leave.
#[tactic(auto, using(flow_law::proofs::ScriptLaw::script_makes, flow_law::proofs::ScriptLaw::script_fits))]
pub fn script_takes_old_to_new()
    ensures makes { (old new : TablesValue) → AreTables old → AreTables new → after_lines old (script old new) ≡ new }
    ensures fits { (old new : TablesValue) → AreTables old → AreTables new → IsTrue (fit_lines old (script old new)) }
{}

/// A table of a label that no line of the script names is the same in the old and the new tables.
pub fn unnamed_tables_stay()
    ensures { (old new : TablesValue) (label : Text) → AreTables old → AreTables new → is_in label (map label_of (script old new)) ≡ false → table_of old label ≡ table_of new label }
{}

/// A line whose key, where it has one, has a text is read from its printed row. A row that is read as a line is the
/// line's printed row. A row says nothing exactly where its first field is one of six names.
#[tactic(auto, using(crate::proofs::ReadingLemmas::line_read, crate::proofs::ReadingLemmas::line_printed, crate::proofs::ReadingLemmas::line_passed))]
pub fn printed_lines_are_read()
    ensures read { (line : TableLine) → HasKeyText line → script_line_of (printed line) ≡ Ok (ScriptLine.Change line) }
    ensures printed { (row : Row) (line : TableLine) → script_line_of row ≡ Ok (ScriptLine.Change line) → (printed line ≡ row) × HasKeyText line }
    ensures passed { (name : Text) (fields : Row) → (script_line_of (name ∷ fields) ≡ Ok ScriptLine.Passed) ↔ IsTrue (is_in name passed_names) }
{}
