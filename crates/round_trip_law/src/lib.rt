//! What is kept where data are read in another form and back: laws without code.
//!
//! Its contract: the names in a relation stand as values, as columns or as tables; of the views from one of these forms to
//! another it says when one is refused, and what a view back has. It knows nothing of how a view is evaluated or kept.
#![tactic(auto)]

ghost use Rattle.round_trip_law.specs.Law.{FormsAreViews, ValuesAreMade, TablesKeepRows, ColumnsKeepValues, ValuesKeepTexts, ThroughValues};

/// The language has a view from each form to each, and one to values is never refused. Values that become tables have all
/// rows when they are read back, those that become columns all rows with a value, and columns that become values all their
/// texts. A view between columns and tables is the one through values.
pub fn forms_keep()
    ensures views { FormsAreViews }
    ensures values { ValuesAreMade }
    ensures by_tables { TablesKeepRows }
    ensures by_columns { ColumnsKeepValues }
    ensures by_values { ValuesKeepTexts }
    ensures through_values { ThroughValues }
{}
