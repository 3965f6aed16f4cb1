//! What is asked of a catalogue for one declaration.
use ss_text::Row;
use view_def::Range;

/// A declaration's range, which is no alias; and for a tuple variable the attributes that are wanted of its row, and
/// whether the row is wanted once for each attribute, with its name and cell.
#[derive(Debug, Drop)]
pub struct FlatSpec {
    pub range: Range,
    pub wanted: Row,
    pub folded: bool,
}
