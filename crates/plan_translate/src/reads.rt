//! Whether a plan reads the rows of a relation where they are asked for.
ghost use Rattle.std.specs.Prelude.{◌≡◌};
ghost use Rattle.plan_translate.specs.Read.{same_relation, reads_rows};

use schema_delta::FlatSpec;
use view_def::{Place, Range};

// Whether the first range goes over the attributes of a relation, and the second over its rows.
fn same_relation(attributes: &Range, rows: &Range) -> bool
    ensures { result ≡ same_relation attributes.now rows.now }
{
    match (attributes, rows) {
        (
            Range::Attributes(Place::Fixed(database), Place::Fixed(relation)),
            Range::Tuples(Place::Fixed(other_database), Place::Fixed(other)),
        ) => database == other_database && relation == other,
        _ => false,
    }
}

/// Whether the attributes of a relation and then its rows are all that is asked of a catalogue. A change that moves the
/// attributes walks over the rows in any case, and no other asks for those that are kept.
pub(crate) fn reads_rows(specs: &[FlatSpec]) -> bool
    ensures { result ≡ reads_rows specs.now }
{
    match specs {
        [attributes, rows] => same_relation(&attributes.range, &rows.range),
        _ => false,
    }
}
