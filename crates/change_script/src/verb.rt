//! The first fields of printed lines.
ghost use Rattle.std.specs.Prelude.{◌≡◌};
ghost use Rattle.change_script.specs.Printed.{verb_name};
ghost use Rattle.change_script.specs.Reading.{verb_of};

use ss_text::Text;

const ALL: [Verb; 13] = [
    Verb::TableMinus,
    Verb::TablePlus,
    Verb::RowMinus,
    Verb::ColumnMinus,
    Verb::ColumnPlus,
    Verb::RowPlus,
    Verb::Cell,
    Verb::Done,
    Verb::Refused,
    Verb::Synced,
    Verb::Begun,
    Verb::Held,
    Verb::Aborted,
];

/// The first field of a printed line: the name of a line of a script, or of a line that says no change of a table.
#[derive(Clone, Copy, Debug, PartialEq, Eq)]
pub(crate) enum Verb {
    TableMinus,
    TablePlus,
    RowMinus,
    ColumnMinus,
    ColumnPlus,
    RowPlus,
    Cell,
    Done,
    Refused,
    Synced,
    Begun,
    Held,
    Aborted,
}

impl Verb {
    /// The verb that a text spells, if it spells one.
    pub(crate) fn of(text: &Text) -> Option<Verb>
        ensures { result ≡ verb_of text.now }
    {
        ALL.iter()
            .copied()
            .find(|verb| text.as_slice() == verb.name())
    }

    /// How it is spelled.
    pub(crate) fn name(self) -> &'static [u8]
        ensures { result.now ≡ verb_name self }
    {
        match self {
            Verb::TableMinus => b"table-",
            Verb::TablePlus => b"table+",
            Verb::RowMinus => b"row-",
            Verb::ColumnMinus => b"column-",
            Verb::ColumnPlus => b"column+",
            Verb::RowPlus => b"row+",
            Verb::Cell => b"cell",
            Verb::Done => b"done",
            Verb::Refused => b"refused",
            Verb::Synced => b"synced",
            Verb::Begun => b"begun",
            Verb::Held => b"held",
            Verb::Aborted => b"aborted",
        }
    }
}
