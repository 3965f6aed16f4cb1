//! Why a view definition has no type.
use ss_text::{NoMemory, Text};
use std::alloc::AllocFailed;

/// The first refusal on the walk over declarations, header, numbers and terms.
#[derive(Debug, Drop, PartialEq, Eq)]
pub enum TypeFault {
    /// Two declarations of one variable.
    DeclaredTwice { var: Text },
    /// An identifier that is not declared, or not yet.
    NotDeclared { name: Text },
    /// An identifier of a kind that cannot stand there.
    WrongKind { name: Text },
    /// A second variable among the columns.
    TwoVariableColumns { var: Text },
    /// A tuple variable with a second variable in its attribute place.
    TwoFolds { var: Text },
    /// A constant column that stands earlier too.
    ColumnTwice { name: Text },
    /// Another number of columns than of terms.
    CountDiffers { columns: usize, terms: usize },
    /// No column is a constant.
    NoConstantColumn,
    /// The ninth declaration, or the fifth that is no alias and ranges over tuples or column values.
    TooMany { var: Text },
    /// The name of the view database or of the table is no legal table label.
    BadLabel { name: Text },
    NoMemory,
}

impl From<NoMemory> for TypeFault {
    ghost use Rattle.std.specs.Prelude.{◌≡◌};
    ghost use Rattle.var_typing.specs.declared.fault.TypeFault.TheVariants as fault;

    ghost from_gives = { λ _ e. e ≡ fault.NoMemory };

    fn from(_: NoMemory) -> Self {
        TypeFault::NoMemory
    }
}

impl<T: Drop> From<AllocFailed<T>> for TypeFault {
    ghost use Rattle.std.specs.Prelude.{◌≡◌};
    ghost use Rattle.var_typing.specs.declared.fault.TypeFault.TheVariants as fault;

    ghost from_gives = { λ _ e. e ≡ fault.NoMemory };

    fn from(_: AllocFailed<T>) -> Self {
        TypeFault::NoMemory
    }
}
